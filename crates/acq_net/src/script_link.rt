//! Connections in memory: what their peers say is a script.

use crate::Link;
use crate::calls::Calls;
use crate::script::{FromPeer, Script};
use acq_base::{Bytes, NoMemory, Row, Text};
use acq_outside::Fault;
use std::alloc::Global;
use std::mem;

/// What is said on a connection.
#[derive(Debug, Drop)]
struct Conversation {
    sent: Bytes,
    heard: FromPeer,
}

impl Conversation {
    ghost use Rattle.std.specs.Prelude.{◌≡◌};
    ghost use Rattle.acq_net.specs.ScriptLink.{said};
    ghost use Rattle.acq_net.specs.Talk.{silent};

    /// Nothing was said yet.
    fn new(alloc: Global) -> Conversation
        ensures { said result ≡ silent }
    {
        Conversation {
            sent: Bytes::new(alloc),
            heard: FromPeer::new(alloc),
        }
    }
}

/// A link whose peers say what a script has, piece by piece.
#[derive(Debug, Drop)]
pub struct ScriptLink {
    alloc: Global,
    script: Script,
    talk: Conversation,
    /// What was said on the connection before.
    former: Conversation,
    /// Whether the connection is open.
    opened: bool,
    /// Whether a byte was received since the last `send`.
    answered: bool,
    made: u64,
    ends: u64,
    calls: Calls,
}

impl ScriptLink {
    ghost use Rattle.std.specs.Prelude.{◌≡◌, [], false};
    ghost use Rattle.acq_net.specs.Calls.{fresh_calls};
    ghost use Rattle.acq_net.specs.Script.{to_come, waiting};
    ghost use Rattle.acq_net.specs.ScriptLink.{talk_of, former_of, made_of, ends_of, opened_of, calls_of, script_of};
    ghost use Rattle.acq_net.specs.Talk.{silent};

    /// A link whose n-th connection has the n-th row of pieces; the rows past the last are empty. `failing` holds the
    /// numbers of its calls of `connect`, `send` and `receive` that are to fail, counted together from 1.
    pub fn new(alloc: Global, connections: Row<Row<Bytes>>, failing: Row<u64>) -> ScriptLink
        ensures talk { talk_of result ≡ silent }
        ensures former { former_of result ≡ silent }
        ensures made { made_of result ≡ 0 }
        ensures ends { ends_of result ≡ 0 }
        ensures opened { opened_of result ≡ false }
        ensures calls { calls_of result ≡ fresh_calls failing }
        ensures to_come { to_come (script_of result) ≡ [] }
        ensures waiting { waiting (script_of result) ≡ connections }
    {
        ScriptLink {
            alloc,
            script: Script::new(alloc, connections),
            talk: Conversation::new(alloc),
            former: Conversation::new(alloc),
            opened: false,
            answered: false,
            made: 0,
            ends: 0,
            calls: Calls::new(failing),
        }
    }

    /// How often `connect` was called.
    pub fn made(&self) -> u64
        ensures { result ≡ made_of self.now }
    {
        self.made
    }

    /// The bytes that were sent on the present connection.
    pub fn sent(&self) -> &Bytes
        ensures { result.now ≡ (talk_of self.now).sent }
    {
        &self.talk.sent
    }

    /// How often it failed.
    pub fn faults(&self) -> u64
        ensures { result ≡ (calls_of self.now).faults }
    {
        self.calls.faults
    }

    /// How many of its faults were for want of memory.
    pub fn dry(&self) -> u64
        ensures { result ≡ (calls_of self.now).dry }
    {
        self.calls.dry
    }
}

impl Link for ScriptLink {
    ghost use Rattle.std.specs.Prelude.{◌≡◌, ◌≢◌, ◌<◌, ◌≤◌, ◌++◌, [], true, false, length, min, take, None, Some, IfOk, IsTrue, OnOk, OnErr, is_err, is_ok};
    ghost use Rattle.acq_outside.specs.Count.{Rose};
    ghost use Rattle.acq_net.specs.LinkFrame.{LeavesBy, ListensBy, OpensBy, SaysBy};
    ghost use Rattle.acq_net.specs.Talk.{ReceivesPart, SendsPart, receives, sends, silent};
    ghost use Rattle.acq_net.specs.Calls.{FailsAsListed, FailsDryAlone, counted, is_listed};
    ghost use Rattle.acq_net.specs.Script.{bytes_of, first_of, later_of, next_piece, to_come, waiting};
    ghost use Rattle.acq_net.specs.ScriptLink.{talk_of, former_of, told_former, made_of, ends_of, opened_of, answered_of, calls_of, faults_of, script_of};

    ghost faults = { faults_of };

    ghost made = { made_of };

    ghost ends = { ends_of };

    ghost opened = { opened_of };

    ghost answered = { answered_of };

    ghost talk = { λ link. Some (talk_of link) };

    ghost former = { told_former };

    ghost world = { λ _. None };

    ghost due = { λ _. None };

    fn connect(&mut self, _host: &Text, _port: u16) -> Result<(), Fault>
        ensures frame { OpensBy faults_of ends_of (λ _. None) self.old self.new result }

        ensures made { Rose (made_of self.old) (made_of self.new) }
        ensures made_count { made_of self.old ≤ made_of self.new }
        ensures opened { opened_of self.new ≡ is_ok result }
        ensures unanswered { answered_of self.new ≡ false }
        ensures fresh { Some (talk_of self.new) ≡ Some silent }
        ensures former { Some (former_of self.new) ≡ Some (talk_of self.old) }

        // The peer of each connection has the next row. A listed call fails, and no other one does.
        ensures to_come { to_come (script_of self.new) ≡ bytes_of (first_of (waiting (script_of self.old))) }
        ensures waiting { waiting (script_of self.new) ≡ later_of (waiting (script_of self.old)) }
        ensures listed { is_err result ≡ is_listed (calls_of self.old) }
        ensures counted { calls_of self.new ≡ counted (calls_of self.old) }
    {
        self.made = self.made.saturating_add(1);
        self.former = mem::replace(&mut self.talk, Conversation::new(self.alloc));
        self.script.next_connection();
        self.answered = false;
        let done = self.calls.call();
        self.opened = done.is_ok();
        done
    }

    fn send(&mut self, bytes: &[u8]) -> Result<(), Fault>
        ensures frame { SaysBy faults_of made_of ends_of told_former (λ _. None) self.old self.new result }

        ensures opened { OnOk result (opened_of self.new ≡ opened_of self.old) }
        ensures closed { OnErr result (opened_of self.new ≡ false) }
        ensures unanswered { answered_of self.new ≡ false }
        ensures sent { OnOk result (Some (talk_of self.new) ≡ Some (sends bytes.now (talk_of self.old))) }
        ensures part { OnErr result (SendsPart bytes.now (Some (talk_of self.old)) (Some (talk_of self.new))) }

        // A listed call fails, and another one for want of memory alone.
        ensures script { script_of self.new ≡ script_of self.old }
        ensures listed { FailsAsListed (calls_of self.old) (calls_of self.new) result }
        ensures others { FailsDryAlone (calls_of self.old) (calls_of self.new) result }
    {
        self.answered = false;
        if self.calls.call().is_err() {
            self.opened = false;
            return Err(Fault);
        }
        match self.talk.sent.append(bytes) {
            Ok(()) => Ok(()),
            Err(NoMemory) => {
                self.opened = false;
                Err(self.calls.run_dry())
            }
        }
    }

    fn receive(&mut self, out: &mut [u8]) -> Result<usize, Fault>
        requires { 0 < length out.old }

        ensures frame { ListensBy faults_of made_of ends_of told_former (λ _. None) answered_of self.old self.new result }

        ensures ends { IfOk result (λ n. n ≡ 0 → Rose (ends_of self.old) (ends_of self.new)) }
        ensures goes_on { IfOk result (λ n. n ≢ 0 → ends_of self.new ≡ ends_of self.old) }
        ensures failed { OnErr result (ends_of self.new ≡ ends_of self.old) }
        ensures opened { IfOk result (λ n. n ≢ 0 → opened_of self.new ≡ opened_of self.old) }
        ensures over { IfOk result (λ n. n ≡ 0 → opened_of self.new ≡ false) }
        ensures closed { OnErr result (opened_of self.new ≡ false) }
        ensures answered { IfOk result (λ n. n ≢ 0 → answered_of self.new ≡ true) }
        ensures unanswered { IfOk result (λ n. n ≡ 0 → answered_of self.new ≡ answered_of self.old) }
        ensures within { IfOk result (λ n. n ≤ length out.old) }
        ensures room { length out.new ≡ length out.old }
        ensures received { IfOk result (λ n. Some (talk_of self.new) ≡ Some (receives (take n out.new) (talk_of self.old))) }
        ensures part { OnErr result (ReceivesPart (Some (talk_of self.old)) (Some (talk_of self.new))) }

        // The bytes come in order, as many of one piece as there is room for, and the end behind the last of them. A listed
        // call fails, and another one for want of memory alone. The peers to come keep their rows, and only want of memory
        // may take bytes of this one.
        ensures to_come { IfOk result (λ n. to_come (script_of self.old) ≡ take n out.new ++ to_come (script_of self.new)) }
        ensures ended { IfOk result (λ n. n ≡ 0 → to_come (script_of self.old) ≡ []) }
        ensures piece { IfOk result (λ n. n ≡ min (length (next_piece (script_of self.old))) (length out.old)) }
        ensures waiting { waiting (script_of self.new) ≡ waiting (script_of self.old) }
        ensures kept { IsTrue (is_listed (calls_of self.old)) → script_of self.new ≡ script_of self.old }
        ensures listed { FailsAsListed (calls_of self.old) (calls_of self.new) result }
        ensures others { FailsDryAlone (calls_of self.old) (calls_of self.new) result }
    {
        if self.calls.call().is_err() {
            self.opened = false;
            return Err(Fault);
        }
        match self.script.say(&mut self.talk.heard, out) {
            Ok(0) => {
                self.ends = self.ends.saturating_add(1);
                self.opened = false;
                Ok(0)
            }
            Ok(n) => {
                self.answered = true;
                Ok(n)
            }
            Err(NoMemory) => {
                self.opened = false;
                Err(self.calls.run_dry())
            }
        }
    }

    fn close(&mut self)
        ensures frame { LeavesBy faults_of made_of ends_of (λ link. Some (talk_of link)) told_former (λ _. None) (λ _. None) answered_of self.old self.new }
        ensures closed { opened_of self.new ≡ false }

        // The peer keeps what it has still to say.
        ensures script { script_of self.new ≡ script_of self.old }
        ensures calls { calls_of self.new ≡ calls_of self.old }
    {
        self.opened = false;
    }
}
