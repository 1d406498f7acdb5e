//! Connections in memory that peers made: what these say is a script.
ghost use Rattle.std.specs.Prelude.{◌≡◌, ℕ, ◌++◌, List, OnErr, OnOk, reverse};
ghost use Rattle.acq_net.specs.Talks.{on_first};

use crate::Port;
use crate::calls::Calls;
use crate::script::{FromPeer, Script};
use acq_base::{Bytes, NoMemory, Row};
use acq_outside::Fault;
use std::alloc::Global;
use std::mem;

/// A port whose peers say what a script has, piece by piece. The next peer is there as soon as it is waited for. A closed
/// connection stays the latest one, to which what is sent and received still goes.
#[derive(Debug, Drop)]
pub struct MemPort {
    alloc: Global,
    script: Script,
    /// The port number at which it listens, if it does.
    at: Option<u16>,
    /// The bytes sent on each accepted connection, oldest first.
    sent: Row<Bytes>,
    /// What was heard on the latest of them, if there is one.
    heard: FromPeer,
    /// What was heard on those before it, oldest first.
    former: Vec<FromPeer>,
    lost: u64,
    calls: Calls,
}

impl MemPort {
    ghost use Rattle.std.specs.Prelude.{◌≡◌, [], MatchResult, None, map, reverse};
    ghost use Rattle.acq_outside.specs.Count.{one_more};
    ghost use Rattle.acq_net.specs.Calls.{CountsOne, fresh_calls};
    ghost use Rattle.acq_net.specs.MemPort.{at_of, calls_of, lost_of, script_of, talks_of};
    ghost use Rattle.acq_net.specs.Script.{to_come, waiting};
    ghost use Rattle.acq_net.specs.Talks.{accepts};

    /// A port at which the n-th call of `accept` takes the n-th row of pieces; the rows past the last are empty. `failing`
    /// holds the numbers of its calls of `listen`, `accept`, `receive` and `send` that are to fail, counted together from 1.
    /// An `accept` where it doesn't listen is a fault too, and so is a `receive` or `send` before any connection. The row of
    /// an `accept` that fails is passed over.
    pub fn new(alloc: Global, connections: Row<Row<Bytes>>, failing: Row<u64>) -> MemPort
        ensures talks { talks_of result ≡ [] }
        ensures lost { lost_of result ≡ 0 }
        ensures at { at_of result ≡ None }
        ensures calls { calls_of result ≡ fresh_calls failing }
        ensures to_come { to_come (script_of result) ≡ [] }
        ensures waiting { waiting (script_of result) ≡ connections }
    {
        MemPort {
            alloc,
            script: Script::new(alloc, connections),
            at: None,
            sent: Row::new(alloc),
            heard: FromPeer::new(alloc),
            former: Vec::new(alloc),
            lost: 0,
            calls: Calls::new(failing),
        }
    }

    /// The bytes that were sent on each accepted connection, oldest first.
    #[tactic(auto, using(crate::proofs::MemTalks::sent_on))]
    pub fn sent(&self) -> &Row<Bytes>
        ensures { result.now ≡ reverse (map (λ talk. talk.sent) (talks_of self.now)) }
    {
        &self.sent
    }

    /// How often it failed.
    pub fn faults(&self) -> u64
        ensures { result ≡ (calls_of self.now).faults }
    {
        self.calls.faults
    }

    /// How often it couldn't listen or accept.
    pub fn lost(&self) -> u64
        ensures { result ≡ lost_of self.now }
    {
        self.lost
    }

    /// How many of its faults were for want of memory.
    pub fn dry(&self) -> u64
        ensures { result ≡ (calls_of self.now).dry }
    {
        self.calls.dry
    }

    /// Begins a connection on which nothing was said.
    #[tactic(auto, using(crate::proofs::MemTalks::accepted_on))]
    fn begin(&mut self) -> Result<(), NoMemory>
        ensures talks { MatchResult result (λ _. talks_of self.new ≡ accepts (talks_of self.old)) (λ _. talks_of self.new ≡ talks_of self.old) }
        ensures lost { lost_of self.new ≡ lost_of self.old }
        ensures at { at_of self.new ≡ at_of self.old }
        ensures calls { calls_of self.new ≡ calls_of self.old }
        ensures script { script_of self.new ≡ script_of self.old }
    {
        self.former.reserve(1)?;
        self.sent.push(Bytes::new(self.alloc))?;
        let former = mem::replace(&mut self.heard, FromPeer::new(self.alloc));
        self.former.push_reserved(former);
        Ok(())
    }

    /// Passes over the peer that wasn't accepted.
    fn refuse(&mut self) -> Fault
        ensures talks { talks_of self.new ≡ talks_of self.old }
        ensures lost { lost_of self.new ≡ one_more (lost_of self.old) }
        ensures frame { CountsOne (lost_of self.old) (lost_of self.new) }
        ensures at { at_of self.new ≡ at_of self.old }
        ensures calls { calls_of self.new ≡ calls_of self.old }
        ensures to_come { to_come (script_of self.new) ≡ [] }
        ensures waiting { waiting (script_of self.new) ≡ waiting (script_of self.old) }
    {
        self.script.pass_over();
        self.lost = self.lost.saturating_add(1);
        Fault
    }
}

impl Port for MemPort {
    ghost use Rattle.std.specs.Prelude.{◌≡◌, ◌<◌, ◌≤◌, ◌++◌, [], length, min, take, None, Some, IfOk, IsSome, IsTrue, OnOk, OnErr, is_err};
    ghost use Rattle.acq_net.specs.Calls.{FailsAsListed, FailsDryAlone, FailsUnconnected, counted, is_listed};
    ghost use Rattle.acq_net.specs.MemPort.{at_of, calls_of, faults_of, lost_by, lost_of, script_of, talks_of, told_talks};
    ghost use Rattle.acq_net.specs.PortFrame.{AcceptsBy, AwaitsBy, ClosesBy, ConversesBy};
    ghost use Rattle.acq_net.specs.Script.{bytes_of, first_of, later_of, next_piece, to_come, waiting};
    ghost use Rattle.acq_net.specs.Talk.{receives, sends};
    ghost use Rattle.acq_net.specs.Talks.{ReceivesPartOfLatest, SendsPartOfLatest, accepts, on_first};

    ghost faults = { faults_of };

    ghost lost = { lost_of };

    ghost at = { at_of };

    ghost talks = { told_talks };

    fn listen(&mut self, port: u16) -> Result<(), Fault>
        ensures frame { AwaitsBy faults_of lost_of self.old self.new result }
        ensures at { OnOk result (at_of self.new ≡ Some port) }
        ensures nowhere { OnErr result (at_of self.new ≡ None) }
        ensures same { told_talks self.new ≡ told_talks self.old }

        // A listed call fails, and no other one does.
        ensures script { script_of self.new ≡ script_of self.old }
        ensures listed { is_err result ≡ is_listed (calls_of self.old) }
        ensures counted { calls_of self.new ≡ counted (calls_of self.old) }
        ensures lost { lost_of self.new ≡ lost_by result (lost_of self.old) }
    {
        match self.calls.call() {
            Ok(()) => {
                self.at = Some(port);
                Ok(())
            }
            Err(fault) => {
                self.at = None;
                self.lost = self.lost.saturating_add(1);
                Err(fault)
            }
        }
    }

    fn accept(&mut self) -> Result<(), Fault>
        ensures frame { AcceptsBy faults_of lost_of at_of self.old self.new result }
        ensures listens { OnOk result (IsSome (at_of self.old)) }
        ensures accepted { OnOk result (told_talks self.new ≡ Some (accepts (talks_of self.old))) }
        ensures none { OnErr result (told_talks self.new ≡ told_talks self.old) }

        // The peer of each connection has the next row, which is passed over where the call fails. A listed call fails, and
        // another one where it doesn't listen or for want of memory alone.
        ensures to_come { OnOk result (to_come (script_of self.new) ≡ bytes_of (first_of (waiting (script_of self.old)))) }
        ensures passed_over { OnErr result (to_come (script_of self.new) ≡ []) }
        ensures waiting { waiting (script_of self.new) ≡ later_of (waiting (script_of self.old)) }
        ensures listed { FailsAsListed (calls_of self.old) (calls_of self.new) result }
        ensures nowhere { at_of self.old ≡ None → FailsUnconnected (calls_of self.old) (calls_of self.new) result }
        ensures others { IsSome (at_of self.old) → FailsDryAlone (calls_of self.old) (calls_of self.new) result }
        ensures lost { lost_of self.new ≡ lost_by result (lost_of self.old) }
    {
        self.script.next_connection();
        if self.calls.call().is_err() {
            return Err(self.refuse());
        }
        if self.at.is_none() {
            self.calls.fail_unconnected();
            return Err(self.refuse());
        }
        match self.begin() {
            Ok(()) => Ok(()),
            Err(NoMemory) => {
                self.calls.run_dry();
                Err(self.refuse())
            }
        }
    }

    #[tactic(auto, using(crate::proofs::MemTalks::heard_on, crate::proofs::MemTalks::length_said))]
    fn receive(&mut self, out: &mut [u8]) -> Result<usize, Fault>
        requires { 0 < length out.old }

        ensures frame { ConversesBy faults_of lost_of at_of self.old self.new result }
        ensures opened { OnOk result (0 < length (talks_of self.old)) }

        ensures within { IfOk result (λ n. n ≤ length out.old) }
        ensures room { length out.new ≡ length out.old }
        ensures received { IfOk result (λ n. told_talks self.new ≡ Some (on_first (receives (take n out.new)) (talks_of self.old))) }
        ensures part { OnErr result (ReceivesPartOfLatest (told_talks self.old) (told_talks self.new)) }

        // The bytes come in order, as many of one piece as there is room for, and the end behind the last of them. A listed
        // call fails, and another one for want of a connection or of memory alone. The peers to come keep their rows, and
        // only want of memory may take bytes of this one.
        ensures to_come { IfOk result (λ n. to_come (script_of self.old) ≡ take n out.new ++ to_come (script_of self.new)) }
        ensures ended { IfOk result (λ n. n ≡ 0 → to_come (script_of self.old) ≡ []) }
        ensures piece { IfOk result (λ n. n ≡ min (length (next_piece (script_of self.old))) (length out.old)) }
        ensures waiting { waiting (script_of self.new) ≡ waiting (script_of self.old) }
        ensures kept { IsTrue (is_listed (calls_of self.old)) → script_of self.new ≡ script_of self.old }
        ensures kept_unaccepted { talks_of self.old ≡ [] → script_of self.new ≡ script_of self.old }
        ensures listed { FailsAsListed (calls_of self.old) (calls_of self.new) result }
        ensures unaccepted { talks_of self.old ≡ [] → FailsUnconnected (calls_of self.old) (calls_of self.new) result }
        ensures others { 0 < length (talks_of self.old) → FailsDryAlone (calls_of self.old) (calls_of self.new) result }
    {
        self.calls.call()?;
        if self.sent.is_empty() {
            return Err(self.calls.fail_unconnected());
        }
        match self.script.say(&mut self.heard, out) {
            Ok(n) => Ok(n),
            Err(NoMemory) => Err(self.calls.run_dry()),
        }
    }

    #[tactic(auto, using(crate::proofs::MemTalks::said_on_first, crate::proofs::MemTalks::length_said))]
    fn send(&mut self, bytes: &[u8]) -> Result<(), Fault>
        ensures frame { ConversesBy faults_of lost_of at_of self.old self.new result }
        ensures opened { OnOk result (0 < length (talks_of self.old)) }
        ensures sent { OnOk result (told_talks self.new ≡ Some (on_first (sends bytes.now) (talks_of self.old))) }
        ensures part { OnErr result (SendsPartOfLatest bytes.now (told_talks self.old) (told_talks self.new)) }

        // A listed call fails, and another one for want of a connection or of memory alone.
        ensures script { script_of self.new ≡ script_of self.old }
        ensures listed { FailsAsListed (calls_of self.old) (calls_of self.new) result }
        ensures unaccepted { talks_of self.old ≡ [] → FailsUnconnected (calls_of self.old) (calls_of self.new) result }
        ensures others { 0 < length (talks_of self.old) → FailsDryAlone (calls_of self.old) (calls_of self.new) result }
    {
        self.calls.call()?;
        if self.sent.is_empty() {
            return Err(self.calls.fail_unconnected());
        }
        let mut rows = mem::replace(&mut self.sent, Row::new(self.alloc)).into_vec();
        let appended = append_to_last(&mut rows, bytes);
        self.sent = Row::from(rows);
        match appended {
            Ok(()) => Ok(()),
            Err(NoMemory) => Err(self.calls.run_dry()),
        }
    }

    fn close(&mut self)
        ensures frame { ClosesBy faults_of lost_of at_of told_talks self.old self.new }

        // The peer keeps what it has still to say.
        ensures script { script_of self.new ≡ script_of self.old }
        ensures calls { calls_of self.new ≡ calls_of self.old }
    {}
}

/// Appends bytes to the last of some rows, if there is one.
fn append_to_last(rows: &mut Vec<Bytes>, bytes: &[u8]) -> Result<(), NoMemory>
    ensures appended { OnOk result (reverse rows.new.items ≡ on_first (λ (row : List ℕ). row ++ bytes.now) (reverse rows.old.items)) }
    ensures same { OnErr result (rows.new.items ≡ rows.old.items) }
{
    match rows.last_mut() {
        Some(last) => last.append(bytes),
        None => Ok(()),
    }
}
