//! A connection to a peer, as the rest of the program asks for it.
ghost use Rattle.std.specs.Prelude.{◌≡◌, ◌≢◌, ℕ, ◌<◌, ◌≤◌, Bool, true, false, length, take, Option, Some, option_map, is_ok, IfOk, IfSome, OnOk, OnErr};
ghost use Rattle.acq_outside.specs.Count.{Rose};
ghost use Rattle.acq_base.specs.Mirror.{MirrorMap};
ghost use Rattle.acq_net.specs.Due.{Came, Due, Owes, fresh};
ghost use Rattle.acq_net.specs.LinkFrame.{LeavesBy, ListensBy, OpensBy, SaysBy};
ghost use Rattle.acq_net.specs.Talk.{ReceivesPart, SendsPart, Talk, receives, sends, silent};

use acq_base::Text;
use acq_outside::Fault;

/// One connection at a time to an HTTP peer.
///
/// A link may stand for a mirror. Then each request that is sent to its host and port, one at a time, makes the mirror's
/// answer due, as a response; what is received are its bytes in order, and the peer's end comes only behind them.
pub trait Link: Drop {
    /// How often it failed.
    ghost faults: { Self → ℕ };

    /// How often `connect` was called.
    ghost made: { Self → ℕ };

    /// How often a peer's end was heard.
    ghost ends: { Self → ℕ };

    /// Whether the present connection is open: `connect` that is Ok makes it so; `close`, a failed call and the peer's end
    /// make it not.
    ghost opened: { Self → Bool };

    /// Whether a byte was received since the last `send` on the present connection.
    ghost answered: { Self → Bool };

    /// What was said on the present connection, where it tells.
    ghost talk: { Self → Option Talk };

    /// What was said on the connection before it, where it tells.
    ghost former: { Self → Option Talk };

    /// The mirror that it stands for, where it stands for one.
    ghost world: { Self → Option MirrorMap };

    /// What is due on the present connection, where it stands for a mirror and nothing was sent that may not be.
    ghost due: { Self → Option Due };

    /// Opens a connection to a host's port. A former one is closed first.
    fn connect(&mut self, host: &Text, port: u16) -> Result<(), Fault>
        ensures frame { OpensBy faults ends world self.old self.new result }

        ensures made { Rose (made self.old) (made self.new) }
        ensures made_count { made self.old ≤ made self.new }
        ensures opened { opened self.new ≡ is_ok result }
        ensures unanswered { answered self.new ≡ false }
        ensures fresh { talk self.new ≡ option_map (λ _. silent) (talk self.old) }
        ensures former { former self.new ≡ talk self.old }
        ensures due { OnOk result (IfSome (world self.old) (λ _. due self.new ≡ Some (fresh host.now port))) };

    /// Sends all of these bytes.
    fn send(&mut self, bytes: &[u8]) -> Result<(), Fault>
        ensures frame { SaysBy faults made ends former world self.old self.new result }

        ensures opened { OnOk result (opened self.new ≡ opened self.old) }
        ensures closed { OnErr result (opened self.new ≡ false) }
        ensures unanswered { answered self.new ≡ false }
        ensures sent { OnOk result (talk self.new ≡ option_map (sends bytes.now) (talk self.old)) }
        ensures part { OnErr result (SendsPart bytes.now (talk self.old) (talk self.new)) }
        ensures owes { OnOk result (IfSome (world self.old) (λ entries. Owes entries bytes.now (due self.old) (due self.new))) };

    /// Receives bytes into the front of `out` and answers how many: 0 only where the peer has ended.
    fn receive(&mut self, out: &mut [u8]) -> Result<usize, Fault>
        requires { 0 < length out.old }

        ensures frame { ListensBy faults made ends former world answered self.old self.new result }

        ensures ends { IfOk result (λ n. n ≡ 0 → Rose (ends self.old) (ends self.new)) }
        ensures goes_on { IfOk result (λ n. n ≢ 0 → ends self.new ≡ ends self.old) }
        ensures failed { OnErr result (ends self.new ≡ ends self.old) }
        ensures opened { IfOk result (λ n. n ≢ 0 → opened self.new ≡ opened self.old) }
        ensures over { IfOk result (λ n. n ≡ 0 → opened self.new ≡ false) }
        ensures closed { OnErr result (opened self.new ≡ false) }
        ensures answered { IfOk result (λ n. n ≢ 0 → answered self.new ≡ true) }
        ensures unanswered { IfOk result (λ n. n ≡ 0 → answered self.new ≡ answered self.old) }
        ensures within { IfOk result (λ n. n ≤ length out.old) }
        ensures room { length out.new ≡ length out.old }
        ensures received { IfOk result (λ n. talk self.new ≡ option_map (receives (take n out.new)) (talk self.old)) }
        ensures part { OnErr result (ReceivesPart (talk self.old) (talk self.new)) }
        ensures came { IfOk result (λ n. IfSome (due self.old) (λ one. Came (take n out.new) one (due self.new))) };

    /// Closes the connection, if there is one. What was said on it stays as it was.
    fn close(&mut self)
        ensures frame { LeavesBy faults made ends talk former world due answered self.old self.new }
        ensures closed { opened self.new ≡ false };
}
