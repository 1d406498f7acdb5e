//! Connections that peers make, as a server asks for them.
ghost use Rattle.std.specs.Prelude.{◌≡◌, ℕ, ◌<◌, ◌≤◌, List, length, take, Option, None, Some, option_map, IfOk, IfSome, IsSome, OnOk, OnErr};
ghost use Rattle.acq_net.specs.PortFrame.{AcceptsBy, AwaitsBy, ClosesBy, ConversesBy};
ghost use Rattle.acq_net.specs.Talk.{Talk, receives, sends};
ghost use Rattle.acq_net.specs.Talks.{ReceivesPartOfLatest, SendsPartOfLatest, accepts, on_first};

use acq_outside::Fault;

/// The connections that peers make to this program, one at a time.
///
/// The row of what was said on them has the latest first. What is sent and received goes to the latest one, and leaves
/// what was said on the others.
pub trait Port: Drop {
    /// How often it failed.
    ghost faults: { Self → ℕ };

    /// How often it couldn't listen or accept.
    ghost lost: { Self → ℕ };

    /// The number of the port at which it listens, if it does.
    ghost at: { Self → Option ℕ };

    /// What was said on each connection that it accepted, the latest first, where it tells.
    ghost talks: { Self → Option (List Talk) };

    /// Takes connections at a port of this machine from now on. They wait until they are accepted. A former port is given up
    /// first, so after a fault it listens nowhere.
    fn listen(&mut self, port: u16) -> Result<(), Fault>
        ensures frame { AwaitsBy faults lost self.old self.new result }
        ensures at { OnOk result (at self.new ≡ Some port) }
        ensures nowhere { OnErr result (at self.new ≡ None) }
        ensures same { talks self.new ≡ talks self.old };

    /// Waits for the next connection, and opens it. A former one is closed first. Where it doesn't listen it is a fault.
    fn accept(&mut self) -> Result<(), Fault>
        ensures frame { AcceptsBy faults lost at self.old self.new result }
        ensures listens { OnOk result (IsSome (at self.old)) }
        ensures accepted { OnOk result (talks self.new ≡ option_map accepts (talks self.old)) }
        ensures none { OnErr result (talks self.new ≡ talks self.old) };

    /// Receives bytes into the front of `out` and answers how many: 0 only where the peer has ended. Where no connection
    /// was accepted it is a fault.
    fn receive(&mut self, out: &mut [u8]) -> Result<usize, Fault>
        requires { 0 < length out.old }

        ensures frame { ConversesBy faults lost at self.old self.new result }
        ensures opened { OnOk result (IfSome (talks self.old) (λ told. 0 < length told)) }

        ensures within { IfOk result (λ n. n ≤ length out.old) }
        ensures room { length out.new ≡ length out.old }
        ensures received { IfOk result (λ n. talks self.new ≡ option_map (on_first (receives (take n out.new))) (talks self.old)) }
        ensures part { OnErr result (ReceivesPartOfLatest (talks self.old) (talks self.new)) };

    /// Sends all of these bytes. Where no connection was accepted it is a fault.
    fn send(&mut self, bytes: &[u8]) -> Result<(), Fault>
        ensures frame { ConversesBy faults lost at self.old self.new result }
        ensures opened { OnOk result (IfSome (talks self.old) (λ told. 0 < length told)) }
        ensures sent { OnOk result (talks self.new ≡ option_map (on_first (sends bytes.now)) (talks self.old)) }
        ensures part { OnErr result (SendsPartOfLatest bytes.now (talks self.old) (talks self.new)) };

    /// Closes the connection, if there is one. What was said on it stays as it was.
    fn close(&mut self)
        ensures frame { ClosesBy faults lost at talks self.old self.new };
}
