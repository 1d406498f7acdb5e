//! Files that a call writes, as the rest of the program asks for them.
ghost use Rattle.std.specs.Prelude.{ℕ, Option, IfSome, OnOk, OnErr};
ghost use Rattle.acq_outside.specs.Disk.{Files as FilesByName};
ghost use Rattle.acq_outside.specs.Files.{CanPut, Put, PutPart};
ghost use Rattle.acq_outside.specs.Frame.{Counts};

use crate::Fault;
use acq_base::Text;

/// Files that are written, by name. A name is taken as it stands: nothing in it is decoded.
pub trait Files: Drop {
    /// How often it failed.
    ghost faults: { Self → ℕ };

    /// Its files, where it tells them.
    ghost files: { Self → Option FilesByName };

    /// Writes bytes to a file from a place on: at 0, where the file is made or emptied first, or at its end. Real files
    /// have no condition that says so, but expect it: the place is 0, or the length that puts of this run gave the
    /// file. After a fault the file is as it was, or a prefix of the bytes is written. No other file changes.
    fn put(&mut self, name: &Text, at: u64, bytes: &[u8]) -> Result<(), Fault>
        requires { IfSome (files self.old) (λ all. CanPut all name.now at) }
        ensures frame { Counts (faults self.old) (faults self.new) result }
        ensures ok { OnOk result (Put (files self.old) name.now at bytes.now (files self.new)) }
        ensures err { OnErr result (PutPart (files self.old) name.now at bytes.now (files self.new)) };
}
