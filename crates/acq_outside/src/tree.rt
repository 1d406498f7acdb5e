//! Files that are served, as the rest of the program asks for them.
ghost use Rattle.std.specs.Prelude.{◌≡◌, ℕ, ◌≤◌, Option, IfOk, IfSome, length, option_map};
ghost use Rattle.acq_outside.specs.Frame.{LooksBy};
ghost use Rattle.acq_outside.specs.Disk.{IsRead};
ghost use Rattle.acq_outside.specs.Tree.{TreeFiles, file_at};

use crate::Fault;
use acq_base::Text;

/// Files that are served, by path. A path is taken as it stands: nothing in it is decoded. No call changes the files.
pub trait Tree: Drop {
    /// How often it failed.
    ghost faults: { Self → ℕ };

    /// Its plain files, where it tells them.
    ghost files: { Self → Option TreeFiles };

    /// A file's length in bytes, `None` for anything but a plain file.
    fn size(&mut self, path: &Text) -> Result<Option<u64>, Fault>
        ensures frame { LooksBy faults files self.old self.new result }
        ensures told { IfSome (files self.old) (λ all. IfOk result (λ size. size ≡ option_map length (file_at all path.now))) };

    /// Reads bytes of a file into the front of `out` and answers how many: 0 only at or past the end, for an absent
    /// file, or for an empty `out`.
    fn read_at(&mut self, path: &Text, at: u64, out: &mut [u8]) -> Result<usize, Fault>
        ensures frame { LooksBy faults files self.old self.new result }
        ensures within { IfOk result (λ n. n ≤ length out.old) }
        ensures told { IfSome (files self.old) (λ all. IfOk result (λ n. IsRead (file_at all path.now) at n out.old out.new)) };
}
