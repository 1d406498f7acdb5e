//! The lists folder, as the rest of the program asks for it.
ghost use Rattle.std.specs.Prelude.{◌≡◌, ℕ, ◌<◌, ◌≤◌, ◌^◌, [], Bool, All, List, IsTrue, length, Option, IfOk, OnOk, OnErr, IsSomeAnd, option_map, unwrap_or};
ghost use Rattle.acq_outside.specs.Crash.{State, Goes, AllSound, IsShown};
ghost use Rattle.acq_outside.specs.Disk.{Files, IsName, IsNames, IsRead, IsTornWrite, IsTornCut, IsDoneOrNot, after_write, after_cut, after_rename, after_remove};
ghost use Rattle.acq_outside.specs.Frame.{CountsOnly, StaysBy, ReadsBy, ReadsCountingBy};

use crate::change::DiskCall;
use crate::{Fault, HoldError, OutError};
use acq_base::{Row, Text};
use std::alloc::Global;

/// The lists folder. A name is UTF-8 of 1 to 255 bytes; one that begins with `partial/` lies in the folder of that name.
///
/// What a call does to the files is said where the disk tells them: a real disk doesn't. Beside what reads give, `step`
/// says what the call leaves to a crash: a changing call that is done adds a state, and a crash within it leaves what it
/// may leave before the call or after it.
pub trait Disk: Drop {
    /// How often it failed.
    ghost faults: { Self → ℕ };

    /// Whether it tells its files.
    ghost tells: { Self → Bool };

    /// Its files as reads give them.
    ghost files: { Self → Files };

    /// The states that it has had, the newest first: what a crash may leave at each moment. A disk that doesn't tell has
    /// none. Their number is the disk's clock.
    ghost trace: { Self → List State };

    /// How often another process was found to hold it.
    ghost held: { Self → ℕ };

    /// Keeps every other process that asks for it from this disk, as long as the disk lives. `Held` comes only where
    /// another process holds it.
    fn hold(&mut self) -> Result<(), HoldError>
        ensures frame { CountsOnly HoldError.Fault (faults self.old) (faults self.new) result }
        ensures holds { CountsOnly HoldError.Held (held self.old) (held self.new) result }
        ensures telling { tells self.new ≡ tells self.old }
        ensures same { files self.new ≡ files self.old }
        ensures still { trace self.new ≡ trace self.old };

    /// All names, each once and sorted by bytes: fewer than 2^31, and `NoMemory` where there are more.
    fn names(&mut self, alloc: Global) -> Result<Row<Text>, OutError>
        ensures frame { ReadsCountingBy OutError.Fault faults held tells files trace self.old self.new result }
        ensures few { IfOk result (λ names. length names < 2 ^ 31) }
        ensures named { IfOk result (λ names. All IsName names) }
        ensures told { IsTrue (tells self.old) → IfOk result (IsNames (files self.old)) };

    /// A file's length in bytes, `None` where there is no such file.
    fn size(&mut self, name: &[u8]) -> Result<Option<u64>, Fault>
        requires { IsName name.now }
        ensures frame { ReadsBy faults held tells files trace self.old self.new result }
        ensures told { IsTrue (tells self.old) → IfOk result (λ size. size ≡ option_map length (files self.old name.now)) };

    /// Reads bytes of a file into the front of `out` and answers how many: 0 only at or past the end, for an absent
    /// file, or for an empty `out`.
    fn read_at(&mut self, name: &[u8], at: u64, out: &mut [u8]) -> Result<usize, Fault>
        requires { IsName name.now }
        ensures frame { ReadsBy faults held tells files trace self.old self.new result }
        ensures within { IfOk result (λ n. n ≤ length out.old) }
        ensures told { IsTrue (tells self.old) → IfOk result (λ n. IsRead (files self.old name.now) at n out.old out.new) };

    /// Writes bytes within a file or at its end.
    fn write_at(&mut self, name: &[u8], at: u64, bytes: &[u8]) -> Result<(), Fault>
        requires name { IsName name.now }
        requires there { IsTrue (tells self.old) → IsSomeAnd (files self.old name.now) (λ content. at ≤ length content) }
        ensures frame { StaysBy faults held tells self.old self.new result }
        ensures step { Goes (DiskCall.Write name.now at bytes.now) (trace self.old) (trace self.new) result }
        ensures ok { IsTrue (tells self.old) → OnOk result (files self.new ≡ after_write (files self.old) name.now at bytes.now) }
        ensures err { IsTrue (tells self.old) → OnErr result (IsTornWrite (files self.old) (files self.new) name.now at (length bytes.now)) };

    /// Cuts a file to a length, an absent one being made empty first.
    fn cut(&mut self, name: &[u8], len: u64) -> Result<(), Fault>
        requires name { IsName name.now }
        requires within { IsTrue (tells self.old) → len ≤ length (unwrap_or (files self.old name.now) []) }
        ensures frame { StaysBy faults held tells self.old self.new result }
        ensures step { Goes (DiskCall.Cut name.now len) (trace self.old) (trace self.new) result }
        ensures ok { IsTrue (tells self.old) → OnOk result (files self.new ≡ after_cut (files self.old) name.now len) }
        ensures err { IsTrue (tells self.old) → OnErr result (IsTornCut (files self.old) (files self.new) name.now len) };

    /// Makes a file's bytes lasting. What reads give stays.
    fn sync(&mut self, name: &[u8]) -> Result<(), Fault>
        requires { IsName name.now }
        ensures frame { StaysBy faults held tells self.old self.new result }
        ensures step { Goes (DiskCall.Sync name.now) (trace self.old) (trace self.new) result }
        ensures same { files self.new ≡ files self.old };

    /// Moves a file to another name, in place of what is there. It changes nothing where `from` is absent.
    fn rename(&mut self, from: &[u8], to: &[u8]) -> Result<(), Fault>
        requires from { IsName from.now }
        requires to { IsName to.now }
        ensures frame { StaysBy faults held tells self.old self.new result }
        ensures step { Goes (DiskCall.Rename from.now to.now) (trace self.old) (trace self.new) result }
        ensures ok { IsTrue (tells self.old) → OnOk result (files self.new ≡ after_rename (files self.old) from.now to.now) }
        ensures err { IsTrue (tells self.old) → OnErr result (IsDoneOrNot (files self.old) (files self.new) (after_rename (files self.old) from.now to.now)) };

    /// Removes a file. It changes nothing where the file is absent.
    fn remove(&mut self, name: &[u8]) -> Result<(), Fault>
        requires { IsName name.now }
        ensures frame { StaysBy faults held tells self.old self.new result }
        ensures step { Goes (DiskCall.Remove name.now) (trace self.old) (trace self.new) result }
        ensures ok { IsTrue (tells self.old) → OnOk result (files self.new ≡ after_remove (files self.old) name.now) }
        ensures err { IsTrue (tells self.old) → OnErr result (IsDoneOrNot (files self.old) (files self.new) (after_remove (files self.old) name.now)) };

    /// Makes all changes of names lasting. What reads give stays.
    fn sync_names(&mut self) -> Result<(), Fault>
        ensures frame { StaysBy faults held tells self.old self.new result }
        ensures step { Goes DiskCall.SyncNames (trace self.old) (trace self.new) result }
        ensures same { files self.new ≡ files self.old };

    /// Each state that it has had is sound.
    ghost sound: { (disk : Self) → AllSound (trace disk) };

    /// It tells its files just where it tells its states, and they are what reads give at the newest.
    ghost shown: { (disk : Self) → IsShown (tells disk) (files disk) (trace disk) };
}
