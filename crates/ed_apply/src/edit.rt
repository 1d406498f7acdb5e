//! Files as old ones become them by scripts. What takes memory is handed an allocator.

ghost use Rattle.std.specs.Prelude.{◌≡◌, ◌⊎◌, ℕ, List, length, Some, IfOk, IfErr, OnOk, OnErr};
ghost use Rattle.ed_apply.specs.Edits.{IsSound, edited, file_lines, refusal};
ghost use Rattle.ed_apply.specs.Files.{IsOf, file_of};
ghost use Rattle.ed_apply.specs.Segments.{open_line};

use crate::changing::{changed, check};
use crate::known::Known;
use crate::layout::Layout;
use crate::segment::Segment;
use crate::{ApplyError, Script};
use acq_base::{Bytes, NoMemory};
use std::alloc::Global;

/// A file that an old one becomes by scripts. It is kept as a row of lines of the old file and of the scripts' texts: no
/// line of the old file is copied before the whole file is copied out.
#[derive(Drop)]
pub struct Edit {
    known: Known,
    layout: Layout,
    size: u64,
}

impl Edit {
    /// The old file itself.
    pub fn whole(alloc: Global, old: &[u8]) -> Result<Edit, NoMemory>
        ensures of { IfOk result (λ edit. IsOf edit old.now) }
        ensures file { IfOk result (λ edit. file_of edit old.now ≡ old.now) }
    {
        let known = Known::of(alloc, old)?;
        let lines = known.ends.len();
        let mut segments = Vec::new(alloc);
        segments.push(Segment { from: 0, to: lines })?;
        let layout = Layout::of(segments, unended(old, lines))?;
        Ok(Edit {
            known,
            layout,
            size: old.len() as u64,
        })
    }

    /// The file that a script makes of the one that this stands for, unless a hunk reaches beyond its lines. After a
    /// refusal, want of memory among them, it stands for the file that it did.
    pub fn then(&mut self, alloc: Global, script: Script) -> Result<(), ApplyError>
        requires { IsSound script }
        ensures of { (old : List ℕ) → IsOf self.old old → IsOf self.new old }
        ensures edited { OnOk result ((old : List ℕ) → IsOf self.old old → edited (file_of self.old old) script (file_of self.new old)) }
        ensures refused { IfErr result (λ error. (error ≡ ApplyError.NoMemory) ⊎ ((old : List ℕ) → IsOf self.old old → refusal (file_of self.old old) script ≡ Some error)) }
        ensures kept { OnErr result ((old : List ℕ) → IsOf self.old old → IsOf self.new old × file_of self.new old ≡ file_of self.old old) }
    {
        self.change(alloc, &script)
    }

    /// How many bytes the file has. It takes no memory.
    pub fn size(&self) -> u64
        ensures { (old : List ℕ) → IsOf self.now old → result ≡ length (file_of self.now old) }
    {
        self.size
    }

    /// The file. `old` is the one with which this began.
    pub fn copy_out(&self, alloc: Global, old: &[u8]) -> Result<Bytes, NoMemory>
        requires { IsOf self.now old.now }
        ensures { IfOk result (λ file. file ≡ file_of self.now old.now) }
    {
        let mut room = Vec::new(alloc);
        room.reserve_exact(self.size as usize)?;
        let mut file = Bytes::from(room);
        for segment in &self.layout.segments {
            self.known.copy(old, segment, &mut file)?;
        }
        Ok(file)
    }

    /// Changes the file by a script.
    pub(crate) fn change(&mut self, alloc: Global, script: &Script) -> Result<(), ApplyError>
        requires { IsSound script.now }
        ensures done { OnOk result ((old : List ℕ) → IsOf self.old old → IsOf self.new old × edited (file_of self.old old) script.now (file_of self.new old)) }
        ensures refused { IfErr result (λ error. (error ≡ ApplyError.NoMemory) ⊎ ((old : List ℕ) → IsOf self.old old → refusal (file_of self.old old) script.now ≡ Some error)) }
        ensures kept { OnErr result ((old : List ℕ) → IsOf self.old old → IsOf self.new old × file_of self.new old ≡ file_of self.old old) }
    {
        let hunks = script.hunks.as_slice();
        if let Err(error) = check(hunks, self.layout.file_lines()) {
            return Err(error);
        }
        let lines = self.known.ends.len();
        let bytes = self.known.texts.len();
        match changed(alloc, &mut self.known, &self.layout, hunks) {
            Ok((layout, size)) => {
                self.layout = layout;
                self.size = size;
                Ok(())
            }
            Err(error) => {
                self.known.truncate(lines, bytes);
                Err(ApplyError::from(error))
            }
        }
    }
}

/// The number of an old file's last line, where no line feed ends it.
fn unended(old: &[u8], lines: usize) -> Option<usize>
    requires { lines ≡ length (file_lines old.now) }
    ensures { result ≡ open_line (file_lines old.now) }
{
    let Some(last) = old.last() else {
        return None;
    };
    if *last == b'\n' {
        return None;
    }
    Some(lines.saturating_sub(1))
}
