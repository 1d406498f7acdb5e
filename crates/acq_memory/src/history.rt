//! What a disk in memory keeps: its first files, its changes since then, and the files that these lead to.
ghost use Rattle.std.specs.Prelude.{◌≡◌, ◌++◌, ◌∷◌, [], ◌<◌, vec_len, vec_capacity};

use crate::held::{Held, carry_out, held_files, list_names};
use crate::image::left;
use crate::replay::replay_all;
use acq_base::{Bytes, NoMemory, Row, Text};
use acq_outside::DiskCall;
use std::alloc::Global;
use std::marker::Model;

/// The files that a disk began with, its changes since then in order, and the files that these lead to.
///
/// Contracts see the first two, since the third follows from them.
#[derive(Debug, Drop)]
pub struct History {
    start: Row<(Text, Bytes)>,
    changes: Vec<DiskCall>,
    held: Held,
}

impl Model for History {
    ghost use Rattle.std.specs.Prelude.{◌≡◌, All};
    ghost use Rattle.acq_outside.specs.Disk.{IsName};
    ghost use Rattle.acq_outside.specs.History.{Past, start_files, files_after};
    ghost use Rattle.acq_memory.specs.Held.{AreNamed, HasNames, files_in};

    ghost Value = { Past };

    ghost view = { λ history. record { start = history.start; changes = history.changes.items } };

    ghost invariant = { λ history. (files_in history.held ≡ files_after (start_files history.start) history.changes.items) × HasNames (files_in history.held) × All (λ row. IsName row.0) history.start × AreNamed history.changes.items };
}

impl History {
    ghost use Rattle.std.specs.Prelude.{◌≡◌, [], All, IfOk, OnOk, OnErr, option_copied};
    ghost use Rattle.acq_outside.specs.Disk.{IsName, IsNames};
    ghost use Rattle.acq_outside.specs.Choice.{image_of};
    ghost use Rattle.acq_outside.specs.Crash.{newest, trace_of};
    ghost use Rattle.acq_outside.specs.History.{IsStart, files_of, changed, start_files};
    ghost use Rattle.acq_memory.specs.Held.{IsNamed};

    /// These files, and no change yet.
    pub fn new(alloc: Global, start: Row<(Text, Bytes)>) -> Result<History, NoMemory>
        requires { IsStart start }
        ensures { IfOk result (λ history. history ≡ record { start = start; changes = [] }) }
    {
        let held = held_files(alloc, start.as_slice())?;
        Ok(History {
            start,
            changes: Vec::new(alloc),
            held,
        })
    }

    /// The content of a file, `None` where there is no such file.
    pub fn get(&self, name: &Text) -> Option<&Bytes>
        ensures { option_copied result ≡ files_of self.now name.now }
    {
        self.held.get(name)
    }

    /// All names, sorted by bytes.
    pub fn names(&self, alloc: Global) -> Result<Row<Text>, NoMemory>
        ensures names { IfOk result (IsNames (files_of self.now)) }
        ensures named { IfOk result (λ names. All IsName names) }
    {
        let names = list_names(alloc, &self.held)?;
        Ok(names)
    }

    /// The files that a crash leaves now, by a choice of bytes.
    pub fn crashed(&self, alloc: Global, choice: &[u8]) -> Result<Row<(Text, Bytes)>, NoMemory>
        ensures start { IfOk result IsStart }
        ensures files { IfOk result (λ rows. start_files rows ≡ image_of (newest (trace_of self.now)) choice.now) }
    {
        let replay = replay_all(alloc, self.start.as_slice(), self.changes.as_slice())?;
        left(alloc, &replay, choice)
    }

    /// Carries a change out and notes it. Without memory nothing is changed.
    #[tactic(auto, using(crate::proofs::HeldFiles::noted, crate::proofs::Named::kept_names, crate::proofs::Named::names_after, crate::proofs::Named::kept_changes, crate::proofs::Named::more_changes))]
    pub fn apply(&mut self, alloc: Global, change: DiskCall) -> Result<(), NoMemory>
        requires { IsNamed change }
        ensures ok { OnOk result (self.new ≡ changed self.old change) }
        ensures err { OnErr result (self.new ≡ self.old) }
    {
        self.changes.reserve(1)?;
        carry_out(alloc, &mut self.held, &change)?;
        note(&mut self.changes, change);
        Ok(())
    }
}

/// Appends a change where there is room for it.
fn note(changes: &mut Vec<DiskCall>, change: DiskCall)
    requires { vec_len changes.old < vec_capacity changes.old }
    ensures { changes.new.items ≡ changes.old.items ++ change ∷ [] }
{
    let _ = changes.push(change);
}
