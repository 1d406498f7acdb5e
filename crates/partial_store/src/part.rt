//! A list on its way. It touches nothing and takes no memory.

ghost use Rattle.std.specs.Prelude.{◌≡◌};
ghost use Rattle.acq_outside.specs.Disk.{IsName};
ghost use Rattle.journal_model.specs.Names.{IsPutName, partial};
ghost use Rattle.partial_store.specs.Refinement.{part_of};

use acq_base::ListName;
use journal_model::PartialName;
use std::marker::Model;

/// A list's file under `partial/`, as it is being filled. Contracts see the list's name, and how many bytes the file has.
#[derive(Drop)]
pub struct Part {
    pub(crate) path: PartialName,
    pub(crate) len: u64,
}

impl Model for Part {
    ghost use Rattle.std.specs.Prelude.{◌≡◌, ◌≤◌, true, drop, length};
    ghost use Rattle.std.specs.Str.{is_utf8};
    ghost use Rattle.journal_model.specs.Names.{partial};
    ghost use Rattle.partial_store.specs.Refinement.{PartOf};

    ghost Value = { PartOf };

    ghost view = { λ part. record { name = drop 8 part.path; len = part.len } };

    ghost invariant = { λ part. (part.path ≡ partial (drop 8 part.path)) × (length part.path ≤ 255) × (is_utf8 part.path ≡ true) };
}
