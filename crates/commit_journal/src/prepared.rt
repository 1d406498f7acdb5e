//! A commit that is prepared.

use crate::Change;
use acq_base::Row;
use journal_model::Step;
use std::marker::Model;

/// A commit whose record stands in the journal behind a shut gate. Contracts see its changes, in groups.
#[derive(Debug, Drop)]
pub struct Prepared {
    pub(crate) groups: Row<Row<Change>>,
    pub(crate) steps: Row<Step>,
}

impl Model for Prepared {
    ghost use Rattle.std.specs.Prelude.{◌≡◌};
    ghost use Rattle.journal_model.specs.Spelling.{all_steps};
    ghost use Rattle.commit_journal.specs.Changes.{steps_in, CanRecord};
    ghost use Rattle.commit_journal.specs.Commits.{PreparedOf};

    ghost Value = { PreparedOf };

    ghost view = { λ prepared. record { groups = prepared.groups } };

    ghost invariant = { λ prepared. (prepared.steps ≡ all_steps (steps_in prepared.groups)) × CanRecord prepared.groups };
}
