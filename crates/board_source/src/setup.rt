//! What a run was begun with.

ghost use Rattle.std.specs.Prelude.{All};
ghost use Rattle.board_source.specs.Names.{HasDiskNames, NamesDiffer};

use acq_base::{ListName, Row, Settings, Source, Text};
use release_file::Change;
use std::collections::BTreeMap;

/// What a run was begun with.
#[derive(Drop)]
pub struct Setup {
    pub sources: Row<Source>,
    /// The sizes of the partial files.
    pub sizes: BTreeMap<Text, u64>,
    pub settings: Settings,
    /// What a Release may say of itself otherwise than the installed one.
    pub change: Change,
    /// The moment of the run, in seconds since 1970-01-01 00:00:00 UTC.
    pub moment: i64,
    ghost named: { All NamesDiffer sources },
    ghost fits: { All HasDiskNames sources },
}

impl Setup {
    ghost use Rattle.std.specs.Prelude.{◌≡◌};
    ghost use Rattle.board_source.specs.Refinement.{config_of};

    /// The size of a list's partial file, 0 where there is none.
    pub fn size(&self, name: &ListName) -> u64
        ensures { result ≡ (config_of self.now).sizes name.now.0 }
    {
        match self.sizes.get(&name.0) {
            Some(size) => *size,
            None => 0,
        }
    }
}
