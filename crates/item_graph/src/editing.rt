//! The installed file of a list, and what patches make of it.

ghost use Rattle.std.specs.Prelude.{◌≡◌};
ghost use Rattle.acq_base.specs.Sum.{sum_of as summed};
ghost use Rattle.ed_apply.specs.Files.{IsOf};

use acq_base::{Bytes, Sum};
use ed_apply::Edit;

/// The installed file with its bytes.
#[derive(Drop)]
pub struct Installed {
    pub file: Bytes,
    pub sum: Sum,
    ghost hashed: { sum ≡ summed file },
}

/// The installed file under some patches. It isn't copied before the last of them.
#[derive(Drop)]
pub struct Editing {
    pub old: Bytes,
    pub edit: Edit,
    ghost begun: { ∥ IsOf edit old ∥₁ },
}
