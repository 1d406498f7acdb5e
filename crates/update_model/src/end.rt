//! What asks come to.

use crate::{Body, Cause};
use acq_base::{NoMemory, TryCopy};
use std::alloc::Global;

/// What the asks for a Release or a list come to.
#[derive(Debug, PartialEq, Drop)]
pub enum End {
    Got(Body),
    /// The installed file is the wanted one.
    Stands,
    Ended(Cause),
}

impl TryCopy for End {
    fn copy(&self, alloc: Global) -> Result<End, NoMemory> {
        Ok(match self {
            End::Got(body) => End::Got(body.copy(alloc)?),
            End::Stands => End::Stands,
            End::Ended(cause) => End::Ended(cause.copy(alloc)?),
        })
    }
}
