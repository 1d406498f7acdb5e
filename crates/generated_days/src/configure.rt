//! What a sources list configures.

ghost use Rattle.std.specs.Prelude.{IfOk};
ghost use Rattle.acq_base.specs.Plan.{IsSound};
ghost use Rattle.generated_days.specs.Days.{Configures};

use acq_base::{Bytes, NoMemory, Row, Text};
use acq_memory::MemEtc;
use acq_outside::Place;
use configuration::{Configured, configure};
use std::alloc::Global;

/// What a sources list configures under the default settings.
pub fn configure_by(alloc: Global, list: Bytes) -> Result<Configured, NoMemory>
    ensures sound { IfOk result (λ it. IsSound it.plan) }
    ensures configures { IfOk result (Configures list) }
{
    let mut rows = Row::new(alloc);
    rows.push((Place::SourcesList, Text::new(alloc), list))?;
    if !MemEtc::takes(&rows) {
        return Err(NoMemory);
    }
    let mut etc = MemEtc::new(rows, Row::new(alloc));
    match configure(alloc, &mut etc, &Row::new(alloc)) {
        Ok(it) => Ok(it),
        Err(_) => Err(NoMemory),
    }
}
