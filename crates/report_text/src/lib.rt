//! What a run prints: the report of its sources, or the one line of a fault that stands in its place.
//!
//! `report` is a run's report, whole, as a function of the plan, the verdicts and the removed lists. `FaultLine` has all
//! lines that begin with `E`, and says which of them stands for a refused configuration.
//!
//! `report` is the text of a run, by plan, verdicts and removed names, and `FaultLine` the line that stands in
//! place of one (`text`; `fixed` without memory), that of a refused configuration too (`from_gives`). `got_line` and
//! `fail_line` are what is told of one package's file, that it stands or why there is none.
#![tactic(auto)]

pub use fault::FaultLine;
pub use package::{fail_line, got_line};
pub use whole::report;

mod cause;
mod fault;
mod numbers;
mod package;
mod refused;
mod source;
mod total;
mod whole;
