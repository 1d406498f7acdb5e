//! What a run over a board is between two of its steps, in the words that public clauses and the crates above cite: what it
//! has heard and what of the lists on their way is on the disk (`Running`, `Coupling`), what it leaves of them (`OnTheWay`),
//! how a log tells faults and begun fetches (`Counting`), and which mirror methods tell (`Mirrors`). `RunError` is why a run
//! gives no log.
#![tactic(auto)]

pub use error::RunError;

mod error;
