//! Control text (Debian Policy, chapter 5): paragraphs of fields, read, looked up and written.
//!
//! A text that is refused is refused at its first line that no reading allows.
//!
//! `read` gives exactly the paragraphs or the refusal of its definition (`value`), and a refusal is that of the
//! first line that no reading allows (`allowed`, `refused`). `find` lends the first field of a name, ASCII case
//! aside. `writable` is exactly the condition of `write`, and `can_write` answers the same in n log n time, with
//! memory; what `write` wrote is read again as the same paragraphs (`text`, `again`). Only tested: that the
//! definitions mean what Policy says.
#![tactic(auto)]

pub use error::TextError;
pub use finding::find;
pub use judging::{can_write, writable};
pub use paragraph::{Field, Paragraph};
pub use reading::read;
pub use writing::write;

mod cutting;
mod error;
mod finding;
mod judging;
mod line;
mod names;
mod paragraph;
mod reading;
mod repeated;
mod writing;
