//! Sources lists (sources.list(5)): the entries of a text, in the one-line form and in the deb822 form, and which files of
//! sources.list.d count.
//!
//! A text that is refused is refused at its first line, or its first stanza, that no reading allows.
//!
//! `read_list` and `read_sources` are their definitions (`value`): a text of at most 1,048,576 bytes is read
//! exactly where each of its lines by itself is, or, as control text, each of its stanzas, and its entries are
//! theirs in order (`read`); a refusal is that of the first that isn't, or the length's (`refused`). What is read
//! is sound (`sound`): a base URI, suite, components and architectures of their forms, no component exactly for an
//! exact path, at least one architecture where any is named. `counts` is which files of sources.list.d count. Only
//! tested: that the files of Debian 12 and 13, Ubuntu 24.04 and a vendor are read as they are written.
#![tactic(auto)]

pub use entry::Entry;
pub use error::ListError;
pub use files::{Form, counts};
pub use one_line::read_list;
pub use sources::read_sources;

mod entry;
mod error;
mod fields;
mod files;
mod line;
mod one_line;
mod options;
mod sources;
mod stanza;
mod suites;
mod values;
