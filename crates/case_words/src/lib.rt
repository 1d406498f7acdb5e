//! Cases as lines of text: the words of a line, what they stand for, and answers in plain text.
//!
//! It serves programs that read calls of the repository's readers, one a line, and print what each answers.
#![tactic(auto)]

pub use arguments::{has, moment, number, signed, small, text};
pub use lines::tell;
pub use page::{Page, yes_or_no};
pub use refused::{Refused, called, readable};
pub use words::{views_of, words_of};

mod arguments;
mod lines;
mod page;
mod refused;
mod words;
