//! A method that speaks APT's method interface over an input and an output: messages of what is asked for come in, and
//! what became of each goes out.
//!
//! `serve_method` answers each request of the input's stream by what a method replies to it. Over `http` the file goes
//! where the request says, piece by piece as it comes, and is never whole in memory.
//!
//! Where input, method, files and output tell, what is written is a text of the messages read (`serves`, a record): whole
//! where the input was read to its end or its stream broke off (`ends`), and else a front of one (`begins`); nothing else
//! is written. Where the input ends, fails or is too long, all answers to the messages read stand there, and a last
//! message is written only where the stream broke off (`said`). A fault is said only in the answer to a request during
//! which the method's count rose. An answered request is asked once, a bad one never (`once`, in each answer's record),
//! and one that was under way at most once (`last`).
//! Each request changes at most the file that it names, one whose answer is 201 leaves all bytes there, and no other file
//! changes (`stays`, and the law `files_are_as_answered`). A fault of input, files or output is told, and comes only
//! where that object's count rose (`input`, `files`, `output`); `Full` comes only behind the most bytes that are read.
//! No clause says that no file is whole in memory.
#![tactic(auto)]

pub use end::ServeEnd;
pub use laws::files_are_as_answered;
pub use serve::serve_method;

mod answer;
mod end;
mod fetching;
mod fields;
mod laws;
mod reading;
mod said;
mod serve;
mod stream;
mod wish;
