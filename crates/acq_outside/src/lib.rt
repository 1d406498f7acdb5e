//! What the engine asks of the outside, as traits: the lists folder, the configuration folder, methods, served files,
//! written files, a clock, an input and an output; and what a crash may leave of the lists folder. Where an object
//! tells what it holds, the clauses speak of that; of any they say that a fault comes only where the object's count of
//! faults rose.
//!
//! Eight traits (`Etc`, `Disk`, `Method`, `Tree`, `Files`, `Clock`, `Inlet`, `Sink`) say what a call does to what an
//! object holds, where it tells it, and that the object's count of faults rises just where a call answers a fault
//! (`frame`; of a method's `begin` and `more` the rise stands in `word`, and of its `fetch` in `reply`; a clock can't
//! fail). An input gives its bytes in order, each once (`gave`), loses none by a fault (`err`), and answers 0 only at
//! its end (`spent`), where its count of ends rises, as it does nowhere else (`frame`). A put
//! changes the file that it names and no other (`ok`, `err`). Real objects tell nothing of content, so for them the
//! counts and causes alone hold. A method counts the fetches that it begins (`begins`) and answers in words, of which
//! each piece goes on where the one before ended (`word`), and its `fetch` joins them, whichever method it is
//! (`reply`). `write_whole` and `read_whole` are proved for every disk, as reads give its files. The disk may crash:
//! its trait keeps a trace of states, each of which says what a crash at that moment may leave (`step`: bytes that
//! weren't synced may be any, changes of names that weren't synced may be lost in any part, a call that failed in its
//! midst is done in part). Laws on public functions: what reads give may be left, and no two names lead to one file in
//! anything that is left (`crash_leaves`); what is synced lasts (`syncs_last`); a torn call leaves what the whole one
//! may (`torn_is_done`); the choices by which a crash is tried leave all that a crash may leave, and nothing else
//! (`choices_leave`); what a call that was never synced did may be lost (`calls_may_be_lost`). The journal rests on
//! this trace. Only tested: that what is written whole is synced, and that a fault within a whole read or write is
//! told as one.
#![tactic(auto)]

pub use change::DiskCall;
pub use clock::Clock;
pub use crash::{calls_may_be_lost, choices_leave, crash_leaves, syncs_last, torn_is_done};
pub use disk::Disk;
pub use etc::{Etc, MOST_READ, Place};
pub use fault::{Fault, HoldError, OutError};
pub use files::Files;
pub use inlet::Inlet;
pub use method::Method;
pub use name::is_name;
pub use sink::Sink;
pub use state::{FileState, NameChange};
pub use tree::Tree;
pub use whole::{read_whole, write_whole};
pub use word::{Fetch, Word};

mod change;
mod clock;
mod crash;
mod disk;
mod etc;
mod fault;
mod files;
mod inlet;
mod method;
mod name;
mod sink;
mod state;
mod tree;
mod whole;
mod word;
