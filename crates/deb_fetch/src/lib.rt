//! One package file: found in the installed Packages lists by name and version, and fetched whole into a folder.
//!
//! `find_deb` gives the file that the lists' stanzas of that version of that package name: where there is one and all of
//! them have one sum, with the URI, the path and the name that the first says (`found`). `NotListed` comes exactly where
//! there is none, and `Several` exactly where two have different sums (`refused`). Its URI is sound (`sound`), and its
//! name one that `fetch_deb` takes (`named`). The lists' disk stays as it was (`frame`). One list is in memory at a time,
//! and the fields of one of its paragraphs, which no clause says; that reading a list so reads it is a law
//! (`texts_are_read_by_paragraphs`).
//!
//! `fetch_deb` leaves the file whole and lasting where it answers no cause (`whole`). At every moment a crash leaves the
//! file as it might have left it before the call, or whole, and all others but the one on its way as it might have left
//! them (`moments`), and at the end these are as they were (`others`). Where the disk tells, nothing is asked beside a file
//! that is there and fits (`unasked`), and beside a cause the file is as it was (`kept`). No more fetches are begun than
//! eleven places have, each with its repeats (`begins`).
//!
//! Where disk and method tell, the answer is none where the file was there and fits, or the mirror leads to it within its
//! size, and else the cause that this shows; or it is the method (`answer`), which is told only where its count of faults
//! rose by one more than an ask may be repeated, with its counts around the last failure (`failed`). Whatever tells, the
//! cause is how a route of plain asks ended (`route`). Its errors are a fault of the folder, which comes only where its
//! count rose, and want of memory (`frame`, `only`).
#![tactic(auto)]

pub use deb::Deb;
pub use error::DebError;
pub use fetching::fetch_deb;
pub use finding::find_deb;
pub use laws::texts_are_read_by_paragraphs;

mod asking;
mod deb;
mod error;
mod fetching;
mod filename;
mod finding;
mod found;
mod landing;
mod laws;
mod listed;
mod paragraphs;
mod stanza;
