//! A method for `file` URIs: what it fetches are the files of a tree, piece by piece.
//!
//! `FileMethod` keeps no more of a file than one piece. Where its tree tells the files, it tells them as a mirror, so its
//! words, joined, are the tree's file.
//!
//! Its words, joined, are the tree's file (the clauses of the trait), where the tree tells it; a fault comes
//! exactly where the tree's count rose (`frame`), and a URI of another scheme is absent without a call of the tree
//! (`elsewhere`). The pieces of a fetch that ended well, joined, are the file behind what the job leaves out, for
//! any method that tells its mirror (`words_are_the_file`, a law). Only tested: that its pieces have 65,536 bytes.
#![tactic(auto)]

pub use laws::words_are_the_file;
pub use method::FileMethod;

mod laws;
mod method;
mod piece;
