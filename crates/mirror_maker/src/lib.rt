//! A mirror of four sources before and after a day's update, made of a number: the same one of the same number, on every
//! machine. One source has its list under its digest alone, one a patch, one a Release that moved, and one a patch that
//! doesn't fit.
//!
//! `make` is the mirror of a number on two days, as docs/FORMATS.md defines it, with a sources list of its four
//! sources and a moment of each day (`first`, `second`, `list`, `first_now`, `second_now`). A method in memory may
//! be made over either (`first_sound`, `second_sound`), and each source's patch makes its second list of its first,
//! whatever the number (`patch_makes_second_list`, a law). Tested for three numbers beside what a program in
//! another language makes.
#![tactic(auto)]

pub use laws::patch_makes_second_list;
pub use made::{Made, make};

mod draws;
mod laws;
mod lists;
mod made;
mod packages;
mod rows;
mod texts;
