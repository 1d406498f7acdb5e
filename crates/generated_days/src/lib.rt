//! Updates over the mirror of a number: on its first day from an empty folder, and on its second from the lists of the
//! first, all in memory.
//!
//! `both_days` answers how each went, in three numbers that the mirror and its number alone decide.
//!
//! `both_days` runs the updates over the mirror of a number on its two days, in memory, and its clause ties the
//! numbers that it gives to that number (`days`): of each day the sources of which the mirror has a set that the
//! folder doesn't hold, the positions of the routes over the mirror from no list on its way, and the bytes of the
//! lists that are next.
#![tactic(auto)]

pub use days::{Day, both_days};

mod bytes;
mod clear;
mod configure;
mod days;
mod laws;
mod run;
