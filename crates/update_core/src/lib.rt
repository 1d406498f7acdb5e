//! All sources of an update: which job goes out next, what its answer leads to, and what each source comes to in the end.
//!
//! It has no handle: who fetches a job, and in which order jobs are answered, is the caller's. Each call does what the
//! definitions of `board_model` say, so that its laws hold of whole runs.
//!
//! What it stands for is one function of it (`board_of`), and each call is an equation on that: `new` is the first
//! board of a plan, `issue`, `absorb` and `settle` make of a board what `board_model` defines (`board`) and answer
//! what is defined there (`job`, `settled`); `is_out`, `stage`, `ready`, `finished` and `sources` tell what it is,
//! and `into_log` is its log. So `board_model`'s laws hold of whole runs of these calls, in any order. The calls
//! that are said to take no memory can't. No clause speaks of time: an item is found by its number, and the first
//! source that is ready in an ordered set.
#![tactic(auto)]

pub use board::Board;

mod asks;
mod beginning;
mod board;
mod jobs;
mod sources;
mod telling;
