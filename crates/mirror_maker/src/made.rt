//! The mirror of a number. It takes memory, and touches nothing else.
ghost use Rattle.std.specs.Prelude.{◌≡◌, ◌++◌, ◌<◌, ◌+◌, IfOk};
ghost use Rattle.acq_base.specs.Fetch.{IsSoundMirror};
ghost use Rattle.mirror_maker.specs.Made.{first_before, first_mirror, first_moment, list_text, second_before, second_mirror, second_moment, state_of};
ghost use Rattle.mirror_maker.specs.Packages.{after_source, packages_from};
ghost use Rattle.mirror_maker.specs.Lists.{lists_of};
ghost use Rattle.mirror_maker.specs.Rows.{first_rows, second_rows};

use crate::draws::Draws;
use crate::lists::write_lists;
use crate::packages::draw_source;
use crate::rows::{append_first, append_second};
use acq_base::{Bytes, Mirror, NoMemory, Row};
use std::alloc::Global;

/// How many sources there are.
const SOURCES: u8 = 4;

const LIST: &[u8] =
    b"deb http://h0.example/g s main\ndeb http://h1.example/g s main\ndeb http://h2.example/g s main\ndeb http://h3.example/g s main\n";

/// A mirror on two days, and a sources list of its four sources.
#[derive(Debug, Drop)]
pub struct Made {
    pub first: Mirror,
    pub second: Mirror,
    /// The sources list, in the one-line form (sources.list(5)).
    pub list: Bytes,
    /// A moment of the first day, in seconds since 1970-01-01 00:00:00 UTC.
    pub first_now: i64,
    /// A moment of the second day.
    pub second_now: i64,
}

/// The mirror of this number. A method over it (`MapMethod`) may be made: its URIs are distinct, and each place that an
/// answer moves to is a sound URI.
#[tactic(auto, unfolding(crate::specs::Made::state_of, crate::specs::Made::first_before, crate::specs::Made::second_before))]
pub fn make(alloc: Global, n: u64) -> Result<Made, NoMemory>
    ensures first { IfOk result (λ made. made.first.rows ≡ first_mirror n) }
    ensures second { IfOk result (λ made. made.second.rows ≡ second_mirror n) }
    ensures first_sound { IfOk result (λ made. IsSoundMirror made.first) }
    ensures second_sound { IfOk result (λ made. IsSoundMirror made.second) }
    ensures list { IfOk result (λ made. made.list ≡ list_text) }
    ensures first_now { IfOk result (λ made. made.first_now ≡ first_moment) }
    ensures second_now { IfOk result (λ made. made.second_now ≡ second_moment) }
{
    let mut draws = Draws { state: n };
    let mut first = Row::new(alloc);
    let mut second = Row::new(alloc);
    let mut source: u8 = 0;
    while source < SOURCES {
        let packages = draw_source(alloc, &mut draws)?;
        let lists = write_lists(alloc, packages.as_slice())?;
        append_first(alloc, &mut first, source, &lists)?;
        append_second(alloc, &mut second, source, &lists)?;
        source += 1;
    }
    Ok(Made {
        first: Mirror { rows: first },
        second: Mirror { rows: second },
        list: Bytes::from(Vec::from_slice(alloc, LIST)?),
        first_now: 1_686_387_273,
        second_now: 1_686_473_673,
    })
}
