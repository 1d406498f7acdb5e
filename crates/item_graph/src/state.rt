//! Where an item stands.

ghost use Rattle.std.specs.Prelude.{◌≡◌, IfOk};
ghost use Rattle.update_model.specs.Points.{At, start, point_after};
ghost use Rattle.update_model.specs.Walks.{Try};
ghost use Rattle.item_graph.specs.Nexts.{after, point_in};

use crate::list::{after_hashed, after_plain, after_resumed};
use crate::patches::{after_index, after_patch};
use crate::patching::{Listing, Patching};
use crate::release::{after_in_release, after_release};
use crate::ways::way;
use acq_base::{NoMemory, NotServed, Uri};
use std::alloc::Global;
use update_model::{Ask, Closed, End, Ending, Wanted};

/// How many moves of one ask are followed.
const MOVES: u32 = 10;

/// What was asked last, and so what comes after it.
#[derive(Drop)]
pub enum Next {
    /// InRelease; Release lies at this URI.
    InRelease(Uri),
    Release,
    /// A list at its own URI.
    Plain(Wanted),
    /// A list under its digest.
    Hashed(Wanted),
    /// The rest of a list behind its partial file.
    Resumed(Wanted),
    /// The patch Index of a list.
    Index(Listing),
    /// A patch of a list.
    Patch(Patching),
}

/// At its end, or at an ask.
#[derive(Drop)]
pub enum State {
    Ended(End),
    Asks {
        ask: Ask,
        /// How many moves may still be followed.
        moves: u32,
        /// How many faults here may still be asked again.
        retries: u32,
        next: Next,
    },
}

impl State {
    /// The first ask of a trail.
    pub fn first(ask: Ask, retries: u32, next: Next) -> State
        ensures { point_in result ≡ At ask 10 retries (after next) }
    {
        State::Asks {
            ask,
            moves: MOVES,
            retries,
            next,
        }
    }

    /// Where an answer of this lane leads, `retries` being those at each place.
    pub fn heard(
        self,
        alloc: Global,
        retries: u32,
        lane: u32,
        closed: Closed,
    ) -> Result<State, NoMemory>
        ensures { IfOk result (λ state. point_in state ≡ point_after retries (point_in self) (record { lane = lane; closed = closed })) }
    {
        let State::Asks {
            ask,
            moves,
            retries: left,
            next,
        } = self
        else {
            return Ok(self);
        };
        match closed {
            Closed::Served(body) => next.follow(alloc, retries, Ending::Served(body)),
            Closed::Not(end) => match end {
                NotServed::Fault { before, after } if left == 0 => next.follow(
                    alloc,
                    retries,
                    Ending::Dead {
                        lane,
                        before,
                        after,
                    },
                ),
                NotServed::Fault { .. } => Ok(State::Asks {
                    ask,
                    moves,
                    retries: left - 1,
                    next,
                }),
                other => match way(moves, ask.uri.scheme, other) {
                    Ok(uri) => Ok(State::Asks {
                        ask: Ask { uri, ..ask },
                        moves: moves.saturating_sub(1),
                        retries,
                        next,
                    }),
                    Err(ending) => next.follow(alloc, retries, ending),
                },
            },
        }
    }
}

impl Next {
    /// What comes after the trail that ended so.
    pub fn follow(self, alloc: Global, retries: u32, ending: Ending) -> Result<State, NoMemory>
        ensures { IfOk result (λ state. point_in state ≡ start retries (after self ending)) }
    {
        match self {
            Next::InRelease(release) => after_in_release(alloc, retries, release, ending),
            Next::Release => after_release(alloc, ending),
            Next::Plain(wanted) => Ok(after_plain(wanted, ending)),
            Next::Hashed(wanted) => after_hashed(alloc, retries, wanted, ending),
            Next::Resumed(wanted) => after_resumed(alloc, retries, wanted, ending),
            Next::Index(listing) => after_index(alloc, retries, listing, ending),
            Next::Patch(patching) => after_patch(alloc, retries, patching, ending),
        }
    }
}
