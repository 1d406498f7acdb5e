//! The jobs that are out, by lane.
ghost use Rattle.std.specs.Prelude.{◌≡◌, ◌≤◌, length, slice_get, Some, None, true, IfOk, is_some};
ghost use Rattle.std.specs.List.{list_any};
ghost use Rattle.board_model.specs.Slots.{joined};
ghost use Rattle.update_core.specs.BoardRefinement.{board_of};
ghost use Rattle.board_model.specs.Boards.{staged_name};
ghost use Rattle.lane_jobs.specs.JobsOut.{JobsOut, none_out, nothing_yet, with_row};

use acq_base::{Bytes, Job, NoMemory, TryCopy};
use job_fetch::Intake;
use std::alloc::Global;
use std::marker::Model;
use std::mem;
use update_core::Board;

/// A job that is out, and what has come of it.
#[derive(Drop)]
pub struct Transfer {
    pub job: Job,
    pub intake: Intake,
}

/// The jobs that are out, by lane of a board, and whether the coordinator goes on alone.
#[derive(Drop)]
pub struct Transfers {
    rows: Vec<Option<Transfer>>,
    alone: bool,
}

impl Model for Transfers {
    ghost use Rattle.std.specs.Prelude.{◌≤◌, vec_len};
    ghost use Rattle.lane_jobs.specs.JobsOut.{JobsOut};

    ghost Value = { JobsOut };

    ghost view = { λ s. record { rows = s.rows.items; alone = s.alone } };

    ghost invariant = { λ s. vec_len s.rows ≤ 4294967295 };
}

impl Transfers {
    /// So many lanes, and no job out.
    pub fn new(alloc: Global, lanes: u32) -> Result<Transfers, NoMemory>
        ensures { IfOk result (λ jobs. jobs ≡ none_out lanes) }
    {
        let mut rows = Vec::with_capacity(alloc, lanes as usize)?;
        for _ in 0..lanes {
            rows.push(None)?;
        }
        Ok(Transfers { rows, alone: false })
    }

    /// How many lanes there are.
    pub fn lanes(&self) -> u32
        ensures { result ≡ length self.now.rows }
    {
        self.rows.len() as u32
    }

    /// Whether the coordinator goes on alone.
    pub fn is_alone(&self) -> bool
        ensures { result ≡ self.now.alone }
    {
        self.alone
    }

    /// No worker is used any more.
    pub fn go_alone(&mut self)
        ensures { self.new ≡ record { rows = self.old.rows; alone = true } }
    {
        self.alone = true;
    }

    /// Whether a job is out.
    pub fn has_out(&self) -> bool
        ensures { result ≡ list_any is_some self.now.rows }
    {
        self.rows.iter().any(|row| row.is_some())
    }

    /// This job is out from a lane, if the lane is there.
    pub fn put(&mut self, lane: u32, transfer: Transfer)
        ensures { self.new ≡ with_row lane (Some transfer) self.old }
    {
        let lane = lane as usize;
        if lane < self.rows.len() {
            self.rows[lane] = Some(transfer);
        }
    }

    /// The job that is out from a lane, which is out no more.
    pub fn take(&mut self, lane: u32) -> Option<Transfer>
        ensures transfer { result ≡ joined (slice_get self.old.rows lane) }
        ensures rows { self.new ≡ with_row lane None self.old }
    {
        let lane = lane as usize;
        if lane < self.rows.len() {
            mem::replace(&mut self.rows[lane], None)
        } else {
            None
        }
    }
}

/// What has come of a job before its first word.
pub fn first_intake(alloc: Global, board: &Board, number: u64) -> Result<Intake, NoMemory>
    ensures { IfOk result (λ intake. intake ≡ nothing_yet (staged_name (board_of board.now) number)) }
{
    match board.stage(number) {
        Some(name) => Ok(Intake::Unopened(name.copy(alloc)?)),
        None => Ok(Intake::Held(Bytes::new(alloc))),
    }
}
