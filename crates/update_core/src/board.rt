//! The board of all sources.

ghost use Rattle.std.specs.Prelude.{◌≡◌, ◌<◌, ◌≤◌, length, map, true, [], Some, IfOk, OnOk, IsSome, option_and_then, option_copied, option_map};
ghost use Rattle.acq_base.specs.Plan.{IsSound};
ghost use Rattle.board_model.specs.Boards as model;
ghost use Rattle.board_model.specs.Keys.{key_at, keys_from, name_at};
ghost use Rattle.board_model.specs.Slots as asks;
ghost use Rattle.acq_outside.specs.Stays.{ReadsCounting};
ghost use Rattle.board_source.specs.Refinement.{config_of};

use crate::beginning::{Beginning, begin_board, no_verdicts, none_out};
use crate::jobs::{lane_with, put_out, take_back};
use crate::sources::Sources;
use crate::telling::{log, log_verdict};
use acq_base::{
    Job, ListName, NoMemory, Plan, Row, Settings, Source, TryCopy, sources_are_planned,
};
use acq_outside::{Disk, OutError};
use board_model::Key;
use board_slot::list_name;
use board_source::{Setup, by_name};
use host_queues::Queues;
use kept_hooks::Judge;
use lists_dir::Installed;
use release_file::Change;
use std::alloc::Global;
use std::collections::BTreeSet;
use update_model::{Ask, Asked, Closed, RunLog, Settled, Verdict2};

/// All sources of a plan, the jobs that are out, and what was told so far. After `NoMemory` a board may only be dropped.
#[derive(Drop)]
pub struct Board {
    pub(crate) setup: Setup,
    /// Which item each number is.
    pub(crate) keys: Vec<Key>,
    pub(crate) sources: Sources,
    /// The numbers of the items whose asks wait for their hosts.
    pub(crate) queues: Queues,
    /// The number of the item whose job is out, for each lane.
    pub(crate) out: Vec<Option<u64>>,
    pub(crate) asks: Row<Asked>,
    pub(crate) settled: Row<u32>,
    pub(crate) verdicts: Vec<Verdict2>,
    /// None: it is handed on as the lists that a run has removed.
    pub(crate) removed: Row<ListName>,
    ghost numbered: { keys.items ≡ keys_from 0 setup.sources },
    ghost each: { length sources.slots.items ≡ length setup.sources },
    ghost told: { length verdicts.items ≡ length setup.sources },
    ghost small: { length keys.items ≤ 4096 },
    ghost few: { length out.items ≤ 4294967295 },
    ghost none: { removed ≡ [] },
}

impl Board {
    ghost use Rattle.update_core.specs.BoardRefinement.{board_of, config_for};
    ghost use Rattle.lists_dir.specs.Refinement.{old_in};
    ghost use Rattle.update_core.specs.TakenIn.{TakesIn, TookAnew};

    /// A board of a plan of at most 4,096 sources and targets, on which each Release is asked for.
    ///
    /// `old` is what is installed of each source, `parts` the sizes of the partial files in bytes, `now` the moment of the
    /// run in seconds since 1970-01-01 00:00:00 UTC.
    pub fn new(
        alloc: Global,
        plan: Plan,
        old: Row<Installed>,
        parts: Row<(ListName, u64)>,
        settings: Settings,
        change: Change,
        now: i64,
        lanes: u32,
    ) -> Result<Board, NoMemory>
        requires plan { IsSound plan }
        requires each { length old ≡ length plan.sources }
        requires lanes { 1 ≤ lanes }
        ensures { IfOk result (λ board. board_of board ≡ model.first_board (config_for plan parts settings change now) (map old_in old) lanes) }
    {
        sources_are_planned();
        let setup = Setup {
            sources: plan.sources,
            sizes: by_name(alloc, parts)?,
            settings,
            change,
            moment: now,
        };
        Board::first(alloc, setup, old, lanes)
    }

    /// The board with which a run begins.
    #[tactic(auto, unfolding(crate::specs::BoardRefinement::board_of))]
    fn first(
        alloc: Global,
        setup: Setup,
        old: Row<Installed>,
        lanes: u32,
    ) -> Result<Board, NoMemory>
        requires few { length (keys_from 0 setup.sources) ≤ 4096 }
        requires each { length old ≡ length setup.sources }
        requires lanes { 1 ≤ lanes }
        ensures { IfOk result (λ board. board_of board ≡ model.first_board (config_of setup) (map old_in old) lanes) }
    {
        let Beginning {
            keys,
            slots,
            queues,
        } = begin_board(alloc, &setup, old, lanes)?;
        let out = none_out(alloc, lanes)?;
        let verdicts = no_verdicts(alloc, setup.sources.len())?;
        Ok(Board {
            setup,
            keys,
            sources: Sources {
                slots,
                ready: BTreeSet::new(alloc),
            },
            queues,
            out,
            asks: Row::new(alloc),
            settled: Row::new(alloc),
            verdicts,
            removed: Row::new(alloc),
        })
    }

    /// The next job of a lane, which is out then: that of the oldest ask that waits in it. `None` where a job of the lane
    /// is out, or none waits.
    #[tactic(auto, unfolding(crate::specs::BoardRefinement::board_of))]
    pub fn issue(&mut self, alloc: Global, lane: u32) -> Result<Option<Job>, NoMemory>
        ensures job { IfOk result (λ job. job ≡ model.issued_job (board_of self.old) lane) }
        ensures board { OnOk result (board_of self.new ≡ model.issued (board_of self.old) lane) }
    {
        let Some(number) = self.queues.next(lane) else {
            return Ok(None);
        };
        let Some(ask) = self.ask(number) else {
            return Ok(None);
        };
        let job = job(alloc, number, ask)?;
        put_out(&mut self.out, lane, number);
        Ok(Some(job))
    }

    /// Whether a job is out. It takes no memory.
    #[tactic(auto, unfolding(crate::specs::BoardRefinement::board_of))]
    pub fn is_out(&self, number: u64) -> bool
        ensures { result ≡ model.is_out (board_of self.now) number }
    {
        lane_with(self.out.as_slice(), number).is_some()
    }

    /// The list into whose partial file a job's answer goes, if the job is out and there is one. It takes no memory.
    #[tactic(auto, unfolding(crate::specs::BoardRefinement::board_of))]
    pub fn stage(&self, number: u64) -> Option<&ListName>
        ensures { option_copied result ≡ model.staged_name (board_of self.now) number }
    {
        if !self.is_out(number) {
            return None;
        }
        let ask = self.ask(number)?;
        if !ask.stage {
            return None;
        }
        self.name(number)
    }

    /// The answer of a lane's method to a job comes in. `judge` says which heads of Releases may follow which. Where a Release came,
    /// its lists begin; what is installed of one that patches may lead from is read of the disk then.
    ///
    /// `Fault` only where the disk's count of faults rose.
    #[tactic(auto, unfolding(crate::specs::BoardRefinement::board_of))]
    pub fn absorb<D: Disk>(
        &mut self,
        alloc: Global,
        judge: &Judge,
        disk: &mut D,
        lane: u32,
        number: u64,
        closed: Closed,
    ) -> Result<(), OutError>
        requires out { model.is_out (board_of self.old) number ≡ true }
        requires change { judge.now.change ≡ (board_of self.old).config.change }
        ensures frame { ReadsCounting OutError.Fault D.Disk disk.old disk.new result }
        ensures takes { OnOk result (TakesIn (D.tells disk.old) (D.files disk.old) (board_of self.old) lane number closed (board_of self.new)) }
    {
        let Some(from) = lane_with(self.out.as_slice(), number) else {
            drop(closed);
            return Ok(());
        };
        let Some(key) = self.asker(number) else {
            drop(closed);
            return Ok(());
        };
        self.take_in(alloc, judge, disk, number, key, from, lane, closed)
    }

    /// The item of a number hears the answer to its job, which was out from a lane.
    #[tactic(auto, unfolding(crate::specs::BoardRefinement::board_of))]
    fn take_in<D: Disk>(
        &mut self,
        alloc: Global,
        judge: &Judge,
        disk: &mut D,
        number: u64,
        key: Key,
        from: usize,
        lane: u32,
        closed: Closed,
    ) -> Result<(), OutError>
        requires change { judge.now.change ≡ self.old.setup.change }
        requires key { key_at self.old.setup.sources number ≡ Some key }
        requires asks { IsSome (asks.ask_of (asks.item_at (board_of self.old).slots key)) }
        requires number { number < 4096 }
        requires from { from ≤ 4294967295 }
        ensures frame { ReadsCounting OutError.Fault D.Disk disk.old disk.new result }
        ensures took { (asker : model.Asker) → model.asker_of (board_of self.old) number ≡ Some asker
            → OnOk result (TookAnew (D.tells disk.old) (D.files disk.old) (board_of self.old) number asker from (record { lane = lane; closed = closed }) (board_of self.new)) }
    {
        let logged = log(
            alloc,
            &mut self.asks,
            &self.setup,
            &self.sources,
            key,
            lane,
            &closed,
        );
        if let Err(error) = logged {
            drop(closed);
            return Err(error.into());
        }
        take_back(&mut self.out, from);
        self.queues.done(from as u32);
        self.sources
            .hear(alloc, judge, disk, &self.setup, key, lane, closed)?;
        self.sources
            .put_heard(alloc, &mut self.queues, number, key)?;
        Ok(())
    }

    /// The first source all whose items have ended and that isn't settled; `None` exactly where there is none. It takes no
    /// memory.
    #[tactic(auto, unfolding(crate::specs::BoardRefinement::board_of))]
    pub fn ready(&self) -> Option<u32>
        ensures { result ≡ model.first_ready (board_of self.now).slots }
    {
        self.sources.first_ready()
    }

    /// What the source of `ready` comes to, and which of its files change for it. It is settled then.
    #[tactic(auto, unfolding(crate::specs::BoardRefinement::board_of))]
    pub fn settle(&mut self, alloc: Global, source: u32) -> Result<Settled, NoMemory>
        requires { model.first_ready (board_of self.old).slots ≡ Some source }
        ensures settled { IfOk result (λ settled. model.settled_of (board_of self.old) source ≡ Some settled) }
        ensures board { IfOk result (λ settled. board_of self.new ≡ model.settled_as (board_of self.old) source settled.verdict) }
    {
        let settled = self.sources.settle(alloc, &self.setup, source)?;
        let told = log_verdict(
            alloc,
            &mut self.settled,
            &mut self.verdicts,
            source,
            &settled.verdict,
        );
        if let Err(error) = told {
            drop(settled);
            return Err(error);
        }
        Ok(settled)
    }

    /// Whether each source is settled. It takes no memory.
    #[tactic(auto, unfolding(crate::specs::BoardRefinement::board_of))]
    pub fn finished(&self) -> bool
        ensures { result ≡ model.is_finished (board_of self.now) }
    {
        self.settled.len() == self.setup.sources.len()
    }

    /// What a finished board tells: `verdicts` in plan order, `settled` in the order of the calls of `settle`, `asks` in
    /// the order of the answers. `removed` is empty. It takes no memory.
    #[tactic(auto, unfolding(crate::specs::BoardRefinement::board_of))]
    pub fn into_log(self) -> RunLog
        requires { model.is_finished (board_of self) ≡ true }
        ensures { result ≡ model.log_of (board_of self) }
    {
        let Board {
            verdicts,
            settled,
            asks,
            removed,
            ..
        } = self;
        RunLog {
            verdicts: Row::from(verdicts),
            settled,
            asks,
            removed,
        }
    }

    /// The sources of the plan, in order. It takes no memory.
    #[tactic(auto, unfolding(crate::specs::BoardRefinement::board_of))]
    pub fn sources(&self) -> &[Source]
        ensures { result.now ≡ (board_of self.now).config.sources }
    {
        self.setup.sources.as_slice()
    }

    /// Which item a number is.
    fn key(&self, number: u64) -> Option<Key>
        ensures { result ≡ key_at self.now.setup.sources number }
    {
        self.keys.get(number as usize).copied()
    }

    /// What is asked under a number, if an item asks under it.
    #[tactic(auto, unfolding(crate::specs::BoardRefinement::board_of))]
    fn ask(&self, number: u64) -> Option<&Ask>
        ensures { option_copied result ≡ option_map (λ (a : model.Asker). a.ask) (model.asker_of (board_of self.now) number) }
    {
        let key = self.key(number)?;
        self.sources.ask(key)
    }

    /// Which item asks under a number, if one does.
    #[tactic(auto, unfolding(crate::specs::BoardRefinement::board_of))]
    fn asker(&self, number: u64) -> Option<Key>
        ensures { result ≡ option_map (λ (a : model.Asker). a.key) (model.asker_of (board_of self.now) number) }
    {
        let key = self.key(number)?;
        if self.sources.ask(key).is_none() {
            return None;
        }
        Some(key)
    }

    /// The name of the list under a number, if an item asks under it and it is a list.
    #[tactic(auto, unfolding(crate::specs::BoardRefinement::board_of))]
    fn name(&self, number: u64) -> Option<&ListName>
        ensures { option_copied result ≡ option_and_then (λ (a : model.Asker). name_at a.source a.key.place) (model.asker_of (board_of self.now) number) }
    {
        let key = self.asker(number)?;
        let source = self.setup.sources.as_slice().get(key.source as usize)?;
        list_name(source, key.place)
    }
}

/// The job for an ask.
fn job(alloc: Global, number: u64, ask: &Ask) -> Result<Job, NoMemory>
    ensures { IfOk result (λ job. job ≡ model.job_for number ask.now) }
{
    Ok(Job {
        no: number,
        uri: ask.uri.copy(alloc)?,
        max: ask.max,
        from: ask.from,
    })
}
