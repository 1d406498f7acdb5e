//! A run of the board of all sources over the mirror, whose answers come in one of several orders.

ghost use Rattle.std.specs.Prelude.{◌≡◌, OnOk, Some, true};
ghost use Rattle.board_model.specs.Boards.{first_ready, is_out};
ghost use Rattle.update_core.specs.BoardRefinement.{board_of};

use crate::answers::{answer, faults_at};
use crate::beginning::{LANES, begin, configured};
use crate::given::Given;
use crate::objects::disk_of;
use crate::refused::Refused;
use acq_base::{Job, NoMemory, NotServed, Row, Text, Uri};
use acq_memory::MemDisk;
use acq_outside::OutError;
use kept_hooks::Judge;
use release_file::{Head, is_allowed};
use std::alloc::Global;
use update_core::Board;
use update_model::{Closed, RunLog, Settled};
use uri_names::uri_text;

/// In which order answers come.
#[derive(Clone, Copy, PartialEq, Eq)]
pub enum Schedule {
    /// At once, and the first lane before the last.
    FirstLane,
    /// At once, and the last lane before the first.
    LastLane,
    /// Each lane has a job out, the last that went out is answered first, and nothing is settled while one is out.
    Held,
}

/// What a run keeps beside its board.
#[derive(Drop)]
struct Course {
    /// The lists folder, of which installed lists are read once their source's Release has come.
    disk: MemDisk,
    /// The jobs that are out, each with its lane.
    out: Vec<(u32, Job)>,
    /// How often each lane's method failed.
    failed: [u64; 2],
    /// The URIs at which asks failed, once for each.
    faults: Vec<Text>,
    /// What was settled, in order.
    settled: Row<(u32, Settled)>,
}

/// What a run came to.
#[derive(Drop)]
pub struct Finished {
    pub log: RunLog,
    /// What each source came to, in the order in which they were settled.
    pub settled: Row<(u32, Settled)>,
}

impl Course {
    /// That of a run that has not asked yet.
    fn new(alloc: Global, given: &Given) -> Result<Course, Refused> {
        let disk = disk_of(alloc, &given.disk, false, Row::new(alloc))?;
        Ok(Course {
            disk,
            out: Vec::new(alloc),
            failed: [0, 0],
            faults: Vec::new(alloc),
            settled: Row::new(alloc),
        })
    }

    /// Whether an ask at this URI is to fail once more, which is then noted.
    fn fails(&mut self, alloc: Global, given: &Given, uri: &Uri) -> Result<bool, NoMemory> {
        let uri = uri_text(alloc, uri)?;
        if times(self.faults.as_slice(), &uri) >= faults_at(given, &uri) {
            return Ok(false);
        }
        self.faults.push(uri)?;
        Ok(true)
    }

    /// The method of a lane fails once more.
    fn fault(&mut self, lane: u32) -> Result<Closed, Refused> {
        let Some(failed) = self.failed.get_mut(lane as usize) else {
            return Err(Refused::Board);
        };
        let before = *failed;
        let after = before.saturating_add(1);
        *failed = after;
        Ok(Closed::Not(NotServed::Fault { before, after }))
    }
}

/// The next job of a lane goes out, if there is one.
fn issue(alloc: Global, board: &mut Board, course: &mut Course, lane: u32) -> Result<(), Refused>
    ensures { OnOk result ((board_of board.new).config.change ≡ (board_of board.old).config.change) }
{
    if let Some(job) = issued(alloc, board, lane)? {
        course.out.push((lane, job))?;
    }
    Ok(())
}

/// The next job of a lane, which goes out. That changes nothing of what may change.
fn issued(alloc: Global, board: &mut Board, lane: u32) -> Result<Option<Job>, NoMemory>
    ensures { OnOk result ((board_of board.new).config.change ≡ (board_of board.old).config.change) }
{
    board.issue(alloc, lane)
}

/// The job that went out last is answered, if one is out.
fn absorb_last(
    alloc: Global,
    given: &Given,
    board: &mut Board,
    judge: &Judge,
    course: &mut Course,
) -> Result<(), Refused>
    requires { judge.now.change ≡ (board_of board.old).config.change }
    ensures { OnOk result ((board_of board.new).config.change ≡ (board_of board.old).config.change) }
{
    let Some((lane, job)) = course.out.pop() else {
        return Ok(());
    };
    let closed = closed(alloc, given, board, course, lane, &job)?;
    absorbed(alloc, board, judge, &mut course.disk, lane, job.no, closed)
}

/// The answer to a job of a lane: a fault, as long as asks at its URI are to fail, or what the mirror answers.
fn closed(
    alloc: Global,
    given: &Given,
    board: &Board,
    course: &mut Course,
    lane: u32,
    job: &Job,
) -> Result<Closed, Refused> {
    if course.fails(alloc, given, &job.uri)? {
        return course.fault(lane);
    }
    answer(alloc, given, job, board.stage(job.no))
}

/// How often a text stands in a list.
fn times(texts: &[Text], text: &Text) -> u64 {
    texts.iter().filter(|other| *other == text).count() as u64
}

/// The board takes an answer in.
fn absorbed(
    alloc: Global,
    board: &mut Board,
    judge: &Judge,
    disk: &mut MemDisk,
    lane: u32,
    number: u64,
    closed: Closed,
) -> Result<(), Refused>
    requires { judge.now.change ≡ (board_of board.old).config.change }
    ensures { OnOk result ((board_of board.new).config.change ≡ (board_of board.old).config.change) }
{
    if !board.is_out(number) {
        return Err(Refused::Board);
    }
    Ok(take_in(alloc, board, judge, disk, lane, number, closed)?)
}

/// The answer to a job that is out comes in. It changes nothing of what may change.
fn take_in(
    alloc: Global,
    board: &mut Board,
    judge: &Judge,
    disk: &mut MemDisk,
    lane: u32,
    number: u64,
    closed: Closed,
) -> Result<(), OutError>
    requires out { is_out (board_of board.old) number ≡ true }
    requires change { judge.now.change ≡ (board_of board.old).config.change }
    ensures { OnOk result ((board_of board.new).config.change ≡ (board_of board.old).config.change) }
{
    board.absorb(alloc, judge, disk, lane, number, closed)
}

/// The first source that is ready is settled, if there is one.
fn settle(alloc: Global, board: &mut Board, course: &mut Course) -> Result<(), Refused>
    ensures { OnOk result ((board_of board.new).config.change ≡ (board_of board.old).config.change) }
{
    if let Some(source) = board.ready() {
        let settled = settled(alloc, board, source)?;
        course.settled.push((source, settled))?;
    }
    Ok(())
}

/// A source is settled. That changes nothing of what may change.
fn settled(alloc: Global, board: &mut Board, source: u32) -> Result<Settled, NoMemory>
    requires { first_ready (board_of board.old).slots ≡ Some source }
    ensures { OnOk result ((board_of board.new).config.change ≡ (board_of board.old).config.change) }
{
    board.settle(alloc, source)
}

/// The jobs that go out before the next answer.
fn issue_all(
    alloc: Global,
    board: &mut Board,
    course: &mut Course,
    schedule: Schedule,
) -> Result<(), Refused>
    ensures { OnOk result ((board_of board.new).config.change ≡ (board_of board.old).config.change) }
{
    for turn in 0..LANES {
        if schedule == Schedule::Held || course.out.is_empty() {
            let lane = if schedule == Schedule::LastLane {
                LANES - 1 - turn
            } else {
                turn
            };
            issue(alloc, board, course, lane)?;
        }
    }
    Ok(())
}

/// One answer, with what goes before it and what is settled behind it.
fn step(
    alloc: Global,
    given: &Given,
    board: &mut Board,
    judge: &Judge,
    course: &mut Course,
    schedule: Schedule,
) -> Result<(), Refused>
    requires { judge.now.change ≡ (board_of board.old).config.change }
    ensures { OnOk result ((board_of board.new).config.change ≡ (board_of board.old).config.change) }
{
    issue_all(alloc, board, course, schedule)?;
    if schedule == Schedule::Held && course.out.is_empty() {
        return settle(alloc, board, course);
    }
    absorb_last(alloc, given, board, judge, course)?;
    if schedule == Schedule::Held {
        return Ok(());
    }
    settle(alloc, board, course)
}

/// A run over the mirror to its end.
pub fn finish(alloc: Global, given: &Given, schedule: Schedule) -> Result<Finished, Refused> {
    let configured = configured(alloc, given)?;
    let change = configured.change;
    let board = begin(alloc, given, configured)?;
    let test = Box::new(alloc, move |old: &Head, new: &Head| {
        is_allowed(&change, old, new)
    })?;
    ended(alloc, given, board, &Judge::new(test, change), schedule)
}

/// What a run comes to that begins with this board.
fn ended(
    alloc: Global,
    given: &Given,
    board: Board,
    judge: &Judge,
    schedule: Schedule,
) -> Result<Finished, Refused>
    requires { judge.now.change ≡ (board_of board).config.change }
{
    let mut board = board;
    let mut course = Course::new(alloc, given)?;
    steps(alloc, given, &mut board, judge, &mut course, schedule)?;
    if !board.finished() {
        return Err(Refused::Endless);
    }
    Ok(Finished {
        log: board.into_log(),
        settled: course.settled,
    })
}

/// Steps until all is settled. No scenario needs as many as this loop allows.
fn steps(
    alloc: Global,
    given: &Given,
    board: &mut Board,
    judge: &Judge,
    course: &mut Course,
    schedule: Schedule,
) -> Result<(), Refused>
    requires { judge.now.change ≡ (board_of board.old).config.change }
{
    for _turn in 0..500u32 {
        if board.finished() {
            return Ok(());
        }
        step(alloc, given, board, judge, course, schedule)?;
    }
    Ok(())
}
