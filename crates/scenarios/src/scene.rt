//! A scenario as its lines are read: its runs, one after another over the same lists folder.
//!
//! What owns a folder, a disk or what a run came to has few exits, and hands it to others by reference: the proof of a
//! function grows with its exits times the values that each of them lets go.

use crate::change::read_change;
use crate::crashes::{crash_all, crash_by};
use crate::ends::put_board;
use crate::folder::files_of;
use crate::generated::put_made;
use crate::given::{Folder, Given, Kind, Stop};
use crate::items::put_item;
use crate::lines::{read_choice, read_number, take_line};
use crate::objects::disk_of;
use crate::refused::{Refused, said};
use crate::running::{Came, came_to};
use crate::stops::{crashed, told_everywhere, told_faults};
use crate::telling::{put_came, put_folder};
use acq_base::{Row, TryCopy};
use acq_memory::MemDisk;
use acq_outside::{Disk, DiskCall};
use case_words::Page;
use std::alloc::Global;
use std::sync::Wait;
use std::thread::Threads;

/// What has been read of a scenario.
#[derive(Drop)]
pub struct Scene {
    given: Given,
    begun: bool,
    /// Whether a line or a run was refused; the rest of the scenario is left out then.
    refused: bool,
    /// The calls of the lists folder that are made in place of a run, since it crashed last.
    calls: Row<DiskCall>,
    crashes: bool,
}

impl Scene {
    /// A scenario of which nothing has been read.
    pub fn new(alloc: Global) -> Scene {
        Scene {
            given: Given::new(alloc),
            begun: false,
            refused: false,
            calls: Row::new(alloc),
            crashes: false,
        }
    }

    /// Leaves the rest of the scenario out.
    pub fn refuse(&mut self) {
        self.refused = true;
    }

    /// Takes a line, and puts what is to be printed on the page.
    pub fn take<R>(&mut self, rt: &R, page: &mut Page, line: &str) -> Result<(), Refused>
    where
        R: AllocGlobal + Threads + Wait + Copy + Send + Sync + 'static,
    {
        if self.refused {
            return Ok(());
        }
        if !self.begun {
            return self.begin(page, line);
        }
        match line.split_once(' ') {
            None if line == "then" => self.go_on(rt, page),
            Some(("made", number)) => put_made(rt.alloc(), page, read_number(number)?),
            Some(("call", call)) => self.add_call(rt.alloc(), call),
            Some(("crash", choice)) => self.crash(rt.alloc(), page, choice),
            _ => take_line(rt.alloc(), &mut self.given, line),
        }
    }

    /// Takes the first line of a scenario, or a heading, which may stand before it.
    fn begin(&mut self, page: &mut Page, line: &str) -> Result<(), Refused> {
        if line.starts_with("scenario ") {
            self.begun = true;
        } else if !line.starts_with("# ") {
            return Err(Refused::Line);
        }
        page.put(line);
        page.put("\n");
        Ok(())
    }

    /// Ends a run, behind which a further one follows.
    fn go_on<R>(&mut self, rt: &R, page: &mut Page) -> Result<(), Refused>
    where
        R: AllocGlobal + Threads + Wait + Copy + Send + Sync + 'static,
    {
        let left = run(rt, page, &self.given)?;
        self.given.go_on(rt.alloc(), left);
        page.put("then\n");
        Ok(())
    }

    /// Takes a call of the lists folder.
    fn add_call(&mut self, alloc: Global, call: &str) -> Result<(), Refused> {
        self.crashes = true;
        Ok(self.calls.push(read_change(alloc, call)?)?)
    }

    /// Puts what a crash may leave behind the calls so far. Where it leaves one image, further calls go on from there.
    fn crash(&mut self, alloc: Global, page: &mut Page, choice: &str) -> Result<(), Refused> {
        self.crashes = true;
        match choice.strip_prefix("by") {
            None => {
                let width = said(choice.parse::<u8>())?;
                crash_all(alloc, page, &self.given.disk, self.calls.as_slice(), width)
            }
            Some(bytes) => self.crash_by(alloc, page, bytes),
        }
    }

    fn crash_by(&mut self, alloc: Global, page: &mut Page, bytes: &str) -> Result<(), Refused> {
        let choice = read_choice(alloc, bytes)?;
        let left = crash_by(
            alloc,
            page,
            &self.given.disk,
            self.calls.as_slice(),
            &choice,
        )?;
        self.given.disk = left;
        self.calls = Row::new(alloc);
        Ok(())
    }

    /// Ends the scenario with its last run.
    pub fn end<R>(&self, rt: &R, page: &mut Page) -> Result<(), Refused>
    where
        R: AllocGlobal + Threads + Wait + Copy + Send + Sync + 'static,
    {
        if !self.begun || self.refused {
            return Ok(());
        }
        if self.crashes {
            return if self.given.words.is_empty() {
                Ok(())
            } else {
                Err(Refused::Mixed)
            };
        }
        match self.given.kind {
            Kind::Call => {
                run(rt, page, &self.given)?;
                Ok(())
            }
            Kind::Board => put_board(rt.alloc(), page, &self.given),
            Kind::Item | Kind::Single => put_item(rt.alloc(), page, &self.given),
        }
    }
}

/// Runs what is given, puts what it came to on the page, and answers what it left.
fn run<R>(rt: &R, page: &mut Page, given: &Given) -> Result<Folder, Refused>
where
    R: AllocGlobal + Threads + Wait + Copy + Send + Sync + 'static,
{
    let mut disk = disk_before(rt.alloc(), given)?;
    let came = came_to(rt, given, &mut disk)?;
    told(rt, page, given, &came, disk)
}

/// Puts what a run came to on the page, and answers what it left.
fn told<R>(
    rt: &R,
    page: &mut Page,
    given: &Given,
    came: &Came,
    disk: MemDisk,
) -> Result<Folder, Refused>
where
    R: AllocGlobal + Threads + Wait + Copy + Send + Sync + 'static,
{
    put_came(rt.alloc(), page, came, given.tell);
    let left = left_by(rt.alloc(), page, given, disk)?;
    put_stops(rt, page, given, came, &left)?;
    Ok(left)
}

/// The lists folder before a run.
fn disk_before(alloc: Global, given: &Given) -> Result<MemDisk, Refused> {
    let failing = given.fails.disk.copy(alloc)?;
    let disk = disk_of(alloc, &given.disk, given.held, failing)?;
    Ok(match &given.stop {
        Stop::After { calls, choice: _ } => disk.with_fuse(*calls),
        _ => disk,
    })
}

/// Puts what a run left of its lists folder on the page, and answers it.
fn left_by(
    alloc: Global,
    page: &mut Page,
    given: &Given,
    disk: MemDisk,
) -> Result<Folder, Refused> {
    let mut disk = disk_behind(alloc, page, given, disk)?;
    let left = files_of(alloc, &mut disk)?;
    put_folder(page, &left, given.tell);
    Ok(left)
}

/// The lists folder behind a run, and behind the crash that stops it.
fn disk_behind(
    alloc: Global,
    page: &mut Page,
    given: &Given,
    disk: MemDisk,
) -> Result<MemDisk, Refused> {
    let mut disk = disk;
    if given.tell.untouched {
        put_touched(alloc, page, &mut disk);
    }
    match &given.stop {
        Stop::After { calls: _, choice } => crashed(alloc, page, disk, choice),
        _ => Ok(disk),
    }
}

/// Puts whether the first call of a lists folder, which is to fail, was made.
fn put_touched(alloc: Global, page: &mut Page, disk: &mut MemDisk) {
    let kept = disk.names(alloc).is_err();
    page.put(if kept { "untouched\n" } else { "touched\n" });
}

/// Puts what is left where the run is stopped, or fails, at each call of its lists folder.
fn put_stops<R>(
    rt: &R,
    page: &mut Page,
    given: &Given,
    came: &Came,
    left: &Folder,
) -> Result<(), Refused>
where
    R: AllocGlobal + Threads + Wait + Copy + Send + Sync + 'static,
{
    match &given.stop {
        Stop::Everywhere { least } => told_everywhere(rt, page, given, came, left, *least),
        Stop::EachFails { least } => told_faults(rt, page, given, came, left, *least),
        Stop::Never | Stop::After { .. } => Ok(()),
    }
}
