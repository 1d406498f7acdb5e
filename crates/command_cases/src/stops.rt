//! Calls that are stopped within the folder for package files, and what a crash leaves of it then.

use crate::calling::call;
use crate::folders::{Folder, files, folder};
use crate::objects::{Objects, disk, make_objects};
use crate::steps::Step;
use crate::telling::put_number;
use acq_base::{NoMemory, Row, Text};
use case_words::{Page, Refused};
use std::alloc::Global;
use std::mem;
use std::sync::Wait;
use std::thread::Threads;

/// More calls of the folder than any call here makes.
const MOST: u64 = 100;

/// The status of a call whose folder failed.
const STOPPED: u8 = 102;

/// What is looked for in what crashes leave: a file, what it was and what it is whole, and the other files.
#[derive(Drop)]
struct Looked<'a> {
    name: &'a Text,
    /// The file that is on its way to that name.
    part: Text,
    before: &'a Folder,
    after: &'a Folder,
}

/// In how many of the folders that crashes left the file was there so.
#[derive(Drop)]
struct Counts {
    absent: u64,
    former: u64,
    whole: u64,
    /// It has other bytes.
    torn: u64,
    /// A file of another name isn't as it was.
    others: u64,
}

impl Counts {
    fn new() -> Counts {
        Counts {
            absent: 0,
            former: 0,
            whole: 0,
            torn: 0,
            others: 0,
        }
    }

    /// Counts a folder.
    fn note(&mut self, looked: &Looked, left: &Folder) {
        let count = match left.get(looked.name) {
            None => &mut self.absent,
            file if file == looked.before.get(looked.name) => &mut self.former,
            file if file == looked.after.get(looked.name) => &mut self.whole,
            Some(_) => &mut self.torn,
        };
        *count = count.saturating_add(1);
        if !looked.others_stay(left) {
            self.others = self.others.saturating_add(1);
        }
    }

    fn put(&self, page: &mut Page) {
        put_number(page, "  images without it", self.absent);
        put_number(page, "  images with the former one", self.former);
        put_number(page, "  images with it whole", self.whole);
        put_number(page, "  images with other bytes", self.torn);
        put_number(page, "  images with other changes", self.others);
    }
}

impl<'a> Looked<'a> {
    fn new(
        alloc: Global,
        name: &'a Text,
        before: &'a Folder,
        after: &'a Folder,
    ) -> Result<Looked<'a>, Refused> {
        let mut part = Text::from_bytes(alloc, b"partial/")?;
        part.append(name.as_bytes())?;
        Ok(Looked {
            name,
            part,
            before,
            after,
        })
    }

    /// Whether the files of other names are those before.
    fn others_stay(&self, left: &Folder) -> bool {
        self.are_in(left, self.before) && self.are_in(self.before, left)
    }

    /// Whether the files of other names in a folder are in another one too.
    fn are_in(&self, folder: &Folder, other: &Folder) -> bool {
        for (name, content) in folder.iter() {
            if *name != *self.name && *name != self.part && other.get(name) != Some(content) {
                return false;
            }
        }
        true
    }
}

/// Puts how many calls of the folder for package files there are behind which the call may be stopped, and what becomes of
/// the file of a line `stop` in what crashes leave then. The call was made before, and came to its end.
pub fn put_stops<R>(
    rt: &R,
    page: &mut Page,
    steps: &[Step],
    ended: &mut Objects,
) -> Result<(), Refused>
where
    R: AllocGlobal + Threads + Wait + Copy + Send + Sync + 'static,
{
    let before = folder(rt.alloc(), steps, b"place")?;
    let after = files(rt.alloc(), &mut ended.aside.place)?;
    let looked = Looked::new(rt.alloc(), stopped_at(steps)?, &before, &after)?;
    let mut counts = Counts::new();
    let stops = stop_each(rt, steps, &looked, &mut counts)?;
    put_number(page, "  stops", stops);
    counts.put(page);
    Ok(())
}

/// The name of the file that the last line `stop` tells.
fn stopped_at(steps: &[Step]) -> Result<&Text, Refused> {
    let mut found = Err(Refused::NoCall);
    for step in steps {
        if step.is(b"stop") {
            found = step.argument();
        }
    }
    found
}

/// Stops the call behind each of its calls of the folder, and answers how many there are. The last crash comes behind its end.
fn stop_each<R>(
    rt: &R,
    steps: &[Step],
    looked: &Looked,
    counts: &mut Counts,
) -> Result<u64, Refused>
where
    R: AllocGlobal + Threads + Wait + Copy + Send + Sync + 'static,
{
    for calls in 0..MOST {
        if !stop_after(rt, steps, calls, looked, counts)? {
            return Ok(calls);
        }
    }
    Err(Refused::NoCall)
}

/// Stops the call after so many calls of the folder, and crashes that in 16 ways. Answers whether it was stopped.
fn stop_after<R>(
    rt: &R,
    steps: &[Step],
    calls: u64,
    looked: &Looked,
    counts: &mut Counts,
) -> Result<bool, Refused>
where
    R: AllocGlobal + Threads + Wait + Copy + Send + Sync + 'static,
{
    let mut stopped = false;
    for bits in 0..16u8 {
        stopped = stop_by(rt, steps, calls, bits, looked, counts)?;
    }
    Ok(stopped)
}

/// Stops the call after so many calls of the folder, where the crash leaves what these bits choose. Answers whether it was
/// stopped.
fn stop_by<R>(
    rt: &R,
    steps: &[Step],
    calls: u64,
    bits: u8,
    looked: &Looked,
    counts: &mut Counts,
) -> Result<bool, Refused>
where
    R: AllocGlobal + Threads + Wait + Copy + Send + Sync + 'static,
{
    let place = disk(rt.alloc(), steps, b"place", false)?.with_fuse(calls);
    let mut it = make_objects(rt.alloc(), steps, place)?;
    stop_in(rt, steps, bits, looked, counts, &mut it)
}

/// Makes the call over these objects and crashes its folder. Answers whether it was stopped.
fn stop_in<R>(
    rt: &R,
    steps: &[Step],
    bits: u8,
    looked: &Looked,
    counts: &mut Counts,
    it: &mut Objects,
) -> Result<bool, Refused>
where
    R: AllocGlobal + Threads + Wait + Copy + Send + Sync + 'static,
{
    let came = call(rt, steps, it)?;
    let left = left_by(rt.alloc(), it, bits)?;
    counts.note(looked, &left);
    Ok(came.status == STOPPED)
}

/// What a crash leaves of the folder for package files by these bits.
fn left_by(alloc: Global, it: &mut Objects, bits: u8) -> Result<Folder, Refused> {
    let choice = choice(alloc, bits)?;
    let other = disk(alloc, &[], b"place", false)?;
    let place = mem::replace(&mut it.aside.place, other);
    files(alloc, &mut place.crashed(&choice)?)
}

/// Four bits of a number as a choice: all that may become of up to four pending changes of names, and several of what may
/// become of bytes that aren't synced.
fn choice(alloc: Global, bits: u8) -> Result<Row<u8>, NoMemory> {
    let mut row = Row::new(alloc);
    for place in 0..4u8 {
        row.push((bits >> place) & 1)?;
    }
    Ok(row)
}
