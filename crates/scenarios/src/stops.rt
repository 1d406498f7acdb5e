//! Runs that are stopped or whose lists folder fails, what is left then, and the run that is made again over it.

use crate::folder::{files_of, is_list};
use crate::given::{Folder, Given};
use crate::objects::disk_of;
use crate::quoted::put_bytes;
use crate::refused::{Refused, finished};
use crate::running::{Came, came_to};
use crate::sets::Sets;
use crate::telling::{image, put_count, put_folder};
use acq_base::{NoMemory, Row};
use acq_memory::MemDisk;
use case_words::Page;
use commit_journal::{JournalError, open_journal};
use std::alloc::Global;
use std::sync::Wait;
use std::thread::Threads;

/// More calls of the lists folder than any run here makes.
const MOST: u64 = 400;

/// The folder that a crash leaves by this choice, with its journal opened again.
pub fn crashed(
    alloc: Global,
    page: &mut Page,
    disk: MemDisk,
    choice: &Row<u8>,
) -> Result<MemDisk, Refused> {
    let image = reopened(alloc, disk.crashed(choice)?)?;
    page.put("crash\n");
    Ok(image)
}

/// The same folder with its journal opened.
fn reopened(alloc: Global, disk: MemDisk) -> Result<MemDisk, Refused> {
    let mut disk = disk;
    open(alloc, &mut disk)?;
    Ok(disk)
}

/// Opens the journal of a folder.
fn open(alloc: Global, disk: &mut MemDisk) -> Result<(), Refused> {
    match open_journal(alloc, disk) {
        Ok(_) => Ok(()),
        Err(JournalError::NoMemory) => Err(Refused::NoMemory),
        Err(JournalError::DiskFault | JournalError::BadJournal(_)) => Err(Refused::Unopened),
    }
}

/// A run that isn't stopped, and what has been told of those that are.
#[derive(Drop)]
struct Stops<'a> {
    given: &'a Given,
    came: &'a Came,
    left: &'a Folder,
    sets: Sets<'a>,
    told: Row<String>,
    /// The folders that stops have left so far, of which each is tried once.
    seen: Row<String>,
}

/// Whether a call was stopped: it says so, and has no log.
fn was_stopped(came: &Came) -> bool {
    came.status == 102 && came.output() == b"E disk\n".as_slice() && came.log.is_none()
}

/// Whether two folders have the same lists.
fn same_lists(folder: &Folder, other: &Folder) -> bool {
    let mut lists = other.iter().filter(|file| is_list(file.0.as_bytes()));
    for file in folder.iter().filter(|file| is_list(file.0.as_bytes())) {
        match lists.next() {
            Some(list) if file.0 == list.0 && file.1 == list.1 => {}
            _ => return false,
        }
    }
    lists.next().is_none()
}

impl<'a> Stops<'a> {
    fn new(
        alloc: Global,
        given: &'a Given,
        came: &'a Came,
        left: &'a Folder,
    ) -> Result<Stops<'a>, Refused> {
        Ok(Stops {
            given,
            came,
            left,
            sets: Sets::new(alloc, &given.disk, left)?,
            told: Row::new(alloc),
            seen: Row::new(alloc),
        })
    }

    /// Stops the run after each of its calls of the lists folder, and answers how many there are.
    fn each_stopped<R>(&mut self, rt: &R, page: &mut Page) -> Result<u64, Refused>
    where
        R: AllocGlobal + Threads + Wait + Copy + Send + Sync + 'static,
    {
        for calls in 0..MOST {
            if !self.stopped_after(rt, page, calls)? {
                return Ok(calls);
            }
        }
        Err(Refused::Endless)
    }

    /// Stops the run after so many calls, in each of 16 ways. Answers whether it was stopped.
    fn stopped_after<R>(&mut self, rt: &R, page: &mut Page, calls: u64) -> Result<bool, Refused>
    where
        R: AllocGlobal + Threads + Wait + Copy + Send + Sync + 'static,
    {
        let mut stopped = false;
        for bits in 0..16u8 {
            stopped = self.stopped_by(rt, page, calls, bits)?;
        }
        Ok(stopped)
    }

    /// Stops the run after so many calls, where the crash leaves what these bits choose. Answers whether it was stopped.
    fn stopped_by<R>(
        &mut self,
        rt: &R,
        page: &mut Page,
        calls: u64,
        bits: u8,
    ) -> Result<bool, Refused>
    where
        R: AllocGlobal + Threads + Wait + Copy + Send + Sync + 'static,
    {
        let mut disk = self.disk_until(rt.alloc(), calls)?;
        let came = came_to(rt, self.given, &mut disk)?;
        let mut left = left_by(rt.alloc(), disk, bits)?;
        self.note(rt, page, &came, &mut left)
    }

    /// The lists folder before the run, which is stopped after so many calls.
    fn disk_until(&self, alloc: Global, calls: u64) -> Result<MemDisk, Refused> {
        let disk = disk_of(alloc, &self.given.disk, self.given.held, Row::new(alloc))?;
        Ok(disk.with_fuse(calls))
    }

    /// Lets each call of the lists folder fail by itself, and answers how many there are.
    fn each_failing<R>(&mut self, rt: &R, page: &mut Page) -> Result<u64, Refused>
    where
        R: AllocGlobal + Threads + Wait + Copy + Send + Sync + 'static,
    {
        for calls in 0..MOST {
            if !self.failing_at(rt, page, calls.saturating_add(1))? {
                return Ok(calls);
            }
        }
        Err(Refused::Endless)
    }

    /// Lets the call of this number fail. Answers whether the run was stopped by it.
    fn failing_at<R>(&mut self, rt: &R, page: &mut Page, number: u64) -> Result<bool, Refused>
    where
        R: AllocGlobal + Threads + Wait + Copy + Send + Sync + 'static,
    {
        let mut disk = self.disk_failing(rt.alloc(), number)?;
        let came = came_to(rt, self.given, &mut disk)?;
        self.note_fault(rt, page, &came, &mut disk)
    }

    /// The lists folder before the run, of which the call of this number is to fail.
    fn disk_failing(&self, alloc: Global, number: u64) -> Result<MemDisk, Refused> {
        let failing = single(alloc, number)?;
        disk_of(alloc, &self.given.disk, self.given.held, failing)
    }

    /// Tells what a run left whose lists folder was to fail. Answers whether the run was stopped by it.
    fn note_fault<R>(
        &mut self,
        rt: &R,
        page: &mut Page,
        came: &Came,
        disk: &mut MemDisk,
    ) -> Result<bool, Refused>
    where
        R: AllocGlobal + Threads + Wait + Copy + Send + Sync + 'static,
    {
        if !was_stopped(came) {
            put_otherwise(page, self.came, came);
            return Ok(false);
        }
        open(rt.alloc(), disk)?;
        self.note(rt, page, came, disk)
    }

    /// Tells which set each source has once a call was stopped or came to its end, and the run that is then made again,
    /// where that hasn't been told yet. Answers whether the call was stopped.
    fn note<R>(
        &mut self,
        rt: &R,
        page: &mut Page,
        came: &Came,
        disk: &mut MemDisk,
    ) -> Result<bool, Refused>
    where
        R: AllocGlobal + Threads + Wait + Copy + Send + Sync + 'static,
    {
        if let Some(entry) = self.entry(rt, came, disk)? {
            self.tell(page, entry)?;
        }
        Ok(was_stopped(came))
    }

    /// What is told of a call and of the run that is made again, or none where a stop has left the same files before.
    fn entry<R>(
        &mut self,
        rt: &R,
        came: &Came,
        disk: &mut MemDisk,
    ) -> Result<Option<String>, Refused>
    where
        R: AllocGlobal + Threads + Wait + Copy + Send + Sync + 'static,
    {
        let mut entry = Page::new(rt.alloc());
        if self.put_entry(rt, &mut entry, came, disk)? {
            Ok(Some(finished(entry)?))
        } else {
            Ok(None)
        }
    }

    /// Puts what is told of a call and of the run that is made again. Answers whether it is to be told.
    fn put_entry<R>(
        &mut self,
        rt: &R,
        entry: &mut Page,
        came: &Came,
        disk: &mut MemDisk,
    ) -> Result<bool, Refused>
    where
        R: AllocGlobal + Threads + Wait + Copy + Send + Sync + 'static,
    {
        if self.put_left(rt.alloc(), entry, came, disk)? {
            return Ok(false);
        }
        self.put_again(rt, entry, disk)?;
        Ok(true)
    }

    /// Puts which set each source has in a folder. Answers whether a stop has left its files before, which is then all.
    fn put_left(
        &mut self,
        alloc: Global,
        entry: &mut Page,
        came: &Came,
        disk: &mut MemDisk,
    ) -> Result<bool, Refused> {
        let folder = files_of(alloc, disk)?;
        let stopped = was_stopped(came);
        if stopped && self.was_seen(alloc, &folder)? {
            return Ok(true);
        }
        if !stopped {
            put_otherwise(entry, self.came, came);
        }
        entry.put(if stopped { "left" } else { "ended" });
        self.put_sets(entry, &folder);
        Ok(false)
    }

    /// Whether a stop has left these files before, which is so from now on.
    fn was_seen(&mut self, alloc: Global, folder: &Folder) -> Result<bool, Refused> {
        let files = image(alloc, folder)?;
        if has(&self.seen, files.as_str()) {
            return Ok(true);
        }
        self.seen.push(files)?;
        Ok(false)
    }

    /// Puts which set each source has, and the lists where one has neither.
    fn put_sets(&self, entry: &mut Page, folder: &Folder) {
        let is_mixed = self.sets.put_words(entry, folder);
        entry.put("\n");
        if is_mixed {
            put_folder(entry, folder, self.given.tell);
        }
    }

    /// Makes the run again, and puts what it comes to.
    fn put_again<R>(&self, rt: &R, entry: &mut Page, disk: &mut MemDisk) -> Result<(), Refused>
    where
        R: AllocGlobal + Threads + Wait + Copy + Send + Sync + 'static,
    {
        let again = came_to(rt, self.given, disk)?;
        put_call(entry, "again", &again);
        self.put_others(rt.alloc(), entry, disk)
    }

    /// Puts the lists where they aren't those of the run that isn't stopped.
    fn put_others(
        &self,
        alloc: Global,
        entry: &mut Page,
        disk: &mut MemDisk,
    ) -> Result<(), Refused> {
        let folder = files_of(alloc, disk)?;
        if !same_lists(&folder, self.left) {
            entry.put("other lists\n");
            put_folder(entry, &folder, self.given.tell);
        }
        Ok(())
    }

    /// Tells an entry, if it hasn't been told yet.
    fn tell(&mut self, page: &mut Page, entry: String) -> Result<(), Refused> {
        if has(&self.told, entry.as_str()) {
            return Ok(());
        }
        page.put(entry.as_str());
        Ok(self.told.push(entry)?)
    }
}

/// Whether a row has a text.
fn has(texts: &Row<String>, text: &str) -> bool {
    texts.as_slice().iter().any(|one| one.as_str() == text)
}

/// Puts what a call that wasn't stopped came to, where that isn't what it must come to.
fn put_otherwise(entry: &mut Page, whole: &Came, came: &Came) {
    if came.status != whole.status || came.output() != whole.output() {
        put_call(entry, "otherwise", came);
    }
}

/// Puts the status and the output of a call.
fn put_call(entry: &mut Page, word: &str, came: &Came) {
    entry.put(word);
    entry.put(" ");
    entry.show(came.status);
    entry.put(" ");
    put_bytes(entry, came.output());
    entry.put("\n");
}

/// What a crash leaves of a folder by these bits, with its journal opened again.
fn left_by(alloc: Global, disk: MemDisk, bits: u8) -> Result<MemDisk, Refused> {
    let choice = choice(alloc, bits)?;
    reopened(alloc, disk.crashed(&choice)?)
}

/// Four bits of a number as a choice: all that may become of up to four pending changes of names, and several of what may
/// become of bytes that aren't synced.
fn choice(alloc: Global, bits: u8) -> Result<Row<u8>, NoMemory> {
    let mut row = Row::new(alloc);
    for place in 0..4u8 {
        row.push((bits >> place) & 1)?;
    }
    Ok(row)
}

/// A row of one number.
fn single(alloc: Global, number: u64) -> Result<Row<u64>, NoMemory> {
    let mut row = Row::new(alloc);
    row.push(number)?;
    Ok(row)
}

/// Puts how many calls of the lists folder there are, or where they are as many as they must be, how many these are.
fn put_calls(page: &mut Page, word: &str, calls: u64, least: u64) {
    page.put(word);
    if calls < least {
        put_count(page, " only", calls);
    } else {
        put_count(page, " at least", least);
    }
}

/// Stops a run after each of its calls of the lists folder, in each of 16 ways, and tells what is left.
pub fn told_everywhere<R>(
    rt: &R,
    page: &mut Page,
    given: &Given,
    came: &Came,
    left: &Folder,
    least: u64,
) -> Result<(), Refused>
where
    R: AllocGlobal + Threads + Wait + Copy + Send + Sync + 'static,
{
    let mut stops = Stops::new(rt.alloc(), given, came, left)?;
    let calls = stops.each_stopped(rt, page)?;
    put_calls(page, "stops", calls, least);
    Ok(())
}

/// Lets each call of the lists folder fail by itself, and tells what is left.
pub fn told_faults<R>(
    rt: &R,
    page: &mut Page,
    given: &Given,
    came: &Came,
    left: &Folder,
    least: u64,
) -> Result<(), Refused>
where
    R: AllocGlobal + Threads + Wait + Copy + Send + Sync + 'static,
{
    let mut stops = Stops::new(rt.alloc(), given, came, left)?;
    let calls = stops.each_failing(rt, page)?;
    put_calls(page, "faults", calls, least);
    Ok(())
}
