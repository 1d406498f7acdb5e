//! A lists folder in memory: its calls, what a crash leaves of it, and what it gives when its journal is opened.

use crate::page::Page;
use crate::words::{Refused, number};
use crate::{folder, sums};
use acq_base::{Bytes, Row, Text, TryCopy};
use acq_memory::MemDisk;
use acq_outside::Disk;
use std::alloc::Global;
use std::thread::Threads;

/// With what a folder begins.
#[derive(Drop)]
struct Start {
    files: Row<(Text, Bytes)>,
    held: bool,
    /// The numbers of the calls that are to fail, counted from 1.
    failing: Row<u64>,
    /// After how many calls all fail.
    fuse: Option<u64>,
}

/// A folder in memory, and how it came to be what it is.
#[derive(Drop)]
pub struct Memory {
    alloc: Global,
    start: Start,
    disk: Option<MemDisk>,
}

impl Start {
    fn new(alloc: Global) -> Start {
        Start {
            files: Row::new(alloc),
            held: false,
            failing: Row::new(alloc),
            fuse: None,
        }
    }

    /// Notes what a call says of the beginning.
    fn note(&mut self, page: &mut Page, call: &str, words: &[Text]) -> Result<(), Refused> {
        match (call, words) {
            ("held", []) => {
                self.held = true;
                page.put("held");
                return Ok(());
            }
            ("fails", numbers) => self.fail(numbers)?,
            ("fuse", [calls]) => self.fuse = Some(number(calls)?),
            _ => return Err(Refused::NoCall),
        }
        page.put("noted");
        Ok(())
    }

    fn fail(&mut self, numbers: &[Text]) -> Result<(), Refused> {
        for word in numbers {
            self.failing.push(number(word)?)?;
        }
        Ok(())
    }

    /// Adds files, a name and a content each.
    fn add(&mut self, alloc: Global, files: &[Text]) -> Result<(), Refused> {
        for file in files.chunks(2) {
            let [name, content] = file else {
                return Err(Refused::NoCall);
            };
            let name = name.copy(alloc)?;
            let content = content.copy(alloc)?.into_bytes();
            self.files.push((name, content))?;
        }
        Ok(())
    }

    /// Adds a file of so many letters `x`.
    fn add_long(&mut self, alloc: Global, name: &Text, size: u64) -> Result<(), Refused> {
        let name = name.copy(alloc)?;
        let content = vec![in alloc; b'x'; size as usize]?;
        self.files.push((name, Bytes::from(content)))?;
        Ok(())
    }

    /// A folder that begins so.
    fn disk(&self, alloc: Global) -> Result<MemDisk, Refused> {
        let files = self.files.copy(alloc)?;
        if !MemDisk::takes(&files) {
            return Err(Refused::NoCall);
        }
        let disk = MemDisk::new(alloc, files, self.held, self.failing.copy(alloc)?)?;
        Ok(match self.fuse {
            Some(calls) => disk.with_fuse(calls),
            None => disk,
        })
    }
}

impl Memory {
    /// A folder that no line has begun.
    pub fn new(alloc: Global) -> Memory {
        Memory {
            alloc,
            start: Start::new(alloc),
            disk: None,
        }
    }

    /// Puts what a call answers.
    pub fn answer(&mut self, page: &mut Page, call: &str, words: &[Text]) -> Result<(), Refused> {
        match call {
            "begin" | "begin-long" => self.begin(page, call, words),
            "held" | "fails" | "fuse" => self.start.note(page, call, words),
            "crash" => crash(self.alloc, page, &mut self.disk, words),
            _ => self.called(page, call, words),
        }
    }

    /// A folder of these files, or of one file of so many letters, begins with the next call.
    fn begin(&mut self, page: &mut Page, call: &str, words: &[Text]) -> Result<(), Refused> {
        self.disk = None;
        self.start = Start::new(self.alloc);
        match (call, words) {
            ("begin", files) => self.start.add(self.alloc, files)?,
            (_, [name, size]) => self.start.add_long(self.alloc, name, number(size)?)?,
            _ => return Err(Refused::NoCall),
        }
        page.put("begun");
        Ok(())
    }

    /// Puts the sums of the lists that words plan, once the folder has begun.
    pub fn sums<T: Threads + Sync>(
        &mut self,
        threads: &T,
        page: &mut Page,
        words: &[Text],
    ) -> Result<(), Refused> {
        self.begin_disk()?;
        match &mut self.disk {
            Some(disk) => sums::answer(threads, self.alloc, page, disk, words),
            None => Err(Refused::NoCall),
        }
    }

    /// The folder begins, if it has not yet.
    fn begin_disk(&mut self) -> Result<(), Refused> {
        if self.disk.is_none() {
            self.disk = Some(self.start.disk(self.alloc)?);
        }
        Ok(())
    }

    /// Puts what a call of the folder answers, once it has begun.
    fn called(&mut self, page: &mut Page, call: &str, words: &[Text]) -> Result<(), Refused> {
        self.begin_disk()?;
        match (&mut self.disk, call) {
            (Some(disk), "faults") => page.put_number(disk.faults()),
            (Some(disk), "dry") => page.put_number(disk.dry()),
            (Some(disk), _) => folder::answer(self.alloc, page, disk, call, words)?,
            (None, _) => return Err(Refused::NoCall),
        }
        Ok(())
    }
}

/// A crash leaves what this choice says, and the folder is that from now on.
fn crash(
    alloc: Global,
    page: &mut Page,
    disk: &mut Option<MemDisk>,
    choice: &[Text],
) -> Result<(), Refused> {
    let choice = bytes(alloc, choice)?;
    let Some(crashed) = disk.take() else {
        return Err(Refused::NoCall);
    };
    let mut left = crashed.crashed(&choice)?;
    let put = put_image(alloc, page, &mut left);
    *disk = Some(left);
    put
}

/// The numbers below 256 that words are.
fn bytes(alloc: Global, words: &[Text]) -> Result<Row<u8>, Refused> {
    let mut bytes = Row::new(alloc);
    for word in words {
        let Ok(byte) = u8::try_from(number(word)?) else {
            return Err(Refused::NoCall);
        };
        bytes.push(byte)?;
    }
    Ok(bytes)
}

/// Puts the files of a folder, `NAME=CONTENT` each, or `nothing`.
fn put_image<D: Disk>(alloc: Global, page: &mut Page, disk: &mut D) -> Result<(), Refused> {
    match disk.names(alloc) {
        Ok(names) => put_files(page, disk, names.as_slice()),
        Err(_) => Err(Refused::NoCall),
    }
}

fn put_files<D: Disk>(page: &mut Page, disk: &mut D, names: &[Text]) -> Result<(), Refused> {
    if names.is_empty() {
        page.put("nothing");
    }
    for (at, name) in names.iter().enumerate() {
        if at > 0 {
            page.put(" ");
        }
        page.put_bytes(name.as_bytes());
        page.put("=");
        folder::put_front(page, disk, name.as_bytes())?;
    }
    Ok(())
}
