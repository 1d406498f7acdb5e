//! The configuration of a folder in memory.

use crate::plans;
use crate::reports::put_line;
use crate::settings::put_settings;
use crate::vanishing::Vanishing;
use acq_base::{Bytes, Row, Source, Text, TryCopy};
use acq_memory::MemEtc;
use acq_outside::Place;
use case_words::{Page, Refused, number, yes_or_no};
use configuration::{Configured, configure};
use release_file::Change;
use report_text::FaultLine;
use std::alloc::Global;
use std::mem;

/// A file: where it lies, its name there and its text.
#[derive(Drop)]
struct File {
    place: Place,
    name: Text,
    text: Text,
}

/// A folder of files, the options of the command line, and the numbers of the calls of the folder that fail.
#[derive(Drop)]
pub struct Folder {
    files: Vec<File>,
    options: Row<Text>,
    failing: Row<u64>,
}

impl Folder {
    /// The empty folder.
    pub fn new(alloc: Global) -> Folder {
        Folder {
            files: Vec::new(alloc),
            options: Row::new(alloc),
            failing: Row::new(alloc),
        }
    }

    /// Whether a call puts something into the folder: a file by its path, an option, or the number of a call of the folder that
    /// is to fail.
    pub fn takes(&mut self, alloc: Global, name: &str, rest: &[&[u8]]) -> Result<bool, Refused> {
        match (name, rest) {
            ("file", [path, text]) => self.files.push(file_of(alloc, path, text)?)?,
            ("option", [option]) => self.options.push(Text::from_bytes(alloc, option)?)?,
            ("fails", [call]) => self.failing.push(number(call)?)?,
            _ => return Ok(false),
        }
        Ok(true)
    }

    /// Appends what the folder gives, which is empty then.
    pub fn put_configured(
        &mut self,
        alloc: Global,
        page: &mut Page,
        part: &[u8],
    ) -> Result<(), Refused> {
        let whole = mem::replace(self, Folder::new(alloc));
        match part {
            b"faults" => whole.put_each_fails(alloc, page),
            _ => whole.put_told(alloc, page, part),
        }
    }

    fn etc(&self, alloc: Global, failing: Row<u64>) -> Result<MemEtc, Refused> {
        let rows = rows_of(alloc, self.files.as_slice())?;
        if !MemEtc::takes(&rows) {
            return Err(Refused::NoCall);
        }
        Ok(MemEtc::new(rows, failing))
    }

    /// Appends what the folder gives: its settings, its change or its plan, or the line that tells why it is refused.
    fn put_told(&self, alloc: Global, page: &mut Page, part: &[u8]) -> Result<(), Refused> {
        let mut etc = self.etc(alloc, self.failing.copy(alloc)?)?;
        match configure(alloc, &mut etc, &self.options) {
            Ok(configured) => put_part(page, &configured, part),
            Err(refusal) => put_line(alloc, page, &FaultLine::from(refusal)),
        }
    }

    /// Appends what comes where one call of the folder fails: the first, the second, and so on to the first that is never made.
    fn put_each_fails(&self, alloc: Global, page: &mut Page) -> Result<(), Refused> {
        for call in 1..100u64 {
            if !self.put_failed(alloc, page, call)? {
                break;
            }
        }
        Ok(())
    }

    /// Appends what comes where this call of the folder fails, and says whether it is made.
    fn put_failed(&self, alloc: Global, page: &mut Page, call: u64) -> Result<bool, Refused> {
        let failing = Row::from(Vec::from_slice(alloc, &[call])?);
        let mut etc = self.etc(alloc, failing)?;
        match configure(alloc, &mut etc, &self.options) {
            Ok(_) => {
                page.show(format_args!("call {call} isn't made"));
                Ok(false)
            }
            Err(refusal) => {
                page.show(format_args!("{refusal}; "));
                Ok(true)
            }
        }
    }
}

/// A file whose path is sources.list, apt.conf or the path of a part.
fn file_of(alloc: Global, path: &[u8], text: &[u8]) -> Result<File, Refused> {
    let (place, name) = place_of(path)?;
    let name = Text::from_bytes(alloc, name)?;
    let text = Text::from_bytes(alloc, text)?;
    Ok(File { place, name, text })
}

fn rows_of(alloc: Global, files: &[File]) -> Result<Row<(Place, Text, Bytes)>, Refused> {
    let mut rows = Row::new(alloc);
    for file in files {
        rows.push(row_of(alloc, file)?)?;
    }
    Ok(rows)
}

fn row_of(alloc: Global, file: &File) -> Result<(Place, Text, Bytes), Refused> {
    let name = file.name.copy(alloc)?;
    let text = Vec::from_slice(alloc, file.text.as_bytes())?;
    Ok((file.place, name, Bytes::from(text)))
}

/// Appends the plan of a folder whose files are gone when they are asked for.
pub fn put_vanished(alloc: Global, page: &mut Page, names: &[&[u8]]) -> Result<(), Refused> {
    let mut etc = Vanishing::new(alloc, names)?;
    match configure(alloc, &mut etc, &Row::new(alloc)) {
        Ok(configured) => {
            put_sources(page, configured.plan.sources.as_slice());
            Ok(())
        }
        Err(refusal) => put_line(alloc, page, &FaultLine::from(refusal)),
    }
}

/// The place of a path, and the name there.
fn place_of(path: &[u8]) -> Result<(Place, &[u8]), Refused> {
    match path {
        b"sources.list" => Ok((Place::SourcesList, b"")),
        b"apt.conf" => Ok((Place::Conf, b"")),
        _ => part_of(path),
    }
}

/// The folder of a part's path, and the name there.
fn part_of(path: &[u8]) -> Result<(Place, &[u8]), Refused> {
    if let Some(name) = path.strip_prefix(b"sources.list.d/") {
        return Ok((Place::SourcesParts, name));
    }
    match path.strip_prefix(b"apt.conf.d/") {
        Some(name) => Ok((Place::ConfParts, name)),
        None => Err(Refused::NoCall),
    }
}

fn put_part(page: &mut Page, configured: &Configured, part: &[u8]) -> Result<(), Refused> {
    match part {
        b"settings" => put_settings(page, &configured.settings),
        b"change" => put_change(page, configured.change),
        b"plan" => put_sources(page, configured.plan.sources.as_slice()),
        _ => return Err(Refused::NoCall),
    }
    Ok(())
}

fn put_change(page: &mut Page, change: Change) {
    page.put("Origin ");
    page.put(yes_or_no(change.origin));
    page.put(", Label ");
    page.put(yes_or_no(change.label));
    page.put(", Suite ");
    page.put(yes_or_no(change.suite));
    page.put(", Codename ");
    page.put(yes_or_no(change.codename));
}

/// Appends a line for each source: its base's host and path, its suite, and the paths of its lists.
fn put_sources(page: &mut Page, sources: &[Source]) {
    for source in sources {
        if !page.is_empty() {
            page.put("\n");
        }
        plans::put_paths(page, source);
    }
    if page.is_empty() {
        page.put("no source");
    }
}
