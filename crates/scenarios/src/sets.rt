//! Which set each source has: the former one, the new one, or neither.

use crate::folder::is_list;
use crate::given::Folder;
use crate::refused::Refused;
use acq_base::{Bytes, Row, Text};
use case_words::Page;
use std::alloc::Global;

/// How the files of a source compare with both sets.
#[derive(Clone, Copy)]
struct Has {
    former: bool,
    new: bool,
}

/// What folders have before a run and after it, by source. The lists of a source have names that begin as its Release's does;
/// those of none stand together.
#[derive(Drop)]
pub struct Sets<'a> {
    former: &'a Folder,
    new: &'a Folder,
    /// How the names of each source's lists begin.
    sources: Row<Text>,
}

/// The part of a Release's name that its lists share.
fn beginning(name: &[u8]) -> Option<&[u8]> {
    if is_list(name) {
        name.strip_suffix(b"Release".as_slice())
    } else {
        None
    }
}

fn add_sources(alloc: Global, sources: &mut Row<Text>, folder: &Folder) -> Result<(), Refused> {
    for (name, _) in folder.iter() {
        if let Some(shared) = beginning(name.as_bytes()) {
            if !sources
                .as_slice()
                .iter()
                .any(|source| source.as_bytes() == shared)
            {
                sources.push(Text::from_bytes(alloc, shared)?)?;
            }
        }
    }
    Ok(())
}

impl<'a> Sets<'a> {
    /// The sets of the sources that these folders have, before a run and after it.
    pub fn new(alloc: Global, former: &'a Folder, new: &'a Folder) -> Result<Sets<'a>, Refused> {
        let mut sources = Row::new(alloc);
        add_sources(alloc, &mut sources, former)?;
        add_sources(alloc, &mut sources, new)?;
        Ok(Sets {
            former,
            new,
            sources,
        })
    }

    /// The place of the source whose lists' names begin so, as much of them as can be. Those of none are one more.
    fn source_of(&self, name: &[u8]) -> usize {
        let mut found = self.sources.len();
        let mut most = 0;
        for (place, source) in self.sources.as_slice().iter().enumerate() {
            if source.len() >= most && name.starts_with(source.as_bytes()) {
                found = place;
                most = source.len();
            }
        }
        found
    }

    /// Compares the lists of one source in a folder with its sets, where it has any list in one of the three.
    fn compare(&self, source: usize, folder: &Folder) -> Option<Has> {
        let mut has = Has {
            former: true,
            new: true,
        };
        let mut any = false;
        for files in [self.former, self.new, folder] {
            for (name, _) in files.iter() {
                if is_list(name.as_bytes()) && self.source_of(name.as_bytes()) == source {
                    any = true;
                    has.former = has.former && same(folder.get(name), self.former.get(name));
                    has.new = has.new && same(folder.get(name), self.new.get(name));
                }
            }
        }
        if any { Some(has) } else { None }
    }

    /// Puts which set each source has in a folder, a word for each. Answers whether one has neither.
    pub fn put_words(&self, page: &mut Page, folder: &Folder) -> bool {
        let mut is_mixed = false;
        for source in 0..=self.sources.len() {
            if let Some(has) = self.compare(source, folder) {
                page.put(word(has));
                is_mixed = is_mixed || !has.former && !has.new;
            }
        }
        is_mixed
    }
}

fn word(has: Has) -> &'static str {
    match (has.former, has.new) {
        (true, true) => " same",
        (true, false) => " former",
        (false, true) => " new",
        (false, false) => " mixed",
    }
}

fn same(file: Option<&Bytes>, other: Option<&Bytes>) -> bool {
    match (file, other) {
        (Some(file), Some(other)) => file == other,
        (None, None) => true,
        _ => false,
    }
}
