//! An entry of a sources list.

use acq_base::{ByHash, NoMemory, Row, Text, TryCopy, Uri};
use std::alloc::Global;

/// What a line of the one-line form, or a stanza for one of its URIs and suites, names.
#[derive(Debug, PartialEq, Drop)]
pub struct Entry {
    /// The name under which the text was read.
    pub file: Text,
    /// The line of the entry, or that of its stanza's first field, counted from 1.
    pub line: u64,
    /// Whether it names binary packages, by the type `deb`.
    pub binary: bool,
    /// Whether it names source packages, by the type `deb-src`.
    pub source: bool,
    /// The base URI, whose path ends in `/`.
    pub uri: Uri,
    /// The suite, or the exact path of a folder, which ends in `/`.
    pub suite: Text,
    /// The components in order, as they are written: none for an exact path, and else at least one.
    pub components: Row<Text>,
    /// The architectures that it names itself, at least one.
    pub archs: Option<Row<Text>>,
    /// Whether lists are asked for under their digests, if it says so itself.
    pub by_hash: Option<ByHash>,
    /// Whether lists are brought up to date by patches, if it says so itself.
    pub pdiffs: Option<bool>,
}

impl TryCopy for Entry {
    fn copy(&self, alloc: Global) -> Result<Entry, NoMemory> {
        Ok(Entry {
            file: self.file.copy(alloc)?,
            line: self.line,
            binary: self.binary,
            source: self.source,
            uri: self.uri.copy(alloc)?,
            suite: self.suite.copy(alloc)?,
            components: self.components.copy(alloc)?,
            archs: self.archs.copy(alloc)?,
            by_hash: self.by_hash,
            pdiffs: self.pdiffs,
        })
    }
}
