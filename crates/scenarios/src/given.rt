//! What a run is given: the words, and what the objects in memory have.

use crate::refused::Refused;
use acq_base::{Bytes, ListName, NoMemory, Row, Text, TryCopy};
use acq_outside::Place;
use std::alloc::Global;
use std::collections::BTreeMap;

/// The files of a folder, by name.
pub type Folder = BTreeMap<Text, Bytes>;

/// What a mirror has under a URI.
#[derive(Drop)]
pub enum Has {
    File(Bytes),
    /// A file that is given as a whole alone: an ask for its rest is answered 200.
    Whole(Bytes),
    /// A file of so many letters `a`.
    Letters(u64),
    /// A move to this URI, or to none of this profile.
    Moved(Option<Text>),
    Absent(u16),
    /// A file of more bytes than any ask allows.
    TooBig,
    /// An answer that breaks the protocol at this byte.
    Garbled(u64),
}

/// What is run over what is given.
#[derive(Clone, Copy)]
pub enum Kind {
    /// The top call.
    Call,
    /// The board of all sources, under several orders of answers.
    Board,
    /// One item: that of the first list, or where no Release is installed that of the Release.
    Item,
    /// The item of the first list as a single file that no Release names, of the sum in the Release that is installed.
    Single,
}

/// A file of the configuration folder.
#[derive(Drop)]
pub struct Configured {
    pub place: Place,
    pub name: Text,
    pub content: Bytes,
}

/// A server of the tree over HTTP: of its files below a root, at a host's port.
#[derive(Drop)]
pub struct Server {
    pub root: Text,
    pub host: Text,
    pub port: u16,
}

/// Rows that are given to each run until lines of a further run give others.
#[derive(Drop)]
pub struct Kept<T> {
    alloc: Global,
    rows: Row<T>,
    former: bool,
}

impl<T: Drop> Kept<T> {
    fn new(alloc: Global) -> Kept<T> {
        Kept {
            alloc,
            rows: Row::new(alloc),
            former: false,
        }
    }

    /// Puts a row, to those of this run alone.
    pub fn push(&mut self, row: T) -> Result<(), NoMemory> {
        if self.former {
            self.rows = Row::new(self.alloc);
            self.former = false;
        }
        self.rows.push(row)
    }

    /// The rows.
    pub fn as_slice(&self) -> &[T] {
        self.rows.as_slice()
    }

    /// Whether there is no row.
    pub fn is_empty(&self) -> bool {
        self.rows.is_empty()
    }
}

/// The calls of one method that are to fail in place of those of all methods.
#[derive(Drop)]
pub struct LaneFails {
    /// The method's number, from 0 on.
    pub lane: u8,
    pub begin: Row<u64>,
    pub more: Row<u64>,
}

/// The numbers of the calls that are to fail, of each object, counted from 1.
#[derive(Drop)]
pub struct Fails {
    /// Those that begin a fetch, of each method.
    pub begin: Row<u64>,
    /// Those that go on with one.
    pub more: Row<u64>,
    /// The methods that fail in another way.
    pub lanes: Row<LaneFails>,
    pub disk: Row<u64>,
    pub etc: Row<u64>,
    pub sink: Row<u64>,
    pub tree: Row<u64>,
    pub link: Row<u64>,
}

impl Fails {
    fn new(alloc: Global) -> Fails {
        Fails {
            begin: Row::new(alloc),
            more: Row::new(alloc),
            lanes: Row::new(alloc),
            disk: Row::new(alloc),
            etc: Row::new(alloc),
            sink: Row::new(alloc),
            tree: Row::new(alloc),
            link: Row::new(alloc),
        }
    }
}

/// What is told beside the status, the output, the asks and the lists.
#[derive(Clone, Copy)]
pub struct Tell {
    /// Whether there is a log.
    pub log: bool,
    /// How often the methods failed, and at which asks.
    pub faults: bool,
    /// How many moments the clock gave.
    pub moments: bool,
    /// The lists on their way.
    pub partial: bool,
    pub journal: bool,
    /// Whether the first call of the lists folder, which is to fail, is still to come.
    pub untouched: bool,
    /// The asks source by source and list by list.
    pub items: bool,
    /// Which methods answered, and how many came back.
    pub lanes: bool,
}

/// What one host answers is held until another one has answered.
#[derive(Drop)]
pub struct Held {
    pub host: Text,
    pub awaited: Text,
}

/// How a run is stopped.
#[derive(Drop)]
pub enum Stop {
    Never,
    /// After so many calls of the lists folder, with a choice of what the crash leaves.
    After { calls: u64, choice: Row<u8> },
    /// After each of its calls, in each of 16 ways. There are at least so many.
    Everywhere { least: u64 },
    /// Each of its calls fails by itself. There are at least so many.
    EachFails { least: u64 },
}

/// What a run is given.
#[derive(Drop)]
pub struct Given {
    pub words: Kept<String>,
    pub etc: Kept<Configured>,
    /// The moment, in seconds since 1970-01-01 00:00:00 UTC.
    pub now: i64,
    pub mirror: Kept<(Text, Has)>,
    /// How often an ask of a board at a URI fails before it is answered.
    pub faulty: Kept<(Text, u64)>,
    pub kind: Kind,
    /// The files that a tree serves.
    pub tree: Kept<(Text, Bytes)>,
    /// By what they are served over HTTP, if they are.
    pub server: Option<Server>,
    /// What the peer of each connection says, piece by piece.
    pub peers: Kept<Row<Bytes>>,
    /// The lists folder before the run.
    pub disk: Folder,
    /// Whether the folder is a former run's, of which files may be given anew.
    former: bool,
    /// Whether another process holds the lists folder.
    pub held: bool,
    pub methods: u8,
    /// The gate that the methods share, if there is one.
    pub gate: Option<Held>,
    pub fails: Fails,
    pub stop: Stop,
    pub tell: Tell,
}

impl Given {
    /// Nothing yet, over one method.
    pub fn new(alloc: Global) -> Given {
        Given {
            words: Kept::new(alloc),
            etc: Kept::new(alloc),
            now: 0,
            mirror: Kept::new(alloc),
            faulty: Kept::new(alloc),
            kind: Kind::Call,
            tree: Kept::new(alloc),
            server: None,
            peers: Kept::new(alloc),
            disk: BTreeMap::new(alloc),
            former: false,
            held: false,
            methods: 1,
            gate: None,
            fails: Fails::new(alloc),
            stop: Stop::Never,
            tell: Tell {
                log: false,
                faults: false,
                moments: false,
                partial: false,
                journal: false,
                untouched: false,
                items: false,
                lanes: false,
            },
        }
    }

    /// Puts a file into the lists folder. Only one that a former run left may be there already.
    pub fn put(&mut self, name: Text, content: Bytes) -> Result<(), Refused> {
        let there = self.disk.insert(name, content)?;
        if there.is_some() && !self.former {
            return Err(Refused::Names);
        }
        Ok(())
    }

    /// A file of the lists folder.
    pub fn installed(&self, alloc: Global, name: &Text) -> Result<Option<Bytes>, NoMemory> {
        match self.disk.get(name) {
            Some(content) => Ok(Some(content.copy(alloc)?)),
            None => Ok(None),
        }
    }

    /// What there is of a list on its way.
    pub fn part(&self, alloc: Global, name: &ListName) -> Result<Option<&Bytes>, NoMemory> {
        let mut path = Text::from_bytes(alloc, b"partial/")?;
        path.append(name.0.as_bytes())?;
        Ok(self.disk.get(&path))
    }

    /// A further run begins over this folder. What fails, holds or stops is given anew; all else stays until it is given.
    pub fn go_on(&mut self, alloc: Global, left: Folder) {
        self.words.former = true;
        self.etc.former = true;
        self.mirror.former = true;
        self.tree.former = true;
        self.peers.former = true;
        self.disk = left;
        self.former = true;
        self.held = false;
        self.gate = None;
        self.fails = Fails::new(alloc);
        self.stop = Stop::Never;
    }
}
