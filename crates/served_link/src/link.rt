//! A link to a server of a tree, in memory.
ghost use Rattle.std.specs.Prelude.{◌≡◌};
ghost use Rattle.served_link.specs.Link.{is_home, is_ready, nothing};

use crate::pending::Pending;
use crate::responding::respond;
use crate::sending::send_on;
use acq_base::{Bytes, NoMemory, Text, TryCopy};
use acq_net::Link;
use acq_outside::{Fault, OutError, Tree};
use std::alloc::Global;
use std::marker::Model;
use tree_serve::Planned;

/// How a link's calls went.
#[derive(Debug, Drop)]
pub struct LinkCounts {
    /// How often `connect` was called.
    pub made: u64,
    /// How often the peer's end was heard.
    pub ends: u64,
    /// How many faults were for want of memory.
    pub dry: u64,
}

/// A host and its port.
#[derive(Debug, Drop)]
pub struct Place {
    pub host: Text,
    pub port: u16,
}

/// A link whose peer serves the files of a tree below a root, at a host's port. At any other place its peer serves no file.
///
/// One request is answered at a time: what is sent before the last response was received, behind one that closes the
/// connection, or that isn't one whole request, gets no answer, and the peer ends. Where nothing is open a `send` is Ok all the
/// same. What is due stays due where the connection is closed. Hosts are compared byte by byte.
#[derive(Drop)]
pub struct ServedLink<T: Tree> {
    alloc: Global,
    tree: T,
    root: Text,
    host: Text,
    port: u16,
    counts: LinkCounts,
    opened: bool,
    answered: bool,
    /// Where the present connection leads, if there is one.
    place: Option<Place>,
    /// How many responses there were on it.
    number: u64,
    /// What is still to be sent of the last one, where every request got one.
    pending: Option<Pending>,
}

impl<T: Tree> Model for ServedLink<T> {
    ghost use Rattle.std.specs.Prelude.{IfSome};
    ghost use Rattle.served_link.specs.Link.{IsInRange, LinkState, PendingWithin};

    ghost Value = { LinkState T };

    ghost view = { λ link. record {
      tree = link.tree;
      root = link.root;
      host = link.host;
      port = link.port;
      counts = link.counts;
      opened = link.opened;
      answered = link.answered;
      place = link.place;
      number = link.number;
      pending = link.pending;
    } };

    ghost invariant = { λ link. IfSome (T.files link.tree) (λ files. PendingWithin files link.pending) × IsInRange link.pending };
}

impl<T: Tree> ServedLink<T> {
    ghost use Rattle.std.specs.Prelude.{◌≡◌, false, None, option_map};
    ghost use Rattle.served_link.specs.Link.{LinkState, answered_of, due_of, ends_of, faults_of, made_of, opened_of, world_of};
    ghost use Rattle.served_link.specs.Served.{mirror_of};

    /// A link to a server of the files below `root`, at this host's port. It isn't connected yet.
    pub fn new(alloc: Global, tree: T, root: Text, host: Text, port: u16) -> ServedLink<T>
        ensures tree { result.tree ≡ tree }
        ensures root { result.root ≡ root }
        ensures host { result.host ≡ host }
        ensures port { result.port ≡ port }
        ensures world { world_of T.files result ≡ option_map (mirror_of root host port) (T.files tree) }
        ensures faults { faults_of T.faults result ≡ T.faults tree }
        ensures made { made_of result ≡ 0 }
        ensures ends { ends_of result ≡ 0 }
        ensures opened { opened_of result ≡ false }
        ensures answered { answered_of result ≡ false }
        ensures due { due_of T.files result ≡ None }
    {
        ServedLink {
            alloc,
            tree,
            root,
            host,
            port,
            counts: LinkCounts {
                made: 0,
                ends: 0,
                dry: 0,
            },
            opened: false,
            answered: false,
            place: None,
            number: 0,
            pending: None,
        }
    }

    /// How many of its faults were for want of memory.
    pub fn dry(&self) -> u64
        ensures { result ≡ self.now.counts.dry }
    {
        self.counts.dry
    }
}

impl<T: Tree> Link for ServedLink<T> {
    ghost use Rattle.std.specs.Prelude.{◌≡◌, ◌≤◌, false, Some, None, IfSome, OnErr, OnOk, is_ok};
    ghost use Rattle.acq_net.specs.Due.{Owes, fresh};
    ghost use Rattle.acq_net.specs.LinkFrame.{OpensBy, SaysBy};
    ghost use Rattle.acq_outside.specs.Count.{Rose};
    ghost use Rattle.served_link.specs.Link.{LinkState, Responds, answered_of, due_of, ends_of, faults_of, is_ready, made_of, opened_of, world_of};

    ghost faults = { faults_of T.faults };

    ghost made = { made_of };

    ghost ends = { ends_of };

    ghost opened = { opened_of };

    ghost answered = { answered_of };

    ghost talk = { λ _. None };

    ghost former = { λ _. None };

    ghost world = { world_of T.files };

    ghost due = { due_of T.files };

    // Beside what the trait says: responses are numbered anew on each connection, and what is sent gets the next one where
    // the last was received and left the connection open, and else none.

    fn connect(&mut self, host: &Text, port: u16) -> Result<(), Fault>
        ensures frame { OpensBy (faults_of T.faults) ends_of (world_of T.files) self.old self.new result }
        ensures made { Rose (made_of self.old) (made_of self.new) }
        ensures made_count { made_of self.old ≤ made_of self.new }
        ensures opened { self.new.opened ≡ is_ok result }
        ensures unanswered { self.new.answered ≡ false }
        ensures due { OnOk result (IfSome (world_of T.files self.old) (λ _. due_of T.files self.new ≡ Some (fresh host.now port))) }
        ensures number { self.new.number ≡ 0 }
    {
        self.counts.made = self.counts.made.saturating_add(1);
        self.answered = false;
        self.number = 0;
        match host.copy(self.alloc) {
            Ok(host) => {
                self.opened = true;
                self.place = Some(Place { host, port });
                self.pending = Some(nothing(self.alloc));
                Ok(())
            }
            Err(NoMemory) => {
                self.opened = false;
                self.place = None;
                self.pending = None;
                self.counts.dry = self.counts.dry.saturating_add(1);
                Err(Fault)
            }
        }
    }

    #[tactic(auto, using(crate::proofs::Links::owes_planned, crate::proofs::Links::owes_unready, crate::proofs::Links::owes_nowhere))]
    fn send(&mut self, bytes: &[u8]) -> Result<(), Fault>
        ensures frame { SaysBy (faults_of T.faults) made_of ends_of (λ _. None) (world_of T.files) self.old self.new result }
        ensures opened { OnOk result (self.new.opened ≡ self.old.opened) }
        ensures closed { OnErr result (self.new.opened ≡ false) }
        ensures unanswered { self.new.answered ≡ false }
        ensures owes { OnOk result (IfSome (world_of T.files self.old) (λ entries. Owes entries bytes.now (due_of T.files self.old) (due_of T.files self.new))) }
        ensures responds { OnOk result (Responds T.files bytes.now self.old self.new) }
        ensures silent { is_ready self.old.pending ≡ false → self.new.pending ≡ None }
    {
        self.answered = false;
        let ready = is_ready(&self.pending);
        self.pending = None;
        let Some(place) = &self.place else {
            return Ok(());
        };
        if !ready {
            return Ok(());
        }
        let home = is_home(&self.host, self.port, place);
        self.number = self.number.saturating_add(1);
        match respond(
            self.alloc,
            &mut self.tree,
            &self.root,
            home,
            self.number,
            bytes,
        ) {
            Ok(pending) => {
                self.pending = pending;
                Ok(())
            }
            Err(OutError::Fault) => {
                self.opened = false;
                Err(Fault)
            }
            Err(OutError::NoMemory) => {
                self.opened = false;
                self.counts.dry = self.counts.dry.saturating_add(1);
                Err(Fault)
            }
        }
    }

    #[tactic(auto, using(crate::proofs::Pieces::came))]
    fn receive(&mut self, out: &mut [u8]) -> Result<usize, Fault> {
        match send_on(&mut self.tree, &mut self.pending, out) {
            Ok(0) => {
                self.counts.ends = self.counts.ends.saturating_add(1);
                self.opened = false;
                Ok(0)
            }
            Ok(n) => {
                self.answered = true;
                Ok(n)
            }
            Err(fault) => {
                self.opened = false;
                Err(fault)
            }
        }
    }

    fn close(&mut self) {
        self.opened = false;
    }
}

/// Nothing is to be sent, and the connection is open.
fn nothing(alloc: Global) -> Pending
    ensures { result ≡ nothing }
{
    Pending {
        planned: Planned {
            head: Bytes::new(alloc),
            path: Text::new(alloc),
            at: 0,
            left: 0,
            keep: true,
        },
        done: 0,
    }
}

/// Whether every byte was sent and the connection stays open.
fn is_ready(pending: &Option<Pending>) -> bool
    ensures { result ≡ is_ready pending.now }
{
    match pending {
        Some(p) => p.planned.head.len() <= p.done && p.planned.left == 0 && p.planned.keep,
        None => false,
    }
}

/// Whether this host's port is the place.
fn is_home(host: &Text, port: u16, place: &Place) -> bool
    ensures { result ≡ is_home host.now port place.now }
{
    *host == place.host && port == place.port
}
