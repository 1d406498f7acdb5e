//! Runs the top call over what is given.

use crate::given::{Given, Held, Server};
use crate::objects::{
    Served, etc_of, file_method, gate_of, gated_method, http_method, map_method, served_method,
};
use crate::refused::Refused;
use crate::watch::Watch;
use acq_base::TryCopy;
use acq_memory::{MemDisk, MemEtc, MemSink};
use acq_outside::Method;
use served_update::update_served;
use std::alloc::Global;
use std::sync::Wait;
use std::thread::Threads;
use update_model::RunLog;
use update_program::{Ran, update_call};

/// What a call came to.
#[derive(Drop)]
pub struct Came {
    pub status: u8,
    out: MemSink,
    pub log: Option<RunLog>,
    /// How often the methods failed.
    pub faults: u64,
    /// How many moments the clock gave.
    pub moments: u64,
    /// How many methods came back.
    pub methods: usize,
    /// Whether a fetch was held at the gate for too long.
    pub late: bool,
}

impl Came {
    /// What it wrote.
    pub fn output(&self) -> &[u8] {
        self.out.written().as_slice()
    }
}

/// What a call is lent beside the lists folder and the methods.
#[derive(Drop)]
struct Lent {
    etc: MemEtc,
    clock: Watch,
    out: MemSink,
}

impl Lent {
    /// Objects of what is given.
    fn new(alloc: Global, given: &Given) -> Result<Lent, Refused> {
        Ok(Lent {
            etc: etc_of(alloc, given)?,
            clock: Watch::new(given.now),
            out: MemSink::new(alloc, given.fails.sink.copy(alloc)?),
        })
    }

    /// What a call that was lent them came to.
    fn came(self, ran: Ran, faults: u64, methods: usize) -> Came {
        Came {
            status: ran.status.0,
            moments: self.clock.given(),
            out: self.out,
            log: ran.log,
            faults,
            methods,
            late: false,
        }
    }
}

/// Carries the words out over a lists folder and these methods.
fn called<R, M>(
    rt: &R,
    given: &Given,
    disk: &mut MemDisk,
    methods: &mut Vec<M>,
) -> Result<Came, Refused>
where
    R: AllocGlobal + Threads + Wait + Copy + Send + Sync + 'static,
    M: Method + Send + 'static,
{
    if methods.is_empty() || methods.len() > 9 {
        return Err(Refused::Methods);
    }
    let mut lent = Lent::new(rt.alloc(), given)?;
    let words = given.words.as_slice();
    let ran = update_call(
        rt,
        words,
        &mut lent.etc,
        disk,
        methods,
        &mut lent.clock,
        &mut lent.out,
    );
    Ok(lent.came(ran, faults_of(methods.as_slice()), methods.len()))
}

/// The same over methods whose peer is a server in memory.
fn called_served<R>(
    rt: &R,
    given: &Given,
    disk: &mut MemDisk,
    methods: &mut Vec<Served>,
) -> Result<Came, Refused>
where
    R: AllocGlobal + Threads + Wait + Copy + Send + Sync + 'static,
{
    if methods.is_empty() || methods.len() > 9 {
        return Err(Refused::Methods);
    }
    let mut lent = Lent::new(rt.alloc(), given)?;
    let words = given.words.as_slice();
    let ran = update_served(
        rt,
        words,
        &mut lent.etc,
        disk,
        methods,
        &mut lent.clock,
        &mut lent.out,
    );
    Ok(lent.came(ran, faults_of(methods.as_slice()), methods.len()))
}

/// How often methods failed.
fn faults_of<M: Method>(methods: &[M]) -> u64 {
    let mut faults: u64 = 0;
    for method in methods {
        faults = faults.saturating_add(method.faults());
    }
    faults
}

/// Carries the words out over a lists folder: from peers or a tree, by its server if it has one, where there are any, else
/// from the mirror.
pub fn came_to<R>(rt: &R, given: &Given, disk: &mut MemDisk) -> Result<Came, Refused>
where
    R: AllocGlobal + Threads + Wait + Copy + Send + Sync + 'static,
{
    let ways = (
        given.mirror.is_empty(),
        given.tree.is_empty(),
        given.peers.is_empty(),
    );
    match ways {
        (_, true, true) => over_mirror(rt, given, disk),
        (true, false, true) => over_tree(rt, given, disk),
        (true, true, false) => over_peers(rt, given, disk),
        _ => Err(Refused::Methods),
    }
}

fn over_mirror<R>(rt: &R, given: &Given, disk: &mut MemDisk) -> Result<Came, Refused>
where
    R: AllocGlobal + Threads + Wait + Copy + Send + Sync + 'static,
{
    if let Some(held) = &given.gate {
        return over_gate(rt, given, held, disk);
    }
    let mut methods = Vec::new(rt.alloc());
    for lane in 0..given.methods {
        methods.push(map_method(rt.alloc(), given, lane)?)?;
    }
    called(rt, given, disk, &mut methods)
}

fn over_gate<R>(rt: &R, given: &Given, held: &Held, disk: &mut MemDisk) -> Result<Came, Refused>
where
    R: AllocGlobal + Threads + Wait + Copy + Send + Sync + 'static,
{
    let gate = gate_of(rt.alloc(), held)?;
    let mut methods = Vec::new(rt.alloc());
    for lane in 0..given.methods {
        methods.push(gated_method(rt.alloc(), given, &gate, lane)?)?;
    }
    let mut came = called(rt, given, disk, &mut methods)?;
    came.late = gate.was_late();
    Ok(came)
}

fn over_tree<R>(rt: &R, given: &Given, disk: &mut MemDisk) -> Result<Came, Refused>
where
    R: AllocGlobal + Threads + Wait + Copy + Send + Sync + 'static,
{
    if let Some(server) = &given.server {
        return over_server(rt, given, server, disk);
    }
    let mut methods = Vec::new(rt.alloc());
    for _ in 0..given.methods {
        methods.push(file_method(rt.alloc(), given)?)?;
    }
    called(rt, given, disk, &mut methods)
}

fn over_server<R>(
    rt: &R,
    given: &Given,
    server: &Server,
    disk: &mut MemDisk,
) -> Result<Came, Refused>
where
    R: AllocGlobal + Threads + Wait + Copy + Send + Sync + 'static,
{
    let mut methods = Vec::new(rt.alloc());
    for _ in 0..given.methods {
        methods.push(served_method(rt.alloc(), given, server)?)?;
    }
    called_served(rt, given, disk, &mut methods)
}

fn over_peers<R>(rt: &R, given: &Given, disk: &mut MemDisk) -> Result<Came, Refused>
where
    R: AllocGlobal + Threads + Wait + Copy + Send + Sync + 'static,
{
    let mut methods = Vec::new(rt.alloc());
    for _ in 0..given.methods {
        methods.push(http_method(rt.alloc(), given)?)?;
    }
    called(rt, given, disk, &mut methods)
}
