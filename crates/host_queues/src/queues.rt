//! All lanes, with the hosts that were seen. Only what is put into them takes memory.

ghost use Rattle.std.specs.Prelude.{◌≡◌, ◌≤◌, length, OnOk, IfOk};
ghost use Rattle.host_queues.specs.Lanes.{no_hosts, place_for, with_host, put_for, first_of, taken_from, freed_at};

use crate::lane::Lane;
use acq_base::{NoMemory, Text, TryCopy};
use std::alloc::Global;
use std::collections::BTreeMap;

/// Numbers of fetches in lanes, by the hosts that they ask. Lanes are numbered from 0.
#[derive(Drop)]
pub struct Queues {
    /// The place of each host in the order in which they were first seen.
    places: BTreeMap<Text, usize>,
    lanes: Vec<Lane>,
    ghost some: { 1 ≤ length lanes.items },
}

impl Queues {
    ghost use Rattle.host_queues.specs.Refinement.{lanes_of};

    /// This many lanes, at least one, in which nothing waits.
    pub fn new(alloc: Global, lanes: u32) -> Result<Queues, NoMemory>
        requires { 1 ≤ lanes }
        ensures { IfOk result (λ queues. lanes_of queues ≡ no_hosts lanes) }
    {
        let mut empty = Vec::new(alloc);
        for _ in 0..lanes {
            empty.push(Lane::new(alloc))?;
        }
        Ok(Queues {
            places: BTreeMap::new(alloc),
            lanes: empty,
        })
    }

    /// A number comes last in the lane of its host. A host that is new gets the next lane in turn. After `NoMemory` the
    /// queues may only be dropped.
    pub fn put(&mut self, alloc: Global, host: &Text, no: u64) -> Result<(), NoMemory>
        ensures { OnOk result (lanes_of self.new ≡ put_for host.now no (lanes_of self.old)) }
    {
        let place = self.place(alloc, host)?;
        let lane = place % self.lanes.len();
        self.lanes[lane].put(no)?;
        Ok(())
    }

    /// The oldest number of a lane, which is out then. `None` exactly where one of the lane is out already, or none
    /// waits in it; a lane that isn't there has none. It takes no memory.
    pub fn next(&mut self, lane: u32) -> Option<u64>
        ensures first { result ≡ first_of (lanes_of self.old) lane }
        ensures left { lanes_of self.new ≡ taken_from lane (lanes_of self.old) }
    {
        let lane = lane as usize;
        if lane >= self.lanes.len() {
            return None;
        }
        self.lanes[lane].next()
    }

    /// What was out of a lane is done, so that its next may be handed out. It takes no memory.
    pub fn done(&mut self, lane: u32)
        ensures { lanes_of self.new ≡ freed_at lane (lanes_of self.old) }
    {
        let lane = lane as usize;
        if lane < self.lanes.len() {
            self.lanes[lane].done();
        }
    }

    /// The place of a host, which is remembered.
    fn place(&mut self, alloc: Global, host: &Text) -> Result<usize, NoMemory>
        ensures place { IfOk result (λ place. place ≡ place_for (lanes_of self.old) host.now) }
        ensures hosts { OnOk result (lanes_of self.new ≡ with_host host.now (lanes_of self.old)) }
    {
        if let Some(place) = self.places.get(host) {
            return Ok(*place);
        }
        let place = self.places.len();
        self.places.insert(host.copy(alloc)?, place)?;
        Ok(place)
    }
}
