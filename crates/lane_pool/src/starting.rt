//! Starting the workers.
ghost use Rattle.std.specs.Prelude.{◌≡◌, ◌≤◌, [], None, All, map, vec_len, vec_capacity, IfOk, OnErr, OnOk};
ghost use Rattle.crossbeam_channel.specs.Claims.{view};
ghost use Rattle.crossbeam_channel.specs.Ends.{sends_on};
ghost use Rattle.lane_pool.specs.Counting.{counted_on};
ghost use Rattle.lane_pool.specs.Pool.{outs_at_start};
ghost use Rattle.lane_pool.specs.Rule.{fresh};
ghost use Rattle.lane_pool.specs.Refinement.{AreLanes};

use crate::Lanes;
use crate::jobs::JobChannel;
use crate::lane::{Kit, Lane, open_lane};
use crate::replies::Replies;
use crate::slot::FetchOut;
use acq_base::NoMemory;
use acq_outside::Method;
use std::alloc::Global;
use std::mem;
use std::sync::Wait;
use std::thread::Threads;

/// Takes the methods out of `methods`, the first as the coordinator's own and each other one for a worker, which it starts.
///
/// All memory is taken before a method is moved, that of `give` and `finish` included; at `NoMemory` `methods` is
/// unchanged. A worker whose thread can't be started is no error: its lane stands, and `give` may hand jobs back.
pub fn start<M: Method + Send + 'static, R: Threads + Wait + Copy + Send + 'static>(
    rt: &R,
    alloc: Global,
    methods: &mut Vec<M>,
) -> Result<Lanes<M>, NoMemory>
    requires { (1 ≤ vec_len methods.old) × (vec_len methods.old ≤ 9) }
    ensures unchanged { OnErr result (methods.new ≡ methods.old) }
    ensures taken { OnOk result (methods.new.items ≡ []) }
    ensures worlds { IfOk result (λ lanes. lanes.worlds ≡ map M.world methods.old.items) }
    ensures counts { IfOk result (λ lanes. lanes.counts ≡ map M.faults methods.old.items) }
    ensures outs { IfOk result (λ lanes. lanes.outs ≡ outs_at_start M.under methods.old.items) }
    ensures begins { IfOk result (λ lanes. lanes.begins ≡ map M.begins methods.old.items) }
{
    let n = methods.len();
    let room = Vec::with_capacity(alloc, n)?;
    let mut lanes = Vec::with_capacity(alloc, n - 1)?;
    if n == 1 {
        let own = methods.remove(0);
        return Ok(Lanes {
            own,
            lanes,
            replies: None,
            room,
        });
    }
    let mut replies = Replies::open(alloc)?;
    let kits = kits(alloc, &replies, n - 1)?;
    let own = methods.remove(0);
    let others = mem::replace(methods, Vec::new(alloc));
    open_lanes(rt, alloc, others, kits, &mut replies, &mut lanes);
    Ok(Lanes {
        own,
        lanes,
        replies: Some(replies),
        room,
    })
}

/// What the lanes of so many workers need.
fn kits(alloc: Global, replies: &Replies, n: usize) -> Result<Vec<Kit>, NoMemory>
    ensures len { IfOk result (λ kits. vec_len kits ≡ n) }
    ensures each { IfOk result (λ kits. All (λ kit. (sends_on kit.sends ≡ sends_on replies.now.sends) × (kit.slot ≡ None)) kits.items) }
{
    let mut kits = Vec::with_capacity(alloc, n)?;
    for _ in 0..n {
        let jobs = JobChannel::open(alloc)?;
        let sends = replies.sends.try_clone()?;
        let slot = FetchOut::new(alloc)?;
        kits.push(Kit { jobs, sends, slot })?;
    }
    Ok(kits)
}

/// Opens a lane for each of these methods, in their order.
fn open_lanes<M: Method + Send + 'static, R: Threads + Wait + Copy + Send + 'static>(
    rt: &R,
    alloc: Global,
    methods: Vec<M>,
    mut kits: Vec<Kit>,
    replies: &mut Replies,
    lanes: &mut Vec<Lane<M>>,
)
    requires fresh { view replies.old.pass ≡ fresh }
    requires empty { lanes.old.items ≡ [] }
    requires room { vec_len methods ≤ vec_capacity lanes.old }
    requires few { vec_len methods ≤ 8 }
    requires kits { vec_len kits ≡ vec_len methods }
    requires each { All (λ kit. (sends_on kit.sends ≡ sends_on replies.old.sends) × (kit.slot ≡ None)) kits.items }
    ensures lanes { AreLanes M.world replies.new lanes.new.items }
    ensures len { vec_len lanes.new ≡ vec_len methods }
    ensures worlds { map (λ lane. M.world lane.worker.promise.method.value) lanes.new.items ≡ map M.world methods.items }
    ensures counts { map (λ lane. lane.last) lanes.new.items ≡ map M.faults methods.items }
    ensures outs { map (λ lane. lane.slot) lanes.new.items ≡ map (λ method. None) methods.items }
    ensures begins { map (λ lane. counted_on (M.begins lane.worker.promise.method.value) lane.worker.handed) lanes.new.items ≡ map M.begins methods.items }
{
    let mut number = 1;
    for method in methods {
        let Some(kit) = kits.pop() else {
            unreachable!()
        };
        let lane = open_lane(rt, alloc, number, replies, kit, method);
        let Ok(()) = lanes.push(lane) else {
            unreachable!()
        };
        number += 1;
    }
}
