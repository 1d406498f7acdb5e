//! Ending the workers.
ghost use Rattle.std.specs.Prelude.{◌≡◌, ◌<◌, map, vec_len, vec_capacity};
ghost use Rattle.acq_outside.specs.Count.{NoneFell};
ghost use Rattle.lane_pool.specs.Counting.{BegunAsHanded};
ghost use Rattle.lane_pool.specs.Refinement.{AreBack, AreLanes};

use crate::Lanes;
use crate::lane::Lane;
use crate::replies::Replies;
use acq_outside::Method;
use std::sync::Wait;
use std::thread::Threads;

impl<M: Method + Send + 'static> Lanes<M> {
    /// Ends all workers and gives the methods back, in the order in which `start` took them. It takes no memory.
    ///
    /// The words of the jobs that are still out are taken first, and dropped.
    pub fn finish<R: Threads + Wait>(mut self, rt: &R) -> Vec<M>
        ensures worlds { map M.world result.items ≡ self.worlds }
        ensures counts { NoneFell self.counts (map M.faults result.items) }
        ensures begins { BegunAsHanded self.begins (map M.begins result.items) }
    {
        self.drain(rt);
        let Lanes {
            own,
            lanes,
            replies,
            room,
        } = self;
        let mut all = room;
        let Ok(()) = all.push(own) else {
            unreachable!()
        };
        match replies {
            None => all,
            Some(replies) => join_all(rt, replies, lanes, all),
        }
    }

    /// Takes and drops the words of the jobs that are out, up to each one's last word, or to a `None`.
    fn drain<R: Wait>(&mut self, rt: &R)
        ensures worlds { self.new.worlds ≡ self.old.worlds }
        ensures counts { NoneFell self.old.counts self.new.counts }
        ensures begins { self.new.begins ≡ self.old.begins }
    {
        for _ in rt.forever() {
            if !self.has_out() || self.take(rt).is_none() {
                break;
            }
        }
    }
}

/// Ends the workers in the order of their lanes, and adds their methods.
fn join_all<M: Method + Send + 'static, R: Threads + Wait>(
    rt: &R,
    replies: Replies,
    lanes: Vec<Lane<M>>,
    mut all: Vec<M>,
) -> Vec<M>
    requires lanes { AreLanes M.world replies lanes.items }
    requires room { (vec_len all ≡ 1) × (vec_len lanes < vec_capacity all) }
    ensures { AreBack M.world M.faults M.begins all.items lanes.items result.items }
{
    let mut desk = replies.close();
    for lane in lanes {
        let ended = lane.worker.join(rt);
        desk.take_back(ended.pass);
        let Ok(()) = all.push(ended.method) else {
            unreachable!()
        };
    }
    desk.learn_counts();
    all
}
