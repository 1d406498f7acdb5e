//! Which fetch is next: a queue for each lane of hosts, so that a host is never asked over two lanes at once.
//!
//! Hosts get lanes in the order in which they are first seen, in turn, and keep them. What waits in a lane is handed out
//! first in, first out, and one at a time.
//!
//! Each call is one equation on the lanes: hosts get lanes in the order in which they are first seen, in turn, and
//! keep them; what is put into a lane is handed out in that order, and once a fetch of a lane is out, no other is
//! handed out of it until the lane is freed (`lanes_are_queues`, a law). `next` and `done` take no memory.
#![tactic(auto)]

pub use laws::lanes_are_queues;
pub use queues::Queues;

mod lane;
mod laws;
mod queues;
