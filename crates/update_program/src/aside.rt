//! What a call is lent beside the objects of an update.

use acq_net::Port;
use acq_outside::{Disk, Files, Inlet, Tree};

/// What the commands beside updates work on. An update touches none of it.
#[derive(Drop)]
pub struct Aside<I: Inlet, F: Files, P: Port, T: Tree, Q: Disk> {
    /// The input of `method`.
    pub input: I,
    /// The files that `method http` writes.
    pub files: F,
    /// The port of `serve`.
    pub port: P,
    /// The files that `serve` sends.
    pub tree: T,
    /// The folder into which `download` fetches.
    pub place: Q,
}
