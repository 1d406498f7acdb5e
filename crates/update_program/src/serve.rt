//! `serve ROOT PORT N`: a server of a tree of files.

ghost use Rattle.std.specs.Prelude.{◌≡◌, None};
ghost use Rattle.update_program.specs.Said.{BlamesOutput};
ghost use Rattle.update_program.specs.Sides.{ServesPort};

use crate::say::write_fixed;
use crate::{Ran, Status};
use acq_base::Text;
use acq_net::Port;
use acq_outside::{Sink, Tree};
use report_text::FaultLine;
use std::alloc::Global;
use tree_serve::{Stop, serve};

/// Serves so many connections of the port of this number, from the files below `root`.
pub fn serve_call<P: Port, T: Tree, S: Sink>(
    alloc: Global,
    root: &Text,
    number: u16,
    connections: u32,
    port: &mut P,
    tree: &mut T,
    out: &mut S,
) -> Ran
    ensures log { result.log ≡ None }
    ensures output { BlamesOutput (S.faults out.old) (S.faults out.new) result.status.0 }
    ensures serves { ServesPort P.Port T.Tree S.Sink port.old port.new tree.old tree.new out.old out.new result root.now number connections }
{
    match serve(alloc, port, tree, root, number, u64::from(connections)) {
        Ok(()) => Ran::without_log(Status(0)),
        Err(Stop::Port) => Ran::without_log(write_fixed(out, &FaultLine::Port)),
        Err(Stop::NoMemory) => Ran::without_log(write_fixed(out, &FaultLine::Memory)),
    }
}
