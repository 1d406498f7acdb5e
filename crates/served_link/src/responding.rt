//! Which response a text gets.
ghost use Rattle.std.specs.Prelude.{[], if◌then◌else◌, IfOk, IfSome, IsErrOf};
ghost use Rattle.acq_outside.specs.Frame.{LooksCountingBy};
ghost use Rattle.tree_serve.specs.Planned.{InRange, IsPlanFor, IsWithin};
ghost use Rattle.served_link.specs.Link.{IsInRange, IsRequestIn, IsResponse, PendingWithin};

use crate::no_files::NoFiles;
use crate::pending::Pending;
use acq_base::{NoMemory, Text};
use acq_outside::{OutError, Tree};
use http_requests::{Reading, Request, read_request};
use std::alloc::Global;
use tree_serve::{Planned, plan};

/// What a text asks for that is one whole request, and `None` of any other.
#[tactic(auto, using(crate::proofs::OneRequest::read))]
fn one_request(alloc: Global, text: &[u8]) -> Result<Option<Request>, NoMemory>
    ensures { IfOk result (IsRequestIn text.now) }
{
    match read_request(alloc, text)? {
        Reading::Whole(len, request) => {
            if len < text.len() {
                return Ok(None);
            }
            Ok(Some(request))
        }
        _ => Ok(None),
    }
}

/// The response of a server of no file.
fn plan_elsewhere(
    alloc: Global,
    root: &Text,
    number: u64,
    request: &Request,
) -> Result<Planned, OutError>
    ensures fault { IsErrOf result OutError.Fault → ⊥ }
    ensures range { IfOk result InRange }
    ensures within { IfOk result (IsWithin []) }
    ensures plan { IfOk result (IsPlanFor [] root.now number request.now) }
{
    plan(alloc, &mut NoFiles, root, number, request)
}

/// All of the response of this number on its connection, over the tree's files at its own place, and over none elsewhere. A
/// text that isn't one whole request gets none.
pub fn respond<T: Tree>(
    alloc: Global,
    tree: &mut T,
    root: &Text,
    home: bool,
    number: u64,
    text: &[u8],
) -> Result<Option<Pending>, OutError>
    ensures frame { LooksCountingBy OutError.Fault T.faults T.files tree.old tree.new result }
    ensures range { IfOk result IsInRange }
    ensures within { IfSome (T.files tree.old) (λ files. IfOk result (PendingWithin files)) }
    ensures response { IfSome (T.files tree.old) (λ files. IfOk result (IsResponse (if home then files else []) root.now number text.now)) }
{
    let Some(request) = one_request(alloc, text)? else {
        return Ok(None);
    };
    let planned = if home {
        plan(alloc, tree, root, number, &request)?
    } else {
        plan_elsewhere(alloc, root, number, &request)?
    };
    Ok(Some(Pending { planned, done: 0 }))
}
