//! Where an answer leads. Nothing here takes memory.

ghost use Rattle.std.specs.Prelude.{◌≡◌};
ghost use Rattle.update_model.specs.Reach.{may_move as may_lead, way as way_from};
ghost use Rattle.update_model.specs.declared.ask.Closed.TheVariants.{Not};
ghost use Rattle.acq_base.specs.declared.uri.Uri.{Uri as AnyUri};
ghost use Rattle.item_graph.specs.Ways.{way_of};

use acq_base::{NotServed, Scheme, Uri};
use update_model::Ending;

/// Where an answer without a file leads, to an ask of this scheme with so many moves left: on to a URI, or to the end of
/// the trail. A fault is no answer.
pub fn way(moves: u32, scheme: Scheme, end: NotServed) -> Result<Uri, Ending>
    ensures { (uri : AnyUri) → uri.scheme ≡ scheme → way_of result ≡ way_from moves uri (Not end) }
{
    match end {
        NotServed::Moved(Some(to)) if moves > 0 && may_move(scheme, to.scheme) => Ok(to),
        NotServed::Moved(_) => Err(Ending::Lost),
        NotServed::Absent(status) => Err(Ending::Absent(status)),
        NotServed::TooBig => Err(Ending::TooBig),
        NotServed::Garbled(at) => Err(Ending::Garbled(at)),
        NotServed::Fault { .. } => Err(Ending::Lost),
    }
}

/// Whether a move may lead from one scheme to another: not from a host to a file of this machine.
fn may_move(from: Scheme, to: Scheme) -> bool
    ensures { result ≡ may_lead from to }
{
    match (from, to) {
        (Scheme::Http, Scheme::File) => false,
        (Scheme::Http, Scheme::Http) | (Scheme::File, _) => true,
    }
}
