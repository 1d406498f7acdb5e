//! Which answer a request gets.
ghost use Rattle.std.specs.Prelude.{◌≡◌, ℕ, Option, IfOk, IfSome, option_map};
ghost use Rattle.acq_outside.specs.Frame.{LooksBy};
ghost use Rattle.http_requests.specs.Asked.{capped};
ghost use Rattle.tree_serve.specs.Answers as spec;
ghost use Rattle.tree_serve.specs.Planned.{IsSmall};
ghost use Rattle.tree_serve.specs.Texts.{content_at};

use crate::Answer;
use crate::paths::is_below;
use acq_base::Text;
use acq_outside::{Fault, Tree};
use http_requests::{Method, Request};

/// The most responses of one connection.
pub const MOST_RESPONSES: u64 = 10_000;

/// What a request is answered, whose path is that of the file behind the root.
#[tactic(auto, using(crate::proofs::Sizes::of_size_capped))]
pub fn answer<T: Tree>(tree: &mut T, path: &Text, request: &Request) -> Result<Answer, Fault>
    ensures frame { LooksBy T.faults T.files tree.old tree.new result }
    ensures sound { IfOk result spec.IsSound }
    ensures small { IfOk result IsSmall }
    ensures of { IfSome (T.files tree.old) (λ files. IfOk result (spec.IsOf (content_at files path.now))) }
    ensures told { IfSome (T.files tree.old) (λ files. IfOk result (spec.IsAnswerBy (spec.size_at files path.now) request.now)) }
{
    if !request.proper {
        return Ok(Answer::Bad);
    }
    match request.method {
        Method::Other => Ok(Answer::NotAllowed),
        Method::Get | Method::Head => file_answer(tree, path, request),
    }
}

/// What a request for a file, or for the head of one, is answered.
fn file_answer<T: Tree>(tree: &mut T, path: &Text, request: &Request) -> Result<Answer, Fault>
    ensures frame { LooksBy T.faults T.files tree.old tree.new result }
    ensures sound { IfOk result spec.IsSound }
    ensures small { IfOk result IsSmall }
    ensures of { IfSome (T.files tree.old) (λ files. IfOk result (spec.IsOf (content_at files path.now))) }
    ensures told { IfSome (T.files tree.old) (λ files.
        IfOk result (spec.IsFileAnswer (spec.size_at files path.now) request.now.path request.now.from)) }
{
    if !is_below(request.path.as_bytes()) {
        return Ok(Answer::NotFound);
    }
    let size = tree.size(path)?;
    Ok(of_size(size, request.from))
}

/// What is sent of a file of so many bytes.
fn of_size(size: Option<u64>, from: Option<u64>) -> Answer
    ensures sound { spec.IsSound result }
    ensures small { IsSmall result }
    ensures value { result ≡ spec.of_size size from }
    ensures capped { (asked : Option ℕ) → from ≡ option_map capped asked → result ≡ spec.of_size size asked }
{
    let Some(size) = size else {
        return Answer::NotFound;
    };
    match from {
        None => Answer::Whole { size },
        Some(from) if from < size => Answer::Part { from, size },
        Some(_) => Answer::Beyond { size },
    }
}

/// Whether the connection is closed behind the response of this number.
pub fn closes_by(answer: Answer, last: bool, number: u64) -> bool
    ensures { result ≡ spec.closes_by answer last number }
{
    refuses(answer) || last || number == MOST_RESPONSES
}

/// Whether an answer refuses more than its request.
fn refuses(answer: Answer) -> bool
    ensures { result ≡ spec.refuses answer }
{
    match answer {
        Answer::Bad | Answer::NotAllowed => true,
        Answer::NotFound
        | Answer::Part { from: _, size: _ }
        | Answer::Beyond { size: _ }
        | Answer::Whole { size: _ } => false,
    }
}
