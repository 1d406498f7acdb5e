//! What holds of every stream. Nothing here does anything.

ghost use Rattle.std.specs.Prelude.{◌≡◌, ◌≢◌, ◌≤◌, ◌++◌, ℕ, Bool, true, false, List, None, Some};
ghost use Rattle.http_wire.specs.declared.ending.Response.TheVariants.{TooBig};
ghost use Rattle.http_wire.specs.BodyLaws.{Fits, Grows};
ghost use Rattle.http_wire.specs.Grammar.{IsResponse, served};
ghost use Rattle.http_wire.specs.State.{WireState};
ghost use Rattle.http_wire.specs.Stream.{Heard, followed, IsHeard};
ghost use Rattle.http_wire.specs.Wire.{Follows, IsStateOf};

/// One stream has one reading: two readings of the same bytes hear the same, places of refusals included.
pub fn one_reading()
    ensures { (max from : ℕ) (bytes : List ℕ) (ended : Bool) (a b : Heard) → IsHeard max from bytes ended a → IsHeard max from bytes ended b → a ≡ b }
{}

/// A reading that has ended hears the same whatever bytes follow, and if the peer ends.
#[tactic(auto, using(crate::proofs::Decided::decided, crate::proofs::EndMoves::heard_end))]
pub fn endings_stay()
    ensures followed { (max from : ℕ) (bytes more : List ℕ) (x : Heard) → x.ending ≢ None → IsHeard max from bytes false x → IsHeard max from (bytes ++ more) false (followed x more) }
    ensures ended { (max from : ℕ) (bytes : List ℕ) (x : Heard) → x.ending ≢ None → IsHeard max from bytes false x → IsHeard max from bytes true x }
{}

/// A whole response of the grammar is heard as its body, whatever follows it.
#[tactic(auto, using(crate::proofs::Responses::response_heard))]
pub fn responses_are_heard()
    ensures { (max from start : ℕ) (text body rest : List ℕ) (keep : Bool) → IsResponse max from text keep start body → IsHeard max from (text ++ rest) false (served keep start body rest) }
{}

/// A body begins at the byte that was asked for and stays within the limit, and what is no file has none.
pub fn bodies_fit()
    ensures { (max from : ℕ) (bytes : List ℕ) (ended : Bool) (x : Heard) → IsHeard max from bytes ended x → Fits max from x }
{}

/// With more bytes a body only grows, by no more than came, unless it turns out too big.
pub fn bodies_grow()
    ensures { (max from : ℕ) (bytes more : List ℕ) (ended : Bool) (x y : Heard) → IsHeard max from bytes false x → IsHeard max from (bytes ++ more) ended y → y.ending ≢ Some TooBig → Grows x y more }
{}

/// What isn't too big for a limit is heard the same under a greater one.
#[tactic(auto, using(crate::proofs::BodyLaws::limits_rise))]
pub fn limits_rise()
    ensures { (max wide from : ℕ) (bytes : List ℕ) (ended : Bool) (x : Heard) → max ≤ wide → x.ending ≢ Some TooBig → IsHeard max from bytes ended x → IsHeard wide from bytes ended x }
{}

/// What a wire tells is what is heard of the bytes that it has taken, and what was given out and what it holds are the body.
#[tactic(auto, using(crate::proofs::Telling::tells))]
pub fn wires_tell()
    ensures { (w : WireState) (max from : ℕ) (given bytes : List ℕ) (ended : Bool) → Follows w max from given bytes ended → IsStateOf w max from given bytes ended }
{}
