//! Whether a Release may say something else of itself than the installed one. Nothing here takes memory.

ghost use Rattle.std.specs.Prelude.{◌≡◌, ◌↔◌, ◌||◌, IfSome, IsNone, IsTrue};
ghost use Rattle.release_file.specs.Changes.{allowed, first_refused, same_text, IsAllowed, IsFirstRefused};

use crate::Head;
use acq_base::Text;

/// Which fields of a Release may differ from those of the installed one (apt-secure(8), "Information changes").
#[derive(Clone, Copy, Debug, PartialEq, Eq)]
pub struct Change {
    pub origin: bool,
    pub label: bool,
    pub suite: bool,
    pub codename: bool,
}

/// A field in which a Release says what it is.
#[derive(Clone, Copy, Debug, PartialEq, Eq)]
pub enum HeadField {
    Origin,
    Label,
    Suite,
    Codename,
}

/// Whether a Release with the head `new` may replace one with the head `old`: each of the four fields that differs is
/// switched on in `change`. A field that is absent differs from one that is there, an empty one too.
#[tactic(auto, using(crate::proofs::Changes::changes))]
pub fn is_allowed(change: &Change, old: &Head, new: &Head) -> bool
    ensures value { result ≡ allowed change.now old.now new.now }
    ensures each { IsTrue result ↔ IsAllowed change.now old.now new.now }
{
    refused(change, old, new).is_none()
}

/// The first of Origin, Label, Suite and Codename that differs and isn't switched on in `change`, if there is one.
#[tactic(auto, using(crate::proofs::Changes::changes))]
pub fn refused_field(change: &Change, old: &Head, new: &Head) -> Option<HeadField>
    ensures value { result ≡ first_refused change.now old.now new.now }
    ensures none { IsNone result ↔ IsAllowed change.now old.now new.now }
    ensures first { IfSome result (IsFirstRefused change.now old.now new.now) }
{
    refused(change, old, new)
}

/// The first field that may not follow.
#[tactic(auto, unfolding(crate::specs::Changes::first_refused))]
fn refused(change: &Change, old: &Head, new: &Head) -> Option<HeadField>
    ensures { result ≡ first_refused change.now old.now new.now }
{
    if !may_follow(change.origin, &old.origin, &new.origin) {
        return Some(HeadField::Origin);
    }
    if !may_follow(change.label, &old.label, &new.label) {
        return Some(HeadField::Label);
    }
    if !may_follow(change.suite, &old.suite, &new.suite) {
        return Some(HeadField::Suite);
    }
    if !may_follow(change.codename, &old.codename, &new.codename) {
        return Some(HeadField::Codename);
    }
    None
}

/// Whether a field may have this text behind the old one: it may change, or is the same.
fn may_follow(may_change: bool, old: &Option<Text>, new: &Option<Text>) -> bool
    ensures { result ≡ (may_change || same_text old.now new.now) }
{
    may_change || old == new
}
