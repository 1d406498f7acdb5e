//! The first field of a name that an earlier one has. It may take memory, and touches nothing else.
ghost use Rattle.std.specs.Prelude.{◌≡◌, ◌<◌, ◌+◌, ◌∷◌, IfOk, length, drop, slice_index_or};
ghost use Rattle.std.specs.List.Sorted.{IsPermutation, IsSorted};
ghost use Rattle.deb822_text.specs.declared.error.TextError.TheVariants.{Twice};
ghost use Rattle.deb822_text.specs.Names.{repeated, AnswersFault, names_of, name_fault, keys_from, keys_of, key_cmp, lesser as lesser_of, is_repeated as is_repeated_by, next_place as next_place_of, least_place};

use crate::finding::names_field;
use crate::names::{Name, digest};
use crate::{Field, TextError};
use acq_base::NoMemory;
use std::alloc::Global;

/// How many names are compared each with each. With more of them that would take too long.
const FEW: usize = 32;

/// A field's name and place among the fields, behind the name's digest, by which most names are told apart.
#[derive(Debug, PartialEq, Eq, PartialOrd, Ord, Drop)]
pub struct Key<'a> {
    pub digest: u64,
    pub name: Name<'a>,
    pub place: usize,
}

/// Refuses the first field whose name an earlier one has, ASCII case aside.
pub fn check_names(alloc: Global, fields: &[Field]) -> Result<(), TextError>
    ensures { AnswersFault (repeated fields.now) result }
{
    if fields.len() <= FEW {
        check_few(fields)
    } else {
        check_many(alloc, fields)
    }
}

/// Compares each name with those before it.
#[tactic(auto, unfolding(crate::specs::Names::repeated))]
fn check_few(fields: &[Field]) -> Result<(), TextError>
    ensures { AnswersFault (repeated fields.now) result }
{
    for place in 0..fields.len() {
        let (before, _) = fields.split_at(place);
        check_behind(before, &fields[place])?;
    }
    Ok(())
}

/// Compares a field's name with those before it.
#[tactic(auto, using(crate::proofs::Lookups::naming))]
fn check_behind(before: &[Field], field: &Field) -> Result<(), TextError>
    ensures { AnswersFault (name_fault (names_of before.now) field.now) result }
{
    if names_field(before, field.name.as_bytes()) {
        return Err(TextError::Twice(field.at));
    }
    Ok(())
}

/// Sorts the names, so that those that are one stand side by side.
fn check_many(alloc: Global, fields: &[Field]) -> Result<(), TextError>
    ensures { AnswersFault (repeated fields.now) result }
{
    let keys = sorted_keys(alloc, fields)?;
    match first_place(keys.as_slice()) {
        None => Ok(()),
        Some(place) => Err(twice_at(fields, place)),
    }
}

/// The refusal of the field at a place.
fn twice_at(fields: &[Field], place: usize) -> TextError
    requires { place < length fields.now }
    ensures { (d : Field) → result ≡ Twice (slice_index_or fields.now place d).at }
{
    TextError::Twice(fields[place].at)
}

/// The keys of the fields in order.
fn sorted_keys(alloc: Global, fields: &[Field]) -> Result<Vec<Key<'_>>, NoMemory>
    ensures permutation { IfOk result (λ keys. IsPermutation (keys_of fields.now) keys.items) }
    ensures sorted { IfOk result (λ keys. IsSorted key_cmp keys.items) }
{
    let mut keys = keys(alloc, fields)?;
    keys.sort_unstable();
    Ok(keys)
}

/// The key of each field.
fn keys(alloc: Global, fields: &[Field]) -> Result<Vec<Key<'_>>, NoMemory>
    ensures { IfOk result (λ keys. keys.items ≡ keys_of fields.now) }
{
    let mut keys = Vec::with_capacity(alloc, fields.len())?;
    for place in 0..fields.len() {
        keys.push(key_at(fields, place))?;
    }
    Ok(keys)
}

/// The key of the field at a place.
fn key_at(fields: &[Field], place: usize) -> Key<'_>
    requires { place < length fields.now }
    ensures { keys_from place (drop place fields.now) ≡ result ∷ keys_from (place + 1) (drop (place + 1) fields.now) }
{
    let name = fields[place].name.as_bytes();
    Key {
        digest: digest(name),
        name: Name::new(name),
        place,
    }
}

/// The least place of a key behind that of an earlier field of the same name.
fn first_place(keys: &[Key<'_>]) -> Option<usize>
    ensures { result ≡ least_place keys.now }
{
    let mut least = None;
    for at in 0..keys.len() {
        let (_, rest) = keys.split_at(at);
        least = lesser(least, next_place(rest));
    }
    least
}

/// The place of the second key, if it is of a later field of the same name than the first.
fn next_place(keys: &[Key<'_>]) -> Option<usize>
    ensures { result ≡ next_place_of keys.now }
{
    match keys {
        [key, next, ..] if is_repeated(key, next) => Some(next.place),
        _ => None,
    }
}

/// Whether a key is of a later field of the same name.
fn is_repeated(key: &Key<'_>, next: &Key<'_>) -> bool
    ensures { result ≡ is_repeated_by key.now next.now }
{
    key.digest == next.digest && key.name == next.name && key.place < next.place
}

/// The lesser of two places, if there are two.
fn lesser(a: Option<usize>, b: Option<usize>) -> Option<usize>
    ensures { result ≡ lesser_of a b }
{
    match (a, b) {
        (None, other) => other,
        (Some(a), Some(b)) if b < a => Some(b),
        (Some(a), _) => Some(a),
    }
}
