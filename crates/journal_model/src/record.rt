//! The reader of a record's bytes, from left to right.
ghost use Rattle.std.specs.Prelude.{◌≡◌, ◌≤◌, length, not, ◌&&◌, nat_eq, nat_lt, IfOk, IsTrue};
ghost use Rattle.std.specs.Str.{is_utf8};
ghost use Rattle.std.specs.Int.{w16, w32};
ghost use Rattle.journal_model.specs.Reading.{Gives, number_at, kind_at, most_long, step_named, is_name_of, is_allowed, name_at, step_at, steps_at, group_at, groups_at, ended, sealed, old_at, new_at, steps_of_body};
ghost use Rattle.journal_model.specs.Names.{lock, journal};
ghost use Rattle.journal_model.specs.Seen.{IsPutShort};
ghost use Rattle.acq_outside.specs.Disk.{same_name};
ghost use Rattle.journal_model.specs.declared.record.ReadError.TheVariants.{NoMemory as no_memory};

use crate::Step;
use crate::inside::stays_inside;
use crate::seen::Seen;
use acq_base::{NoMemory, Row, Text};
use sha2::{Digest, Sha256};
use std::alloc::Global;

/// Why a reading stopped.
#[derive(Clone, Copy, Debug, PartialEq, Eq)]
pub enum ReadError {
    NoMemory,
    /// So many bytes are left from the first one on that can't stand where it stands.
    Bad(usize),
}

impl From<NoMemory> for ReadError {
    ghost from_gives = { λ _ error. error ≡ no_memory };

    fn from(_: NoMemory) -> ReadError {
        ReadError::NoMemory
    }
}

fn number16(bytes: &[u8]) -> Result<(u16, &[u8]), ReadError>
    ensures { Gives (λ x. (x.0, x.1.now)) result (number_at w16 bytes.now) }
{
    if bytes.len() < 2 {
        return Err(ReadError::Bad(0));
    }
    let (front, rest) = bytes.split_at(2);
    Ok((u16::from_be_bytes([front[0], front[1]]), rest))
}

fn number32(bytes: &[u8]) -> Result<(u32, &[u8]), ReadError>
    ensures { Gives (λ x. (x.0, x.1.now)) result (number_at w32 bytes.now) }
{
    if bytes.len() < 4 {
        return Err(ReadError::Bad(0));
    }
    let (front, rest) = bytes.split_at(4);
    Ok((
        u32::from_be_bytes([front[0], front[1], front[2], front[3]]),
        rest,
    ))
}

/// Whether a step is a Put.
fn kind(bytes: &[u8]) -> Result<(bool, &[u8]), ReadError>
    ensures { Gives (λ x. (x.0, x.1.now)) result (kind_at bytes.now) }
{
    match bytes.split_first() {
        None => Err(ReadError::Bad(0)),
        Some((kind, rest)) => {
            if *kind > 1 {
                return Err(ReadError::Bad(bytes.len()));
            }
            Ok((*kind == 0, rest))
        }
    }
}

/// Whether a record may have a name of this length.
fn is_length(put: bool, len: usize) -> bool
    ensures { result ≡ (not (nat_eq len 0) && not (nat_lt (most_long put) len)) }
{
    len != 0 && len <= (if put { 247 } else { 255 })
}

fn is_free(name: &[u8]) -> bool
    ensures { result ≡ (not (same_name name.now lock) && not (same_name name.now journal)) }
{
    name != b"lock".as_slice() && name != b"journal".as_slice()
}

#[tactic(auto, using(crate::proofs::Texts::text, crate::proofs::Texts::no_text))]
fn is_text(name: &[u8]) -> bool
    ensures { result ≡ is_utf8 name.now }
{
    match str::from_utf8(name) {
        Ok(_) => true,
        Err(_) => false,
    }
}

/// Whether a record may have this name.
fn is_fit(put: bool, name: &[u8]) -> bool
    ensures { result ≡ is_name_of put name.now }
{
    is_length(put, name.len()) && is_text(name) && is_free(name) && stays_inside(put, name)
}

/// Whether a record may have this step behind those before.
fn fits(alloc: Global, before: &Seen, put: bool, name: &[u8]) -> Result<bool, NoMemory>
    ensures { IfOk result (λ fit. fit ≡ is_allowed before.now put name.now) }
{
    if !is_fit(put, name) {
        return Ok(false);
    }
    let clash = before.clashes(alloc, put, name)?;
    Ok(!clash)
}

#[tactic(auto, unfolding(crate::specs::Reading::name_at))]
fn name<'a>(
    alloc: Global,
    before: &Seen,
    put: bool,
    bytes: &'a [u8],
) -> Result<(&'a [u8], &'a [u8]), ReadError>
    ensures read { Gives (λ x. (x.0.now, x.1.now)) result (name_at before.now put bytes.now) }
    ensures short { IfOk result (λ x. IsTrue put → length x.0.now ≤ 247) }
{
    let (count, rest) = number16(bytes)?;
    let count = count as usize;
    if rest.len() < count {
        return Err(ReadError::Bad(0));
    }
    let (name, after) = rest.split_at(count);
    if !fits(alloc, before, put, name)? {
        return Err(ReadError::Bad(rest.len()));
    }
    Ok((name, after))
}

/// A step of this name.
fn named(alloc: Global, put: bool, name: &[u8]) -> Result<Step, NoMemory>
    requires { IsTrue put → length name.now ≤ 247 }
    ensures named { IfOk result (λ step. step ≡ step_named put name.now) }
    ensures short { IfOk result IsPutShort }
{
    let name = Text::from_bytes(alloc, name)?;
    if put {
        return Ok(Step::Put(name));
    }
    Ok(Step::Drop(name))
}

#[tactic(auto, unfolding(crate::specs::Reading::step_at))]
fn step<'a>(alloc: Global, before: &Seen, bytes: &'a [u8]) -> Result<(Step, &'a [u8]), ReadError>
    ensures read { Gives (λ x. (x.0, x.1.now)) result (step_at before.now bytes.now) }
    ensures short { IfOk result (λ x. IsPutShort x.0) }
{
    let (put, rest) = kind(bytes)?;
    let (name, after) = name(alloc, before, put, rest)?;
    Ok((named(alloc, put, name)?, after))
}

/// So many further steps.
fn steps<'a>(
    alloc: Global,
    before: Seen,
    count: u32,
    bytes: &'a [u8],
) -> Result<(Seen, &'a [u8]), ReadError>
    ensures { Gives (λ x. (x.0, x.1.now)) result (steps_at count before bytes.now) }
{
    let mut seen = before;
    let mut rest = bytes;
    for _ in 0..count {
        let (step, after) = step(alloc, &seen, rest)?;
        seen = seen.with(alloc, step)?;
        rest = after;
    }
    Ok((seen, rest))
}

#[tactic(auto, unfolding(crate::specs::Reading::group_at))]
fn group<'a>(alloc: Global, before: Seen, bytes: &'a [u8]) -> Result<(Seen, &'a [u8]), ReadError>
    ensures { Gives (λ x. (x.0, x.1.now)) result (group_at before bytes.now) }
{
    let (count, rest) = number32(bytes)?;
    steps(alloc, before, count, rest)
}

/// So many further groups.
fn groups<'a>(
    alloc: Global,
    before: Seen,
    count: u32,
    bytes: &'a [u8],
) -> Result<(Seen, &'a [u8]), ReadError>
    ensures { Gives (λ x. (x.0, x.1.now)) result (groups_at count before bytes.now) }
{
    let mut seen = before;
    let mut rest = bytes;
    for _ in 0..count {
        let (more, after) = group(alloc, seen, rest)?;
        seen = more;
        rest = after;
    }
    Ok((seen, rest))
}

/// The end of the file.
fn end(steps: Row<Step>, rest: &[u8]) -> Result<Row<Step>, ReadError>
    ensures { Gives (λ steps. steps) result (ended steps rest.now) }
{
    if rest.is_empty() {
        return Ok(steps);
    }
    Err(ReadError::Bad(rest.len()))
}

/// The digest and the end of the file.
#[tactic(auto, unfolding(crate::specs::Reading::sealed))]
fn seal(body: &[u8], steps: Row<Step>, rest: &[u8]) -> Result<Row<Step>, ReadError>
    ensures { Gives (λ steps. steps) result (sealed body.now steps rest.now) }
{
    if rest.len() < 32 {
        return Err(ReadError::Bad(0));
    }
    let (digest, after) = rest.split_at(32);
    if digest != Sha256::digest(&body[..body.len().saturating_sub(rest.len())]).as_slice() {
        return Err(ReadError::Bad(rest.len()));
    }
    end(steps, after)
}

#[tactic(auto, unfolding(crate::specs::Reading::old_at))]
fn old(alloc: Global, bytes: &[u8]) -> Result<Row<Step>, ReadError>
    ensures { Gives (λ steps. steps) result (old_at bytes.now) }
{
    let (seen, rest) = group(alloc, Seen::new(alloc), bytes)?;
    end(seen.into_steps(), rest)
}

#[tactic(auto, unfolding(crate::specs::Reading::new_at))]
fn new(alloc: Global, body: &[u8], bytes: &[u8]) -> Result<Row<Step>, ReadError>
    ensures { Gives (λ steps. steps) result (new_at body.now bytes.now) }
{
    let (count, rest) = number32(bytes)?;
    let (seen, rest) = groups(alloc, Seen::new(alloc), count, rest)?;
    seal(body, seen.into_steps(), rest)
}

/// The steps that a body says.
pub fn read_body(alloc: Global, body: &[u8]) -> Result<Row<Step>, ReadError>
    ensures { Gives (λ steps. steps) result (steps_of_body body.now) }
{
    match body.split_first() {
        None => Err(ReadError::Bad(0)),
        Some((version, rest)) => match *version {
            1 => old(alloc, rest),
            2 => new(alloc, body, rest),
            _ => Err(ReadError::Bad(body.len())),
        },
    }
}
