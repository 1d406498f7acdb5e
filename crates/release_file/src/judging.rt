//! Dates of a Release, judged at a moment. It touches nothing and takes no memory.

ghost use Rattle.std.specs.Prelude.{◌≡◌, ◌↔◌, Option, ℤ, Ok, IsOk};
ghost use Rattle.acq_base.specs.declared.settings.Dates.{Dates};
ghost use Rattle.release_file.specs.declared.release.Release.{Release};
ghost use Rattle.release_file.specs.Dates.{IsAdmissible, judged, judged_end, judged_date, judged_age, at_least, at_most, end_of_validity as valid_until};

use crate::Release;
use acq_base::{Dates, Refusal};
use std::error::Error;
use std::fmt;

/// Why a Release's dates don't allow it. Moments are in seconds since 1970-01-01 00:00:00 UTC.
#[derive(Clone, Copy, Debug, PartialEq, Eq)]
pub enum DateError {
    /// The Release was valid until this moment. A date and a setting add up to it, so it may pass 64 bits.
    Expired(i128),
    /// The Release has this date, which is too far ahead of the moment.
    Future(i64),
    /// The Release has this date, which is before the installed Release's.
    Older(i64),
}

impl fmt::Display for DateError {
    fn fmt<W: fmt::Write>(&self, f: &mut fmt::Formatter<W>) -> fmt::Result {
        match self {
            DateError::Expired(end) => write!(f, "the Release was valid until {end}"),
            DateError::Future(date) => write!(f, "the Release's date {date} is in the future"),
            DateError::Older(date) => write!(
                f,
                "the Release's date {date} is before the installed one's"
            ),
        }
    }
}

impl Error for DateError {}

impl Refusal for DateError {
    ghost use Rattle.release_file.specs.Dates.{refusal_number};

    ghost number = { refusal_number };

    ghost line = { λ _. 0 };

    fn number(&self) -> u32 {
        match self {
            DateError::Expired(_) => 13,
            DateError::Future(_) => 14,
            DateError::Older(_) => 15,
        }
    }

    fn line(&self) -> u64 {
        0
    }
}

/// Whether a Release's dates allow it at a moment, beside the date of the Release that is installed.
///
/// It is refused where the moment is past the end of its validity, else where it is dated more than the allowed time
/// ahead of the moment, else where the installed one has a later date. All sums are exact: two 64-bit numbers add up
/// to less than 128 bits. It takes no memory.
pub fn judge_dates(
    release: &Release,
    installed: Option<i64>,
    dates: &Dates,
    now: i64,
) -> Result<(), DateError>
    ensures value { result ≡ judged release.now installed dates.now now }
    ensures admissible { IsOk result ↔ IsAdmissible release.now installed dates.now now }
{
    judge(release, installed, dates, now)
}

/// What the definition of a judgement refuses is exactly what isn't admissible, for every Release and moment.
#[tactic(auto, using(crate::proofs::Judged::judged_ok))]
pub fn judged_is_admissible()
    ensures { (release : Release) (installed : Option ℤ) (dates : Dates) (now : ℤ)
        → (judged release installed dates now ≡ Ok tt) ↔ IsAdmissible release installed dates now }
{}

/// The first of the three refusals that holds.
#[tactic(auto, unfolding(crate::specs::Dates::judged))]
fn judge(
    release: &Release,
    installed: Option<i64>,
    dates: &Dates,
    now: i64,
) -> Result<(), DateError>
    ensures { result ≡ judged release.now installed dates.now now }
{
    judge_end(end_of_validity(release, dates), now)?;
    judge_date(release.date, dates.future, now)?;
    judge_age(release.date, installed)
}

/// Refuses a moment past the end of validity.
#[tactic(auto, unfolding(crate::specs::Dates::judged_end))]
fn judge_end(end: Option<i128>, now: i64) -> Result<(), DateError>
    ensures { result ≡ judged_end end now }
{
    match end {
        Some(end) if end < i128::from(now) => Err(DateError::Expired(end)),
        _ => Ok(()),
    }
}

/// Refuses a date that is more than `future` seconds ahead of the moment.
#[tactic(auto, unfolding(crate::specs::Dates::judged_date))]
fn judge_date(date: i64, future: u64, now: i64) -> Result<(), DateError>
    ensures { result ≡ judged_date date future now }
{
    if i128::from(now) + i128::from(future) < i128::from(date) {
        return Err(DateError::Future(date));
    }
    Ok(())
}

/// Refuses a date before the installed one.
#[tactic(auto, unfolding(crate::specs::Dates::judged_age))]
fn judge_age(date: i64, installed: Option<i64>) -> Result<(), DateError>
    ensures { result ≡ judged_age date installed }
{
    match installed {
        Some(installed) if date < installed => Err(DateError::Older(date)),
        _ => Ok(()),
    }
}

/// The last second at which a Release is valid, if there is one.
#[tactic(auto, unfolding(crate::specs::Dates::end_of_validity))]
fn end_of_validity(release: &Release, dates: &Dates) -> Option<i128>
    ensures { result ≡ valid_until release.now dates.now }
{
    let date = release.date;
    let until = widened(release.until);
    capped(date, dates.max, extended(date, dates.min, until))
}

/// The same moment in a type that has room for sums.
fn widened(moment: Option<i64>) -> Option<i128>
    ensures { result ≡ moment }
{
    Some(i128::from(moment?))
}

/// The given end, but not before `min` seconds from the date on have passed.
#[tactic(auto, unfolding(crate::specs::Dates::at_least))]
fn extended(date: i64, min: u64, until: Option<i128>) -> Option<i128>
    ensures { result ≡ at_least date min until }
{
    let until = until?;
    if min == 0 {
        return Some(until);
    }
    Some(until.max(i128::from(date) + i128::from(min)))
}

/// The end, but not after `max` seconds from the date on.
#[tactic(auto, unfolding(crate::specs::Dates::at_most))]
fn capped(date: i64, max: u64, end: Option<i128>) -> Option<i128>
    ensures { result ≡ at_most date max end }
{
    if max == 0 {
        return end;
    }
    let latest = i128::from(date) + i128::from(max);
    match end {
        Some(end) => Some(end.min(latest)),
        None => Some(latest),
    }
}
