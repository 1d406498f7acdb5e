//! Whether a Release that came may be installed.

ghost use Rattle.std.specs.Prelude.{◌≡◌, IfOk, MatchResult, option_map, Ok, Err};
ghost use Rattle.update_model.specs.Outcomes.{admitted, bytes_of, dated, headed, Kept};
ghost use Rattle.update_model.specs.Releases.{installed_release as installed_of};
ghost use Rattle.board_source.specs.Admitting.{against, admitted_bytes, admitted_release, first_reason as reason_of};
ghost use Rattle.board_source.specs.Refinement.{admission_of, found_of, staying_of};

use crate::found::{AdmittedRelease, Staying};
use crate::setup::Setup;
use acq_base::{Bytes, NoMemory, Refusal, Row, TryCopy};
use kept_hooks::Judge;
use release_file::{DateError, Release, ReleaseError, judge_dates, read_release, refused_field};
use std::alloc::Global;
use update_model::{Body, Cause, End};

/// Whether a Release may be installed.
#[derive(Drop)]
pub enum Admission {
    Admitted(AdmittedRelease),
    Stays(Staying),
}

/// The Release that came, where it may be installed beside the installed one of these bytes, or the first reason against it.
pub fn admit(
    alloc: Global,
    judge: &Judge,
    setup: &Setup,
    end: End,
    old: &Option<Bytes>,
) -> Result<Admission, NoMemory>
    requires { judge.now.change ≡ setup.now.change }
    ensures { IfOk result (λ admission. admission_of admission ≡ admitted end old.now setup.now.settings setup.now.change setup.now.moment) }
{
    match release_bytes(alloc, end) {
        Ok(bytes) => admit_bytes(alloc, judge, setup, bytes, old),
        Err(cause) => Ok(Admission::Stays(Staying::Kept(cause))),
    }
}

/// The bytes of a Release that came, or why there are none. A Release neither stands nor is staged.
fn release_bytes(alloc: Global, end: End) -> Result<Bytes, Cause>
    ensures { MatchResult result (λ bytes. bytes_of end ≡ Ok bytes) (λ cause. bytes_of end ≡ Err (Kept cause)) }
{
    match end {
        End::Got(Body::Bytes(bytes)) => Ok(bytes),
        End::Ended(cause) => Err(cause),
        End::Got(Body::Staged(_)) | End::Stands => Ok(Row::new(alloc)),
    }
}

/// The same of its bytes.
fn admit_bytes(
    alloc: Global,
    judge: &Judge,
    setup: &Setup,
    bytes: Bytes,
    old: &Option<Bytes>,
) -> Result<Admission, NoMemory>
    requires { judge.now.change ≡ setup.now.change }
    ensures { IfOk result (λ admission. admission_of admission ≡ admitted_bytes bytes old.now setup.now.settings setup.now.change setup.now.moment) }
{
    match read_release(alloc, bytes.as_slice()) {
        Ok(release) => admit_release(alloc, judge, setup, AdmittedRelease { bytes, release }, old),
        Err(ReleaseError::NoMemory) => Err(NoMemory),
        Err(refusal) => Ok(Admission::Stays(Staying::Kept(Cause::BadRelease {
            number: refusal.number(),
            line: refusal.line(),
        }))),
    }
}

/// The same of a Release that is read.
fn admit_release(
    alloc: Global,
    judge: &Judge,
    setup: &Setup,
    found: AdmittedRelease,
    old: &Option<Bytes>,
) -> Result<Admission, NoMemory>
    requires { judge.now.change ≡ setup.now.change }
    ensures { IfOk result (λ admission. admission_of admission ≡ admitted_release (found_of found) (installed_of old.now) setup.now.settings setup.now.change setup.now.moment) }
{
    let installed = installed_release(alloc, old)?;
    let reason = first_reason(alloc, judge, setup, &found.release, installed)?;
    match reason {
        Some(why) => Ok(Admission::Stays(why)),
        None => Ok(Admission::Admitted(found)),
    }
}

/// The installed Release; bytes that are refused count as none.
fn installed_release(alloc: Global, old: &Option<Bytes>) -> Result<Option<Release>, NoMemory>
    ensures { IfOk result (λ release. release ≡ installed_of old.now) }
{
    let Some(bytes) = old else {
        return Ok(None);
    };
    match read_release(alloc, bytes.as_slice()) {
        Ok(release) => Ok(Some(release)),
        Err(ReleaseError::NoMemory) => Err(NoMemory),
        Err(_) => Ok(None),
    }
}

/// The first reason against a Release: its dates, then what it says of itself otherwise than the installed one.
fn first_reason(
    alloc: Global,
    judge: &Judge,
    setup: &Setup,
    release: &Release,
    installed: Option<Release>,
) -> Result<Option<Staying>, NoMemory>
    requires { judge.now.change ≡ setup.now.change }
    ensures { IfOk result (λ why. against (option_map staying_of why) ≡ reason_of release.now installed setup.now.settings setup.now.change setup.now.moment) }
{
    let date = date_of(&installed);
    match judge_dates(release, date, &setup.settings.dates, setup.moment) {
        Ok(()) => head_reason(alloc, judge, setup, release, installed),
        Err(refusal) => Ok(Some(date_reason(refusal))),
    }
}

/// When the installed Release was made.
fn date_of(installed: &Option<Release>) -> Option<i64>
    ensures { result ≡ option_map (λ o. o.date) installed.now }
{
    match installed {
        Some(release) => Some(release.date),
        None => None,
    }
}

/// Why a Release with such dates may not be installed.
fn date_reason(refusal: DateError) -> Staying
    ensures { Err (staying_of result) ≡ dated (Err refusal) }
{
    match refusal {
        DateError::Expired(end) => Staying::Kept(Cause::Expired(end)),
        DateError::Future(date) => Staying::Kept(Cause::Future(date)),
        DateError::Older(date) => Staying::Older(date),
    }
}

/// Why a Release with such a head may not follow the installed one, if it may not.
fn head_reason(
    alloc: Global,
    judge: &Judge,
    setup: &Setup,
    release: &Release,
    installed: Option<Release>,
) -> Result<Option<Staying>, NoMemory>
    requires { judge.now.change ≡ setup.now.change }
    ensures { IfOk result (λ why. against (option_map staying_of why) ≡ headed setup.now.change installed release.now) }
{
    let Some(old) = installed else {
        return Ok(None);
    };
    if judge.allows(&old.head, &release.head) {
        return Ok(None);
    }
    match refused_field(&setup.change, &old.head, &release.head) {
        Some(field) => Ok(Some(Staying::Kept(Cause::Changed {
            old: old.head,
            new: release.head.copy(alloc)?,
            field,
        }))),
        None => Ok(None),
    }
}
