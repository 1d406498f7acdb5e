//! What the system's answers mean, as functions of their values. It touches nothing but a count of faults.
ghost use Rattle.std.specs.Prelude.{◌≡◌, ◌↔◌, IsOk, IfOk, IfErr, OnErr, pos};
ghost use Rattle.std.specs.Fs.{IsFile, IsDir, file_type, metadata_len};
ghost use Rattle.std.specs.IoError.{error_kind};
ghost use Rattle.std.specs.Time.{system_time_nanos};
ghost use Rattle.acq_outside.specs.Frame.{Counts};
ghost use Rattle.acq_real.specs.Answer.{IsUnless, seconds_of};

use acq_outside::Fault;
use std::fs::Metadata;
use std::io;
use std::io::ErrorKind;
use std::time::{SystemTime, UNIX_EPOCH};

/// The answer, but `None` for an error of this kind. Any other error stays.
pub fn unless<T: Drop>(kind: ErrorKind, answer: io::Result<T>) -> io::Result<Option<T>>
    ensures { IsUnless kind answer result }
{
    match answer {
        Ok(value) => Ok(Some(value)),
        Err(error) if error.kind() == kind => Ok(None),
        Err(error) => Err(error),
    }
}

/// The answer of the system, an error of it as a fault that is counted.
pub fn counted<T: Drop>(faults: &mut u64, done: io::Result<T>) -> Result<T, Fault>
    ensures frame { Counts faults.old faults.new result }
    ensures ok { IsOk result ↔ IsOk done }
    ensures answer { IfOk result (λ value. done ≡ Ok value) }
{
    match done {
        Ok(value) => Ok(value),
        Err(_) => {
            *faults = faults.saturating_add(1);
            Err(Fault)
        }
    }
}

/// The length of a plain file. A folder, a link and anything else is an error.
pub fn plain_length(found: &Metadata) -> io::Result<u64>
    ensures plain { IsOk result ↔ IsFile (file_type found.now) }
    ensures length { IfOk result (λ len. len ≡ metadata_len found.now) }
    ensures refused { IfErr result (λ error. error_kind error ≡ ErrorKind.InvalidFilename) }
{
    if found.is_file() {
        Ok(found.len())
    } else {
        Err(io::Error::from(ErrorKind::InvalidFilename))
    }
}

/// Anything but a folder is an error, a link to one too.
pub fn check_folder(found: &Metadata) -> io::Result<()>
    ensures folder { IsOk result ↔ IsDir (file_type found.now) }
    ensures refused { IfErr result (λ error. error_kind error ≡ ErrorKind.NotADirectory) }
{
    if found.is_dir() {
        Ok(())
    } else {
        Err(io::Error::from(ErrorKind::NotADirectory))
    }
}

/// The whole seconds since 1970 began, at most the greatest i64. Where the system gave no time it is 0.
pub fn seconds(now: io::Result<SystemTime>) -> i64
    ensures told { IfOk now (λ time. result ≡ seconds_of (system_time_nanos time)) }
    ensures untold { OnErr now (result ≡ pos 0) }
{
    let Ok(now) = now else {
        return 0;
    };
    match now.duration_since(UNIX_EPOCH) {
        Ok(since) => i64::try_from(since.as_secs()).unwrap_or(i64::MAX),
        Err(_) => 0,
    }
}
