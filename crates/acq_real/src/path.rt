//! Which names a real disk takes, and where their files lie. It touches nothing.
ghost use Rattle.std.specs.Prelude.{◌≡◌, ◌⊎◌, ◌↔◌, [], codes, Contains, string_bytes, IfOk, IfErr, IsTrue, IsUtf8};
ghost use Rattle.std.specs.IoError.{error_kind};
ghost use Rattle.acq_real.specs.Folder.{IsInside, IsSegment, IsPathInside, is_in_partial};
ghost use Rattle.acq_real.specs.Listing.{IsTaken, is_printable};

use acq_outside::is_name;
use std::alloc::Global;
use std::io;
use std::io::ErrorKind;

/// The folder of lists on their way, as it stands before their names.
pub const PARTIAL: &[u8] = b"partial/";

/// Whether a file of this name lies in `partial`.
pub fn is_partial(name: &[u8]) -> bool
    ensures { result ≡ is_in_partial name.now }
{
    name.starts_with(PARTIAL)
}

/// The path of a file of this name. A name that may lead out of the folder is refused, and one that isn't UTF-8.
pub fn path_of(alloc: Global, folder: &str, name: &[u8]) -> io::Result<String>
    ensures inside { IfOk result (λ path. IsPathInside folder.now name.now (string_bytes path)) }
    ensures refused { IfErr result (λ error. (error_kind error ≡ ErrorKind.OutOfMemory) ⊎ ((error_kind error ≡ ErrorKind.InvalidFilename) × ¬ (IsUtf8 name.now × IsInside name.now))) }
{
    match str::from_utf8(name) {
        Ok(text) if is_inside(name) => Ok(format!(in alloc; "{folder}/{text}")?),
        _ => Err(io::Error::from(ErrorKind::InvalidFilename)),
    }
}

/// Whether a real disk lists a file of this name: its calls take the name, and no control character stands in it.
pub fn is_listed(name: &[u8]) -> bool
    ensures { IsTrue result ↔ IsTaken name.now }
{
    is_name(name) && is_inside(name) && is_printable(name)
}

/// Whether no control character of ASCII stands in a name.
fn is_printable(name: &[u8]) -> bool
    ensures { result ≡ is_printable name.now }
{
    name.iter().all(|byte| !byte.is_ascii_control())
}

/// Whether a name is one segment, or one behind `partial/`.
fn is_inside(name: &[u8]) -> bool
    ensures { IsTrue result ↔ IsInside name.now }
{
    match name.strip_prefix(PARTIAL) {
        Some(file) => is_segment(file),
        None => name != "partial".as_bytes() && is_segment(name),
    }
}

/// Whether a name leads neither up nor further down.
pub fn is_segment(name: &[u8]) -> bool
    ensures { IsTrue result ↔ IsSegment name.now }
{
    !is_same_or_up(name) && !has(name, b'/') && !has(name, b'\0')
}

/// Whether a name stands for the folder in which it is looked up, or for the one above.
fn is_same_or_up(name: &[u8]) -> bool
    ensures { IsTrue result ↔ (name.now ≡ []) ⊎ (name.now ≡ codes ".") ⊎ (name.now ≡ codes "..") }
{
    matches!(name, b"" | b"." | b"..")
}

/// Whether a byte stands in a name.
#[tactic(auto, using(crate::proofs::Segments::has_decides))]
fn has(name: &[u8], byte: u8) -> bool
    ensures { IsTrue result ↔ Contains name.now byte }
{
    name.contains(&byte)
}
