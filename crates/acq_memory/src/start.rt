//! Which files a disk in memory may begin with.
ghost use Rattle.std.specs.Prelude.{◌≡◌, ◌↔◌, All, IsTrue};
ghost use Rattle.std.specs.List.{list_any};
ghost use Rattle.acq_outside.specs.Disk.{IsName, same_name};
ghost use Rattle.acq_outside.specs.History.{names_differ};

use acq_base::{Bytes, Text};
use acq_outside::is_name;

/// Whether each file has a name that a disk may have.
pub fn are_names(files: &[(Text, Bytes)]) -> bool
    ensures { IsTrue result ↔ All (λ file. IsName file.0) files.now }
{
    for file in files {
        if !is_name(file.0.as_bytes()) {
            return false;
        }
    }
    true
}

/// Whether no two files have the same name.
pub fn names_differ(files: &[(Text, Bytes)]) -> bool
    ensures { result ≡ names_differ files.now }
{
    let mut rest = files;
    while let Some((file, others)) = rest.split_first() {
        if has_name(others, &file.0) {
            return false;
        }
        rest = others;
    }
    true
}

/// Whether a file has this name.
fn has_name(files: &[(Text, Bytes)], name: &Text) -> bool
    ensures { result ≡ list_any (λ file. same_name file.0 name.now) files.now }
{
    files.iter().any(|file| file.0 == *name)
}
