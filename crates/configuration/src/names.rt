//! Which files of a folder count, and in which order. It asks the folder once, and may take memory.

ghost use Rattle.std.specs.Prelude.{◌≡◌, ◌==◌, filter, IfOk, IfErr};
ghost use Rattle.std.specs.List.{list_all, list_any};
ghost use Rattle.source_lists.specs.Files.{is_file_character};
ghost use Rattle.acq_outside.specs.Looks.{LooksCounting};
ghost use Rattle.configuration.specs.Answers.{AreNames, IsOutside};
ghost use Rattle.configuration.specs.Names as spec;

use crate::ConfigurationError;
use acq_base::{NoMemory, Text, TryCopy};
use acq_outside::{Etc, Place};
use source_lists::counts;
use std::alloc::Global;

/// The names of the files of a folder that count, in byte order, each once.
pub fn counted_names<E: Etc>(
    alloc: Global,
    etc: &mut E,
    place: Place,
) -> Result<Vec<Text>, ConfigurationError>
    ensures frame { LooksCounting ConfigurationError.Fault E.Etc etc.old etc.new result }
    ensures names { IfOk result (λ names. AreNames (E.files etc.old) place names.items) }
    ensures outside { IfErr result IsOutside }
{
    let names = etc.names(alloc, place)?;
    let mut counted = counted(alloc, place, names.as_slice())?;
    counted.sort_unstable();
    counted.dedup();
    Ok(counted)
}

/// Those names that count.
fn counted(alloc: Global, place: Place, names: &[Text]) -> Result<Vec<Text>, NoMemory>
    ensures { IfOk result (λ counted. counted.items ≡ filter (spec.counts place) names.now) }
{
    let mut counted = Vec::new(alloc);
    for name in names {
        if is_counted(place, name) {
            counted.push(name.copy(alloc)?)?;
        }
    }
    Ok(counted)
}

/// Whether a file of this name counts.
fn is_counted(place: Place, name: &Text) -> bool
    ensures { result ≡ spec.counts place name.now }
{
    match place {
        Place::SourcesParts => counts(name).is_some(),
        Place::ConfParts => is_conf_name(name.as_bytes()),
        Place::SourcesList | Place::Conf => false,
    }
}

/// Whether a file of apt.conf.d counts: its name has letters, digits, `_`, `-` and `.` alone, and no `.` or the end
/// `.conf`.
fn is_conf_name(name: &[u8]) -> bool
    ensures { result ≡ spec.is_conf_name name.now }
{
    has_file_characters(name) && (!has_dot(name) || name.ends_with(b".conf"))
}

/// Letters, digits, `_`, `-` and `.` alone.
fn has_file_characters(name: &[u8]) -> bool
    ensures { result ≡ list_all is_file_character name.now }
{
    name.iter().all(|byte| is_file_character(*byte))
}

fn is_file_character(byte: u8) -> bool
    ensures { result ≡ is_file_character byte }
{
    byte.is_ascii_alphanumeric() || byte == b'_' || byte == b'-' || byte == b'.'
}

fn has_dot(name: &[u8]) -> bool
    ensures { result ≡ list_any (λ c. c == 46) name.now }
{
    name.iter().any(|byte| *byte == b'.')
}
