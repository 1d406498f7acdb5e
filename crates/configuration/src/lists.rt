//! The entries of sources.list and of the files of sources.list.d, in this order. It reads each file once, and may take
//! memory.

ghost use Rattle.std.specs.Prelude.{◌≡◌, ◌⊎◌, ◌++◌, [], All, Err, IfOk, IsErrOf, OnOk};
ghost use Rattle.acq_outside.specs.Looks.{LooksCounting};
ghost use Rattle.acq_outside.specs.declared.etc.Place.TheVariants.{SourcesList as list_place, SourcesParts as list_parts};
ghost use Rattle.configuration.specs.Answers.{Adds, AddsParts, AddsText, ReadsEntries};
ghost use Rattle.configuration.specs.Configured as spec;
ghost use Rattle.configuration.specs.Refusals.{in_list};
ghost use Rattle.source_lists.specs.Sound.{IsSound};

use crate::ConfigurationError;
use crate::error::of_list;
use crate::file::{File, part, read_text, single};
use crate::names::counted_names;
use acq_base::{NoMemory, Row, Text, TryCopy};
use acq_outside::{Etc, Place};
use source_lists::{Entry, Form, ListError, counts, read_list, read_sources};
use std::alloc::Global;

/// The entries of all sources lists, for a machine of this architecture.
pub fn read_entries<E: Etc>(
    alloc: Global,
    etc: &mut E,
    arch: &Text,
) -> Result<Row<Entry>, ConfigurationError>
    ensures frame { LooksCounting ConfigurationError.Fault E.Etc etc.old etc.new result }
    ensures read { ReadsEntries (E.files etc.old) arch.now result }
    ensures sound { IfOk result (All IsSound) }
{
    let mut entries = Row::new(alloc);
    add_single(alloc, etc, arch, &mut entries)?;
    let names = counted_names(alloc, etc, Place::SourcesParts)?;
    add_parts(alloc, etc, arch, names.as_slice(), &mut entries)?;
    Ok(entries)
}

/// Adds the entries of sources.list.
fn add_single<E: Etc>(
    alloc: Global,
    etc: &mut E,
    arch: &Text,
    entries: &mut Row<Entry>,
) -> Result<(), ConfigurationError>
    ensures frame { LooksCounting ConfigurationError.Fault E.Etc etc.old etc.new result }
    ensures read { AddsText (E.files etc.old) list_place [] (spec.list_text arch.now) entries.old entries.new result }
    ensures sound { All IsSound entries.old → OnOk result (All IsSound entries.new) }
{
    let file = single(alloc, Place::SourcesList, b"sources.list")?;
    add_file(alloc, etc, arch, file, Some(Form::List), entries)
}

/// Adds the entries of the files of sources.list.d with these names.
fn add_parts<E: Etc>(
    alloc: Global,
    etc: &mut E,
    arch: &Text,
    names: &[Text],
    entries: &mut Row<Entry>,
) -> Result<(), ConfigurationError>
    ensures frame { LooksCounting ConfigurationError.Fault E.Etc etc.old etc.new result }
    ensures read { AddsParts (E.files etc.old) list_parts names.now (spec.list_part arch.now) entries.old entries.new result }
    ensures sound { All IsSound entries.old → OnOk result (All IsSound entries.new) }
{
    for name in names {
        add_part(alloc, etc, arch, name, entries)?;
    }
    Ok(())
}

/// Adds the entries of a file of sources.list.d.
fn add_part<E: Etc>(
    alloc: Global,
    etc: &mut E,
    arch: &Text,
    name: &Text,
    entries: &mut Row<Entry>,
) -> Result<(), ConfigurationError>
    ensures frame { LooksCounting ConfigurationError.Fault E.Etc etc.old etc.new result }
    ensures read { AddsText (E.files etc.old) list_parts name.now (λ text. spec.list_part arch.now (name.now, text)) entries.old entries.new result }
    ensures sound { All IsSound entries.old → OnOk result (All IsSound entries.new) }
{
    let file = part(alloc, Place::SourcesParts, b"sources.list.d/", name)?;
    add_file(alloc, etc, arch, file, counts(name), entries)
}

/// Adds the entries of a file in this form.
fn add_file<E: Etc>(
    alloc: Global,
    etc: &mut E,
    arch: &Text,
    file: File,
    form: Option<Form>,
    entries: &mut Row<Entry>,
) -> Result<(), ConfigurationError>
    ensures frame { LooksCounting ConfigurationError.Fault E.Etc etc.old etc.new result }
    ensures read { AddsText (E.files etc.old) file.place file.name (λ text. in_list file.label (spec.entries_by form file.label arch.now text)) entries.old entries.new result }
    ensures sound { All IsSound entries.old → OnOk result (All IsSound entries.new) }
{
    let text = read_text(alloc, etc, &file)?;
    add_text(alloc, arch, file.label, form, text.as_slice(), entries)
}

/// Adds the entries of a text in this form.
#[tactic(auto, using(crate::proofs::Sound::more_sound))]
fn add_text(
    alloc: Global,
    arch: &Text,
    label: Text,
    form: Option<Form>,
    text: &[u8],
    entries: &mut Row<Entry>,
) -> Result<(), ConfigurationError>
    ensures read { Adds (in_list label (spec.entries_by form label arch.now text.now)) entries.old entries.new result }
    ensures sound { All IsSound entries.old → OnOk result (All IsSound entries.new) }
    ensures outside { ¬ (IsErrOf result ConfigurationError.Fault) }
{
    match entries_by(alloc, form, &label, arch, text) {
        Ok(found) => Ok(add_entries(alloc, found.as_slice(), entries)?),
        Err(error) => Err(of_list(label, error)),
    }
}

/// The entries of a text in this form.
fn entries_by(
    alloc: Global,
    form: Option<Form>,
    label: &Text,
    arch: &Text,
    text: &[u8],
) -> Result<Row<Entry>, ListError>
    ensures value { (result ≡ Err ListError.NoMemory) ⊎ (result ≡ spec.entries_by form label.now arch.now text.now) }
    ensures sound { IfOk result (All IsSound) }
{
    match form {
        Some(Form::List) => read_list(alloc, label, text, arch),
        Some(Form::Sources) => read_sources(alloc, label, text, arch),
        None => Ok(Row::new(alloc)),
    }
}

/// Puts entries behind others.
fn add_entries(alloc: Global, found: &[Entry], entries: &mut Row<Entry>) -> Result<(), NoMemory>
    ensures { OnOk result (entries.new ≡ entries.old ++ found.now) }
{
    for entry in found {
        entries.push(entry.copy(alloc)?)?;
    }
    Ok(())
}
