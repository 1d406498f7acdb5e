//! The deb822 form.

ghost use Rattle.std.specs.Prelude.{◌≡◌, ◌⊎◌, Err, All, IfOk, IfErr};
ghost use Rattle.source_lists.specs.Sound.{IsSound};
ghost use Rattle.source_lists.specs.Texts as texts;
ghost use Rattle.source_lists.specs.Texts.{all_entries, AreSources, IsSourcesRefusal};
ghost use Rattle.source_lists.specs.Stanzas.{stanza_entries};

use crate::one_line::MOST_BYTES;
use crate::stanza::add_stanza;
use crate::{Entry, ListError};
use acq_base::{Row, Text};
use deb822_text::{Paragraph, read};
use std::alloc::Global;

/// The entries of a text in the deb822 form of sources.list(5), read under this file name, on a machine of this
/// architecture.
///
/// `LongFile` where the text has more than 1,048,576 bytes, which is looked at first. Then the whole text is read as control
/// text: `BadField`, `Twice` or `Loose` at its first line that no reading allows. Else it is refused at its first stanza that
/// no reading allows, for its first fault in the order Enabled, Types, URIs, Suites, Components, Architectures, By-Hash,
/// PDiffs: `BadLine`, `Scheme`, `BadUri`, `NoComponent` or `LooseComponent`, with the line of that field, or of the stanza's
/// first field where that field isn't there. `NoMemory` where memory ran out.
pub fn read_sources(
    alloc: Global,
    file: &Text,
    bytes: &[u8],
    arch: &Text,
) -> Result<Row<Entry>, ListError>
    ensures value { (result ≡ Err ListError.NoMemory) ⊎ (result ≡ texts.sources_entries file.now arch.now bytes.now) }
    // The stanzas of a text that is read are each read by themselves, and its entries are theirs in order.
    ensures read { IfOk result (AreSources file.now arch.now bytes.now) }
    // What a plan of the entries relies on.
    ensures sound { IfOk result (All IsSound) }
    // A refusal is that of the text as such, or of the first stanza that isn't read.
    ensures refused { IfErr result (IsSourcesRefusal file.now arch.now bytes.now) }
{
    entries_of_sources(alloc, file, arch, bytes)
}

/// The entries of a text that isn't too long.
#[tactic(auto, unfolding(crate::specs::Texts::sources_entries))]
fn entries_of_sources(
    alloc: Global,
    file: &Text,
    arch: &Text,
    bytes: &[u8],
) -> Result<Row<Entry>, ListError>
    ensures value { (result ≡ Err ListError.NoMemory) ⊎ (result ≡ texts.sources_entries file.now arch.now bytes.now) }
    ensures sound { IfOk result (All IsSound) }
{
    if bytes.len() > MOST_BYTES {
        return Err(ListError::LongFile);
    }
    let stanzas = read(alloc, bytes, true)?;
    entries_of_stanzas(alloc, file, arch, stanzas.as_slice())
}

/// The entries of all stanzas.
fn entries_of_stanzas(
    alloc: Global,
    file: &Text,
    arch: &Text,
    stanzas: &[Paragraph],
) -> Result<Row<Entry>, ListError>
    ensures value { (result ≡ Err ListError.NoMemory) ⊎ (result ≡ all_entries (stanza_entries file.now arch.now) stanzas.now) }
    ensures sound { IfOk result (All IsSound) }
{
    let mut entries = Row::new(alloc);
    for stanza in stanzas {
        add_stanza(alloc, file, arch, stanza, &mut entries)?;
    }
    Ok(entries)
}
