//! What one list says of a package. It may take memory, and touches nothing else.
ghost use Rattle.std.specs.Prelude.{◌≡◌, IfOk, IfSome, Some, option_map};
ghost use Rattle.acq_base.specs.Uri.{IsSound};
ghost use Rattle.deb_fetch.specs.Founds.{IsSoundFound, found_of, joined, one_found};
ghost use Rattle.deb_fetch.specs.Stanzas as spec;

use crate::found::Found;
use crate::paragraphs::first_paragraph;
use crate::stanza::stanza_in;
use acq_base::{NoMemory, Text, Uri};
use deb822_text::{Paragraph, TextError, read};
use std::alloc::Global;

/// What a list says of this version of this package; nothing, where it is no control text. It is read paragraph by
/// paragraph, so that no more than the fields of one are in memory.
pub fn find_in_list(
    alloc: Global,
    base: &Uri,
    list: &[u8],
    name: &Text,
    version: &Text,
) -> Result<Found, NoMemory>
    ensures value { IfOk result (λ found. found ≡ found_of (spec.stanzas_in base.now name.now version.now (Some list.now))) }
    ensures sound { IsSound base.now → IfOk result IsSoundFound }
{
    let mut found = Found::nothing();
    let mut rest = list;
    while !rest.is_empty() {
        let (front, behind) = first_paragraph(rest);
        match find_in_text(alloc, base, front, name, version)? {
            Some(more) => found = found.joined(more),
            None => return Ok(Found::nothing()),
        }
        rest = behind;
    }
    Ok(found)
}

/// What a text says; `None` where it is no control text.
#[tactic(auto, unfolding(crate::specs::Stanzas::told))]
fn find_in_text(
    alloc: Global,
    base: &Uri,
    text: &[u8],
    name: &Text,
    version: &Text,
) -> Result<Option<Found>, NoMemory>
    ensures value { IfOk result (λ found. found ≡ option_map found_of (spec.told base.now name.now version.now text.now)) }
    ensures sound { IsSound base.now → IfOk result (λ found. IfSome found IsSoundFound) }
{
    match read(alloc, text, false) {
        Ok(paragraphs) => {
            let found = find_in_paragraphs(alloc, base, paragraphs.as_slice(), name, version)?;
            Ok(Some(found))
        }
        Err(TextError::NoMemory) => Err(NoMemory),
        Err(_) => Ok(None),
    }
}

fn find_in_paragraphs(
    alloc: Global,
    base: &Uri,
    paragraphs: &[Paragraph],
    name: &Text,
    version: &Text,
) -> Result<Found, NoMemory>
    ensures value { IfOk result (λ found. found ≡ found_of (spec.stanzas_of base.now name.now version.now paragraphs.now)) }
    ensures sound { IsSound base.now → IfOk result IsSoundFound }
{
    let mut found = Found::nothing();
    for paragraph in paragraphs {
        found = noted(alloc, found, base, paragraph, name, version)?;
    }
    Ok(found)
}

/// With what one more paragraph says.
fn noted(
    alloc: Global,
    found: Found,
    base: &Uri,
    paragraph: &Paragraph,
    name: &Text,
    version: &Text,
) -> Result<Found, NoMemory>
    ensures value { IfOk result (λ more. more ≡ joined found (one_found (spec.stanza_in base.now name.now version.now paragraph.now.fields))) }
    ensures sound { IsSound base.now → IsSoundFound found → IfOk result IsSoundFound }
{
    let stanza = stanza_in(alloc, base, paragraph, name, version)?;
    Ok(found.joined(Found::one(stanza)))
}
