//! What one paragraph says of a package. It may take memory, and touches nothing else.
ghost use Rattle.std.specs.Prelude.{◌≡◌, IfOk, IfSome, codes, option_copied};
ghost use Rattle.acq_base.specs.Uri.{IsSound};
ghost use Rattle.deb_fetch.specs.Founds.{IsSoundStanza};
ghost use Rattle.deb_fetch.specs.Stanzas as spec;

use crate::filename::is_deb_path;
use acq_base::{NoMemory, Sum, Text, TryCopy, Uri, read_sum};
use deb822_text::{Field, Paragraph, find};
use std::alloc::Global;

/// What a list says of a package's file.
#[derive(Debug, PartialEq, Drop)]
pub struct Stanza {
    /// The base of the source whose list it is.
    pub base: Uri,
    /// Where the file is below it.
    pub path: Text,
    /// Its size and SHA-256 hash.
    pub sum: Sum,
}

/// What a paragraph says of this version of this package, if it does.
#[tactic(auto, unfolding(crate::specs::Stanzas::stanza_in))]
pub fn stanza_in(
    alloc: Global,
    base: &Uri,
    paragraph: &Paragraph,
    name: &Text,
    version: &Text,
) -> Result<Option<Stanza>, NoMemory>
    ensures value { IfOk result (λ stanza. stanza ≡ spec.stanza_in base.now name.now version.now paragraph.now.fields) }
    ensures sound { IsSound base.now → IfOk result (λ stanza. IfSome stanza IsSoundStanza) }
{
    if !is_line(paragraph, b"Package", name) || !is_line(paragraph, b"Version", version) {
        return Ok(None);
    }
    match (path_of(paragraph), sum_of(paragraph)) {
        (Some(path), Some(sum)) => Ok(Some(Stanza {
            base: base.copy(alloc)?,
            path: path.copy(alloc)?,
            sum,
        })),
        _ => Ok(None),
    }
}

/// Whether the field of this name has this single line.
fn is_line(paragraph: &Paragraph, name: &[u8], text: &Text) -> bool
    ensures { result ≡ spec.is_line (spec.line_named paragraph.now.fields name.now) text.now }
{
    match line_named(paragraph, name) {
        Some(line) => line.as_bytes() == text.as_bytes(),
        None => false,
    }
}

/// The path of the file, where it is one that a list may name.
fn path_of(paragraph: &Paragraph) -> Option<&Text>
    ensures { option_copied result ≡ spec.path_of (spec.line_named paragraph.now.fields (codes "Filename")) }
{
    match line_named(paragraph, b"Filename") {
        Some(path) if is_deb_path(path.as_bytes()) => Some(path),
        _ => None,
    }
}

/// The sum of the file.
fn sum_of(paragraph: &Paragraph) -> Option<Sum>
    ensures { let fields = paragraph.now.fields in result ≡ spec.sum_of_lines (spec.line_named fields (codes "SHA256")) (spec.line_named fields (codes "Size")) }
{
    match (
        line_named(paragraph, b"SHA256"),
        line_named(paragraph, b"Size"),
    ) {
        (Some(hash), Some(size)) => read_sum(hash.as_bytes(), size.as_bytes()).ok(),
        _ => None,
    }
}

/// The single line of the field of this name.
fn line_named<'a>(paragraph: &'a Paragraph, name: &[u8]) -> Option<&'a Text>
    ensures { option_copied result ≡ spec.line_named paragraph.now.fields name.now }
{
    match find(paragraph, name) {
        Some(field) => only_line(field),
        None => None,
    }
}

/// The line of a field that has no other.
fn only_line(field: &Field) -> Option<&Text>
    ensures { option_copied result ≡ spec.only_line field.now.lines }
{
    match field.lines.as_slice() {
        [line] => Some(line),
        _ => None,
    }
}
