//! Releases, read from bytes. It may take memory, and touches nothing else.

ghost use Rattle.std.specs.Prelude.{◌≡◌, ◌≢◌, ◌⊎◌, ◌↔◌, ℕ, List, ◌∷◌, ◌++◌, Some, Err, IfOk, OnOk, Contains, AllPairs, option_copied};
ghost use Rattle.std.specs.List.{join_with_byte};
ghost use Rattle.acq_base.specs.declared.sum.Sum.{Sum};
ghost use Rattle.release_file.specs.Listing.{entries_of, later_lines, sums_field};
ghost use Rattle.release_file.specs.Places.{ArePlaced, AreAllPlaced};
ghost use Rattle.release_file.specs.SumFaults.{AreAllowed, HasBadSums};
ghost use Rattle.release_file.specs.Release.{release_of, release_in, listed_sum, release_of_paragraphs, release_of_fields, date_of, date_of_lines, until_of, by_hash_of, is_yes, head_of, text_of};

use crate::date::read_date;
use crate::sums::read_files;
use crate::{Head, Release, ReleaseError};
use acq_base::{NoMemory, Text, TryCopy};
use clear_text::unframe;
use deb822_text::{Field, Paragraph, find, read};
use std::alloc::Global;

/// Reads a Release file (Debian repository format, "Release" files).
///
/// Bytes whose first line begins the frame of a signed text (RFC 9580, section 7) are read within the frame; the
/// signature isn't judged. A Release is one paragraph of control text without comments. The fields Date and SHA256 must be there; Valid-Until,
/// Acquire-By-Hash, Origin, Label, Suite and Codename may be; all others are read over. Of several refusals the first
/// in the order of [`ReleaseError`] is answered, unless memory runs out.
#[tactic(auto, using(crate::proofs::SumFaults::sum_faults))]
pub fn read_release(alloc: Global, bytes: &[u8]) -> Result<Release, ReleaseError>
    ensures value { (result ≡ Err ReleaseError.NoMemory) ⊎ (result ≡ release_of bytes.now) }
    // Of a Release that is read, each sum line is allowed below those above it.
    ensures allowed { OnOk result (AreAllowed (later_lines (sums_field bytes.now))) }
    // BadSums names the first line that no reading allows.
    ensures refused { (at : ℕ) → result ≡ Err (ReleaseError.BadSums at) → HasBadSums (sums_field bytes.now) at }
    // A path is listed with a sum exactly where a sum line says so.
    ensures listed { IfOk result (λ release. (path : List ℕ) (sum : Sum) → (listed_sum release path ≡ Some sum)
        ↔ Contains (entries_of bytes.now) (record { path = path; sum = sum })) }
    // No path stands twice.
    ensures distinct { IfOk result (λ release. AllPairs (λ a b. a.path ≢ b.path) release.files) }
{
    release_from(alloc, bytes)
}

/// The Release that the bytes are, with a frame or without.
#[tactic(auto, unfolding(crate::specs::Release::release_of, crate::specs::Release::text_within))]
fn release_from(alloc: Global, bytes: &[u8]) -> Result<Release, ReleaseError>
    ensures { (result ≡ Err ReleaseError.NoMemory) ⊎ (result ≡ release_of bytes.now) }
{
    match unframe(alloc, bytes)? {
        Some(text) => from_text(alloc, text.as_slice()),
        None => from_text(alloc, bytes),
    }
}

/// The Release that a text without a frame is.
#[tactic(auto, using(crate::proofs::Places::places), unfolding(crate::specs::Release::release_in))]
fn from_text(alloc: Global, text: &[u8]) -> Result<Release, ReleaseError>
    ensures { (result ≡ Err ReleaseError.NoMemory) ⊎ (result ≡ release_in text.now) }
{
    let paragraphs = read(alloc, text, false)?;
    only_paragraph(alloc, paragraphs.as_slice())
}

/// The Release that these paragraphs are, which are to be one.
#[tactic(auto, unfolding(crate::specs::Release::release_of_paragraphs))]
fn only_paragraph(alloc: Global, paragraphs: &[Paragraph]) -> Result<Release, ReleaseError>
    requires { AreAllPlaced paragraphs.now }
    ensures { (result ≡ Err ReleaseError.NoMemory) ⊎ (result ≡ release_of_paragraphs paragraphs.now) }
{
    match paragraphs {
        [paragraph] => from_paragraph(alloc, paragraph),
        _ => Err(ReleaseError::NotOne),
    }
}

/// The Release that a paragraph is.
#[tactic(auto, using(crate::proofs::Places::places), unfolding(crate::specs::Release::release_of_fields))]
fn from_paragraph(alloc: Global, paragraph: &Paragraph) -> Result<Release, ReleaseError>
    requires { ArePlaced paragraph.now.fields }
    ensures { (result ≡ Err ReleaseError.NoMemory) ⊎ (result ≡ release_of_fields paragraph.now.fields) }
{
    let date = release_date(find(paragraph, b"Date"))?;
    let until = valid_until(find(paragraph, b"Valid-Until"))?;
    let files = read_files(alloc, find(paragraph, b"SHA256"))?;
    Ok(Release {
        date,
        until,
        by_hash: says_yes(find(paragraph, b"Acquire-By-Hash")),
        head: read_head(alloc, paragraph)?,
        files,
    })
}

/// The date of a Release, whose field must be there.
#[tactic(auto, unfolding(crate::specs::Release::date_of))]
fn release_date(field: Option<&Field>) -> Result<i64, ReleaseError>
    ensures { result ≡ date_of (option_copied field.entry) }
{
    match field {
        Some(field) => field_date(field),
        None => Err(ReleaseError::NoDate),
    }
}

/// Until when a Release says that it is valid, if it does.
#[tactic(auto, unfolding(crate::specs::Release::until_of))]
fn valid_until(field: Option<&Field>) -> Result<Option<i64>, ReleaseError>
    ensures { result ≡ until_of (option_copied field.entry) }
{
    match field {
        Some(field) => Ok(Some(field_date(field)?)),
        None => Ok(None),
    }
}

/// The date that a field of one line writes.
#[tactic(auto, unfolding(crate::specs::Release::date_of_lines))]
fn field_date(field: &Field) -> Result<i64, ReleaseError>
    ensures { result ≡ date_of_lines field.now.lines field.now.at }
{
    match field.lines.as_slice() {
        [line] => read_date(line.as_bytes()).ok_or(ReleaseError::BadDate(field.at)),
        _ => Err(ReleaseError::BadDate(field.at)),
    }
}

/// Whether a field says `yes`, ASCII case aside.
#[tactic(auto, unfolding(crate::specs::Release::by_hash_of))]
fn says_yes(field: Option<&Field>) -> bool
    ensures { result ≡ by_hash_of (option_copied field.entry) }
{
    match field {
        Some(field) => are_yes(field.lines.as_slice()),
        None => false,
    }
}

/// Whether the lines are `yes` alone, ASCII case aside.
fn are_yes(lines: &[Text]) -> bool
    ensures { result ≡ is_yes lines.now }
{
    match lines {
        [line] => line.as_bytes().eq_ignore_ascii_case(b"yes"),
        _ => false,
    }
}

/// What a Release says of itself.
#[tactic(auto, unfolding(crate::specs::Release::head_of))]
fn read_head(alloc: Global, paragraph: &Paragraph) -> Result<Head, NoMemory>
    ensures { IfOk result (λ head. head ≡ head_of paragraph.now.fields) }
{
    Ok(Head {
        origin: field_text(alloc, find(paragraph, b"Origin"))?,
        label: field_text(alloc, find(paragraph, b"Label"))?,
        suite: field_text(alloc, find(paragraph, b"Suite"))?,
        codename: field_text(alloc, find(paragraph, b"Codename"))?,
    })
}

/// The lines of a field with a line feed between each two, if the field is there.
#[tactic(auto, unfolding(crate::specs::Release::text_of))]
fn field_text(alloc: Global, field: Option<&Field>) -> Result<Option<Text>, NoMemory>
    ensures { IfOk result (λ text. text ≡ text_of (option_copied field.entry)) }
{
    match field {
        Some(field) => Ok(Some(joined(alloc, field.lines.as_slice())?)),
        None => Ok(None),
    }
}

/// The lines with a line feed between each two.
fn joined(alloc: Global, lines: &[Text]) -> Result<Text, NoMemory>
    ensures { IfOk result (λ text. text ≡ join_with_byte 10 lines.now) }
{
    match lines {
        [first, rest @ ..] => joined_to(alloc, first, rest),
        [] => Ok(Text::new(alloc)),
    }
}

/// A line and further ones, with a line feed before each of these.
#[tactic(auto, using(crate::proofs::Joined::join_more))]
fn joined_to(alloc: Global, first: &Text, rest: &[Text]) -> Result<Text, NoMemory>
    ensures { IfOk result (λ text. text ≡ join_with_byte 10 (first.now ∷ rest.now)) }
{
    let mut text = first.copy(alloc)?;
    for line in rest {
        add_line(&mut text, line.as_bytes())?;
    }
    Ok(text)
}

/// Appends a line feed and a line.
fn add_line(text: &mut Text, line: &[u8]) -> Result<(), NoMemory>
    ensures { OnOk result (text.new ≡ text.old ++ 10 ∷ line.now) }
{
    text.push(b'\n')?;
    text.append(line)
}
