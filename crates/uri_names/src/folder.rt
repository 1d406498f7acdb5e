//! What lies below a base, dot segments removed. It may take memory, and touches nothing else.
ghost use Rattle.std.specs.Prelude.{◌≡◌, ℕ, List, ◌+◌, ◌≤◌, ◌++◌, ◌||◌, IfOk, OnOk, length, map};
ghost use Rattle.std.specs.List.{slice_split};
ghost use Rattle.acq_base.specs.Uri.{uri_text, list_name, IsSound};
ghost use Rattle.acq_base.specs.declared.uri.Uri.{Uri};
ghost use Rattle.uri_names.specs.DotSegments.{IsWithoutDots};
ghost use Rattle.uri_names.specs.Folder as spec;
ghost use Rattle.uri_names.specs.Normal.{IsBase, IsNormal};
ghost use Rattle.uri_names.specs.Reading.{ReadsBack};

use acq_base::{NoMemory, Text, TryCopy, Uri};
use std::alloc::{AllocError, Global};

/// The URI of a path below a base: the path is appended to the base's, and dot segments are removed (RFC 3986,
/// section 5.2.4).
///
/// A base and a path of letters, digits and `._-+~:/` give a sound URI, where its text isn't too long for one.
pub fn below(alloc: Global, base: &Uri, path: &[u8]) -> Result<Uri, NoMemory>
    ensures value { IfOk result (λ uri. uri ≡ spec.below_of base.now path.now) }
    // The removal by the standard's rounds.
    ensures rounds { IsSound base.now → IfOk result (λ uri. IsWithoutDots (base.now.path ++ path.now) uri.path) }
    ensures short { IfOk result (λ uri. length (uri_text uri) ≤ length (uri_text base.now) + length path.now) }
    ensures sound { IsSound base.now → spec.AreBelowCharacters path.now
        → IfOk result (λ uri. length (uri_text uri) ≤ 16384 → IsSound uri) }
    ensures normal { IsBase base.now → spec.AreBelowCharacters path.now → IfOk result IsNormal }
    ensures again { IsBase base.now → spec.AreBelowCharacters path.now → IfOk result ReadsBack }
{
    appended(alloc, base, path)
}

/// What lies below a sound base is sound, where its path has such characters and its list name isn't too long: what
/// `below` gives, said for all bases and paths at once.
pub fn files_below_are_sound()
    ensures { (base : Uri) (path : List ℕ) → IsSound base → spec.AreBelowCharacters path
        → length (list_name (spec.below_of base path)) ≤ 16377 → IsSound (spec.below_of base path) }
{}

#[tactic(auto, unfolding(crate::specs::Folder::below_of))]
fn appended(alloc: Global, base: &Uri, path: &[u8]) -> Result<Uri, NoMemory>
    ensures { IfOk result (λ uri. uri ≡ spec.below_of base.now path.now) }
{
    let mut whole = base.path.copy(alloc)?;
    whole.append(path)?;
    Ok(Uri {
        scheme: base.scheme,
        host: base.host.copy(alloc)?,
        port: base.port,
        path: without_dot_segments(alloc, whole.as_bytes())?,
    })
}

/// A path without its dot segments; one that doesn't begin with `/` stays.
#[tactic(auto, unfolding(crate::specs::Folder::remove_dot_segments))]
fn without_dot_segments(alloc: Global, path: &[u8]) -> Result<Text, NoMemory>
    ensures { IfOk result (λ text. text ≡ spec.remove_dot_segments path.now) }
{
    match path {
        [b'/', rest @ ..] => {
            let segments = segments_of(alloc, rest)?;
            let kept = resolved(alloc, segments.as_slice())?;
            joined(alloc, kept.as_slice())
        }
        _ => Text::from_bytes(alloc, path),
    }
}

/// The segments of a path behind its first `/`.
fn segments_of(alloc: Global, path: &[u8]) -> Result<Vec<&[u8]>, AllocError>
    ensures { IfOk result (λ segments. map (λ segment. segment.now) segments.items ≡ slice_split spec.is_slash path.now) }
{
    path.split(|byte| *byte == b'/').collect(alloc)
}

/// The segments that stay once dot segments are removed.
#[tactic(auto, unfolding(crate::specs::Folder::resolved))]
fn resolved<'a>(alloc: Global, segments: &[&'a [u8]]) -> Result<Vec<&'a [u8]>, NoMemory>
    ensures { IfOk result (λ kept. map (λ segment. segment.now) kept.items
        ≡ spec.resolved (map (λ segment. segment.now) segments.now)) }
{
    let mut kept = Vec::new(alloc);
    for segment in segments {
        enter(&mut kept, segment)?;
    }
    if ends_in_dots(segments) {
        kept.push(b"".as_slice())?;
    }
    Ok(kept)
}

/// Whether the last segment is `.` or `..`.
#[tactic(auto, unfolding(crate::specs::Folder::ends_in_dots))]
fn ends_in_dots(segments: &[&[u8]]) -> bool
    ensures { result ≡ spec.ends_in_dots (map (λ segment. segment.now) segments.now) }
{
    match segments.last() {
        Some(segment) => is_dots(segment),
        None => false,
    }
}

fn is_dots(segment: &[u8]) -> bool
    ensures { result ≡ (spec.is_dot segment.now || spec.is_dot_dot segment.now) }
{
    matches!(segment, b"." | b"..")
}

/// Enters one segment: `.` stays out, and `..` takes the segment before it along.
#[tactic(auto, unfolding(crate::specs::Folder::enter))]
fn enter<'a>(kept: &mut Vec<&'a [u8]>, segment: &'a [u8]) -> Result<(), NoMemory>
    ensures { OnOk result (map (λ s. s.now) kept.new.items ≡ spec.enter (map (λ s. s.now) kept.old.items) segment.now) }
{
    match segment {
        b"." => {}
        b".." => {
            kept.pop();
        }
        _ => kept.push(segment)?,
    }
    Ok(())
}

/// Each segment after a `/`.
fn joined(alloc: Global, segments: &[&[u8]]) -> Result<Text, NoMemory>
    ensures { IfOk result (λ text. text ≡ spec.joined (map (λ segment. segment.now) segments.now)) }
{
    let mut path = Text::new(alloc);
    for segment in segments {
        path.push(b'/')?;
        path.append(segment)?;
    }
    Ok(path)
}
