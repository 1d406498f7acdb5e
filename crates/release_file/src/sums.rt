//! Sum lines, read into files. It may take memory, and touches nothing else.

ghost use Rattle.std.specs.Prelude.{◌≡◌, ◌⊎◌, ◌+◌, ◌<◌, ◌^◌, ℕ, List, Err, IfOk, IfSome, OnOk, length, bytes_eq, option_copied};
ghost use Rattle.std.specs.BTreeMap.{get};
ghost use Rattle.std.specs.Cmp.Lexicographic.{slice_cmp};
ghost use Rattle.std.specs.Ordering.{nat_cmp};
ghost use Rattle.std.specs.Result.{result_ok};
ghost use Rattle.acq_base.specs.Sum.{sum_of_texts};
ghost use Rattle.release_file.specs.Entries.{with_entry, sum_beside};
ghost use Rattle.release_file.specs.Places.{IsPlaced};
ghost use Rattle.release_file.specs.Release.{files_of, files_of_field, files_of_lines, listed_of_line, listed_as, listed_sum, sum_in, agrees};

use crate::{Listed, Release, ReleaseError};
use acq_base::{NoMemory, Row, Sum, Text, TryCopy, read_sum, words};
use deb822_text::Field;
use std::alloc::Global;
use std::collections::BTreeMap;

/// The sum that a Release lists for a path, if it lists the path. It takes no memory.
#[tactic(auto, unfolding(crate::specs::Release::listed_sum))]
pub fn find_file<'a>(release: &'a Release, path: &[u8]) -> Option<&'a Sum>
    ensures { option_copied result ≡ listed_sum release.now path.now }
{
    find_sum(release.files.as_slice(), path)
}

/// The sum of the first of the files that has this path.
fn find_sum<'a>(files: &'a [Listed], path: &[u8]) -> Option<&'a Sum>
    ensures { option_copied result ≡ sum_in files.now path.now }
{
    for listed in files {
        if is_at(listed, path) {
            return Some(&listed.sum);
        }
    }
    None
}

/// Whether the file has this path.
fn is_at(listed: &Listed, path: &[u8]) -> bool
    ensures { result ≡ bytes_eq listed.now.path path.now }
{
    listed.path.as_bytes() == path
}

/// The files that the field SHA256 lists, which must be there.
#[tactic(auto, unfolding(crate::specs::Release::files_of))]
pub(crate) fn read_files(alloc: Global, field: Option<&Field>) -> Result<Row<Listed>, ReleaseError>
    requires { IfSome (option_copied field) IsPlaced }
    ensures { (result ≡ Err ReleaseError.NoMemory) ⊎ (result ≡ files_of (option_copied field.entry)) }
{
    match field {
        Some(field) => field_files(alloc, field.lines.as_slice(), field.at),
        None => Err(ReleaseError::NoSums),
    }
}

/// The files that the lines of a field list, the first of which is to be empty. The field stands at the line `at`.
#[tactic(auto, unfolding(crate::specs::Release::files_of_field))]
fn field_files(alloc: Global, lines: &[Text], at: u64) -> Result<Row<Listed>, ReleaseError>
    requires { at + length lines.now < 2 ^ 64 }
    ensures { (result ≡ Err ReleaseError.NoMemory) ⊎ (result ≡ files_of_field lines.now at) }
{
    match lines {
        [first, rest @ ..] if first.is_empty() => line_files(alloc, rest, at + 1),
        _ => Err(ReleaseError::BadSums(at)),
    }
}

/// The files that sum lines list, numbered from `at`. A map of the sums finds a path that stands twice.
#[tactic(auto, unfolding(crate::specs::Release::files_of_lines))]
fn line_files(alloc: Global, lines: &[Text], at: u64) -> Result<Row<Listed>, ReleaseError>
    requires { at + length lines.now < 2 ^ 64 }
    ensures { (result ≡ Err ReleaseError.NoMemory) ⊎ (result ≡ files_of_lines at lines.now) }
{
    let mut files = Row::new(alloc);
    let mut sums = BTreeMap::new(alloc);
    let mut at = at;
    for line in lines {
        let Some(listed) = read_line(alloc, line.as_bytes())? else {
            return Err(ReleaseError::BadSums(at));
        };
        if !add_file(alloc, &mut files, &mut sums, listed)? {
            return Err(ReleaseError::BadSums(at));
        }
        at += 1;
    }
    Ok(files)
}

/// The path and the sum that a sum line writes, if it is one.
#[tactic(auto, unfolding(crate::specs::Release::listed_of_line))]
fn read_line(alloc: Global, line: &[u8]) -> Result<Option<Listed>, NoMemory>
    ensures { IfOk result (λ listed. listed ≡ listed_of_line line.now) }
{
    let words = words(alloc, line)?;
    match words.as_slice() {
        [hash, size, path] => listed_at(alloc, hash.as_bytes(), size.as_bytes(), path),
        _ => Ok(None),
    }
}

/// The path with the sum that the two texts write, if they write one.
fn listed_at(
    alloc: Global,
    hash: &[u8],
    size: &[u8],
    path: &Text,
) -> Result<Option<Listed>, NoMemory>
    ensures { IfOk result (λ listed. listed ≡ listed_as path.now (result_ok (sum_of_texts hash.now size.now))) }
{
    match read_sum(hash, size) {
        Ok(sum) => Ok(Some(Listed {
            path: path.copy(alloc)?,
            sum,
        })),
        Err(_) => Ok(None),
    }
}

/// Adds a file, unless its path is there already; answers whether its sum agrees with the one that the path has.
fn add_file(
    alloc: Global,
    files: &mut Row<Listed>,
    sums: &mut BTreeMap<Text, Sum>,
    listed: Listed,
) -> Result<bool, NoMemory>
    ensures agrees { IfOk result (λ agreed. agreed ≡ agrees (get (slice_cmp nat_cmp) sums.old listed.path) listed.sum) }
    ensures files { OnOk result (files.new ≡ with_entry (get (slice_cmp nat_cmp) sums.old listed.path) files.old listed) }
    ensures sums { OnOk result ((path : List ℕ) → get (slice_cmp nat_cmp) sums.new path
        ≡ sum_beside (get (slice_cmp nat_cmp) sums.old path) listed path) }
{
    if let Some(sum) = sums.get(&listed.path) {
        return Ok(*sum == listed.sum);
    }
    sums.insert(listed.path.copy(alloc)?, listed.sum)?;
    files.push(listed)?;
    Ok(true)
}
