//! What is asked for a list or a single file.

ghost use Rattle.std.specs.Prelude.{◌≡◌, ◌≤◌, length, if◌then◌else◌, None, IfOk, IfSome};
ghost use Rattle.acq_base.specs.Uri.{IsSound, list_name};
ghost use Rattle.release_file.specs.Release.{listed_sum};
ghost use Rattle.update_model.specs.Wanted.{index_path as path_of_index, want as wanted_in};
ghost use Rattle.item_graph.specs.Single.{single as single_at};

use acq_base::{ListName, NoMemory, Settings, Source, Sum, Target, Text, TryCopy, Uri};
use by_hash::by_hash_uri;
use release_file::{Release, find_file};
use std::alloc::Global;
use update_model::Wanted;

/// A target with the sum that the Release lists for it.
pub fn want(
    alloc: Global,
    source: &Source,
    target: &Target,
    release: &Release,
    settings: &Settings,
    sum: &Sum,
) -> Result<Wanted, NoMemory>
    ensures value { IfOk result (λ wanted. wanted ≡ wanted_in source.now release.now settings.now target.now sum.now) }
    ensures sound { IsSound target.now.uri → length (list_name target.now.uri) ≤ 240 → IfOk result (λ wanted. IfSome wanted.hashed IsSound) }
{
    Ok(Wanted {
        path: target.path.copy(alloc)?,
        name: target.name.copy(alloc)?,
        sum: *sum,
        uri: target.uri.copy(alloc)?,
        hashed: by_hash_uri(alloc, source, target, sum, release.by_hash)?,
        index: index_sum(alloc, source, target, release)?,
        file_limit: settings.file_limit,
        size_limit: settings.size_limit,
    })
}

/// A file that no Release names. It has no URI under its digest and no patches, and its path stands for a list's name.
pub fn single(alloc: Global, uri: Uri, path: Text, sum: Sum) -> Result<Wanted, NoMemory>
    ensures { IfOk result (λ wanted. wanted ≡ single_at uri path sum) }
{
    Ok(Wanted {
        name: ListName(path.copy(alloc)?),
        path,
        sum,
        uri,
        hashed: None,
        index: None,
        file_limit: 0,
        size_limit: 0,
    })
}

/// The sum of a list's patch Index, where patches are on for the source and the Release lists one.
fn index_sum(
    alloc: Global,
    source: &Source,
    target: &Target,
    release: &Release,
) -> Result<Option<Sum>, NoMemory>
    ensures { IfOk result (λ sum. sum ≡ (if source.now.pdiffs then listed_sum release.now (path_of_index target.now.path) else None)) }
{
    if !source.pdiffs {
        return Ok(None);
    }
    let path = index_path(alloc, target)?;
    Ok(find_file(release, path.as_bytes()).copied())
}

/// The path of a list's patch Index.
fn index_path(alloc: Global, target: &Target) -> Result<Text, NoMemory>
    ensures { IfOk result (λ path. path ≡ path_of_index target.now.path) }
{
    let mut path = target.path.copy(alloc)?;
    path.append(b".diff/Index")?;
    Ok(path)
}
