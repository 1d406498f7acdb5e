//! A configuration folder in memory.
ghost use Rattle.std.specs.Prelude.{◌≡◌, IfOk, option_copied, option_map, take};
ghost use Rattle.std.specs.List.{list_any};
ghost use Rattle.acq_outside.specs.Etc.{bytes_at, folder_names, is_at, is_folder, places_differ};

use crate::failing::Failing;
use crate::front::front;
use acq_base::{Bytes, NoMemory, Row, Text, TryCopy};
use acq_outside::{Etc, MOST_READ, OutError, Place};
use std::alloc::Global;

/// A configuration folder in memory.
#[derive(Debug, Drop)]
pub struct MemEtc {
    files: Row<(Place, Text, Bytes)>,
    failing: Failing,
}

impl MemEtc {
    ghost use Rattle.std.specs.Prelude.{◌≡◌, IsTrue};
    ghost use Rattle.acq_outside.specs.Etc.{places_differ};
    ghost use Rattle.acq_memory.specs.Failing.{fresh};
    ghost use Rattle.acq_memory.specs.MemEtc.{files_of, failing_of};

    /// Whether no two files have the same place and name.
    pub fn takes(files: &Row<(Place, Text, Bytes)>) -> bool
        ensures { result ≡ places_differ files.now }
    {
        places_differ(files.as_slice())
    }

    /// A folder of these files: where each lies, its name there, which is empty for the two single files, and its
    /// bytes. No two have the same place and name. `failing` holds the numbers of its calls that are to fail, counted
    /// from 1.
    pub fn new(files: Row<(Place, Text, Bytes)>, failing: Row<u64>) -> MemEtc
        requires { IsTrue (places_differ files) }
        ensures files { files_of result ≡ files }
        ensures failing { failing_of result ≡ fresh failing }
    {
        MemEtc {
            files,
            failing: Failing::new(failing),
        }
    }
}

impl Etc for MemEtc {
    ghost use Rattle.std.specs.Prelude.{◌≡◌, false, IsTrue, IsOkUnless, Err, IfOk, option_map, take};
    ghost use Rattle.std.specs.List.Sorted.{IsPermutation};
    ghost use Rattle.acq_outside.specs.Frame.{LooksCountingBy};
    ghost use Rattle.acq_outside.specs.Etc.{bytes_at, folder_names};
    ghost use Rattle.acq_memory.specs.Failing.{is_listed, counted};
    ghost use Rattle.acq_memory.specs.MemEtc.{files_of, told_files, failing_of, faults_of};

    ghost faults = { faults_of };

    ghost files = { told_files };

    fn names(&mut self, alloc: Global, place: Place) -> Result<Row<Text>, OutError>
        ensures frame { LooksCountingBy OutError.Fault faults_of told_files self.old self.new result }
        ensures told { IfOk result (λ names. IsPermutation (folder_names (files_of self.old) place) names) }

        // A listed call fails, and no other one does but for want of memory.
        ensures counted { failing_of self.new ≡ counted (failing_of self.old) }
        ensures listed { IsTrue (is_listed (failing_of self.old)) → result ≡ Err OutError.Fault }
        ensures others { is_listed (failing_of self.old) ≡ false → IsOkUnless result OutError.NoMemory }
    {
        self.failing.call()?;
        Ok(names_of(alloc, self.files.as_slice(), place)?)
    }

    fn read(&mut self, alloc: Global, place: Place, name: &Text) -> Result<Option<Bytes>, OutError>
        ensures frame { LooksCountingBy OutError.Fault faults_of told_files self.old self.new result }
        ensures told { IfOk result (λ file. file ≡ option_map (take 1048577) (bytes_at (files_of self.old) place name.now)) }

        // A listed call fails, and no other one does but for want of memory.
        ensures counted { failing_of self.new ≡ counted (failing_of self.old) }
        ensures listed { IsTrue (is_listed (failing_of self.old)) → result ≡ Err OutError.Fault }
        ensures others { is_listed (failing_of self.old) ≡ false → IsOkUnless result OutError.NoMemory }
    {
        self.failing.call()?;
        let found = find(self.files.as_slice(), place, name);
        Ok(front_of(alloc, found, MOST_READ)?)
    }
}

fn places_differ(files: &[(Place, Text, Bytes)]) -> bool
    ensures { result ≡ places_differ files.now }
{
    let mut rest = files;
    while let Some((file, others)) = rest.split_first() {
        if has_file(others, file.0, &file.1) {
            return false;
        }
        rest = others;
    }
    true
}

fn has_file(files: &[(Place, Text, Bytes)], place: Place, name: &Text) -> bool
    ensures { result ≡ list_any (λ file. is_at file place name.now) files.now }
{
    files.iter().any(|file| is_at(file, place, name))
}

/// Whether a file has this place and name.
fn is_at(file: &(Place, Text, Bytes), place: Place, name: &Text) -> bool
    ensures { result ≡ is_at file.now place name.now }
{
    file.0 == place && file.1 == *name
}

/// The names of a place, where it is a folder.
fn names_of(
    alloc: Global,
    files: &[(Place, Text, Bytes)],
    place: Place,
) -> Result<Row<Text>, NoMemory>
    ensures { IfOk result (λ names. names ≡ folder_names files.now place) }
{
    let mut names = Row::new(alloc);
    if is_folder(place) {
        for file in files {
            if file.0 == place {
                names.push(file.1.copy(alloc)?)?;
            }
        }
    }
    Ok(names)
}

/// Whether a place is a folder of many files.
fn is_folder(place: Place) -> bool
    ensures { result ≡ is_folder place }
{
    matches!(place, Place::SourcesParts | Place::ConfParts)
}

/// The bytes of a file, `None` where there is no such file.
fn find<'a>(files: &'a [(Place, Text, Bytes)], place: Place, name: &Text) -> Option<&'a Bytes>
    ensures { option_copied result ≡ bytes_at files.now place name.now }
{
    for file in files {
        if is_at(file, place, name) {
            return Some(&file.2);
        }
    }
    None
}

/// At most the first `most` bytes of a file, if there is one.
fn front_of(alloc: Global, file: Option<&Bytes>, most: usize) -> Result<Option<Bytes>, NoMemory>
    ensures { IfOk result (λ bytes. bytes ≡ option_map (take most) (option_copied file.entry)) }
{
    match file {
        Some(bytes) => Ok(Some(front(alloc, bytes.as_slice(), most)?)),
        None => Ok(None),
    }
}
