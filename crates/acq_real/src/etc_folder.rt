//! What a configuration folder has at its four places. It touches the files of that folder alone, and those to which its
//! links lead, and changes none.
ghost use Rattle.std.specs.Prelude.{◌≡◌, ◌↔◌, ◌++◌, ◌∷◌, [], IfOk, IfSome, IsSomeAnd, IsTrue, OnOk, string_bytes};
ghost use Rattle.std.specs.Fs.{IsFile, file_type};
ghost use Rattle.acq_outside.specs.Etc.{is_folder};
ghost use Rattle.acq_real.specs.RealEtc as etc;

use crate::answer::{check_folder, unless};
use crate::path::is_segment;
use acq_base::{Bytes, Row, Text};
use acq_outside::{MOST_READ, Place};
use std::alloc::Global;
use std::fs::{File, Metadata};
use std::io::{ErrorKind, Read};
use std::rt::Files;
use std::{fs, io};

/// What a place is called in the folder.
fn place_name(place: Place) -> &'static str
    ensures { result.now ≡ etc.place_name place }
{
    match place {
        Place::SourcesList => "sources.list",
        Place::SourcesParts => "sources.list.d",
        Place::Conf => "apt.conf",
        Place::ConfParts => "apt.conf.d",
    }
}

/// Whether a place is a folder of many files.
fn is_folder(place: Place) -> bool
    ensures { result ≡ is_folder place }
{
    matches!(place, Place::SourcesParts | Place::ConfParts)
}

/// The path of a place.
fn place_path(alloc: Global, folder: &str, place: Place) -> io::Result<String>
    ensures { IfOk result (λ path. string_bytes path ≡ etc.place_path folder.now place) }
{
    let name = place_name(place);
    Ok(format!(in alloc; "{folder}/{name}")?)
}

/// The path of a file, `None` where no file of the place can have this name: one that may lead out of the folder or isn't
/// UTF-8, and any but the empty one for the two single files.
fn file_path(alloc: Global, folder: &str, place: Place, name: &[u8]) -> io::Result<Option<String>>
    ensures { IfOk result (λ found. IfSome found (λ path. etc.IsPathAt folder.now place name.now (string_bytes path))) }
{
    if !is_folder(place) {
        return if name.is_empty() {
            Ok(Some(place_path(alloc, folder, place)?))
        } else {
            Ok(None)
        };
    }
    match str::from_utf8(name) {
        Ok(text) if is_segment(name) => Ok(Some(part_path(alloc, folder, place, text)?)),
        _ => Ok(None),
    }
}

fn part_path(alloc: Global, folder: &str, place: Place, name: &str) -> io::Result<String>
    ensures { IfOk result (λ path. string_bytes path ≡ etc.part_path folder.now place name.now) }
{
    let place = place_path(alloc, folder, place)?;
    Ok(format!(in alloc; "{place}/{name}")?)
}

/// Where the configuration folder isn't there it is an error, and so is anything else in its place: a folder that was
/// mistyped isn't one without sources, for which every list would be removed.
fn check_there(rt: &impl Files<File = File>, folder: &str) -> io::Result<()> {
    check_folder(&fs::metadata(rt, folder)?)
}

/// The names of the files of a place. Where the place isn't there it has none, and neither has a single file's.
pub fn names<R: Files<File = File> + AllocGlobal + Clone + Drop>(
    rt: &R,
    alloc: Global,
    folder: &str,
    place: Place,
) -> io::Result<Row<Text>> {
    check_there(rt, folder)?;
    let mut names = Vec::new(alloc);
    if is_folder(place) {
        let path = place_path(alloc, folder, place)?;
        add_names(rt, alloc, path.as_str(), &mut names)?;
    }
    Ok(Row::from(names))
}

/// Adds the names of the files of a folder. A name that isn't UTF-8 is passed over.
fn add_names<R: Files<File = File> + AllocGlobal + Clone + Drop>(
    rt: &R,
    alloc: Global,
    path: &str,
    names: &mut Vec<Text>,
) -> io::Result<()> {
    let Some(entries) = unless(ErrorKind::NotFound, fs::read_dir(rt, path))? else {
        return Ok(());
    };
    for entry in entries {
        if let Some(entry) = unless(ErrorKind::InvalidFilename, entry)? {
            if is_listed(fs::metadata(rt, entry.path())) {
                add_name(alloc, entry.file_name(), names)?;
            }
        }
    }
    Ok(())
}

fn add_name(alloc: Global, name: &str, names: &mut Vec<Text>) -> io::Result<()>
    ensures { OnOk result (names.new.items ≡ names.old.items ++ name.now ∷ []) }
{
    let name = Text::from(Vec::from_slice(alloc, name.as_bytes())?);
    names.push(name)?;
    Ok(())
}

/// Whether what a name leads to is listed: a plain file is. What isn't there, or is anything else, isn't; what can't be
/// looked at for another reason is, so that reading it tells.
fn is_listed(found: io::Result<Metadata>) -> bool
    ensures { IsTrue result ↔ etc.IsListed found }
{
    match found {
        Ok(found) => found.is_file(),
        Err(error) => error.kind() != ErrorKind::NotFound,
    }
}

/// The first bytes of a file, at most one more than a configuration file may have. `None` where there is no plain file.
pub fn read(
    rt: &impl Files<File = File>,
    alloc: Global,
    folder: &str,
    place: Place,
    name: &Text,
) -> io::Result<Option<Bytes>> {
    check_there(rt, folder)?;
    match file_path(alloc, folder, place, name.as_bytes())? {
        Some(path) => read_path(rt, alloc, path.as_str()),
        None => Ok(None),
    }
}

fn read_path(rt: &impl Files<File = File>, alloc: Global, path: &str) -> io::Result<Option<Bytes>> {
    if !is_plain(unless(ErrorKind::NotFound, fs::metadata(rt, path))?) {
        return Ok(None);
    }
    match unless(ErrorKind::NotFound, File::open(rt, path))? {
        Some(file) => Ok(Some(read_front(alloc, file)?)),
        None => Ok(None),
    }
}

fn is_plain(found: Option<Metadata>) -> bool
    ensures { IsTrue result ↔ IsSomeAnd found (λ found. IsFile (file_type found)) }
{
    match found {
        Some(found) => found.is_file(),
        None => false,
    }
}

/// The first bytes of what is read.
fn read_front(alloc: Global, file: File) -> io::Result<Bytes> {
    let mut bytes = Vec::new(alloc);
    file.take(MOST_READ as u64).read_to_end(&mut bytes)?;
    Ok(Bytes::from(bytes))
}
