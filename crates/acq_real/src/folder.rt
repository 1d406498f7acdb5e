//! What a disk does with files below its folder, each with a few calls of the system. It touches that folder alone.
ghost use Rattle.std.specs.Prelude.{◌≤◌, length, IfOk, IfSome, IsSomeAnd, IsTrue, OnErr, OnOk};
ghost use Rattle.std.specs.Fs.{IsDir, IsFile, file_type};
ghost use Rattle.acq_real.specs.Opened.{AreDue, IsSynced};
ghost use Rattle.acq_real.specs.Ownership.{IsPrivate, IsPrivateFile, ShowsMode};

use crate::answer::{check_folder, plain_length, unless};
use crate::listing::Entry;
use crate::opened::{
    LIST_FILE, OpenFolders, give_back, make_file, node_of, open_folders, open_found, still,
};
use crate::ownership::{Found, is_private, is_private_file, look};
use acq_base::Text;
use os::RangeLock;
use std::alloc::Global;
use std::fs::{DirBuilder, File, Metadata, Permissions};
use std::io::{Error, ErrorKind};
use std::os::fd::AsRawFd;
use std::os::unix::fs::{DirBuilderExt, FileExt, MetadataExt, PermissionsExt, fchown};
use std::rt::Files;
use std::{fs, io};

/// The permission bits of the lists folder where it is made: everybody may read it, and its owner alone may change it.
const LISTS_FOLDER: u32 = 0o755;

/// The permission bits of `partial` where it is made or taken over: what is in it is installed, so nobody else may come in.
const PRIVATE_FOLDER: u32 = 0o700;

/// The permission bits of the file that is locked, as apt makes it: who may not write it may not hold the folder.
const LOCK_FILE: u32 = 0o640;

/// The permission bits of everybody but a file's owner and group.
const EVERYBODY: u32 = 0o007;

/// How many bytes a lock covers that covers a file whole.
const WHOLE_FILE: u64 = i64::MAX as u64;

/// A file that is locked, and what the system found it to be.
#[derive(Drop)]
pub struct Locked {
    pub file: File,
    pub found: Metadata,
}

/// Makes a folder with these permission bits whatever the umask, and answers whether it was missing.
fn make_folder(rt: &impl Files<File = File>, path: &str, mode: u32) -> io::Result<bool> {
    let mut how = DirBuilder::new();
    how.mode(mode);
    if unless(ErrorKind::AlreadyExists, how.create(rt, path))?.is_none() {
        return Ok(false);
    }
    give_back(&File::open(rt, path)?, mode)?;
    Ok(true)
}

/// Makes the changes of names in a folder lasting.
fn sync_folder(rt: &impl Files<File = File>, path: &str) -> io::Result<()> {
    File::open(rt, path)?.sync_all()
}

fn partial_path(alloc: Global, folder: &str) -> io::Result<String> {
    Ok(format!(in alloc; "{folder}/partial")?)
}

/// What is at a path, a folder. Anything else there is an error, a link to a folder too.
fn find_folder(rt: &impl Files, path: &str) -> io::Result<Metadata>
    ensures folder { IfOk result (λ found. IsDir (file_type found)) }
{
    let found = fs::symlink_metadata(rt, path)?;
    check_folder(&found)?;
    Ok(found)
}

/// Whose it is that the system found. Anything but a folder that is this user's alone is an error.
fn look_at_private(metadata: Metadata) -> io::Result<Found>
    ensures folder { IfOk result (λ found. IsDir (file_type found.metadata)) }
    ensures own { IfOk result (λ found. IsPrivate found.standing found.user) }
    ensures mode { IfOk result ShowsMode }
{
    check_folder(&metadata)?;
    let found = look(metadata);
    if !is_private(found.standing, found.user) {
        return Err(Error::from(ErrorKind::PermissionDenied));
    }
    Ok(found)
}

/// The folder `partial`, this user's alone. Where somebody else had it meanwhile it is an error.
fn find_partial(rt: &impl Files, path: &str) -> io::Result<Found>
    ensures folder { IfOk result (λ found. IsDir (file_type found.metadata)) }
    ensures own { IfOk result (λ found. IsPrivate found.standing found.user) }
    ensures mode { IfOk result ShowsMode }
{
    look_at_private(find_folder(rt, path)?)
}

/// Takes the folder `partial` over, where it isn't this user's alone, as apt does for its own user whenever it starts, and
/// answers whose it is then. Where that isn't allowed, or does nothing, it is an error.
fn take_over(rt: &impl Files<File = File>, path: &str) -> io::Result<Found>
    ensures folder { IfOk result (λ found. IsDir (file_type found.metadata)) }
    ensures own { IfOk result (λ found. IsPrivate found.standing found.user) }
    ensures mode { IfOk result ShowsMode }
{
    let found = look(find_folder(rt, path)?);
    if is_private(found.standing, found.user) {
        return Ok(found);
    }
    let opened = open_found(rt, path, node_of(&found.metadata), false)?;
    fchown(&opened, Some(found.user), None)?;
    opened.set_permissions(Permissions::from_mode(PRIVATE_FOLDER))?;
    look_at_private(opened.metadata()?)
}

/// Anything but a folder as `partial` is an error. A link to a folder leads out of the disk's own.
pub fn check_partial(rt: &impl Files, alloc: Global, folder: &str) -> io::Result<()> {
    find_partial(rt, partial_path(alloc, folder)?.as_str())?;
    Ok(())
}

/// Makes the folder where its parent is there.
pub fn make_own(rt: &impl Files<File = File>, alloc: Global, folder: &str) -> io::Result<()> {
    if make_folder(rt, folder, LISTS_FOLDER)? {
        sync_folder(rt, format!(in alloc; "{folder}/..")?.as_str())?;
    }
    Ok(())
}

/// Makes the folder likewise, and `partial` in it, which may be there but must be a folder, and is taken over.
pub fn make_folders(rt: &impl Files<File = File>, alloc: Global, folder: &str) -> io::Result<()> {
    make_own(rt, alloc, folder)?;
    let partial = partial_path(alloc, folder)?;
    make_folder(rt, partial.as_str(), PRIVATE_FOLDER)?;
    take_over(rt, partial.as_str())?;
    Ok(())
}

/// Makes the changes of names in the folder and in `partial` lasting. After an error the folder is still to be synced.
pub fn sync_names(
    rt: &impl Files<File = File>,
    alloc: Global,
    kept: &mut Option<OpenFolders>,
    folder: &str,
) -> io::Result<()>
    ensures synced { OnOk result (IsSomeAnd kept.new IsSynced) }
    ensures due { OnErr result (AreDue kept.new) }
{
    let open = kept.take();
    let partial = partial_path(alloc, folder)?;
    let found = node_of(&find_partial(rt, partial.as_str())?.metadata);
    let mut folders = match still(open, found) {
        Some(folders) => folders,
        None => open_folders(rt, folder, partial.as_str(), found)?,
    };
    folders.sync()?;
    *kept = Some(folders);
    Ok(())
}

/// What is at a path, `None` where nothing is. No link is followed.
fn find(rt: &impl Files, path: &str) -> io::Result<Option<Metadata>> {
    unless(ErrorKind::NotFound, fs::symlink_metadata(rt, path))
}

/// The plain file at a path, `None` where nothing is, or a link. Anything else there is an error.
fn find_plain(rt: &impl Files, path: &str) -> io::Result<Option<Metadata>>
    ensures plain { IfOk result (λ found. IfSome found (λ file. IsFile (file_type file))) }
{
    match find(rt, path)? {
        Some(found) if found.is_symlink() => Ok(None),
        Some(found) => {
            plain_length(&found)?;
            Ok(Some(found))
        }
        None => Ok(None),
    }
}

/// The file at a path that is used as it stands: a plain one, in `partial` one of this user's alone, since what somebody
/// else can write may be another list than was fetched. `None` where there is none.
pub fn find_file(rt: &impl Files, path: &str, in_partial: bool) -> io::Result<Option<Found>>
    ensures plain { IfOk result (λ found. IfSome found (λ file. IsFile (file_type file.metadata))) }
    ensures own { IsTrue in_partial → IfOk result (λ found. IfSome found (λ file. IsPrivateFile file.standing file.user)) }
    ensures mode { IfOk result (λ found. IfSome found ShowsMode) }
{
    let Some(metadata) = find_plain(rt, path)? else {
        return Ok(None);
    };
    let found = look(metadata);
    if in_partial && !is_private_file(found.standing, found.user) {
        return Ok(None);
    }
    Ok(Some(found))
}

/// The length of a file, `None` where there is none to be used.
pub fn length(rt: &impl Files, path: &str, in_partial: bool) -> io::Result<Option<u64>> {
    match find_file(rt, path, in_partial)? {
        Some(found) => Ok(Some(plain_length(&found.metadata)?)),
        None => Ok(None),
    }
}

/// One read that a signal doesn't end. The system takes no place from 2^63 on, and no file has a byte there.
pub fn read_some(file: &File, at: u64, out: &mut [u8]) -> io::Result<usize>
    ensures { IfOk result (λ n. n ≤ length out.old) }
{
    if i64::try_from(at.saturating_add(out.len() as u64)).is_err() {
        return Ok(0);
    }
    for _ in 0..u64::MAX {
        if let Some(n) = unless(ErrorKind::Interrupted, file.read_at(out, at))? {
            return Ok(n);
        }
    }
    Err(io::Error::from(ErrorKind::Interrupted))
}

/// Moves a file to another path, in place of what is there, a link too, and answers the one that was moved, as it was
/// found, or `None` where there is none to move. One in `partial` that is not this user's alone is an error.
pub fn rename(
    rt: &impl Files,
    from: &str,
    from_partial: bool,
    to: &str,
) -> io::Result<Option<Found>>
    ensures plain { IfOk result (λ moved. IfSome moved (λ file. IsFile (file_type file.metadata))) }
    ensures own { IsTrue from_partial → IfOk result (λ moved. IfSome moved (λ file. IsPrivateFile file.standing file.user)) }
    ensures mode { IfOk result (λ moved. IfSome moved ShowsMode) }
{
    find_plain(rt, to)?;
    let Some(metadata) = find_plain(rt, from)? else {
        return Ok(None);
    };
    let found = look(metadata);
    if from_partial && !is_private_file(found.standing, found.user) {
        return Err(Error::from(ErrorKind::PermissionDenied));
    }
    fs::rename(rt, from, to)?;
    Ok(Some(found))
}

/// Removes a file or a link, and answers whether there was one. A folder there is an error, and so is all else.
pub fn remove(rt: &impl Files, path: &str) -> io::Result<bool> {
    let Some(found) = find(rt, path)? else {
        return Ok(false);
    };
    if !found.is_symlink() {
        plain_length(&found)?;
    }
    fs::remove_file(rt, path)?;
    Ok(true)
}

/// Puts a new, empty file in place of what stands at a path, a link too, and answers the plain file whose place it takes.
/// It is made at the path `fresh`, so that at no moment the path leads to nothing.
pub fn replace(
    rt: &impl Files<File = File>,
    fresh: &str,
    path: &str,
) -> io::Result<Option<Metadata>>
    ensures plain { IfOk result (λ former. IfSome former (λ file. IsFile (file_type file))) }
{
    remove(rt, fresh)?;
    let former = find_plain(rt, path)?;
    make_file(rt, fresh, LIST_FILE)?;
    fs::rename(rt, fresh, path)?;
    Ok(former)
}

/// Opens the file at a path that is to be locked, an absent one being made first.
fn open_lock(rt: &impl Files<File = File>, path: &str) -> io::Result<File> {
    if let Some(made) = unless(ErrorKind::AlreadyExists, make_file(rt, path, LOCK_FILE))? {
        return Ok(made);
    }
    match find_plain(rt, path)? {
        Some(found) => open_found(rt, path, node_of(&found), true),
        None => Err(Error::from(ErrorKind::NotFound)),
    }
}

/// Locks the file at a path, which is made where it is missing, and answers it, or `None` where it is locked: by another
/// opening of it, or by apt, whose lock is of this kind. The lock lasts as long as the file stays open. Anything but a
/// plain file is an error.
pub fn lock(rt: &impl Files<File = File>, path: &str) -> io::Result<Option<Locked>>
    ensures plain { IfOk result (λ locked. IfSome locked (λ lock. IsFile (file_type lock.found))) }
{
    let file = open_lock(rt, path)?;
    if unless(ErrorKind::WouldBlock, lock_whole(&file))?.is_none() {
        return Ok(None);
    }
    let found = file.metadata()?;
    plain_length(&found)?;
    let mode = found.mode();
    if mode & EVERYBODY != 0 {
        // Who may read it could keep it locked. Only its owner may mend that, who need not be this user.
        let _mended = file.set_permissions(Permissions::from_mode(mode & !EVERYBODY));
    }
    Ok(Some(Locked { file, found }))
}

/// Takes the lock of a whole file for this opening of it.
fn lock_whole(file: &File) -> io::Result<()> {
    if os::try_lock_range(file.as_raw_fd(), RangeLock::Exclusive, 0, WHOLE_FILE) == 0 {
        Ok(())
    } else {
        Err(Error::from_raw_os_error(os::errno()))
    }
}

/// What stands in the folder and in `partial`.
pub fn entries<R: Files<File = File> + AllocGlobal + Clone + Drop>(
    rt: &R,
    alloc: Global,
    folder: &str,
) -> io::Result<Vec<Entry>> {
    check_partial(rt, alloc, folder)?;
    let mut entries = Vec::new(alloc);
    add_entries(rt, alloc, folder, false, &mut entries)?;
    let partial = partial_path(alloc, folder)?;
    add_entries(rt, alloc, partial.as_str(), true, &mut entries)?;
    Ok(entries)
}

/// Adds what stands in one folder. A name that isn't UTF-8 is passed over.
fn add_entries<R: Files<File = File> + AllocGlobal + Clone + Drop>(
    rt: &R,
    alloc: Global,
    path: &str,
    is_partial: bool,
    entries: &mut Vec<Entry>,
) -> io::Result<()> {
    for entry in fs::read_dir(rt, path)? {
        if let Some(entry) = unless(ErrorKind::InvalidFilename, entry)? {
            entries.push(Entry {
                is_partial,
                name: Text::from(Vec::from_slice(alloc, entry.file_name().as_bytes())?),
                is_plain: is_plain(entry.metadata())?,
            })?;
        }
    }
    Ok(())
}

/// Whether an entry is a plain file or a link. One that is gone meanwhile is none.
fn is_plain(found: io::Result<Metadata>) -> io::Result<bool> {
    match unless(ErrorKind::NotFound, found)? {
        Some(found) => Ok(found.is_file() || found.is_symlink()),
        None => Ok(false),
    }
}
