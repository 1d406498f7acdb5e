//! Files and folders that stay open from one call to the next.
ghost use Rattle.std.specs.Prelude.{◌≡◌, ◌≢◌, ◌↔◌, false, string_bytes, true, IfOk, IfSome, IsOk, IsTrue, OnOk, Some};
ghost use Rattle.std.specs.Fs.{asks_append, asks_create_new, asks_read, asks_write};
ghost use Rattle.acq_real.specs.Opened.{AreDue, IsClosed, IsDue, IsOwn, IsSynced, StaysClosed, opened_by};
ghost use Rattle.acq_real.specs.Ownership.{IsPrivateFile};

use crate::ownership::{Found, is_private_file};
use std::fs::{File, Metadata, OpenOptions, Permissions};
use std::io;
use std::io::ErrorKind;
use std::os::unix::fs::{MetadataExt, OpenOptionsExt, PermissionsExt};
use std::rt::Files;

/// The permission bits of a list: everybody may read it, and its owner alone may write it, whatever the umask.
pub const LIST_FILE: u32 = 0o644;

/// Which file or folder of the system it is. As long as it is open, no other one has its number.
#[derive(Clone, Copy, PartialEq)]
pub struct Node {
    device: u64,
    number: u64,
}

/// A file that is open, and the path by which it was opened.
#[derive(Drop)]
pub struct OpenFile {
    pub file: File,
    path: String,
    is_to_write: bool,
    /// Whether it was made here, or was this user's alone when it was found.
    is_own: bool,
}

/// A disk's folder and `partial` in it, open.
#[derive(Drop)]
pub struct OpenFolders {
    folder: File,
    partial: File,
    /// Which folder `partial` is. It tells of both: nobody moves it to another folder.
    node: Node,
    /// Whether the disk's folder was synced since a name in it last changed, not counting those in `partial`. It begins as
    /// false, since what changed before the folder was opened may not be lasting yet.
    is_synced: bool,
}

impl OpenFolders {
    /// Whether the disk's folder has to be synced: a name in it may have changed since it last was.
    fn is_due(&self) -> bool
        ensures { IsTrue result ↔ IsDue self.now }
    {
        !self.is_synced
    }

    /// Makes the changes of names in both folders lasting: the disk's folder's first, so that a crash between the two never
    /// takes a file that moved out of `partial` from both.
    pub fn sync(&mut self) -> io::Result<()>
        ensures { OnOk result (IsSynced self.new) }
    {
        self.sync_due()?;
        self.partial.sync_all()
    }

    /// Makes the changes of names in the disk's folder lasting, if there may be any. A sync that failed leaves it due.
    fn sync_due(&mut self) -> io::Result<()>
        ensures { IsOk result ↔ IsSynced self.new }
    {
        if self.is_due() {
            self.folder.sync_all()?;
            self.is_synced = true;
        }
        Ok(())
    }
}

/// What a disk keeps open: the file in `partial` that was last read, written, cut or synced and the last one beside it, and,
/// once its names were synced, its two folders.
#[derive(Drop)]
pub struct Kept {
    in_partial: Option<OpenFile>,
    beside: Option<OpenFile>,
    pub folders: Option<OpenFolders>,
}

impl Kept {
    /// Nothing is open.
    pub fn nothing() -> Kept {
        Kept {
            in_partial: None,
            beside: None,
            folders: None,
        }
    }

    /// Takes the last file in `partial`, or the last one beside it.
    pub fn take(&mut self, in_partial: bool) -> Option<OpenFile> {
        if in_partial {
            self.in_partial.take()
        } else {
            self.beside.take()
        }
    }

    /// Keeps a file open until another one in `partial`, or beside it, takes its place.
    pub fn keep(&mut self, in_partial: bool, file: OpenFile) {
        if in_partial {
            self.in_partial = Some(file);
        } else {
            self.beside = Some(file);
        }
    }

    /// Closes the file of a path, if it is open, since the path is about to lead to another one or to none.
    pub fn forget(&mut self, path: &str)
        ensures closed { IsClosed self.new path.now }
        ensures stays { StaysClosed self.old self.new }
        ensures folders { self.new.folders ≡ self.old.folders }
    {
        self.in_partial = elsewhere(self.in_partial.take(), path);
        self.beside = elsewhere(self.beside.take(), path);
    }

    /// Notes that a name is about to change, in `partial` alone or in the disk's folder, which is to be synced then.
    pub fn changes_name(&mut self, in_partial: bool)
        ensures due { in_partial ≡ false → AreDue self.new.folders }
        ensures files { self.new.in_partial ≡ self.old.in_partial × self.new.beside ≡ self.old.beside }
    {
        if in_partial {
            return;
        }
        if let Some(folders) = &mut self.folders {
            folders.is_synced = false;
        }
    }
}

/// The file that is open, unless it was opened by this path.
fn elsewhere(kept: Option<OpenFile>, path: &str) -> Option<OpenFile>
    ensures other { IfSome result (λ opened. opened_by opened ≢ path.now) }
    ensures same { IfSome result (λ opened. kept ≡ Some opened) }
{
    match kept {
        Some(open) if open.path.as_str() != path => Some(open),
        _ => None,
    }
}

/// Which file or folder the system found.
pub fn node_of(found: &Metadata) -> Node {
    Node {
        device: found.dev(),
        number: found.ino(),
    }
}

/// The file that is open, if it was opened by this path and may be used so: in `partial` it is this user's alone.
pub fn serving(
    kept: Option<OpenFile>,
    path: &str,
    in_partial: bool,
    to_write: bool,
) -> Option<OpenFile>
    ensures path { IfSome result (λ opened. opened_by opened ≡ path.now) }
    ensures own { in_partial ≡ true → IfSome result IsOwn }
    ensures to_write { to_write ≡ true → IfSome result (λ opened. opened.is_to_write ≡ true) }
{
    match kept {
        Some(open) if open.path.as_str() == path && may_serve(&open, in_partial, to_write) => {
            Some(open)
        }
        _ => None,
    }
}

/// Whether an open file may be used so.
fn may_serve(file: &OpenFile, in_partial: bool, to_write: bool) -> bool
    ensures own { IsTrue result → in_partial ≡ true → IsOwn file.now }
    ensures to_write { IsTrue result → to_write ≡ true → file.now.is_to_write ≡ true }
{
    (file.is_to_write || !to_write) && (file.is_own || !in_partial)
}

/// The folders that are open, if `partial` is the one that was found.
pub fn still(kept: Option<OpenFolders>, found: Node) -> Option<OpenFolders>
    ensures found { IfSome result (λ opened. opened.node ≡ found) }
{
    match kept {
        Some(open) if open.node == found => Some(open),
        _ => None,
    }
}

/// Opens the file that was found at a path, to be read, and to be written where `to_write` says so.
pub fn open_file(
    rt: &impl Files<File = File>,
    path: String,
    found: &Found,
    to_write: bool,
) -> io::Result<OpenFile>
    ensures path { IfOk result (λ opened. opened_by opened ≡ string_bytes path) }
    ensures own { IfOk result (λ opened. IsOwn opened ↔ IsPrivateFile found.now.standing found.now.user) }
    ensures to_write { IfOk result (λ opened. opened.is_to_write ≡ to_write) }
{
    let file = open_found(rt, path.as_str(), node_of(&found.metadata), to_write)?;
    Ok(OpenFile {
        file,
        path,
        is_to_write: to_write,
        is_own: is_private_file(found.standing, found.user),
    })
}

/// Makes a file where nothing has the path, and opens it to be read and written.
pub fn create(rt: &impl Files<File = File>, path: String) -> io::Result<OpenFile>
    ensures path { IfOk result (λ opened. opened_by opened ≡ string_bytes path) }
    ensures own { IfOk result IsOwn }
    ensures to_write { IfOk result (λ opened. opened.is_to_write ≡ true) }
{
    let file = make_file(rt, path.as_str(), LIST_FILE)?;
    Ok(OpenFile {
        file,
        path,
        is_to_write: true,
        is_own: true,
    })
}

/// Makes a file where nothing has the path, with these permission bits whatever the umask.
pub fn make_file(rt: &impl Files<File = File>, path: &str, mode: u32) -> io::Result<File> {
    let mut way = way_to_make();
    way.mode(mode);
    let made = way.open(rt, path)?;
    give_back(&made, mode)?;
    Ok(made)
}

/// How a file is made to be read and written, its permission bits aside: nothing may stand at its path, not even a link.
fn way_to_make() -> OpenOptions
    ensures anew { asks_create_new result ≡ true }
    ensures reads { asks_read result ≡ true }
    ensures writes { asks_write result ≡ true }
    ensures in_place { asks_append result ≡ false }
{
    let mut way = OpenOptions::new();
    way.read(true);
    way.write(true);
    way.create_new(true);
    way
}

/// Gives what was made with these permission bits those back that the umask took away.
pub fn give_back(made: &File, bits: u32) -> io::Result<()> {
    let mode = made.metadata()?.mode();
    if mode & bits != bits {
        made.set_permissions(Permissions::from_mode(mode | bits))?;
    }
    Ok(())
}

/// Opens a disk's folder, and `partial` that was found in it.
pub fn open_folders(
    rt: &impl Files<File = File>,
    folder: &str,
    partial: &str,
    found: Node,
) -> io::Result<OpenFolders>
    ensures node { IfOk result (λ opened. opened.node ≡ found) }
    ensures due { IfOk result IsDue }
{
    let folder = File::open(rt, folder)?;
    let partial = open_found(rt, partial, found, false)?;
    Ok(OpenFolders {
        folder,
        partial,
        node: found,
        is_synced: false,
    })
}

/// Opens what was found at a path. Where the path leads to something else by now, as by a link, it is an error.
pub fn open_found(
    rt: &impl Files<File = File>,
    path: &str,
    found: Node,
    to_write: bool,
) -> io::Result<File> {
    let mut how = OpenOptions::new();
    how.read(true);
    how.write(to_write);
    let file = how.open(rt, path)?;
    if node_of(&file.metadata()?) == found {
        Ok(file)
    } else {
        Err(io::Error::from(ErrorKind::InvalidFilename))
    }
}
