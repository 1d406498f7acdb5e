//! What each call does with the folder's files. Whatever comes of it, nothing is counted.
ghost use Rattle.std.specs.Prelude.{◌≡◌, ◌≤◌, length, true, string_bytes, IfOk, IfSome, IsSomeAnd, OnOk, MatchResult};
ghost use Rattle.acq_real.specs.Folder.{IsInside, IsPathInside, is_in_partial};
ghost use Rattle.acq_real.specs.Opened.{AreDue, IsOwn, IsSynced, opened_by};
ghost use Rattle.acq_real.specs.RealDisk.{IsNameClosed, IsPending, IsSame, folder_of};

use super::RealDisk;
use crate::answer::unless;
use crate::folder::{self, Locked};
use crate::listing::Entry;
use crate::opened::{OpenFile, create, open_file, serving};
use crate::path::{is_partial, path_of};
use std::alloc::Global;
use std::fs::File;
use std::io;
use std::io::ErrorKind;
use std::os::unix::fs::FileExt;
use std::rt::Files;

/// The file whose lock holds the folder. It is made where it is missing, and never removed.
const LOCK: &[u8] = b"lock";

/// Where a file is made that takes the place of another. No list has this name.
const FRESH: &[u8] = b"partial/.fresh";

impl<R: Files<File = File> + AllocGlobal + Clone + Drop> RealDisk<R> {
    /// The path of a file, once the folders are made.
    fn path(&mut self, name: &[u8]) -> io::Result<String>
        ensures same { IsSame self.old self.new }
        ensures kept { self.new.kept ≡ self.old.kept }
        ensures inside { IfOk result (λ path. IsPathInside (folder_of self.old) name.now (string_bytes path)) }
    {
        self.make()?;
        path_of(self.rt.alloc(), self.folder.as_str(), name)
    }

    /// For a name in `partial`, anything but a folder there is an error.
    fn check(&self, name: &[u8]) -> io::Result<()> {
        if is_partial(name) {
            folder::check_partial(&self.rt, self.rt.alloc(), self.folder.as_str())?;
        }
        Ok(())
    }

    /// Opens a file, unless it is open already. Where nothing has the name it is `None`. It stays open where what is done
    /// with it succeeds.
    fn open(&mut self, name: &[u8], to_write: bool) -> io::Result<Option<OpenFile>>
        ensures same { IsSame self.old self.new }
        ensures inside { OnOk result (IsInside name.now) }
        ensures path { IfOk result (λ found. IfSome found (λ opened. IsPathInside (folder_of self.old) name.now (opened_by opened))) }
        ensures own { is_in_partial name.now ≡ true → IfOk result (λ found. IfSome found IsOwn) }
    {
        let path = self.path(name)?;
        let in_partial = is_partial(name);
        let kept = self.kept.take(in_partial);
        if let Some(open) = serving(kept, path.as_str(), in_partial, to_write) {
            return Ok(Some(open));
        }
        match folder::find_file(&self.rt, path.as_str(), in_partial)? {
            Some(found) => Ok(Some(open_file(&self.rt, path, &found, to_write)?)),
            None => {
                self.check(name)?;
                Ok(None)
            }
        }
    }

    /// Opens a file to be written, unless it is open already. Making it is tried first, since most are absent.
    fn open_or_make(&mut self, name: &[u8]) -> io::Result<OpenFile>
        ensures same { IsSame self.old self.new }
        ensures inside { OnOk result (IsInside name.now) }
        ensures path { IfOk result (λ opened. IsPathInside (folder_of self.old) name.now (opened_by opened)) }
        ensures own { is_in_partial name.now ≡ true → IfOk result IsOwn }
    {
        let path = self.path(name)?;
        let in_partial = is_partial(name);
        let kept = self.kept.take(in_partial);
        if let Some(open) = serving(kept, path.as_str(), in_partial, true) {
            return Ok(open);
        }
        if let Some(made) = self.make_file(name, path)? {
            return Ok(made);
        }
        match self.open(name, true)? {
            Some(open) => Ok(open),
            // A link, or in `partial` somebody else's file, is none.
            None => self.make_anew(name),
        }
    }

    /// Makes a file at the path of its name, and opens it. Where the path leads to something it is `None`.
    fn make_file(&mut self, name: &[u8], path: String) -> io::Result<Option<OpenFile>>
        ensures same { IsSame self.old self.new }
        ensures pending { IsPending self.new name.now }
        ensures path { IfOk result (λ made. IfSome made (λ opened. opened_by opened ≡ string_bytes path)) }
        ensures own { IfOk result (λ made. IfSome made IsOwn) }
    {
        self.kept.changes_name(is_partial(name));
        unless(ErrorKind::AlreadyExists, create(&self.rt, path))
    }

    /// Puts a new, empty file in place of what stands under a name.
    fn put_empty(&mut self, name: &[u8]) -> io::Result<()>
        ensures same { IsSame self.old self.new }
        ensures pending { IsPending self.new name.now }
    {
        self.kept.changes_name(is_partial(name));
        let path = self.path(name)?;
        let fresh = self.path(FRESH)?;
        folder::replace(&self.rt, fresh.as_str(), path.as_str())?;
        Ok(())
    }

    /// Puts a new, empty file in place of what stands under a name, and opens it. Whoever has the former one open writes
    /// into no file of this disk any more.
    fn make_anew(&mut self, name: &[u8]) -> io::Result<OpenFile>
        ensures same { IsSame self.old self.new }
        ensures inside { OnOk result (IsInside name.now) }
        ensures path { IfOk result (λ opened. IsPathInside (folder_of self.old) name.now (opened_by opened)) }
        ensures own { is_in_partial name.now ≡ true → IfOk result IsOwn }
    {
        let new_path = self.path(name)?;
        self.kept.forget(new_path.as_str());
        if let Some(made) = self.make_file(name, new_path)? {
            return Ok(made);
        }
        // No change of names that is pending may be lost while this one is kept.
        self.sync_all()?;
        self.put_empty(name)?;
        self.sync_all()?;
        match self.open(name, true)? {
            Some(open) => Ok(open),
            // Another process removed it.
            None => Err(io::Error::from(ErrorKind::NotFound)),
        }
    }

    /// Makes the folders, unless that is done. After an error it is still to be done.
    fn make(&mut self) -> io::Result<()>
        ensures same { IsSame self.old self.new }
        ensures kept { self.new.kept ≡ self.old.kept }
        ensures made { MatchResult result (λ _. self.new.is_made ≡ true) (λ _. self.new.is_made ≡ self.old.is_made) }
    {
        if !self.is_made {
            folder::make_folders(&self.rt, self.rt.alloc(), self.folder.as_str())?;
            self.is_made = true;
        }
        Ok(())
    }

    /// Locks the file `lock`, and answers whether no other process has it locked.
    pub(super) fn lock_folder(&mut self) -> io::Result<bool>
        ensures { IsSame self.old self.new }
    {
        if self.lock.is_some() {
            return Ok(true);
        }
        match self.take_lock()? {
            Some(locked) => {
                self.lock = Some(locked.file);
                Ok(true)
            }
            None => Ok(false),
        }
    }

    /// Makes the folder and the file `lock` in it, and locks that.
    fn take_lock(&mut self) -> io::Result<Option<Locked>>
        ensures same { IsSame self.old self.new }
        ensures pending { AreDue self.new.kept.folders }
    {
        // The file may be made, and whoever had the lock since the last sync may have changed names.
        self.kept.changes_name(false);
        // Until the lock is taken, `partial` may be in use by who has it.
        let (alloc, folder) = (self.rt.alloc(), self.folder.as_str());
        folder::make_own(&self.rt, alloc, folder)?;
        let path = path_of(alloc, folder, LOCK)?;
        folder::lock(&self.rt, path.as_str())
    }

    pub(super) fn entries(&mut self, alloc: Global) -> io::Result<Vec<Entry>>
        ensures { IsSame self.old self.new }
    {
        self.make()?;
        folder::entries(&self.rt, alloc, self.folder.as_str())
    }

    pub(super) fn size_of(&mut self, name: &[u8]) -> io::Result<Option<u64>>
        ensures same { IsSame self.old self.new }
        ensures inside { OnOk result (IsInside name.now) }
    {
        let path = self.path(name)?;
        let length = folder::length(&self.rt, path.as_str(), is_partial(name))?;
        if length.is_none() {
            self.check(name)?;
        }
        Ok(length)
    }

    pub(super) fn read(&mut self, name: &[u8], at: u64, out: &mut [u8]) -> io::Result<usize>
        ensures same { IsSame self.old self.new }
        ensures inside { OnOk result (IsInside name.now) }
        ensures within { IfOk result (λ n. n ≤ length out.old) }
    {
        let Some(open) = self.open(name, false)? else {
            return Ok(0);
        };
        let n = folder::read_some(&open.file, at, out)?;
        self.kept.keep(is_partial(name), open);
        Ok(n)
    }

    pub(super) fn write(&mut self, name: &[u8], at: u64, bytes: &[u8]) -> io::Result<()>
        ensures same { IsSame self.old self.new }
        ensures inside { OnOk result (IsInside name.now) }
    {
        let Some(open) = self.open(name, true)? else {
            return Err(io::Error::from(ErrorKind::NotFound));
        };
        open.file.write_all_at(bytes, at)?;
        self.kept.keep(is_partial(name), open);
        Ok(())
    }

    /// An absent file is made first. One that is to be empty is made anew, whoever made the former one.
    pub(super) fn shorten(&mut self, name: &[u8], len: u64) -> io::Result<()>
        ensures same { IsSame self.old self.new }
        ensures inside { OnOk result (IsInside name.now) }
    {
        let open = if len == 0 {
            self.make_anew(name)?
        } else {
            self.open_or_make(name)?
        };
        open.file.set_len(len)?;
        self.kept.keep(is_partial(name), open);
        Ok(())
    }

    pub(super) fn sync_one(&mut self, name: &[u8]) -> io::Result<()>
        ensures same { IsSame self.old self.new }
        ensures inside { OnOk result (IsInside name.now) }
    {
        let Some(open) = self.open(name, false)? else {
            return Ok(());
        };
        open.file.sync_all()?;
        self.kept.keep(is_partial(name), open);
        Ok(())
    }

    /// Makes the changes of names lasting. The folder's own are left out where there were none since the last time.
    pub(super) fn sync_all(&mut self) -> io::Result<()>
        ensures same { IsSame self.old self.new }
        ensures synced { OnOk result (IsSomeAnd self.new.kept.folders IsSynced) }
    {
        self.make()?;
        folder::sync_names(
            &self.rt,
            self.rt.alloc(),
            &mut self.kept.folders,
            self.folder.as_str(),
        )
    }

    pub(super) fn move_one(&mut self, from: &[u8], to: &[u8]) -> io::Result<()>
        ensures same { IsSame self.old self.new }
        ensures inside { OnOk result (IsInside from.now × IsInside to.now) }
        ensures closed { OnOk result (IsNameClosed self.new from.now × IsNameClosed self.new to.now) }
        ensures pending { IsPending self.new from.now × IsPending self.new to.now }
    {
        self.kept.changes_name(is_partial(from) && is_partial(to));
        let from_path = self.path(from)?;
        let to_path = self.path(to)?;
        self.kept.forget(from_path.as_str());
        self.kept.forget(to_path.as_str());
        let moved = folder::rename(
            &self.rt,
            from_path.as_str(),
            is_partial(from),
            to_path.as_str(),
        )?;
        if moved.is_none() {
            self.check(from)?;
        }
        Ok(())
    }

    pub(super) fn remove_one(&mut self, name: &[u8]) -> io::Result<()>
        ensures same { IsSame self.old self.new }
        ensures inside { OnOk result (IsInside name.now) }
        ensures closed { OnOk result (IsNameClosed self.new name.now) }
        ensures pending { IsPending self.new name.now }
    {
        self.kept.changes_name(is_partial(name));
        let path = self.path(name)?;
        self.kept.forget(path.as_str());
        if !folder::remove(&self.rt, path.as_str())? {
            self.check(name)?;
        }
        Ok(())
    }
}
