//! The method over a tree.
ghost use Rattle.std.specs.Prelude.{◌≡◌, ◌≤◌};

use crate::piece::{read_piece, word_of};
use acq_base::{Job, NoMemory, NotServed, Scheme, TryCopy};
use acq_outside::{Fault, Fetch, Method, OutError, Tree, Word};
use std::alloc::Global;
use std::marker::Model;

/// A method that fetches the files of a tree. The path of a `file` URI is taken as it stands, and nothing in it is decoded;
/// a URI of another scheme is absent with status 404, and so is a path at which there is no plain file.
#[derive(Drop)]
pub struct FileMethod<T: Tree> {
    tree: T,
    faults: u64,
    begins: u64,
    under: Option<Fetch>,
    size: u64,
}

impl<T: Tree> Model for FileMethod<T> {
    ghost use Rattle.std.specs.Prelude.{IfSome};
    ghost use Rattle.file_method.specs.FileMethod.{FileState, IsFetchOf};

    ghost Value = { FileState T };

    ghost view = { λ method. record { tree = method.tree; faults = method.faults; begins = method.begins; under = method.under; size = method.size } };

    ghost invariant = { λ method. IfSome method.under (IsFetchOf (T.files method.tree) method.size) };
}

impl<T: Tree> FileMethod<T> {
    ghost use Rattle.std.specs.Prelude.{◌≡◌, ◌≤◌, IfSome, None, Some, length, option_map};
    ghost use Rattle.acq_base.specs.declared.uri.Scheme.TheVariants.{File};
    ghost use Rattle.acq_base.specs.Uri.{IsSound};
    ghost use Rattle.acq_outside.specs.Count.{one_more};
    ghost use Rattle.acq_outside.specs.Tree.{file_at};
    ghost use Rattle.acq_outside.specs.Word.{CanBegin, IsSoundWord, IsWord, after_word, begun};
    ghost use Rattle.file_method.specs.FileMethod.{GoesOnOver, IsFetchOf, world_of};

    /// A method over this tree. No fetch is under way.
    pub fn new(tree: T) -> FileMethod<T>
        ensures tree { result.tree ≡ tree }
        ensures faults { result.faults ≡ 0 }
        ensures begins { result.begins ≡ 0 }
        ensures idle { result.under ≡ None }
    {
        FileMethod {
            tree,
            faults: 0,
            begins: 0,
            under: None,
            size: 0,
        }
    }

    /// Counts a fault of the tree.
    fn fault(&mut self) -> Word
        ensures tree { self.new.tree ≡ self.old.tree }
        ensures begins { self.new.begins ≡ self.old.begins }
        ensures under { self.new.under ≡ self.old.under }
        ensures size { self.new.size ≡ self.old.size }
        ensures counted { self.new.faults ≡ one_more self.old.faults }
        ensures word { result ≡ Word.Not (NotServed.Fault self.old.faults self.new.faults) }
    {
        let before = self.faults;
        self.faults = self.faults.saturating_add(1);
        let after = self.faults;
        Word::Not(NotServed::Fault { before, after })
    }

    /// Starts a fetch of what stands at the path of a `file` URI.
    fn begin_file(&mut self, alloc: Global, job: &Job) -> Word
        requires sound { IsSound job.now.uri }
        requires from { CanBegin job.now }
        requires file { job.now.uri.scheme ≡ File }
        requires idle { self.old.under ≡ None }
        ensures frame { GoesOnOver T.Tree self.old self.new result }
        ensures sound { IsSoundWord result }
        ensures word { IsWord self.old.faults self.new.faults (world_of (T.files self.old.tree)) (begun job.now) self.new.under result }
    {
        match self.tree.size(&job.uri.path) {
            Ok(Some(size)) => self.start(alloc, job, size),
            Ok(None) => Word::Not(NotServed::Absent(404)),
            Err(Fault) => self.fault(),
        }
    }

    /// Starts a fetch of a file of this length.
    fn start(&mut self, alloc: Global, job: &Job, size: u64) -> Word
        requires sound { IsSound job.now.uri }
        requires from { CanBegin job.now }
        requires file { job.now.uri.scheme ≡ File }
        requires idle { self.old.under ≡ None }
        requires told { IfSome (T.files self.old.tree) (λ all. option_map length (file_at all job.now.uri.path) ≡ Some size) }
        ensures frame { GoesOnOver T.Tree self.old self.new result }
        ensures sound { IsSoundWord result }
        ensures word { IsWord self.old.faults self.new.faults (world_of (T.files self.old.tree)) (begun job.now) self.new.under result }
    {
        if size > job.max {
            return Word::Not(NotServed::TooBig);
        }
        if job.from > 0 && size <= job.from {
            return Word::Not(NotServed::Absent(416));
        }
        match job.copy(alloc) {
            Ok(job) => {
                self.size = size;
                let at = job.from;
                self.go_on(alloc, Fetch { job, at })
            }
            Err(NoMemory) => Word::NoMemory,
        }
    }

    /// Reads what comes next, and keeps what is under way behind it.
    fn go_on(&mut self, alloc: Global, fetch: Fetch) -> Word
        requires fetch { IsFetchOf (T.files self.old.tree) self.old.size fetch }
        requires idle { self.old.under ≡ None }
        ensures frame { GoesOnOver T.Tree self.old self.new result }
        ensures sound { IsSoundWord result }
        ensures word { IsWord self.old.faults self.new.faults (world_of (T.files self.old.tree)) fetch self.new.under result }
    {
        let word = self.next_word(alloc, &fetch);
        self.under = fetch.after(&word);
        word
    }

    /// What comes next.
    fn next_word(&mut self, alloc: Global, fetch: &Fetch) -> Word
        requires fetch { IsFetchOf (T.files self.old.tree) self.old.size fetch.now }
        requires idle { self.old.under ≡ None }
        ensures frame { GoesOnOver T.Tree self.old self.new result }
        ensures size { self.new.size ≡ self.old.size }
        ensures sound { IsSoundWord result }
        ensures within { IfSome (after_word fetch.now result) (λ later. later.at ≤ self.old.size) }
        ensures word { IsWord self.old.faults self.new.faults (world_of (T.files self.old.tree)) fetch.now (after_word fetch.now result) result }
    {
        let path = &fetch.job.uri.path;
        let left = self.size - fetch.at;
        match read_piece(alloc, &mut self.tree, path, fetch.at, left) {
            Ok(bytes) => word_of(fetch.at, bytes),
            Err(OutError::Fault) => self.fault(),
            Err(OutError::NoMemory) => Word::NoMemory,
        }
    }
}

impl<T: Tree> Method for FileMethod<T> {
    ghost use Rattle.std.specs.Prelude.{◌≡◌, IfSome, IsSome};
    ghost use Rattle.acq_base.specs.declared.uri.Scheme.TheVariants.{Http};
    ghost use Rattle.acq_base.specs.Uri.{IsSound};
    ghost use Rattle.acq_outside.specs.Count.{one_more};
    ghost use Rattle.acq_outside.specs.Word.{CanBegin, IsSoundWord, IsWord, begun};
    ghost use Rattle.file_method.specs.FileMethod.{FetchesOver, GoesOnOver, begins_of, faults_of, told_mirror, world_of};

    ghost faults = { faults_of };

    ghost world = { told_mirror T.Tree };

    ghost under = { λ method. method.under };

    ghost begins = { begins_of };

    fn faults(&self) -> u64 {
        self.faults
    }

    // Beside what the trait says: a fault comes exactly where the tree's count rose, the tree's files stay, and for a URI
    // of another scheme the tree isn't called.

    fn begin(&mut self, alloc: Global, job: &Job) -> Word
        requires sound { IsSound job.now.uri }
        requires from { CanBegin job.now }
        ensures frame { FetchesOver T.Tree self.old self.new result }
        ensures begins { self.new.begins ≡ one_more self.old.begins }
        ensures sound { IsSoundWord result }
        ensures word { IsWord self.old.faults self.new.faults (world_of (T.files self.old.tree)) (begun job.now) self.new.under result }
        ensures elsewhere { job.now.uri.scheme ≡ Http → (result ≡ Word.Not (NotServed.Absent 404)) × (self.new.tree ≡ self.old.tree) }
    {
        self.under = None;
        self.begins = self.begins.saturating_add(1);
        match job.uri.scheme {
            Scheme::Http => Word::Not(NotServed::Absent(404)),
            Scheme::File => self.begin_file(alloc, job),
        }
    }

    fn more(&mut self, alloc: Global) -> Word
        requires { IsSome self.old.under }
        ensures frame { GoesOnOver T.Tree self.old self.new result }
        ensures sound { IsSoundWord result }
        ensures word { IfSome self.old.under (λ fetch. IsWord self.old.faults self.new.faults (world_of (T.files self.old.tree)) fetch self.new.under result) }
    {
        let Some(fetch) = self.under.take() else {
            unreachable!()
        };
        self.go_on(alloc, fetch)
    }
}
