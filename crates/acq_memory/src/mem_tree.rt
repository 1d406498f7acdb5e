//! Files that are served, in memory.
ghost use Rattle.std.specs.Prelude.{◌≡◌, ◌≤◌, bytes_eq, length, option_copied};
ghost use Rattle.std.specs.List.{list_any};
ghost use Rattle.acq_outside.specs.Disk.{IsRead};
ghost use Rattle.acq_outside.specs.Tree.{file_at, paths_differ};

use crate::failing::Failing;
use crate::held::read_from;
use acq_base::{Bytes, Row, Text};
use acq_outside::{Fault, Tree};

/// A tree in memory.
#[derive(Debug, Drop)]
pub struct MemTree {
    files: Row<(Text, Bytes)>,
    failing: Failing,
}

impl MemTree {
    ghost use Rattle.std.specs.Prelude.{◌≡◌, IsTrue};
    ghost use Rattle.acq_memory.specs.Failing.{fresh};
    ghost use Rattle.acq_memory.specs.MemTree.{failing_of, files_of};
    ghost use Rattle.acq_outside.specs.Tree.{paths_differ};

    /// Whether no two files have the same path.
    pub fn takes(files: &Row<(Text, Bytes)>) -> bool
        ensures { result ≡ paths_differ files.now }
    {
        paths_differ(files.as_slice())
    }

    /// A tree of these files: the path of each and its bytes. No two have the same path. `failing` holds the numbers of
    /// its calls that are to fail, counted from 1.
    pub fn new(files: Row<(Text, Bytes)>, failing: Row<u64>) -> MemTree
        requires { IsTrue (paths_differ files) }
        ensures files { files_of result ≡ files }
        ensures failing { failing_of result ≡ fresh failing }
    {
        MemTree {
            files,
            failing: Failing::new(failing),
        }
    }
}

impl Tree for MemTree {
    ghost use Rattle.std.specs.Prelude.{◌≡◌, ◌≤◌, ◌↔◌, IfOk, IsErr, IsTrue, length, option_map};
    ghost use Rattle.acq_outside.specs.Frame.{LooksBy};
    ghost use Rattle.acq_outside.specs.Disk.{IsRead};
    ghost use Rattle.acq_memory.specs.Failing.{counted, is_listed};
    ghost use Rattle.acq_memory.specs.MemTree.{failing_of, faults_of, files_of, told_files};
    ghost use Rattle.acq_outside.specs.Tree.{file_at};

    ghost faults = { faults_of };

    ghost files = { told_files };

    fn size(&mut self, path: &Text) -> Result<Option<u64>, Fault>
        ensures frame { LooksBy faults_of told_files self.old self.new result }
        ensures told { IfOk result (λ size. size ≡ option_map length (file_at (files_of self.old) path.now)) }

        // A listed call fails, and no other one does.
        ensures counted { failing_of self.new ≡ counted (failing_of self.old) }
        ensures listed { IsErr result ↔ IsTrue (is_listed (failing_of self.old)) }
    {
        self.failing.call()?;
        Ok(match find(self.files.as_slice(), path) {
            Some(bytes) => Some(bytes.len() as u64),
            None => None,
        })
    }

    fn read_at(&mut self, path: &Text, at: u64, out: &mut [u8]) -> Result<usize, Fault>
        ensures frame { LooksBy faults_of told_files self.old self.new result }
        ensures within { IfOk result (λ n. n ≤ length out.old) }
        ensures told { IfOk result (λ n. IsRead (file_at (files_of self.old) path.now) at n out.old out.new) }

        // A listed call fails, and no other one does.
        ensures counted { failing_of self.new ≡ counted (failing_of self.old) }
        ensures listed { IsErr result ↔ IsTrue (is_listed (failing_of self.old)) }
    {
        self.failing.call()?;
        Ok(read_file(self.files.as_slice(), path, at, out))
    }
}

fn paths_differ(files: &[(Text, Bytes)]) -> bool
    ensures { result ≡ paths_differ files.now }
{
    let mut rest = files;
    while let Some((file, others)) = rest.split_first() {
        if has_path(others, &file.0) {
            return false;
        }
        rest = others;
    }
    true
}

fn has_path(files: &[(Text, Bytes)], path: &Text) -> bool
    ensures { result ≡ list_any (λ file. bytes_eq file.0 path.now) files.now }
{
    files.iter().any(|file| file.0 == *path)
}

/// The bytes of a file, `None` where there is no such file.
fn find<'a>(files: &'a [(Text, Bytes)], path: &Text) -> Option<&'a Bytes>
    ensures { option_copied result ≡ file_at files.now path.now }
{
    for file in files {
        if file.0 == *path {
            return Some(&file.1);
        }
    }
    None
}

/// Reads bytes of a file, if there is one, into the front of `out` and answers how many.
fn read_file(files: &[(Text, Bytes)], path: &Text, at: u64, out: &mut [u8]) -> usize
    ensures within { result ≤ length out.old }
    ensures read { IsRead (file_at files.now path.now) at result out.old out.new }
{
    match find(files, path) {
        Some(bytes) => read_from(bytes.as_slice(), at, out),
        None => 0,
    }
}
