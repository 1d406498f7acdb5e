//! The method for both schemes.
ghost use Rattle.std.specs.Prelude.{◌≡◌};
ghost use Rattle.both_method.specs.BothMethod.{own_count, own_word};

use acq_base::{Job, NotServed, Scheme};
use acq_outside::{Method, Word};
use std::alloc::Global;
use std::marker::Model;

/// A method that asks one method for `file` URIs and another for `http` URIs. Its words are theirs, but that a fault tells
/// its own count. Where both tell their mirrors, it tells the answers of the first to `file` URIs with those of the second
/// to `http` URIs.
#[derive(Drop)]
pub struct BothMethod<F: Method, H: Method> {
    files: F,
    peers: H,
    faults: u64,
    begins: u64,
    turn: Option<Scheme>,
}

impl<F: Method, H: Method> Model for BothMethod<F, H> {
    ghost use Rattle.both_method.specs.BothMethod.{BothState, IsTurn};

    ghost Value = { BothState F H };

    ghost view = { λ method. record { files = method.files; peers = method.peers; faults = method.faults; begins = method.begins; turn = method.turn } };

    ghost invariant = { λ method. IsTurn method.turn (F.under method.files) (H.under method.peers) };
}

impl<F: Method, H: Method> BothMethod<F, H> {
    ghost use Rattle.std.specs.Prelude.{◌≡◌, None};

    /// A method over these two: the first for `file` URIs, the second for `http` URIs. It has no fetch under way.
    pub fn new(files: F, peers: H) -> BothMethod<F, H>
        ensures files { result.files ≡ files }
        ensures peers { result.peers ≡ peers }
        ensures faults { result.faults ≡ 0 }
        ensures begins { result.begins ≡ 0 }
        ensures idle { result.turn ≡ None }
    {
        BothMethod {
            files,
            peers,
            faults: 0,
            begins: 0,
            turn: None,
        }
    }
}

impl<F: Method, H: Method> Method for BothMethod<F, H> {
    ghost use Rattle.std.specs.Prelude.{◌≡◌, IfSome, IsSome, Some};
    ghost use Rattle.acq_base.specs.declared.uri.Scheme.TheVariants.{File, Http};
    ghost use Rattle.acq_base.specs.Uri.{IsSound};
    ghost use Rattle.acq_outside.specs.Count.{one_more};
    ghost use Rattle.acq_outside.specs.Frame.{FetchesBy};
    ghost use Rattle.acq_outside.specs.Word.{CanBegin, IsSoundWord, begun};
    ghost use Rattle.both_method.specs.BothMethod.{IsBothWord, IsFilesWord, IsPeersWord, begins_of, faults_of, fetch_of, world_of};

    ghost faults = { faults_of };

    ghost world = { world_of F.Method H.Method };

    ghost under = { fetch_of F.Method H.Method };

    ghost begins = { begins_of };

    fn faults(&self) -> u64 {
        self.faults
    }

    // Beside what the trait says: each word is that of the method for its scheme, in which one fetch is begun, and the other
    // one isn't called.

    fn begin(&mut self, alloc: Global, job: &Job) -> Word
        requires sound { IsSound job.now.uri }
        requires from { CanBegin job.now }

        ensures frame { FetchesBy faults_of (world_of F.Method H.Method) self.old self.new }

        ensures begins { self.new.begins ≡ one_more self.old.begins }
        ensures sound { IsSoundWord result }
        ensures word { IsBothWord F.Method H.Method self.old self.new (begun job.now) result }
        ensures turn { self.new.turn ≡ Some job.now.uri.scheme }
        ensures file { job.now.uri.scheme ≡ File → IsFilesWord F.Method self.old self.new (begun job.now) result }
        ensures no_peer { job.now.uri.scheme ≡ File → self.new.peers ≡ self.old.peers }
        ensures http { job.now.uri.scheme ≡ Http → IsPeersWord H.Method self.old self.new (begun job.now) result }
        ensures no_file { job.now.uri.scheme ≡ Http → self.new.files ≡ self.old.files }
        ensures begins_file { job.now.uri.scheme ≡ File → F.begins self.new.files ≡ one_more (F.begins self.old.files) }
        ensures begins_http { job.now.uri.scheme ≡ Http → H.begins self.new.peers ≡ one_more (H.begins self.old.peers) }
    {
        self.turn = Some(job.uri.scheme);
        self.begins = self.begins.saturating_add(1);
        match job.uri.scheme {
            Scheme::File => {
                let word = self.files.begin(alloc, job);
                own(&mut self.faults, word)
            }
            Scheme::Http => {
                let word = self.peers.begin(alloc, job);
                own(&mut self.faults, word)
            }
        }
    }

    fn more(&mut self, alloc: Global) -> Word
        requires { IsSome (fetch_of F.Method H.Method self.old) }

        ensures frame { FetchesBy faults_of (world_of F.Method H.Method) self.old self.new }

        ensures begins { self.new.begins ≡ self.old.begins }
        ensures sound { IsSoundWord result }
        ensures word { IfSome (fetch_of F.Method H.Method self.old) (λ fetch. IsBothWord F.Method H.Method self.old self.new fetch result) }
        ensures turn { self.new.turn ≡ self.old.turn }
        ensures file { self.old.turn ≡ Some File → IfSome (F.under self.old.files) (λ fetch. IsFilesWord F.Method self.old self.new fetch result) }
        ensures no_peer { self.old.turn ≡ Some File → self.new.peers ≡ self.old.peers }
        ensures http { self.old.turn ≡ Some Http → IfSome (H.under self.old.peers) (λ fetch. IsPeersWord H.Method self.old self.new fetch result) }
        ensures no_file { self.old.turn ≡ Some Http → self.new.files ≡ self.old.files }
        ensures begins_file { F.begins self.new.files ≡ F.begins self.old.files }
        ensures begins_http { H.begins self.new.peers ≡ H.begins self.old.peers }
    {
        let Some(scheme) = self.turn else {
            unreachable!()
        };
        match scheme {
            Scheme::File => {
                let word = self.files.more(alloc);
                own(&mut self.faults, word)
            }
            Scheme::Http => {
                let word = self.peers.more(alloc);
                own(&mut self.faults, word)
            }
        }
    }
}

/// The same word, but that a fault is counted and tells the own count.
fn own(faults: &mut u64, word: Word) -> Word
    ensures word { result ≡ own_word faults.old faults.new word }
    ensures counted { faults.new ≡ own_count faults.old word }
{
    match word {
        Word::Not(
            NotServed::Fault {
                before: _,
                after: _,
            },
        ) => {
            let before = *faults;
            *faults = faults.saturating_add(1);
            let after = *faults;
            Word::Not(NotServed::Fault { before, after })
        }
        other => other,
    }
}
