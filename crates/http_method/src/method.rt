//! The method over a link.
ghost use Rattle.std.specs.Prelude.{◌≡◌};

use crate::asking::ask;
use crate::reading::{Place, Reading, Said};
use crate::saying::next_word;
use acq_base::{Job, NotServed, Scheme};
use acq_net::Link;
use acq_outside::{Fault, Method, Word};
use std::alloc::Global;
use std::marker::Model;

/// A method that fetches over HTTP. A URI of another scheme is absent with status 404, and the link isn't called for it.
///
/// Behind a whole file the connection is kept for its host and port, if the response leaves it open and no byte stands
/// behind it, and behind nothing else: behind any other last word to an http URI the link is closed. A kept connection whose
/// peer ends before the first byte of the next response is made anew once. Everywhere else a peer that ends is heard as it
/// is. Where the link stands for a mirror that has no `file` URI, the method tells that mirror.
#[derive(Drop)]
pub struct HttpMethod<L: Link> {
    link: L,
    faults: u64,
    begins: u64,
    kept: Option<Place>,
    reading: Option<Reading>,
}

impl<L: Link> Model for HttpMethod<L> {
    ghost use Rattle.http_method.specs.HttpMethod.{HttpState};
    ghost use Rattle.http_method.specs.Line.{line_of};
    ghost use Rattle.http_method.specs.Reading.{Keeps, StandsOpen};

    ghost Value = { HttpState L };

    ghost view = { λ method. record { link = method.link; faults = method.faults; begins = method.begins; kept = method.kept; reading = method.reading } };

    ghost invariant = { λ method. Keeps (line_of L.Link method.link) method.kept method.reading × StandsOpen (L.opened method.link) method.kept method.reading };
}

impl<L: Link> HttpMethod<L> {
    ghost use Rattle.std.specs.Prelude.{◌≡◌, false, None, IfOk, OnErr};
    ghost use Rattle.acq_outside.specs.Count.{one_more};
    ghost use Rattle.acq_outside.specs.Frame.{Counts};
    ghost use Rattle.http_method.specs.Line.{line_of};
    ghost use Rattle.http_method.specs.Reading.{Keeps, is_open_for};

    /// A method over this link. No connection is kept, and no fetch is under way.
    pub fn new(link: L) -> HttpMethod<L>
        ensures link { result.link ≡ link }
        ensures faults { result.faults ≡ 0 }
        ensures begins { result.begins ≡ 0 }
        ensures kept { result.kept ≡ None }
        ensures idle { result.reading ≡ None }
    {
        HttpMethod {
            link,
            faults: 0,
            begins: 0,
            kept: None,
            reading: None,
        }
    }

    /// The link, as the method left it.
    pub fn into_link(self) -> L
        ensures { result ≡ self.link }
    {
        self.link
    }

    /// Keeps what is kept behind a word, and counts a fault.
    #[tactic(auto, using(crate::proofs::Settled::stands_open))]
    fn record_step(&mut self, said: Result<Said, Fault>) -> Word
        requires keeps { IfOk said (λ one. Keeps (line_of L.Link self.old.link) one.kept one.reading) }
        requires opened { IfOk said (λ one. L.opened self.old.link ≡ is_open_for one.kept one.reading) }
        requires closed { OnErr said (L.opened self.old.link ≡ false) }
        requires kept { self.old.kept ≡ None }
        requires idle { self.old.reading ≡ None }
        ensures frame { Counts self.old.faults self.new.faults said }
        ensures link { self.new.link ≡ self.old.link }
        ensures opened { L.opened self.new.link ≡ is_open_for self.new.kept self.new.reading }
        ensures begins { self.new.begins ≡ self.old.begins }
        ensures word { IfOk said (λ one. result ≡ one.word) }
        ensures kept { IfOk said (λ one. self.new.kept ≡ one.kept) }
        ensures reading { IfOk said (λ one. self.new.reading ≡ one.reading) }
        ensures fault { OnErr said (result ≡ Word.Not (NotServed.Fault self.old.faults self.new.faults)) }
        ensures none { OnErr said (self.new.kept ≡ None) }
        ensures over { OnErr said (self.new.reading ≡ None) }
        ensures counted { OnErr said (self.new.faults ≡ one_more self.old.faults) }
    {
        match said {
            Ok(said) => {
                self.kept = said.kept;
                self.reading = said.reading;
                said.word
            }
            Err(Fault) => {
                let before = self.faults;
                self.faults = self.faults.saturating_add(1);
                let after = self.faults;
                Word::Not(NotServed::Fault { before, after })
            }
        }
    }
}

impl<L: Link> Method for HttpMethod<L> {
    ghost use Rattle.std.specs.Prelude.{◌≡◌, ◌⊎◌, true, IfSome, IsSome};
    ghost use Rattle.acq_base.specs.declared.uri.Scheme.TheVariants.{File, Http};
    ghost use Rattle.acq_base.specs.Uri.{IsSound};
    ghost use Rattle.acq_outside.specs.Count.{Rose, one_more};
    ghost use Rattle.acq_outside.specs.Word.{CanBegin, IsSoundWord, IsWord, begun};
    ghost use Rattle.http_method.specs.HttpMethod.{FetchesOver, begins_of, faults_of, said_of, told_mirror};
    ghost use Rattle.http_method.specs.Line.{line_of};
    ghost use Rattle.http_method.specs.Reading.{BeginsOn, IsFromPeer, IsKeptBehind, SaysOn, before_anew, is_for, is_open_for, under_of, world_of};

    ghost faults = { faults_of };

    ghost world = { told_mirror L.Link };

    ghost under = { λ method. under_of method.reading };

    ghost begins = { begins_of };

    fn faults(&self) -> u64 {
        self.faults
    }

    // Beside what the trait says: a fault comes exactly where the link's count rose. The words are what is heard of the bytes
    // received since the request, which was sent whole. A connection is kept only behind a whole file, and a fetch for its
    // host and port makes another one only where the peer ended behind the request, before a byte, and then it does; and no
    // fetch makes two of them. Behind a fetch over HTTP no connection is open but one that is kept, or that a response is
    // read from, whose peer hasn't ended.

    fn begin(&mut self, alloc: Global, job: &Job) -> Word
        requires sound { IsSound job.now.uri }
        requires from { CanBegin job.now }

        ensures frame { FetchesOver L.Link self.old self.new result }

        ensures begins { self.new.begins ≡ one_more self.old.begins }
        ensures sound { IsSoundWord result }
        ensures word { IsWord self.old.faults self.new.faults (world_of (L.world self.old.link)) (begun job.now) (under_of self.new.reading) result }
        ensures opened { job.now.uri.scheme ≡ Http → L.opened self.new.link ≡ is_open_for self.new.kept self.new.reading }
        ensures heard { job.now.uri.scheme ≡ Http → IsFromPeer result → Rose (L.made self.old.link) (L.made self.new.link) ⊎ (L.answered self.new.link ≡ true) }
        ensures made { is_for self.old.kept job.now.uri ≡ true → (L.made self.new.link ≡ L.made self.old.link) ⊎ Rose (L.ends self.old.link) (L.ends self.new.link) }
        ensures anew { (L.made self.new.link ≡ L.made self.old.link) ⊎ (L.former self.new.link ≡ before_anew self.old.kept job.now (L.talk self.old.link)) }
        ensures says { job.now.uri.scheme ≡ Http → BeginsOn (line_of L.Link self.old.link) self.old.kept (line_of L.Link self.new.link) job.now (said_of result self.new) }
        ensures behind { job.now.uri.scheme ≡ Http → IsKeptBehind result self.new.kept }
        ensures elsewhere { job.now.uri.scheme ≡ File → (result ≡ Word.Not (NotServed.Absent 404)) × (self.new.link ≡ self.old.link) × (self.new.kept ≡ self.old.kept) }
    {
        self.reading = None;
        self.begins = self.begins.saturating_add(1);
        match job.uri.scheme {
            Scheme::File => Word::Not(NotServed::Absent(404)),
            Scheme::Http => {
                let kept = self.kept.take();
                let said = ask(alloc, &mut self.link, kept, job);
                self.record_step(said)
            }
        }
    }

    fn more(&mut self, alloc: Global) -> Word
        requires { IsSome (under_of self.old.reading) }

        ensures frame { FetchesOver L.Link self.old self.new result }

        ensures begins { self.new.begins ≡ self.old.begins }
        ensures sound { IsSoundWord result }
        ensures word { IfSome (under_of self.old.reading) (λ fetch. IsWord self.old.faults self.new.faults (world_of (L.world self.old.link)) fetch (under_of self.new.reading) result) }
        ensures opened { L.opened self.new.link ≡ is_open_for self.new.kept self.new.reading }
        ensures made { L.made self.new.link ≡ L.made self.old.link }
        ensures says { IfSome self.old.reading (λ reading. SaysOn (line_of L.Link self.old.link) reading (line_of L.Link self.new.link) (said_of result self.new)) }
        ensures behind { IsKeptBehind result self.new.kept }
    {
        let Some(reading) = self.reading.take() else {
            unreachable!()
        };
        let said = next_word(alloc, &mut self.link, reading);
        self.record_step(said)
    }
}
