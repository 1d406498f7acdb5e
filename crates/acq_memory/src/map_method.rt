//! A method in memory: its mirror is a map.
ghost use Rattle.std.specs.Prelude.{◌≡◌, ◌⊎◌, MatchOption};
ghost use Rattle.acq_base.specs.declared.fetch.Answer.TheVariants.{Absent, Served};
ghost use Rattle.acq_base.specs.Mirror.{answer_at};
ghost use Rattle.acq_memory.specs.MapMethod.{next_word, word_of};

use crate::failing::Failing;
use crate::front::front;
use acq_base::{Answer, Job, Mirror, NoMemory, NotServed, Row, TryCopy, Uri};
use acq_outside::{Fetch, Method, Word};
use std::alloc::Global;
use std::marker::Model;

/// The most bytes of a piece.
const PIECE: usize = 65_536;

/// A method that fetches from a mirror in memory.
#[derive(Debug, Drop)]
pub struct MapMethod {
    mirror: Mirror,
    failing: Failing,
    failing_more: Failing,
    under: Option<Fetch>,
}

impl Model for MapMethod {
    ghost use Rattle.acq_memory.specs.MapMethod.{IsMapState, MapState};

    ghost Value = { MapState };

    ghost view = { λ method. record { world = method.mirror.rows; failing = method.failing; failing_more = method.failing_more; under = method.under } };

    ghost invariant = { λ method. IsMapState (record { world = method.mirror.rows; failing = method.failing; failing_more = method.failing_more; under = method.under }) };
}

impl MapMethod {
    ghost use Rattle.std.specs.Prelude.{◌≡◌, ◌⊎◌, ℕ, None, Some};
    ghost use Rattle.acq_base.specs.Mirror.{answer_at};
    ghost use Rattle.acq_memory.specs.Failing.{fresh};
    ghost use Rattle.acq_memory.specs.MapMethod.{CanGoOn, HasSoundAnswers, next_word};
    ghost use Rattle.acq_outside.specs.Word.{IsSoundWord, IsWord};

    /// A method over this mirror, where each place that an answer moves to is a sound URI. `failing` holds the numbers
    /// of its calls of `begin` that are to fail, counted from 1, and `failing_more` those of its calls of `more`.
    pub fn new(mirror: Mirror, failing: Row<u64>, failing_more: Row<u64>) -> MapMethod
        requires { HasSoundAnswers mirror.rows }
        ensures world { result.world ≡ mirror.rows }
        ensures failing { result.failing ≡ fresh failing }
        ensures failing_more { result.failing_more ≡ fresh failing_more }
        ensures idle { result.under ≡ None }
    {
        MapMethod {
            mirror,
            failing: Failing::new(failing),
            failing_more: Failing::new(failing_more),
            under: None,
        }
    }

    /// Says what comes next to a fetch, and keeps what is under way behind it.
    fn go_on(&mut self, alloc: Global, fetch: Fetch) -> Word
        requires { CanGoOn (answer_at self.old.world fetch.job.uri) fetch }
        ensures world { self.new.world ≡ self.old.world }
        ensures failing { self.new.failing ≡ self.old.failing }
        ensures failing_more { self.new.failing_more ≡ self.old.failing_more }
        ensures sound { IsSoundWord result }
        ensures word { (n : ℕ) → IsWord n n (Some self.old.world) fetch self.new.under result }
        ensures exact { (result ≡ Word.NoMemory) ⊎ (result ≡ next_word self.old.world fetch) }
    {
        let word = next_word(alloc, self.mirror.rows.as_slice(), &fetch);
        self.under = fetch.after(&word);
        word
    }
}

impl Method for MapMethod {
    ghost use Rattle.std.specs.Prelude.{◌≡◌, ◌⊎◌, false, IfSome, IsSome, IsTrue, Some};
    ghost use Rattle.acq_base.specs.Uri.{IsSound};
    ghost use Rattle.acq_memory.specs.Failing.{is_listed, counted};
    ghost use Rattle.acq_outside.specs.Count.{one_more};
    ghost use Rattle.acq_outside.specs.Frame.{FetchesBy};
    ghost use Rattle.acq_memory.specs.MapMethod.{begins_of, faults_of, mirror_of, next_word};
    ghost use Rattle.acq_outside.specs.Word.{CanBegin, IsSoundWord, IsWord, begun};

    ghost faults = { faults_of };

    ghost world = { mirror_of };

    ghost under = { λ method. method.under };

    ghost begins = { begins_of };

    fn faults(&self) -> u64 {
        self.failing.faults.saturating_add(self.failing_more.faults)
    }

    fn begin(&mut self, alloc: Global, job: &Job) -> Word
        requires sound { IsSound job.now.uri }
        requires from { CanBegin job.now }
        ensures frame { FetchesBy faults_of mirror_of self.old self.new }
        ensures begins { begins_of self.new ≡ one_more (begins_of self.old) }
        ensures sound { IsSoundWord result }
        ensures word { IsWord (faults_of self.old) (faults_of self.new) (Some self.old.world) (begun job.now) self.new.under result }

        // A listed call of `begin` fails, and no other one does.
        ensures counted { self.new.failing ≡ counted self.old.failing }
        ensures other_calls { self.new.failing_more ≡ self.old.failing_more }
        ensures listed { IsTrue (is_listed self.old.failing) → result ≡ Word.Not (NotServed.Fault (faults_of self.old) (faults_of self.new)) }
        ensures others { is_listed self.old.failing ≡ false → (result ≡ Word.NoMemory) ⊎ (result ≡ next_word self.old.world (begun job.now)) }
    {
        self.under = None;
        let before = self.faults();
        if self.failing.call().is_err() {
            let after = self.faults();
            return Word::Not(NotServed::Fault { before, after });
        }
        match job.copy(alloc) {
            Ok(job) => {
                let at = job.from;
                self.go_on(alloc, Fetch { job, at })
            }
            Err(NoMemory) => Word::NoMemory,
        }
    }

    fn more(&mut self, alloc: Global) -> Word
        requires { IsSome self.old.under }
        ensures frame { FetchesBy faults_of mirror_of self.old self.new }
        ensures begins { begins_of self.new ≡ begins_of self.old }
        ensures sound { IsSoundWord result }
        ensures word { IfSome self.old.under (λ fetch. IsWord (faults_of self.old) (faults_of self.new) (Some self.old.world) fetch self.new.under result) }

        // A listed call of `more` fails, and no other one does.
        ensures counted { self.new.failing_more ≡ counted self.old.failing_more }
        ensures other_calls { self.new.failing ≡ self.old.failing }
        ensures listed { IsTrue (is_listed self.old.failing_more) → result ≡ Word.Not (NotServed.Fault (faults_of self.old) (faults_of self.new)) }
        ensures others { is_listed self.old.failing_more ≡ false → IfSome self.old.under (λ fetch. (result ≡ Word.NoMemory) ⊎ (result ≡ next_word self.old.world fetch)) }
    {
        let Some(fetch) = self.under.take() else {
            unreachable!()
        };
        let before = self.faults();
        if self.failing_more.call().is_err() {
            let after = self.faults();
            return Word::Not(NotServed::Fault { before, after });
        }
        self.go_on(alloc, fetch)
    }
}

/// What comes next to a fetch.
fn next_word(alloc: Global, rows: &[(Uri, Answer)], fetch: &Fetch) -> Word
    ensures { (result ≡ Word.NoMemory) ⊎ (result ≡ next_word rows.now fetch.now) }
{
    match find(rows, &fetch.job.uri) {
        Some(answer) => word_of(alloc, answer, fetch),
        None => Word::Not(NotServed::Absent(404)),
    }
}

/// The answer under a URI, `None` where the mirror has none.
fn find<'a>(rows: &'a [(Uri, Answer)], uri: &Uri) -> Option<&'a Answer>
    ensures { MatchOption result (answer_at rows.now uri.now ≡ Absent 404) (λ answer. answer_at rows.now uri.now ≡ answer.now) }
{
    for row in rows {
        if row.0 == *uri {
            return Some(&row.1);
        }
    }
    None
}

/// What this answer says next to a fetch.
fn word_of(alloc: Global, answer: &Answer, fetch: &Fetch) -> Word
    ensures { (result ≡ Word.NoMemory) ⊎ (result ≡ word_of answer.now fetch.now) }
{
    match answer {
        Answer::Served(all) => served(alloc, all.as_slice(), fetch),
        Answer::Moved(place) => match place.copy(alloc) {
            Ok(place) => Word::Not(NotServed::Moved(place)),
            Err(NoMemory) => Word::NoMemory,
        },
        Answer::Absent(status) => Word::Not(NotServed::Absent(*status)),
    }
}

/// What a file says next to a fetch.
fn served(alloc: Global, all: &[u8], fetch: &Fetch) -> Word
    ensures { (result ≡ Word.NoMemory) ⊎ (result ≡ word_of (Served all.now) fetch.now) }
{
    let size = all.len() as u64;
    if size > fetch.job.max {
        return Word::Not(NotServed::TooBig);
    }
    if fetch.job.from > 0 && size <= fetch.job.from {
        return Word::Not(NotServed::Absent(416));
    }
    if size <= fetch.at {
        return Word::Done { size: fetch.at };
    }
    let (_, rest) = all.split_at(fetch.at as usize);
    match front(alloc, rest, PIECE) {
        Ok(bytes) => Word::Piece {
            at: fetch.at,
            bytes,
        },
        Err(NoMemory) => Word::NoMemory,
    }
}
