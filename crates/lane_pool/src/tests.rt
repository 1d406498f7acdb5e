ghost use Rattle.std.specs.Prelude.{◌≡◌, ◌≤◌, true, false, IfOk, vec_len};
ghost use Rattle.acq_base.specs.Uri.{IsSound};
ghost use Rattle.acq_memory.specs.MapMethod.{HasSoundAnswers};
ghost use Rattle.acq_outside.specs.Word.{CanBegin};
ghost use Rattle.lane_pool.specs.Working.{is_piece};

use crate::{Lanes, start};
use acq_base::{Answer, Bytes, Job, Mirror, NoMemory, NotServed, Row, Scheme, Text, Uri};
use acq_memory::MapMethod;
use acq_outside::{Fetch, Method, Word};
use std::alloc::Global;
use std::sync::atomic::{AtomicU64, Ordering};
use std::sync::{Arc, Wait};
use std::test::*;
use std::thread;

/// `http://LETTER/`
#[tactic(auto, using(crate::proofs::SampleUri::sample_uri))]
fn uri(alloc: Global, letter: u8) -> Result<Uri, NoMemory>
    requires { (97 ≤ letter) × (letter ≤ 122) }
    ensures { IfOk result IsSound }
{
    let mut host = Text::new(alloc);
    host.push(letter)?;
    Ok(Uri {
        scheme: Scheme::Http,
        host,
        port: 80,
        path: Text::from_bytes(alloc, b"/")?,
    })
}

fn job(alloc: Global, letter: u8, no: u64, max: u64) -> Result<Job, NoMemory>
    requires { (97 ≤ letter) × (letter ≤ 122) }
    ensures sound { IfOk result (λ job. IsSound job.uri) }
    ensures from { IfOk result CanBegin }
{
    Ok(Job {
        no,
        uri: uri(alloc, letter)?,
        max,
        from: 0,
    })
}

fn file(alloc: Global, length: usize) -> Result<Bytes, NoMemory> {
    Ok(Row::from(vec![in alloc; 7; length]?))
}

/// A mirror: `a` has 3 bytes, `b` this many, `c` moved to `a`, `d` is absent.
fn mirror(alloc: Global, length: usize) -> Result<Mirror, NoMemory>
    ensures { IfOk result (λ mirror. HasSoundAnswers mirror.rows) }
{
    let mut rows = Row::new(alloc);
    rows.push((uri(alloc, b'a')?, Answer::Served(file(alloc, 3)?)))?;
    rows.push((uri(alloc, b'b')?, Answer::Served(file(alloc, length)?)))?;
    rows.push((uri(alloc, b'c')?, Answer::Moved(Some(uri(alloc, b'a')?))))?;
    rows.push((uri(alloc, b'd')?, Answer::Absent(410)))?;
    Ok(Mirror { rows })
}

/// The numbers of the calls that are to fail.
fn only(alloc: Global, number: u64) -> Result<Row<u64>, NoMemory> {
    let mut row = Row::new(alloc);
    row.push(number)?;
    Ok(row)
}

/// What a word says as a number: how many bytes, or what else the job came to.
fn code(word: &Word) -> u64 {
    match word {
        Word::Piece { at: _, bytes } => bytes.len() as u64,
        Word::Done { size } => *size,
        Word::Not(NotServed::Moved(_)) => 1_000_000,
        Word::Not(NotServed::Absent(status)) => 2_000_000 + u64::from(*status),
        Word::Not(NotServed::TooBig) => 3_000_000,
        Word::Not(NotServed::Fault { before, after }) => 4_000_000u64
            .saturating_add(before.saturating_mul(10))
            .saturating_add(*after),
        Word::Not(_) | Word::NoMemory => 9_000_000,
    }
}

/// Adds up what the words of each job say.
fn note(heard: &mut Vec<u64>, no: u64, word: &Word) {
    if let Some(sum) = heard.get_mut(no as usize) {
        *sum = sum.saturating_add(code(word));
    }
}

fn is_last(word: &Word) -> bool
    ensures { result ≡ false → is_piece word.now ≡ true }
{
    !matches!(word, Word::Piece { .. })
}

/// Gives a job to a lane, and says whether it went.
fn give<M: Method + Send + 'static, R: Wait>(
    rt: &R,
    alloc: Global,
    lanes: &mut Lanes<M>,
    lane: u32,
    letter: u8,
    no: u64,
) -> Result<bool, NoMemory>
    requires { (97 ≤ letter) × (letter ≤ 122) }
{
    let max = if no == 16 { 10 } else { 10_000_000 };
    Ok(lanes.give(rt, lane, job(alloc, letter, no, max)?).is_ok())
}

/// Has the coordinator fetch a job to its end.
fn own<M: Method + Send + 'static>(
    alloc: Global,
    lanes: &mut Lanes<M>,
    letter: u8,
    no: u64,
    heard: &mut Vec<u64>,
) -> Result<(), NoMemory>
    requires { (97 ≤ letter) × (letter ≤ 122) }
{
    let job = job(alloc, letter, no, 10_000_000)?;
    let mut word = lanes.own(alloc, &job);
    for _ in 0..1_000_000u64 {
        note(heard, no, &word);
        if is_last(&word) {
            break;
        }
        word = lanes.own_more(alloc);
    }
    Ok(())
}

/// Takes words up to the last ones of so many jobs, and says whether each came from the lane of its job.
fn take<M: Method + Send + 'static, R: Wait>(
    rt: &R,
    lanes: &mut Lanes<M>,
    jobs: u64,
    heard: &mut Vec<u64>,
) -> bool {
    let mut ended = 0u64;
    for _ in 0..1_000_000u64 {
        if ended >= jobs {
            break;
        }
        let Some(told) = lanes.take(rt) else {
            return false;
        };
        if u64::from(told.lane) != told.job.no % 3 {
            return false;
        }
        note(heard, told.job.no, &told.word);
        if is_last(&told.word) {
            ended += 1;
        }
    }
    true
}

/// The letter of a job, in turn `a` to `e`.
fn letter(no: u64) -> u8
    ensures { (97 ≤ result) × (result ≤ 122) }
{
    b'a' + (no % 5) as u8
}

/// Ten rounds of a job for the coordinator and one for each of two workers, job n on lane n % 3. It stops where a job didn't
/// go or a word came from another lane.
fn thirty_jobs<R: Wait>(
    rt: &R,
    alloc: Global,
    lanes: &mut Lanes<MapMethod>,
) -> Result<Vec<u64>, NoMemory> {
    let mut heard = vec![in alloc; 0u64; 30]?;
    for round in 0..10u64 {
        let no = round * 3;
        let first = give(rt, alloc, lanes, 1, letter(no + 1), no + 1)?;
        let second = give(rt, alloc, lanes, 2, letter(no + 2), no + 2)?;
        own(alloc, lanes, letter(no), no, &mut heard)?;
        if !first || !second || !take(rt, lanes, 2, &mut heard) {
            break;
        }
    }
    Ok(heard)
}

/// So many methods over mirrors, of each of which call 4 of `begin` and this call of `more` fail.
fn map_methods(
    alloc: Global,
    count: usize,
    length: usize,
    failing_more: u64,
) -> Result<Vec<MapMethod>, NoMemory>
    ensures { IfOk result (λ methods. vec_len methods ≡ count) }
{
    let mut methods = Vec::new(alloc);
    for _ in 0..count {
        let mirror = mirror(alloc, length)?;
        methods.push(MapMethod::new(mirror, only(alloc, 4)?, only(alloc, failing_more)?))?;
    }
    Ok(methods)
}

/// The counts of faults of methods.
fn counts<M: Method>(alloc: Global, methods: &[M]) -> Result<Vec<u64>, NoMemory> {
    let mut all = Vec::new(alloc);
    for method in methods {
        all.push(method.faults())?;
    }
    Ok(all)
}

#[test]
fn two_workers_and_the_coordinator_hear_the_same_under_every_schedule(
    rt: HostRuntime,
) -> Result<(), Fail> {
    let alloc = rt.alloc();
    let mut methods = map_methods(alloc, 3, 70_000, 5)?;
    let mut lanes = start(&rt, alloc, &mut methods)?;
    let heard = thirty_jobs(&rt, alloc, &mut lanes);
    let back = lanes.finish(&rt);
    // Each file counts twice, once by its pieces and once by its size. Call 4 of `begin` and call 5 of `more` fail.
    let expected: [u64; 30] = [
        6, 140_000, 1_000_000, 2_000_410, 2_000_404, 6, 140_000, 1_000_000, 2_000_410, 4_000_001,
        4_000_001, 4_000_001, 1_000_000, 2_000_410, 2_000_404, 6, 3_000_000, 1_000_000, 2_000_410,
        2_000_404, 6, 4_065_548, 1_000_000, 2_000_410, 2_000_404, 6, 140_000, 1_000_000, 2_000_410,
        2_000_404,
    ];
    assert_eq!(rt; heard?.as_slice(), expected.as_slice());
    assert_eq!(rt; counts(alloc, &back)?.as_slice(), [2, 1, 1].as_slice());
    assert_eq!(rt; methods.len(), 0);
    Ok(())
}

#[test]
fn finish_ends_a_worker_that_waits_for_room(rt: HostRuntime) -> Result<(), Fail> {
    let alloc = rt.alloc();
    // 77 pieces, of which 64 may wait. Meanwhile the coordinator fetches as many.
    let mut methods = map_methods(alloc, 2, 5_000_000, 100)?;
    let mut heard = vec![in alloc; 0u64; 1]?;
    let mut lanes = start(&rt, alloc, &mut methods)?;
    let given = give(&rt, alloc, &mut lanes, 1, b'b', 1);
    let ended = own(alloc, &mut lanes, b'b', 0, &mut heard);
    let back = lanes.finish(&rt);
    ended?;
    assert!(rt; given?);
    assert_eq!(rt; heard.as_slice(), [10_000_000].as_slice());
    assert_eq!(rt; counts(alloc, &back)?.as_slice(), [0, 0].as_slice());
    Ok(())
}

#[test]
fn one_method_has_no_channel(rt: HostRuntime) -> Result<(), Fail> {
    let alloc = rt.alloc();
    let mut methods = map_methods(alloc, 1, 70_000, 5)?;
    let mut heard = vec![in alloc; 0u64; 1]?;
    let mut lanes = start(&rt, alloc, &mut methods)?;
    let given = give(&rt, alloc, &mut lanes, 1, b'a', 1);
    let none = lanes.take(&rt).is_none();
    let ended = own(alloc, &mut lanes, b'b', 0, &mut heard);
    let back = lanes.finish(&rt);
    ended?;
    assert!(rt; !given? && none);
    assert_eq!(rt; heard.as_slice(), [140_000].as_slice());
    assert_eq!(rt; back.len(), 1);
    Ok(())
}

/// A method that holds each answer of host `m` until one of host `n` was given, or fails at every job.
#[derive(Drop)]
struct Gate {
    number: u64,
    given: Arc<AtomicU64, Global>,
    fails: bool,
    faults: u64,
    begins: u64,
    under: Option<Fetch>,
}

impl Gate {
    /// Whether an answer of host `n` was given within 10,000,000 turns.
    fn waits(&self) -> bool {
        for _ in 0..10_000_000u64 {
            if self.given.load(Ordering::SeqCst) == 1 {
                return true;
            }
            thread::yield_now();
        }
        false
    }
}

impl Method for Gate {
    ghost use Rattle.std.specs.Prelude.{None};

    ghost faults = { λ gate. gate.faults };

    ghost world = { λ gate. None };

    ghost under = { λ gate. gate.under };

    ghost begins = { λ gate. gate.begins };

    fn faults(&self) -> u64 {
        self.faults
    }

    fn begin(&mut self, _alloc: Global, job: &Job) -> Word {
        self.under = None;
        self.begins = self.begins.saturating_add(1);
        let is_n = job.uri.host.as_bytes() == b"n".as_slice();
        if self.fails || (!is_n && !self.waits()) {
            let before = self.faults;
            self.faults = before.saturating_add(1);
            let after = self.faults;
            return Word::Not(NotServed::Fault { before, after });
        }
        if is_n {
            self.given.store(1, Ordering::SeqCst);
        }
        Word::Not(NotServed::Absent(if is_n { 1 } else { 2 }))
    }

    fn more(&mut self, _alloc: Global) -> Word {
        self.under = None;
        Word::Not(NotServed::Absent(404))
    }
}

/// So many gates, of which the first fails at every job.
fn gates(alloc: Global, count: usize) -> Result<Vec<Gate>, NoMemory>
    ensures { IfOk result (λ gates. vec_len gates ≡ count) }
{
    let given = Arc::new(alloc, AtomicU64::new(0))?;
    let mut gates = Vec::new(alloc);
    for number in 0..count {
        gates.push(Gate {
            number: number as u64,
            given: Arc::try_clone(&given)?,
            fails: number == 0,
            faults: 0,
            begins: 0,
            under: None,
        })?;
    }
    Ok(gates)
}

#[test]
fn workers_fetch_and_not_the_coordinator(rt: HostRuntime) -> Result<(), Fail> {
    let alloc = rt.alloc();
    let mut gates = gates(alloc, 3)?;
    let mut heard = vec![in alloc; 0u64; 3]?;
    let mut lanes = start(&rt, alloc, &mut gates)?;
    let first = give(&rt, alloc, &mut lanes, 1, b'm', 1);
    let second = give(&rt, alloc, &mut lanes, 2, b'n', 2);
    let from_workers = take(&rt, &mut lanes, 2, &mut heard);
    let ended = own(alloc, &mut lanes, b'n', 0, &mut heard);
    let back = lanes.finish(&rt);
    ended?;
    assert!(rt; first? && second? && from_workers);
    assert_eq!(rt;
        heard.as_slice(),
        [4_000_001, 2_000_002, 2_000_001].as_slice()
    );
    assert_eq!(rt; counts(alloc, &back)?.as_slice(), [1, 0, 0].as_slice());
    Ok(())
}

/// Gives each of eight workers a job and takes its word, and says how many words came.
fn eight<R: Wait>(rt: &R, alloc: Global, lanes: &mut Lanes<Gate>) -> Result<u64, NoMemory> {
    for lane in 1..9u32 {
        give(rt, alloc, lanes, lane, b'n', u64::from(lane))?;
    }
    let mut came = 0u64;
    for _ in 0..8u64 {
        if lanes.take(rt).is_some() {
            came = came.saturating_add(1);
        }
    }
    Ok(came)
}

#[test]
fn nine_methods_come_back_in_order(rt: HostRuntime) -> Result<(), Fail> {
    let alloc = rt.alloc();
    let mut gates = gates(alloc, 9)?;
    let mut lanes = start(&rt, alloc, &mut gates)?;
    let came = eight(&rt, alloc, &mut lanes);
    let idle = lanes.take(&rt).is_none();
    let back = lanes.finish(&rt);
    assert_eq!(rt; came?, 8);
    assert!(rt; idle);
    assert_eq!(rt; back.len(), 9);
    for (number, gate) in back.iter().enumerate() {
        assert_eq!(rt; gate.number, number as u64);
    }
    Ok(())
}
