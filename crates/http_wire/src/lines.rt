//! Heads, size lines and trailers, as a wire takes them.

ghost use Rattle.std.specs.Prelude.{◌≡◌, ◌+◌, ◌<◌, ◌≤◌, ◌∷◌, [], nat_lt, Bool, true, false, length, take, drop, None, IfOk, OnOk};
ghost use Rattle.std.specs.List.{list_any};
ghost use Rattle.http_wire.specs.declared.reading.HeadRead.{HeadRead};
ghost use Rattle.http_wire.specs.declared.reading.SizeRead.{SizeRead};
ghost use Rattle.http_wire.specs.declared.reading.TrailersRead.{TrailersRead};
ghost use Rattle.http_wire.specs.Forms.{is_line_feed};
ghost use Rattle.http_wire.specs.Plain.{GoesPlain, IsPlain};
ghost use Rattle.http_wire.specs.Stream.{announced};
ghost use Rattle.http_wire.specs.Steps.{Moves, IsFront, IsHeadRead, IsSizeRead, AreTrailersRead, IsEmptyLine, joined, settled, blank_passed, in_line, body_framed, body_begun, head_ended, final_head, head_whole, head_read, size_read, trailers_read};

use crate::reading::{
    HEAD_BYTES, HeadRead, SizeRead, TrailersRead, head_len, read_head, read_size, read_trailers,
};
use crate::runs::{are_name_bytes, are_value_bytes, plain_in};
use crate::wire::Wire;
use crate::{Framing, Meaning, Phase, Response};
use acq_base::NoMemory;
use std::alloc::Global;

/// The most interim heads before the final one.
const MOST_INTERIM: u8 = 16;

/// How many bytes stand up to the first line feed, it included, and whether there is one.
fn line_of(piece: &[u8]) -> (usize, bool)
    ensures within { result.0 ≤ length piece.now }
    ensures some { 0 < length piece.now → 0 < result.0 }
    ensures front { IsFront result.1 (take result.0 piece.now) }
{
    for (i, b) in piece.iter().enumerate() {
        if *b == b'\n' {
            return (i + 1, true);
        }
    }
    (piece.len(), false)
}

/// Whether a line is empty.
fn is_empty_line(line: &[u8]) -> bool
    ensures { result ≡ true → IsEmptyLine line.now }
{
    match line {
        [b'\n'] | [b'\r', b'\n'] => true,
        _ => false,
    }
}

/// The bytes that a body is known to have.
fn announced(how: Framing) -> u64
    ensures { result ≡ announced how }
{
    match how {
        Framing::Counted(size) => size,
        Framing::Chunks | Framing::Unbounded => 0,
    }
}

impl Wire {
    /// Takes bytes of a head, behind so many interim ones.
    pub(crate) fn take_head(
        &mut self,
        alloc: Global,
        passed: u8,
        piece: &[u8],
    ) -> Result<usize, NoMemory>
        requires phase { self.old.phase ≡ Phase.Heads passed }
        requires going { self.old.ending ≡ None }
        requires some { 0 < length piece.now }
        ensures took { IfOk result (λ n. (0 < n) × (n ≤ length piece.now)) }
        ensures moves { IfOk result (λ n. Moves self.old self.new (take n piece.now)) }
    {
        // A head is read again with each of its lines, and with a piece that stops in another place than a long name or
        // value, but for one that comes whole in a piece, as most do.
        if self.part.is_empty() {
            let n = head_len(piece);
            if n > 0 {
                let (front, _) = piece.split_at(n);
                self.join(front)?;
                self.judge_head(alloc, passed)?;
                return Ok(n);
            }
        }
        self.take_head_line(alloc, passed, piece)
    }

    /// Takes bytes of a head up to the end of a line or of the piece, behind so many interim heads.
    fn take_head_line(&mut self, alloc: Global, passed: u8, piece: &[u8]) -> Result<usize, NoMemory>
        requires phase { self.old.phase ≡ Phase.Heads passed }
        requires going { self.old.ending ≡ None }
        requires some { 0 < length piece.now }
        ensures took { IfOk result (λ n. (0 < n) × (n ≤ length piece.now)) }
        ensures moves { IfOk result (λ n. Moves self.old self.new (take n piece.now)) }
    {
        let (n, _) = line_of(piece);
        let (front, _) = piece.split_at(n);
        if self.goes_on(front) {
            self.join(front)?;
            self.limit(HEAD_BYTES);
            return Ok(n);
        }
        self.forget_line();
        self.join(front)?;
        if self.is_blank() {
            self.pass_blank();
            return Ok(n);
        }
        if self.is_return() {
            self.limit(HEAD_BYTES);
            return Ok(n);
        }
        self.judge_head(alloc, passed)?;
        self.note_line();
        Ok(n)
    }

    /// Takes bytes of a chunk's size line.
    pub(crate) fn take_size(&mut self, piece: &[u8]) -> Result<usize, NoMemory>
        requires phase { self.old.phase ≡ Phase.SizeLine }
        requires going { self.old.ending ≡ None }
        requires some { 0 < length piece.now }
        ensures took { IfOk result (λ n. (0 < n) × (n ≤ length piece.now)) }
        ensures moves { IfOk result (λ n. Moves self.old self.new (take n piece.now)) }
    {
        let (n, _) = line_of(piece);
        let (front, _) = piece.split_at(n);
        self.join(front)?;
        self.judge_size();
        Ok(n)
    }

    /// Takes bytes of trailers.
    pub(crate) fn take_trailers(&mut self, piece: &[u8]) -> Result<usize, NoMemory>
        requires phase { self.old.phase ≡ Phase.Trailing }
        requires going { self.old.ending ≡ None }
        requires some { 0 < length piece.now }
        ensures took { IfOk result (λ n. (0 < n) × (n ≤ length piece.now)) }
        ensures moves { IfOk result (λ n. Moves self.old self.new (take n piece.now)) }
    {
        let (n, _) = line_of(piece);
        let (front, _) = piece.split_at(n);
        if self.goes_on(front) {
            self.join(front)?;
            self.limit(HEAD_BYTES);
            return Ok(n);
        }
        self.forget_line();
        self.join(front)?;
        self.judge_trailers();
        self.note_line();
        Ok(n)
    }

    /// Whether these bytes go on with a long name or value, so that they need no reading.
    fn goes_on(&self, bytes: &[u8]) -> bool
        ensures { result ≡ true → GoesPlain self.now.named self.now.valued bytes.now }
    {
        (self.named && are_name_bytes(bytes)) || (self.valued && are_value_bytes(bytes))
    }

    /// Knows nothing of where the text stops.
    fn forget_line(&mut self)
        ensures { self.new ≡ settled false false self.old }
    {
        self.named = false;
        self.valued = false;
    }

    /// Notes whether the text stops within a long name or value.
    fn note_line(&mut self)
        ensures { (named : Bool) × (valued : Bool) × IsPlain named valued self.old.part × (self.new ≡ settled named valued self.old) }
    {
        let (named, valued) = plain_in(&self.part);
        self.settle(named, valued);
    }

    fn settle(&mut self, named: bool, valued: bool)
        ensures { self.new ≡ settled named valued self.old }
    {
        self.named = named;
        self.valued = valued;
    }

    /// Takes bytes of a text of lines.
    fn join(&mut self, front: &[u8]) -> Result<(), NoMemory>
        ensures { OnOk result (self.new ≡ joined front.now self.old) }
    {
        self.part.extend_from_slice(front)?;
        self.count = self.count.saturating_add(front.len() as u64);
        Ok(())
    }

    /// Whether the last line is empty, with empty lines alone before it.
    fn is_blank(&self) -> bool
        ensures { result ≡ true → IsEmptyLine (drop self.now.blank self.now.part) }
    {
        if self.blank > self.part.len() {
            return false;
        }
        let (_, line) = self.part.split_at(self.blank);
        is_empty_line(line)
    }

    /// Whether the text is a carriage return, with empty lines alone before it.
    fn is_return(&self) -> bool
        ensures { result ≡ true → drop self.now.blank self.now.part ≡ 13 ∷ [] }
    {
        if self.blank > self.part.len() {
            return false;
        }
        let (_, line) = self.part.split_at(self.blank);
        matches!(line, [b'\r'])
    }

    /// Passes over empty lines before a head, which aren't read again with each further line.
    fn pass_blank(&mut self)
        ensures { self.new ≡ in_line 65536 (blank_passed self.old) }
    {
        self.blank = self.part.len();
        self.limit(HEAD_BYTES);
    }

    /// Refuses a text that is too long for its kind, and is not whole yet.
    fn limit(&mut self, most: usize)
        ensures { self.new ≡ in_line most self.old }
    {
        if self.part.len() > most {
            self.garble();
        }
    }

    /// Reads what came of a head.
    fn judge_head(&mut self, alloc: Global, passed: u8) -> Result<(), NoMemory>
        ensures { OnOk result ((read : HeadRead) × IsHeadRead self.old.from self.old.part read × (self.new ≡ head_read passed read self.old)) }
    {
        let read = read_head(alloc, &self.part, self.from)?;
        self.apply_head(passed, read);
        Ok(())
    }

    fn apply_head(&mut self, passed: u8, read: HeadRead)
        ensures { self.new ≡ head_read passed read self.old }
    {
        match read {
            HeadRead::More => {}
            HeadRead::Bad => self.garble(),
            HeadRead::Whole(status, says) => self.pass_head(passed, status, says),
        }
    }

    fn pass_head(&mut self, passed: u8, status: u16, says: Meaning)
        ensures { self.new ≡ head_whole passed status says self.old }
    {
        match says {
            Meaning::Interim if passed < MOST_INTERIM => self.mark(Phase::Heads(passed + 1)),
            says => self.end_heads(status, says),
        }
    }

    /// The head is the final one.
    fn end_heads(&mut self, status: u16, says: Meaning)
        ensures { self.new ≡ final_head status says self.old }
    {
        self.start = if status == 206 { self.from } else { 0 };
        self.follow_head(says);
    }

    fn follow_head(&mut self, says: Meaning)
        ensures { self.new ≡ head_ended says self.old }
    {
        match says {
            Meaning::Interim | Meaning::Wrong => self.garble(),
            Meaning::Absent(status) => self.stop(Response::Absent(status)),
            Meaning::Moved(place) => self.stop(Response::Moved(place)),
            Meaning::Body(how, keep) => self.begin_body(how, keep),
        }
    }

    fn begin_body(&mut self, how: Framing, keep: bool)
        ensures { self.new ≡ body_begun how keep self.old }
    {
        if self.is_beyond(announced(how)) {
            self.stop(Response::TooBig);
            return;
        }
        self.reached = self.start;
        self.keep = keep;
        self.frame_body(how, keep);
    }

    /// Whether so many bytes from the body's beginning on pass the limit.
    fn is_beyond(&self, size: u64) -> bool
        ensures { result ≡ nat_lt self.now.max (self.now.start + size) }
    {
        let max = self.max;
        match self.start.checked_add(size) {
            Some(last) => max < last,
            None => true,
        }
    }

    fn frame_body(&mut self, how: Framing, keep: bool)
        ensures { self.new ≡ body_framed how keep self.old }
    {
        match how {
            Framing::Chunks => self.mark(Phase::SizeLine),
            Framing::Unbounded => self.mark(Phase::Unbounded),
            Framing::Counted(size) => {
                self.mark(Phase::Counted(size));
                if size == 0 {
                    self.stop(Response::Served(keep));
                }
            }
        }
    }

    /// Reads what came of a size line.
    fn judge_size(&mut self)
        ensures { (read : SizeRead) × IsSizeRead self.old.part read × (self.new ≡ size_read read self.old) }
    {
        let read = read_size(&self.part);
        self.apply_size(read);
    }

    fn apply_size(&mut self, read: SizeRead)
        ensures { self.new ≡ size_read read self.old }
    {
        match read {
            SizeRead::More => {}
            SizeRead::Bad => self.garble(),
            SizeRead::Whole(0) => self.mark(Phase::Trailing),
            SizeRead::Whole(size) => self.mark(Phase::Chunk(size)),
        }
    }

    /// Reads what came of trailers.
    fn judge_trailers(&mut self)
        ensures { (read : TrailersRead) × AreTrailersRead self.old.part read × (self.new ≡ trailers_read read self.old) }
    {
        let read = read_trailers(&self.part);
        self.apply_trailers(read);
    }

    fn apply_trailers(&mut self, read: TrailersRead)
        ensures { self.new ≡ trailers_read read self.old }
    {
        match read {
            TrailersRead::More => {}
            TrailersRead::Bad => self.garble(),
            TrailersRead::Whole => self.stop(Response::Served(self.keep)),
        }
    }
}
