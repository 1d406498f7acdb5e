//! The messages of a text, line by line. It may take memory, and touches nothing else.

ghost use Rattle.std.specs.Prelude.{◌≡◌, ℕ, ◌+◌, ◌-◌, ◌^◌, ◌<◌, ◌≤◌, ◌++◌, List, length, drop, IfOk, MatchResult};
ghost use Rattle.std.specs.Bool.{OnTrue};
ghost use Rattle.method_messages.specs.declared.message.Message.{Message};
ghost use Rattle.method_messages.specs.Streams.{place};
ghost use Rattle.method_messages.specs.Within.{Within, ReadsOn, Steps, Refuses};

use crate::cutting::next_feed;
use crate::step::{MOST_BYTES, Told, line_ended};
use crate::{Message, MessageError};
use acq_base::Row;
use std::alloc::Global;

/// How far a text has been read.
#[derive(Drop)]
pub struct Progress {
    /// The messages that have ended.
    pub messages: Row<Message>,
    /// The place in the text behind them.
    pub start: usize,
    /// How many bytes from there on have been seen.
    pub seen: usize,
    /// The place in the stream of the first of these.
    pub begins: u64,
}

impl Progress {
    /// Takes the next line of the text, if it has ended.
    fn step(&mut self, alloc: Global, text: &[u8]) -> Result<bool, MessageError>
        requires { self.old.start + self.old.seen ≤ length text.now }
        ensures inside { self.new.start + self.new.seen ≤ length text.now }
        ensures more { IfOk result (λ went. OnTrue went (self.old.start + self.old.seen < self.new.start + self.new.seen)) }
        ensures told { (stream : List ℕ) (before : List Message)
            → Within stream (before ++ self.old.messages) (drop self.old.start text.now) self.old.seen self.old.begins
            → Steps stream (before ++ self.new.messages) (drop self.new.start text.now) self.new.seen self.new.begins result }
    {
        let (_, rest) = text.split_at(self.start);
        let Some(end) = next_feed(rest, self.seen) else {
            return Ok(false);
        };
        let (line, _) = rest.split_at(end);
        match line_ended(alloc, line, self.begins)? {
            Told::GoesOn => {
                self.seen = end + 1;
                Ok(true)
            }
            Told::Passed => {
                self.pass(end);
                Ok(true)
            }
            Told::Ends(message) => {
                self.messages.push(message)?;
                self.pass(end);
                Ok(true)
            }
        }
    }

    /// Passes a line feed so many bytes on, and what stands before it.
    fn pass(&mut self, end: usize)
        requires { self.old.start + end + 1 < 2 ^ 63 }
        ensures messages { self.new.messages ≡ self.old.messages }
        ensures start { self.new.start ≡ self.old.start + end + 1 }
        ensures seen { self.new.seen ≡ 0 }
        ensures begins { self.new.begins ≡ place (self.old.begins + (end + 1)) }
    {
        self.start = self.start + end + 1;
        self.seen = 0;
        self.begins = self.begins.saturating_add(end as u64 + 1);
    }
}

/// Reads a text of the stream of which so many bytes have been seen before, and in these no message has ended. It begins at
/// this place.
pub fn read_messages(
    alloc: Global,
    text: &[u8],
    seen: usize,
    begins: u64,
) -> Result<Progress, MessageError>
    requires { seen ≤ length text.now }
    ensures inside { IfOk result (λ read. read.start ≤ length text.now) }
    ensures told { (stream : List ℕ) (before : List Message) → Within stream before text.now seen begins
        → MatchResult result (ReadsOn stream before text.now) (Refuses stream) }
{
    let mut progress = Progress {
        messages: Row::new(alloc),
        start: 0,
        seen,
        begins,
    };
    'lines: while progress.step(alloc, text)? {}
    if text.len() - progress.start >= MOST_BYTES {
        return Err(MessageError::TooLong(progress.begins));
    }
    Ok(progress)
}
