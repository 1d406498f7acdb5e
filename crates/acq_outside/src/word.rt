//! A fetch under way, and what a method answers to it step by step.

ghost use Rattle.std.specs.Prelude.{◌≡◌};
ghost use Rattle.acq_outside.specs.Word.{IsWithinLimit, after_word};

use acq_base::{Bytes, Job, NotServed};

/// One answer of a method to a fetch under way.
#[derive(Debug, PartialEq, Drop)]
pub enum Word {
    /// The file's next bytes, 1 to 65,536 of them.
    Piece {
        /// Where in the whole file they begin, in bytes.
        at: u64,
        bytes: Bytes,
    },
    /// The file has been given to its end.
    Done {
        /// The length of the whole file in bytes.
        size: u64,
    },
    /// No file was served.
    Not(NotServed),
    /// Memory ran out.
    NoMemory,
}

/// A fetch under way.
#[derive(Debug, PartialEq, Drop)]
pub struct Fetch {
    pub job: Job,
    /// How many bytes of the whole file stand before the next piece. It begins with those that the job leaves out.
    pub at: u64,
}

impl Fetch {
    /// What is under way once this word has come.
    pub fn after(self, word: &Word) -> Option<Fetch>
        requires { IsWithinLimit self word.now }
        ensures { result ≡ after_word self word.now }
    {
        match word {
            Word::Piece { at: _, bytes } => Some(Fetch {
                job: self.job,
                at: self.at + bytes.len() as u64,
            }),
            Word::Done { size: _ } | Word::Not(_) | Word::NoMemory => None,
        }
    }
}
