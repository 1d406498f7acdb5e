//! The program `rewrite`: reads a file's control text, and writes it again in the one written form.
//!
//! A file that has the written form already comes out byte for byte. Comments are left out. It ends with status 1 where
//! the file can't be written again, and with 2 where its words are not one file's name.
//!
//! Its `rewritten` gives the written form of what the text is read as, or why there is none.
#![tactic(auto)]

ghost use Rattle.rewrite.specs.Again.{IsAnswer};

use acq_base::Bytes;
use deb822_text::{TextError, can_write, read, write};
use std::alloc::Global;
use std::io::{self, Write};
use std::process::ExitCode;
use std::{env, fmt, fs};

/// Why a text isn't written again.
#[derive(Clone, Copy, Debug, PartialEq, Eq)]
pub enum Refused {
    /// It is no control text, or memory ran out.
    Text(TextError),
    /// A line of it can be read and not written: it holds a carriage return, and not just before its line feed.
    Unwritable,
}

impl fmt::Display for Refused {
    fn fmt<W: fmt::Write>(&self, f: &mut fmt::Formatter<W>) -> fmt::Result {
        match self {
            Refused::Text(error) => write!(f, "{error}"),
            Refused::Unwritable => f.write_str("a line holds a carriage return"),
        }
    }
}

fn main(rt: HostRuntime) -> io::Result<ExitCode> {
    let mut words = env::args(&rt)?.skip(1);
    let (Some(name), None) = (words.next(), words.next()) else {
        eprintln!(rt; "usage: rewrite FILE")?;
        return Ok(ExitCode::from(2));
    };
    let text = fs::read(&rt, name.as_str())?;
    match rewritten(rt.alloc(), text.as_slice()) {
        Ok(again) => {
            rt.stdout().write_all(again.as_slice())?;
            Ok(ExitCode::SUCCESS)
        }
        Err(refused) => {
            eprintln!(rt; "{name}: {refused}")?;
            Ok(ExitCode::FAILURE)
        }
    }
}

/// The written form of the paragraphs that a text is read as.
fn rewritten(alloc: Global, text: &[u8]) -> Result<Bytes, Refused>
    ensures { IsAnswer text.now result }
{
    let paragraphs = read(alloc, text, true).map_err(Refused::Text)?;
    match can_write(alloc, &paragraphs) {
        Ok(true) => write(alloc, &paragraphs).map_err(|_| Refused::Text(TextError::NoMemory)),
        Ok(false) => Err(Refused::Unwritable),
        Err(_) => Err(Refused::Text(TextError::NoMemory)),
    }
}
