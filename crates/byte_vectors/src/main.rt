//! The program `byte_vectors`: reads calls on texts of bytes, one a line, and prints what each answers: control text, frames,
//! words, sums, queues, patch Indexes, edit scripts and mirrors that are made of a number.
//!
//! A line that begins with `#` is a heading and is printed again, as an empty one is. A line that is no call is told as one.
#![tactic(auto)]

use case_words::tell;
use std::io::{self, BufRead, BufReader};

mod calls;
mod command;
mod control;
mod frames;
mod indexes;
mod mirrors;
mod queues;
mod scripts;
mod started;
mod sums;
mod texts;

fn main(rt: HostRuntime) -> io::Result<()> {
    for line in BufReader::new(rt.alloc(), rt.reader())?.lines(rt.alloc()) {
        let line = line?;
        if line.is_empty() || line.starts_with('#') {
            println!(rt; "{line}")?;
        } else {
            let answer = calls::answer(rt.alloc(), line.as_str());
            tell(&rt, line.as_str(), answer)?;
        }
    }
    Ok(())
}
