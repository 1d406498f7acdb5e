//! Lines answered.

use crate::Refused;
use std::io;

/// Prints what a line answers, if it answers anything, or why it has no answer.
pub fn tell(
    rt: &impl Print,
    line: &str,
    answer: Result<Option<String>, Refused>,
) -> io::Result<()> {
    match answer {
        Ok(Some(text)) => println!(rt; "{text}"),
        Ok(None) => Ok(()),
        Err(Refused::NoCall) => println!(rt; "no call: {line}"),
        Err(Refused::Unread) => println!(rt; "a text of it is refused: {line}"),
        Err(Refused::NoMemory) => println!(rt; "no memory: {line}"),
    }
}
