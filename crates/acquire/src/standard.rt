//! The descriptors of standard input, output and error.

use std::fs::File;
use std::rt::Files;

/// Files that stand where standard input, output and error were closed.
#[derive(Drop)]
pub struct Standard {
    input: Option<File>,
    output: Option<File>,
    error: Option<File>,
}

/// Takes the descriptors of standard input, output and error where the program was started without them, until what it
/// answers is dropped. Else the lock of the lists folder would take that of the output, and the report would be written to
/// it; written to one of these, a report fails.
pub fn hold_standard<R: Files<File = File>>(rt: &R) -> Standard {
    Standard {
        input: hold_one(rt),
        output: hold_one(rt),
        error: hold_one(rt),
    }
}

/// Takes the lowest descriptor that is free, for reading nothing.
fn hold_one<R: Files<File = File>>(rt: &R) -> Option<File> {
    match File::open(rt, "/dev/null") {
        Ok(file) => Some(file),
        Err(_) => None,
    }
}
