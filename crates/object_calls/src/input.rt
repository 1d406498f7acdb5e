//! Calls of an input: one that reads a file of the system, and one in memory.

use crate::page::Page;
use crate::words::{Refused, number, path, short};
use acq_base::{Row, Text, TryCopy};
use acq_memory::MemInlet;
use acq_outside::Inlet;
use acq_real::RealInlet;
use std::alloc::Global;
use std::fs::File;

/// The system's input. It reads the file of a path below the folder `own`.
pub fn open(rt: HostRuntime, own: &str, word: &Text) -> Result<RealInlet<File>, Refused> {
    let path = path(rt.alloc(), own, word)?;
    Ok(RealInlet::new(File::open(&rt, path.as_str())?))
}

/// An input in memory, of a text and the numbers of the calls that are to fail.
pub fn begin(alloc: Global, text: &Text, failing: &[Text]) -> Result<MemInlet, Refused> {
    let failing = numbers(alloc, failing)?;
    Ok(MemInlet::new(text.copy(alloc)?.into_bytes(), failing))
}

/// The numbers that words are.
pub fn numbers(alloc: Global, words: &[Text]) -> Result<Row<u64>, Refused> {
    let mut numbers = Row::new(alloc);
    for word in words {
        numbers.push(number(word)?)?;
    }
    Ok(numbers)
}

/// Puts what a call of the system's input answers, if there is one.
pub fn answer(
    alloc: Global,
    page: &mut Page,
    input: &mut Option<RealInlet<File>>,
    call: &str,
    words: &[Text],
) -> Result<(), Refused> {
    match (input, call, words) {
        (Some(input), "read", [most]) => read(alloc, page, input, short(most)?),
        (Some(input), "faults", []) => {
            page.put_number(input.faults());
            Ok(())
        }
        _ => Err(Refused::NoCall),
    }
}

/// Puts what a call of the input in memory answers, if there is one.
pub fn memory_answer(
    alloc: Global,
    page: &mut Page,
    input: &mut Option<MemInlet>,
    call: &str,
    words: &[Text],
) -> Result<(), Refused> {
    match (input, call, words) {
        (Some(input), "read", [most]) => read(alloc, page, input, short(most)?),
        _ => Err(Refused::NoCall),
    }
}

/// Reads into a buffer of stars.
fn read<I: Inlet>(alloc: Global, page: &mut Page, input: &mut I, most: u16) -> Result<(), Refused> {
    if most == 0 {
        return Err(Refused::NoCall);
    }
    let mut out = vec![in alloc; b'*'; usize::from(most)]?;
    let read = input.read(out.as_mut_slice());
    page.put_piece(read, out.as_slice());
    Ok(())
}
