//! Lanes of hosts.

use acq_base::Text;
use case_words::{Page, Refused, number, small};
use host_queues::Queues;
use std::alloc::Global;

/// Appends what calls on so many lanes answer: `put:HOST:NUMBER`, `next:LANE` and `done:LANE`.
pub fn put_answers(
    alloc: Global,
    page: &mut Page,
    lanes: &[u8],
    calls: &[&[u8]],
) -> Result<(), Refused> {
    let lanes = small(lanes)?;
    if lanes == 0 {
        return Err(Refused::NoCall);
    }
    let mut queues = Queues::new(alloc, lanes)?;
    for call in calls {
        put_answer(alloc, page, &mut queues, call)?;
    }
    Ok(())
}

fn put_answer(
    alloc: Global,
    page: &mut Page,
    queues: &mut Queues,
    call: &[u8],
) -> Result<(), Refused> {
    let parts: Vec<&[u8]> = call.split(|byte| *byte == b':').collect(alloc)?;
    match parts.as_slice() {
        [b"put", host, no] => put_host(alloc, queues, host, number(no)?),
        [b"done", lane] => {
            queues.done(small(lane)?);
            Ok(())
        }
        [b"next", lane] => {
            put_next(page, queues.next(small(lane)?));
            Ok(())
        }
        _ => Err(Refused::NoCall),
    }
}

fn put_host(alloc: Global, queues: &mut Queues, host: &[u8], no: u64) -> Result<(), Refused> {
    let host = Text::from_bytes(alloc, host)?;
    queues.put(alloc, &host, no)?;
    Ok(())
}

fn put_next(page: &mut Page, next: Option<u64>) {
    match next {
        Some(no) => page.show(format_args!("{no} ")),
        None => page.put("none "),
    }
}
