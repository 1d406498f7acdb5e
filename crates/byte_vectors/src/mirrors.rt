//! Mirrors that are made of a number.

use acq_base::{Answer, Mirror, NoMemory, Text, Uri, sum_of};
use case_words::{Page, Refused, number};
use mirror_maker::make;
use std::alloc::Global;

/// Appends the sum of the answers of a number's mirror on each of its two days, and the length of its sources list.
pub fn put_made(alloc: Global, page: &mut Page, n: &[u8]) -> Result<(), Refused> {
    let made = make(alloc, number(n)?)?;
    put_answers(alloc, page, &made.first);
    page.put("; ");
    put_answers(alloc, page, &made.second);
    page.show(format_args!("; list {}", made.list.len()));
    Ok(())
}

/// Appends the sum of all answers, each behind a line with its URI, and before a line's end.
fn put_answers(alloc: Global, page: &mut Page, mirror: &Mirror) {
    let mut text = Text::new(alloc);
    match append_answers(&mut text, mirror) {
        Ok(()) => page.put_sum(&sum_of(text.as_bytes())),
        Err(_) => page.cut(),
    }
}

fn append_answers(text: &mut Text, mirror: &Mirror) -> Result<(), NoMemory> {
    for (uri, answer) in mirror.rows.as_slice() {
        append_uri(text, uri)?;
        text.push(b'\n')?;
        append_answer(text, answer)?;
        text.push(b'\n')?;
    }
    Ok(())
}

fn append_uri(text: &mut Text, uri: &Uri) -> Result<(), NoMemory> {
    text.append(b"http://")?;
    text.append(uri.host.as_bytes())?;
    text.append(uri.path.as_bytes())
}

fn append_answer(text: &mut Text, answer: &Answer) -> Result<(), NoMemory> {
    match answer {
        Answer::Served(bytes) => text.append(bytes.as_slice()),
        Answer::Moved(Some(to)) => {
            text.append(b"->")?;
            append_uri(text, to)
        }
        Answer::Moved(None) | Answer::Absent(_) => text.append(b"?"),
    }
}
