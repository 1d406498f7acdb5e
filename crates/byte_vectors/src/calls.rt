//! Which call a line is.

use crate::{command, control, frames, indexes, mirrors, queues, scripts, started, sums, texts};
use acq_base::sum_of;
use case_words::{Page, Refused, text, views_of, words_of};
use std::alloc::Global;

/// What the call of a line answers.
pub fn answer(alloc: Global, line: &str) -> Result<Option<String>, Refused> {
    let mut page = Page::new(alloc);
    put_answer(alloc, &mut page, line)?;
    Ok(Some(page.finish()?))
}

fn put_answer(alloc: Global, page: &mut Page, line: &str) -> Result<(), Refused> {
    let words = words_of(alloc, line.as_bytes())?;
    let views = views_of(alloc, words.as_slice())?;
    match views.as_slice() {
        [name, rest @ ..] => put_called(alloc, page, text(name)?, rest),
        [] => Err(Refused::NoCall),
    }
}

fn put_called(alloc: Global, page: &mut Page, name: &str, rest: &[&[u8]]) -> Result<(), Refused> {
    match (name, rest) {
        ("control", [text]) => control::put_counted(alloc, page, text),
        ("control-field", [text, name]) => control::put_found(alloc, page, text, name)?,
        ("control-again", [text]) => control::put_again(alloc, page, text)?,
        ("control-writable", fields) => control::put_writable(alloc, page, fields)?,
        ("frame", [text]) => frames::put_within(alloc, page, text),
        ("command", words) => command::put_asked(alloc, page, words)?,
        ("start", words) => started::put_started(alloc, page, words)?,
        ("told-start", words) => started::put_told(alloc, page, words)?,
        ("place", words) => started::put_place(alloc, page, words)?,
        ("without-memory", []) => started::put_without_memory(page),
        ("index", [text]) => indexes::put_read(alloc, page, text),
        ("chain", words) => indexes::put_chain(alloc, page, words)?,
        _ => return put_called_below(alloc, page, name, rest),
    }
    Ok(())
}

fn put_called_below(
    alloc: Global,
    page: &mut Page,
    name: &str,
    rest: &[&[u8]],
) -> Result<(), Refused> {
    match (name, rest) {
        ("sum", [hash, size]) => texts::put_size(page, hash, size),
        ("digits", [text]) => texts::put_digits(page, text),
        ("trim", [text]) => texts::put_trimmed(page, text),
        ("split", [text]) => texts::put_split(alloc, page, text)?,
        ("joined", parts) => texts::put_joined(alloc, page, parts)?,
        ("sum-of", [text]) => page.put_sum(&sum_of(text)),
        ("verdict", [digest, size, file]) => sums::put_verdicts(page, digest, size, file)?,
        ("total", [file]) => sums::put_total(page, file),
        ("queues", [lanes, calls @ ..]) => queues::put_answers(alloc, page, lanes, calls)?,
        ("script", [text]) => scripts::put_read(alloc, page, text),
        ("apply", [old, script]) => scripts::put_applied(alloc, page, old, script)?,
        ("edit", [old, texts @ ..]) => scripts::put_edited(alloc, page, old, texts)?,
        ("mirror", [n]) => mirrors::put_made(alloc, page, n)?,
        _ => return Err(Refused::NoCall),
    }
    Ok(())
}
