//! Copies of values.

use crate::plans::{plan_of, usual};
use crate::uris::uri_of;
use acq_base::{Answer, Job, Row, Text, TryCopy, sum_of, words};
use case_words::{Page, Refused, yes_or_no};
use std::alloc::Global;

/// Appends whether a value is equal to its copy, through the bounds alone.
fn put_copied<T: TryCopy + PartialEq + Drop>(
    alloc: Global,
    page: &mut Page,
    what: &str,
    value: &T,
) -> Result<(), Refused> {
    let same = value.copy(alloc)? == *value;
    page.show(format_args!("{what} {};", yes_or_no(same)));
    Ok(())
}

/// Appends whether copies are equal: of the plan of a sources list, of the usual settings, of the words of a text, of a job and
/// answers at a URI, and of a sum.
pub fn put_copies(
    alloc: Global,
    page: &mut Page,
    list: &[u8],
    text: &[u8],
    uri: &[u8],
) -> Result<(), Refused> {
    put_copied(alloc, page, "plan", &plan_of(alloc, list)?)?;
    put_copied(alloc, page, "settings", &usual(alloc)?)?;
    put_copied(alloc, page, "rows", &rows_of(alloc, text)?)?;
    put_copied(alloc, page, "job", &job_of(alloc, uri)?)?;
    put_copied(alloc, page, "answers", &answers_of(alloc, uri)?)?;
    put_copied(alloc, page, "sum", &sum_of(text))
}

fn rows_of(alloc: Global, text: &[u8]) -> Result<Row<(u64, Option<Row<Text>>)>, Refused> {
    let mut rows = Row::new(alloc);
    rows.push((1, Some(words(alloc, text)?)))?;
    rows.push((2, None))?;
    Ok(rows)
}

fn job_of(alloc: Global, uri: &[u8]) -> Result<Job, Refused> {
    Ok(Job {
        no: 1,
        uri: uri_of(alloc, uri)?,
        max: 2,
        from: 3,
    })
}

fn answers_of(alloc: Global, uri: &[u8]) -> Result<Row<Answer>, Refused> {
    let mut answers = Row::new(alloc);
    answers.push(Answer::Moved(Some(uri_of(alloc, uri)?)))?;
    answers.push(Answer::Served(Row::from(Vec::from_slice(alloc, uri)?)))?;
    answers.push(Answer::Absent(404))?;
    Ok(answers)
}
