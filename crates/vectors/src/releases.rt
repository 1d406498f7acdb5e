//! Releases: read, and judged beside a moment and beside another Release.

use acq_base::{Dates, Text};
use case_words::{Page, Refused, has, moment, number, readable, signed, yes_or_no};
use kept_hooks::Judge;
use release_file::{
    Change, DateError, Head, HeadField, Release, find_file, is_allowed, judge_dates, read_release,
    refused_field,
};
use std::alloc::Global;

/// The fields that each Release has, with no list.
const LEAST: &[u8] = b"Date: 1 Jan 2020 00:00:00 Z\nSHA256:\n";

/// Appends what a Release says.
pub fn put_read(alloc: Global, page: &mut Page, text: &[u8]) {
    match read_release(alloc, text) {
        Ok(release) => put_release(page, &release),
        Err(refusal) => page.put_refusal(&refusal),
    }
}

fn put_release(page: &mut Page, release: &Release) {
    page.show(format_args!("date {}", release.date));
    if let Some(until) = release.until {
        page.show(format_args!(", until {until}"));
    }
    if release.by_hash {
        page.put(", by-hash");
    }
    put_head(page, &release.head);
    for file in release.files.as_slice() {
        page.put("\n ");
        page.put_name(file.path.as_bytes());
        page.put(" ");
        page.put_sum(&file.sum);
    }
}

fn put_head(page: &mut Page, head: &Head) {
    put_part(page, ", Origin ", &head.origin);
    put_part(page, ", Label ", &head.label);
    put_part(page, ", Suite ", &head.suite);
    put_part(page, ", Codename ", &head.codename);
}

fn put_part(page: &mut Page, name: &str, part: &Option<Text>) {
    if let Some(text) = part {
        page.put(name);
        page.put_text(text.as_bytes());
    }
}

/// Appends the sum that a Release lists for a path.
pub fn put_listed(alloc: Global, page: &mut Page, text: &[u8], path: &[u8]) -> Result<(), Refused> {
    let release = readable(read_release(alloc, text))?;
    match find_file(&release, path) {
        Some(sum) => page.put_sum(sum),
        None => page.put("none"),
    }
    Ok(())
}

/// Appends the moment that a text of a Release's Date is.
pub fn put_date(alloc: Global, page: &mut Page, date: &[u8]) -> Result<(), Refused> {
    let text = joined(alloc, [b"Date: ", date, b"\nSHA256:\n"])?;
    match read_release(alloc, text.as_bytes()) {
        Ok(release) => page.show(release.date),
        Err(refusal) => page.put_refusal(&refusal),
    }
    Ok(())
}

fn joined(alloc: Global, parts: [&[u8]; 3]) -> Result<Text, Refused> {
    let mut text = Text::new(alloc);
    for part in parts {
        text.append(part)?;
    }
    Ok(text)
}

/// Appends what the dates of a Release come to: its Date and Valid-Until, the installed date, the least, greatest and future
/// times, and the moment.
pub fn put_judged(alloc: Global, page: &mut Page, words: &[&[u8]]) -> Result<(), Refused> {
    let [date, until, installed, min, max, future, now] = words else {
        return Err(Refused::NoCall);
    };
    let (date, until) = (signed(date)?, moment(until)?);
    let dates = Dates {
        min: number(min)?,
        max: number(max)?,
        future: number(future)?,
    };
    let (installed, now) = (moment(installed)?, signed(now)?);
    let mut release = readable(read_release(alloc, LEAST))?;
    release.date = date;
    release.until = until;
    put_judgement(page, judge_dates(&release, installed, &dates, now));
    Ok(())
}

fn put_judgement(page: &mut Page, judged: Result<(), DateError>) {
    match judged {
        Ok(()) => page.put("admissible"),
        Err(error) => {
            page.put_refusal(&error);
            page.show(format_args!(": {error}"));
        }
    }
}

/// Appends whether a Release with these fields may follow one with those, where the fields of the flags may change.
pub fn put_follows(
    alloc: Global,
    page: &mut Page,
    flags: &[u8],
    old: &[u8],
    new: &[u8],
) -> Result<(), Refused> {
    let change = Change {
        origin: has(flags, b"origin"),
        label: has(flags, b"label"),
        suite: has(flags, b"suite"),
        codename: has(flags, b"codename"),
    };
    let old = least_head(alloc, old)?;
    let new = least_head(alloc, new)?;
    put_field(page, refused_field(&change, &old, &new));
    let alone = yes_or_no(is_allowed(&change, &old, &new));
    let kept = yes_or_no(allows(alloc, change, &old, &new)?);
    page.show(format_args!(", {alone}, by the kept closure {kept}"));
    Ok(())
}

fn put_field(page: &mut Page, field: Option<HeadField>) {
    match field {
        Some(field) => page.show(format_args!("refused {field:?}")),
        None => page.put("allowed"),
    }
}

/// The head of a Release with these fields beside Date and SHA256.
fn least_head(alloc: Global, fields: &[u8]) -> Result<Head, Refused> {
    let mut text = Text::from_bytes(alloc, LEAST)?;
    text.append(fields)?;
    head_of(alloc, text.as_bytes())
}

/// The head of a Release.
pub fn head_of(alloc: Global, text: &[u8]) -> Result<Head, Refused> {
    match read_release(alloc, text) {
        Ok(release) => Ok(release.head),
        Err(_) => Err(Refused::Unread),
    }
}

/// What a judge whose closure looks at the change answers.
fn allows(alloc: Global, change: Change, old: &Head, new: &Head) -> Result<bool, Refused> {
    let test = Box::new(alloc, move |old: &Head, new: &Head| {
        is_allowed(&change, old, new)
    })?;
    let judge = Judge::new(test, change);
    Ok(judge.allows(old, new))
}
