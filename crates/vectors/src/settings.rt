//! Files of apt.conf(5) and option words, and the settings that take effect.

use acq_base::{Dates, Pick, Settings};
use apt_conf::{Conf, ConfError, get, new, read_conf, set, settings};
use case_words::{Page, Refused, yes_or_no};
use std::alloc::Global;
use uri_names::UriError;

/// Appends what steps on one configuration answer. A step is a verb and a text: `read` a file, `set` by an option word, `get` a
/// key's value, `show` the settings.
pub fn put_steps(alloc: Global, page: &mut Page, words: &[&[u8]]) -> Result<(), Refused> {
    let mut conf = new(alloc);
    for step in words.chunks(2) {
        if !page.is_empty() {
            page.put(", ");
        }
        put_step(alloc, page, &mut conf, step)?;
    }
    Ok(())
}

fn put_step(
    alloc: Global,
    page: &mut Page,
    conf: &mut Conf,
    step: &[&[u8]],
) -> Result<(), Refused> {
    match step {
        [b"read", text] => put_done(page, read_conf(alloc, conf, text)),
        [b"set", text] => put_done(page, set(alloc, conf, text)),
        [b"get", key] => put_value(page, conf, key),
        [b"show", b"settings"] => put_result(page, settings(alloc, conf)),
        _ => return Err(Refused::NoCall),
    }
    Ok(())
}

fn put_done(page: &mut Page, done: Result<(), ConfError>) {
    match done {
        Ok(()) => page.put("done"),
        Err(refusal) => put_refused(page, &refusal),
    }
}

fn put_value(page: &mut Page, conf: &Conf, key: &[u8]) {
    match get(conf, key) {
        Some(value) => page.put_text(value.as_bytes()),
        None => page.put("none"),
    }
}

fn put_result(page: &mut Page, found: Result<Settings, ConfError>) {
    match found {
        Ok(settings) => put_settings(page, &settings),
        Err(refusal) => put_refused(page, &refusal),
    }
}

fn put_refused(page: &mut Page, refusal: &ConfError) {
    page.put_refusal(refusal);
    if let ConfError::BadValue(key) = refusal {
        page.put(" ");
        page.put_name(key.as_bytes());
    }
}

/// Appends how the refusals for want of memory are told.
pub fn put_without_memory(page: &mut Page) {
    page.put_refusal(&ConfError::NoMemory);
    page.put("; ");
    page.put_refusal(&UriError::NoMemory);
}

/// Appends all settings.
pub fn put_settings(page: &mut Page, found: &Settings) {
    page.put("arch ");
    page.put_name(found.arch.as_bytes());
    page.put("; archs ");
    page.put_list(&found.archs);
    page.put("; langs ");
    page.put_list(&found.langs);
    put_pick(page, found.pick);
    put_dates(page, found.dates);
    put_numbers(page, found);
}

fn put_pick(page: &mut Page, pick: Pick) {
    page.put("; pick ");
    page.put(if pick.packages { "P" } else { "-" });
    page.put(if pick.sources { "S" } else { "-" });
    page.put(if pick.translations { "T" } else { "-" });
}

fn put_dates(page: &mut Page, dates: Dates) {
    page.show(format_args!(
        "; valid {} to {}; future {}",
        dates.min, dates.max, dates.future
    ));
}

fn put_numbers(page: &mut Page, found: &Settings) {
    page.show(format_args!("; retries {}; by-hash {:?}", found.retries, found.by_hash));
    page.put("; pdiffs ");
    page.put(yes_or_no(found.pdiffs));
    page.show(format_args!(" of {} and {}", found.file_limit, found.size_limit));
    page.put("; cleanup ");
    page.put(yes_or_no(found.cleanup));
}
