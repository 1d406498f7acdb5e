//! Reports, and the lines that stand in their place.
ghost use Rattle.std.specs.Prelude.{◌≡◌, length};

use crate::plans::plan_of;
use crate::releases::head_of;
use acq_base::{Bytes, ListName, Plan, Row, Sha, Sum, Text, read_sum, sum_of};
use case_words::{Page, Refused, called, number, signed, small};
use configuration::ConfigurationError;
use hash_gate::Verdict;
use release_file::{Change, refused_field};
use report_text::{FaultLine, fail_line, got_line, report};
use std::alloc::Global;
use update_model::{Cause, Held, RunLog, Verdict2};

/// Appends the report on the sources of a list. Behind it stand parts that each begin with `+`: a verdict of each source in order,
/// and `removed` with the names of lists.
pub fn put_told(
    alloc: Global,
    page: &mut Page,
    sources: &[u8],
    parts: &[&[u8]],
) -> Result<(), Refused> {
    let log = log_of(alloc, parts)?;
    let plan = plan_of(alloc, sources)?;
    put_report(alloc, page, &plan, &log)
}

fn log_of(alloc: Global, parts: &[&[u8]]) -> Result<RunLog, Refused> {
    let mut log = RunLog {
        verdicts: Row::new(alloc),
        settled: Row::new(alloc),
        asks: Row::new(alloc),
        removed: Row::new(alloc),
    };
    take_parts(alloc, &mut log, parts)?;
    Ok(log)
}

fn take_parts(alloc: Global, log: &mut RunLog, parts: &[&[u8]]) -> Result<(), Refused> {
    for part in parts.split(|word| *word == b"+".as_slice()) {
        match part {
            [] => {}
            [b"removed", names @ ..] => take_removed(alloc, &mut log.removed, names)?,
            verdict => log.verdicts.push(verdict_of(alloc, verdict)?)?,
        }
    }
    Ok(())
}

fn take_removed(
    alloc: Global,
    removed: &mut Row<ListName>,
    names: &[&[u8]],
) -> Result<(), Refused> {
    for name in names {
        removed.push(ListName(Text::from_bytes(alloc, name)?))?;
    }
    Ok(())
}

fn put_report(alloc: Global, page: &mut Page, plan: &Plan, log: &RunLog) -> Result<(), Refused> {
    if log.verdicts.len() != plan.sources.len() {
        return Err(Refused::NoCall);
    }
    page.put_text(report(alloc, plan, log)?.as_slice());
    Ok(())
}

/// The verdict that words name.
fn verdict_of(alloc: Global, words: &[&[u8]]) -> Result<Verdict2, Refused> {
    match words {
        [b"installed", set @ ..] => Ok(Verdict2::Installed(held_of(alloc, set)?)),
        [b"hit", set @ ..] => Ok(Verdict2::Hit(held_of(alloc, set)?)),
        [b"older", date] => Ok(Verdict2::Older(signed(date)?)),
        [b"kept", cause @ ..] => Ok(Verdict2::Kept(cause_of(alloc, cause)?)),
        _ => Err(Refused::NoCall),
    }
}

/// A set: the size and the date of its Release, and of each list its name, digest and size.
fn held_of(alloc: Global, words: &[&[u8]]) -> Result<Held, Refused> {
    let [size, date, lists @ ..] = words else {
        return Err(Refused::NoCall);
    };
    let release = Sum {
        size: number(size)?,
        sha: Sha([0; 32]),
    };
    let date = signed(date)?;
    let lists = lists_of(alloc, lists)?;
    Ok(Held {
        release,
        date,
        lists,
    })
}

fn lists_of(alloc: Global, words: &[&[u8]]) -> Result<Row<(ListName, Sum)>, Refused> {
    let mut lists = Row::new(alloc);
    for list in words.chunks(3) {
        lists.push(list_of(alloc, list)?)?;
    }
    Ok(lists)
}

fn list_of(alloc: Global, words: &[&[u8]]) -> Result<(ListName, Sum), Refused> {
    let [name, digest, size] = words else {
        return Err(Refused::NoCall);
    };
    let sum = called(read_sum(digest, size))?;
    Ok((ListName(Text::from_bytes(alloc, name)?), sum))
}

/// The cause that words name.
fn cause_of(alloc: Global, words: &[&[u8]]) -> Result<Cause, Refused> {
    match words {
        [b"no-release", status] => Ok(Cause::NoRelease(status_of(status)?)),
        [b"redirects", path] => Ok(Cause::Redirects(Text::from_bytes(alloc, path)?)),
        [b"bad-release", number, line] => bad_release(number, line),
        [b"expired", end] => Ok(Cause::Expired(i128::from(signed(end)?))),
        [b"future", date] => Ok(Cause::Future(signed(date)?)),
        [b"too-big", limit] => Ok(Cause::TooBig(number(limit)?)),
        [b"changed", old, new] => changed(alloc, old, new),
        [word, path, rest @ ..] => cause_at(alloc, word, path, rest),
        _ => Err(Refused::NoCall),
    }
}

fn status_of(word: &[u8]) -> Result<u16, Refused> {
    called(u16::try_from(number(word)?))
}

fn bad_release(refusal: &[u8], line: &[u8]) -> Result<Cause, Refused> {
    Ok(Cause::BadRelease {
        number: small(refusal)?,
        line: number(line)?,
    })
}

/// The cause that is a Release which may not follow another, where no field may change.
fn changed(alloc: Global, old: &[u8], new: &[u8]) -> Result<Cause, Refused> {
    let none = Change {
        origin: false,
        label: false,
        suite: false,
        codename: false,
    };
    let old = head_of(alloc, old)?;
    let new = head_of(alloc, new)?;
    match refused_field(&none, &old, &new) {
        Some(field) => Ok(Cause::Changed { old, new, field }),
        None => Err(Refused::Unread),
    }
}

/// The cause of a list of this path. The path is made last, so that no number is refused beside it.
fn cause_at(alloc: Global, word: &[u8], path: &[u8], rest: &[&[u8]]) -> Result<Cause, Refused> {
    match (word, rest) {
        (b"missing", [status]) => Ok(Cause::Missing {
            status: status_of(status)?,
            path: Text::from_bytes(alloc, path)?,
        }),
        (b"garbled", [at]) => Ok(Cause::Garbled {
            at: number(at)?,
            path: Text::from_bytes(alloc, path)?,
        }),
        (b"method", [lane, before, after]) => Ok(Cause::Method {
            lane: small(lane)?,
            before: number(before)?,
            after: number(after)?,
            path: Text::from_bytes(alloc, path)?,
        }),
        (b"differs", got) => Ok(Cause::Differs {
            wanted: sum_of(b"abc"),
            got: difference(got)?,
            path: Text::from_bytes(alloc, path)?,
        }),
        _ => Err(Refused::NoCall),
    }
}

fn difference(words: &[&[u8]]) -> Result<Verdict, Refused> {
    match words {
        [b"short", length] => Ok(Verdict::Short(number(length)?)),
        [b"long"] => Ok(Verdict::Long),
        [b"other", digest] => Ok(Verdict::Differs(called(read_sum(digest, b"0"))?.sha)),
        _ => Err(Refused::NoCall),
    }
}

/// Appends the line of a fault that no configuration gives.
pub fn put_fault(alloc: Global, page: &mut Page, words: &[&[u8]]) -> Result<(), Refused> {
    let fault = match words {
        [b"words"] => FaultLine::Words,
        [b"disk"] => FaultLine::Disk,
        [b"held"] => FaultLine::Held,
        [b"memory"] => FaultLine::from(ConfigurationError::NoMemory),
        [b"journal", at] => FaultLine::Journal(number(at)?),
        [b"port"] => FaultLine::Port,
        [b"download", refusal, name, version] => download(alloc, small(refusal)?, name, version)?,
        _ => return Err(Refused::NoCall),
    };
    put_line(alloc, page, &fault)
}

fn download(alloc: Global, number: u32, name: &[u8], version: &[u8]) -> Result<FaultLine, Refused> {
    let name = Text::from_bytes(alloc, name)?;
    let version = Text::from_bytes(alloc, version)?;
    Ok(FaultLine::Download {
        number,
        name,
        version,
    })
}

/// Appends the line of a fault, and whether it is one without anything to name.
pub fn put_line(alloc: Global, page: &mut Page, fault: &FaultLine) -> Result<(), Refused> {
    let text = fault.text(alloc)?;
    page.put_text(text.as_slice());
    match fault.fixed() {
        Some(line) if line == text.as_slice() => page.put(" always"),
        Some(_) => page.put(" or another line"),
        None => {}
    }
    Ok(())
}

/// Appends what is told of one package's file: that it stands, or why there is none.
pub fn put_package(alloc: Global, page: &mut Page, words: &[&[u8]]) -> Result<(), Refused> {
    let line = match words {
        [b"got", file @ ..] => got(alloc, file)?,
        [b"fail", name, version, cause @ ..] => failed(alloc, name, version, cause)?,
        _ => return Err(Refused::NoCall),
    };
    page.put_text(line.as_slice());
    Ok(())
}

fn got(alloc: Global, words: &[&[u8]]) -> Result<Bytes, Refused> {
    let (file, sum) = list_of(alloc, words)?;
    Ok(got_line(alloc, &file, &sum)?)
}

fn failed(alloc: Global, name: &[u8], version: &[u8], cause: &[&[u8]]) -> Result<Bytes, Refused> {
    let cause = cause_of(alloc, cause)?;
    let name = Text::from_bytes(alloc, name)?;
    let version = Text::from_bytes(alloc, version)?;
    Ok(fail_line(alloc, &name, &version, &cause)?)
}
