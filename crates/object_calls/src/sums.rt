//! Sums of the lists that a sources list plans, as the lists folder has them.

ghost use Rattle.std.specs.Prelude.{IfOk};
ghost use Rattle.acq_base.specs.Plan.{IsSound};

use crate::page::Page;
use crate::words::{Refused, short};
use acq_base::{Plan, Row, Sum, Text, TryCopy, sources_are_planned};
use acq_memory::MemEtc;
use acq_outside::{Disk, Place};
use configuration::configure;
use lists_dir::{Installed, installed};
use std::alloc::Global;
use std::thread::Threads;

/// Puts name, size and digest of each list that the folder has, of those that a sources list plans. They are summed side by
/// side, in at most so many threads.
pub fn answer<T: Threads + Sync, D: Disk>(
    threads: &T,
    alloc: Global,
    page: &mut Page,
    disk: &mut D,
    words: &[Text],
) -> Result<(), Refused> {
    let [most, listed] = words else {
        return Err(Refused::NoCall);
    };
    let most = usize::from(short(most)?);
    let plan = planned(alloc, listed)?;
    sources_are_planned();
    match installed(threads, alloc, disk, plan.sources.as_slice(), most) {
        Ok(olds) => put_all(page, olds.as_slice()),
        Err(error) => page.put_error(error),
    }
    Ok(())
}

/// What a sources list plans, without translations.
fn planned(alloc: Global, listed: &Text) -> Result<Plan, Refused>
    ensures { IfOk result IsSound }
{
    let mut etc = etc(alloc, listed)?;
    let mut options = Row::new(alloc);
    options.push(Text::from_bytes(alloc, b"Acquire::Languages=none")?)?;
    match configure(alloc, &mut etc, &options) {
        Ok(configured) => Ok(configured.plan),
        Err(_) => Err(Refused::NoCall),
    }
}

/// A configuration folder that has this sources list alone.
fn etc(alloc: Global, listed: &Text) -> Result<MemEtc, Refused> {
    let content = listed.copy(alloc)?.into_bytes();
    let mut files = Row::new(alloc);
    files.push((Place::SourcesList, Text::new(alloc), content))?;
    if !MemEtc::takes(&files) {
        return Err(Refused::NoCall);
    }
    Ok(MemEtc::new(files, Row::new(alloc)))
}

/// Puts the lists of all sources, or `no lists`.
fn put_all(page: &mut Page, olds: &[Installed]) {
    let mut is_first = true;
    for old in olds {
        for (name, summed) in old.lists.as_slice() {
            if !is_first {
                page.put(", ");
            }
            is_first = false;
            page.put_bytes(name.0.as_bytes());
            put_sum(page, &summed.sum());
        }
    }
    if is_first {
        page.put("no lists");
    }
}

/// Puts a size and a digest.
fn put_sum(page: &mut Page, sum: &Sum) {
    page.put(" ");
    page.put_number(sum.size);
    page.put(" ");
    page.put_hex(&sum.sha.0);
}
