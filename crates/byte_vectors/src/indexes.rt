//! Patch Indexes and the chains of patches that they give.

use acq_base::{Sum, read_sum};
use case_words::{Page, Refused, called, readable, small, yes_or_no};
use pdiff_index::{Index, NoChain, Step, chain, read_index};
use std::alloc::Global;

/// Appends what an Index says.
pub fn put_read(alloc: Global, page: &mut Page, text: &[u8]) {
    match read_index(alloc, text) {
        Ok(index) => put_index(page, &index),
        Err(refusal) => page.put_refusal(&refusal),
    }
}

fn put_index(page: &mut Page, index: &Index) {
    page.put("current ");
    page.put_sum(&index.current);
    page.put(", merged ");
    page.put(yes_or_no(index.merged));
    put_steps(page, "\n history ", index.history.as_slice());
    put_steps(page, "\n patch ", index.patches.as_slice());
}

fn put_steps(page: &mut Page, before: &str, steps: &[Step]) {
    for step in steps {
        page.put(before);
        page.put_name(step.name.as_bytes());
        page.put(" ");
        page.put_sum(&step.sum);
    }
}

/// A way between files: the sums of both, the most patches, and the most percent that they may have of the file's size.
#[derive(Clone, Copy)]
struct Way {
    have: Sum,
    want: Sum,
    files: u32,
    size: u32,
}

/// Appends the patches that lead from a file to another: the Index, the digest and size of both, the most patches, and the most
/// percent that they may have of the file's size.
pub fn put_chain(alloc: Global, page: &mut Page, words: &[&[u8]]) -> Result<(), Refused> {
    let [text, way @ ..] = words else {
        return Err(Refused::NoCall);
    };
    let way = way_of(way)?;
    let index = readable(read_index(alloc, text))?;
    match chain(alloc, &index, &way.have, &way.want, way.files, way.size) {
        Ok(steps) => put_patches(page, steps.as_slice()),
        Err(cause) => put_cause(page, &cause),
    }
    Ok(())
}

fn way_of(words: &[&[u8]]) -> Result<Way, Refused> {
    let [have, have_size, want, want_size, files, size] = words else {
        return Err(Refused::NoCall);
    };
    Ok(Way {
        have: called(read_sum(have, have_size))?,
        want: called(read_sum(want, want_size))?,
        files: small(files)?,
        size: small(size)?,
    })
}

fn put_patches(page: &mut Page, steps: &[Step]) {
    for step in steps {
        page.put_name(step.name.as_bytes());
        page.show(format_args!(" {};", step.sum.size));
    }
}

fn put_cause(page: &mut Page, cause: &NoChain) {
    page.show(cause);
    if let NoChain::NoPatch(name) = cause {
        page.put(" ");
        page.put_name(name.as_bytes());
    }
}
