//! Sums of files, and the gates that files pass.
ghost use Rattle.std.specs.Prelude.{◌<◌, ◌^◌, ◌+◌, length};

use acq_base::{Sum, read_sum, sum_of};
use case_words::{Page, Refused, called};
use hash_gate::{Gate, Total, Verdict};

fn judged(wanted: Sum, front: &[u8], rest: &[u8]) -> Verdict {
    let mut gate = Gate::new(wanted);
    gate.feed(front);
    for byte in rest {
        gate.feed(&[*byte]);
    }
    gate.end()
}

/// Appends the verdict on a file, which comes in two parts at each cut, the second byte by byte.
pub fn put_verdicts(
    page: &mut Page,
    digest: &[u8],
    size: &[u8],
    file: &[u8],
) -> Result<(), Refused> {
    let wanted = called(read_sum(digest, size))?;
    let whole = judged(wanted, file, b"");
    put_verdict(page, whole);
    for at in 0..file.len() {
        let (front, rest) = file.split_at(at);
        if judged(wanted, front, rest) != whole {
            page.show(format_args!(", another at {at}"));
        }
    }
    Ok(())
}

fn put_verdict(page: &mut Page, verdict: Verdict) {
    match verdict {
        Verdict::Fits => page.put("fits"),
        Verdict::Short(length) => page.show(format_args!("short {length}")),
        Verdict::Long => page.put("long"),
        Verdict::Differs(sha) => {
            page.put("other ");
            page.put_digest(&sha);
        }
    }
}

fn summed(front: &[u8], rest: &[u8]) -> Sum {
    let mut total = Total::new();
    total.feed(front);
    total.feed(rest);
    total.sum()
}

/// Appends the total of a file, which comes in two parts at each cut.
pub fn put_total(page: &mut Page, file: &[u8]) {
    let whole = sum_of(file);
    page.put_sum(&whole);
    for at in 0..=file.len() {
        let (front, rest) = file.split_at(at);
        if summed(front, rest) != whole {
            page.show(format_args!(", another at {at}"));
        }
    }
}
