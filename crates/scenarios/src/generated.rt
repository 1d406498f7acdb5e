//! How many bytes the mirrors of a number have.

use crate::refused::Refused;
use acq_base::{Answer, Mirror};
use case_words::Page;
use mirror_maker::make;
use std::alloc::Global;

/// How many bytes the files of a mirror have that are no patches.
fn bytes_of(mirror: &Mirror) -> u64 {
    let mut bytes: u64 = 0;
    for row in mirror.rows.as_slice() {
        if let Answer::Served(text) = &row.1 {
            if !is_patch(row.0.path.as_bytes()) {
                bytes = bytes.saturating_add(text.as_slice().len() as u64);
            }
        }
    }
    bytes
}

fn is_patch(path: &[u8]) -> bool {
    path.windows(6).any(|within| within == b".diff/".as_slice())
}

/// Puts how many bytes the mirror of a number has on its first day and on its second.
pub fn put_made(alloc: Global, page: &mut Page, number: u64) -> Result<(), Refused> {
    let mirrors = make(alloc, number)?;
    page.put("made ");
    page.show(number);
    page.put(" ");
    page.show(bytes_of(&mirrors.first));
    page.put(" ");
    page.show(bytes_of(&mirrors.second));
    page.put("\n");
    Ok(())
}
