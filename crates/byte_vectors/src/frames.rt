//! The frame of a text that is signed in clear.

use case_words::Page;
use clear_text::unframe;
use std::alloc::Global;

/// Appends the text within a frame.
pub fn put_within(alloc: Global, page: &mut Page, text: &[u8]) {
    match unframe(alloc, text) {
        Ok(Some(within)) => page.put_text(within.as_slice()),
        Ok(None) => page.put("no frame"),
        Err(refusal) => page.put_refusal(&refusal),
    }
}
