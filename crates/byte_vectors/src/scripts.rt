//! Edit scripts: read, and applied to files.

use acq_base::Refusal;
use case_words::{Page, Refused, readable};
use ed_apply::{Edit, Script, apply, read_script};
use std::alloc::Global;

/// Appends the hunks of a script: the lines that give way, the text that stands there instead, and the line of the command.
pub fn put_read(alloc: Global, page: &mut Page, text: &[u8]) {
    match read_script(alloc, text) {
        Ok(script) => put_script(page, &script),
        Err(refusal) => page.put_refusal(&refusal),
    }
}

fn put_script(page: &mut Page, script: &Script) {
    if script.hunks.is_empty() {
        page.put("no hunk");
    }
    for hunk in script.hunks.as_slice() {
        page.show(format_args!("{} to {} at {} ", hunk.from, hunk.to, hunk.at));
        page.put_text(hunk.text.as_slice());
        page.put(";");
    }
}

/// Appends the file that a script makes of an old one.
pub fn put_applied(
    alloc: Global,
    page: &mut Page,
    old: &[u8],
    script: &[u8],
) -> Result<(), Refused> {
    let script = readable(read_script(alloc, script))?;
    match apply(alloc, old, &script) {
        Ok(new) => page.put_text(new.as_slice()),
        Err(refusal) => page.put_refusal(&refusal),
    }
    Ok(())
}

/// Appends the file that scripts make of an old one, one after another, its size, and why the last of them is refused.
pub fn put_edited(
    alloc: Global,
    page: &mut Page,
    old: &[u8],
    scripts: &[&[u8]],
) -> Result<(), Refused> {
    let mut edit = Edit::whole(alloc, old)?;
    let mut line = 0;
    for text in scripts {
        line = match edit.then(alloc, readable(read_script(alloc, text))?) {
            Ok(()) => 0,
            Err(refusal) => refusal.line(),
        };
    }
    page.put_text(edit.copy_out(alloc, old)?.as_slice());
    page.show(format_args!(" {} bytes", edit.size()));
    if line != 0 {
        page.show(format_args!(", the last refused at {line}"));
    }
    Ok(())
}
