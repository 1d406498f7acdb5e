//! What is put, taken away and looked at without the objects, by the system's own calls.

use crate::page::Page;
use crate::words::{Refused, number, path};
use acq_base::Text;
use std::os::unix::fs::symlink;
use std::{fs, str};

/// Puts what a call answers. Paths are below the folder `own`; what a link leads to is taken as it stands.
pub fn answer(
    rt: HostRuntime,
    page: &mut Page,
    own: &str,
    call: &str,
    words: &[Text],
) -> Result<(), Refused> {
    let [first, rest @ ..] = words else {
        return Err(Refused::NoCall);
    };
    let first = path(rt.alloc(), own, first)?;
    match rest {
        [] => one(rt, page, call, first.as_str()),
        [second] if call == "move" => {
            let second = path(rt.alloc(), own, second)?;
            fs::rename(&rt, first.as_str(), second.as_str())?;
            page.put("done");
            Ok(())
        }
        [second] => make(rt, page, call, first.as_str(), second),
        _ => Err(Refused::NoCall),
    }
}

/// Puts what a call of one path answers.
fn one(rt: HostRuntime, page: &mut Page, call: &str, path: &str) -> Result<(), Refused> {
    match call {
        "folder" => fs::create_dir(&rt, path)?,
        "remove" => fs::remove_file(&rt, path)?,
        "remove-folder" => fs::remove_dir(&rt, path)?,
        "remove-all" => fs::remove_dir_all(&rt, path)?,
        "content" => return content(rt, page, path),
        "count" => return count(rt, page, path),
        _ => return Err(Refused::NoCall),
    }
    page.put("done");
    Ok(())
}

fn content(rt: HostRuntime, page: &mut Page, path: &str) -> Result<(), Refused> {
    let content = fs::read(&rt, path)?;
    page.put_bytes(content.as_slice());
    Ok(())
}

/// Puts how many entries a folder has.
fn count(rt: HostRuntime, page: &mut Page, path: &str) -> Result<(), Refused> {
    let entries = fs::read_dir(&rt, path)?;
    page.put_number(entries.count() as u64);
    Ok(())
}

/// Makes a file of a content or of so many number signs, or a link.
fn make(
    rt: HostRuntime,
    page: &mut Page,
    call: &str,
    path: &str,
    word: &Text,
) -> Result<(), Refused> {
    match call {
        "file" => fs::write(&rt, path, word.as_bytes())?,
        "long" => make_long(rt, path, number(word)?)?,
        "link" => link(rt, path, word)?,
        _ => return Err(Refused::NoCall),
    }
    page.put("done");
    Ok(())
}

fn make_long(rt: HostRuntime, path: &str, len: u64) -> Result<(), Refused> {
    let content = vec![in rt.alloc(); b'#'; len as usize]?;
    fs::write(&rt, path, content.as_slice())?;
    Ok(())
}

fn link(rt: HostRuntime, path: &str, target: &Text) -> Result<(), Refused> {
    match str::from_utf8(target.as_bytes()) {
        Ok(target) => Ok(symlink(&rt, target, path)?),
        Err(_) => Err(Refused::NoCall),
    }
}
