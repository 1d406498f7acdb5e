//! What a source's mirror answers on two days. It takes memory, and touches nothing else.
ghost use Rattle.std.specs.Prelude.{◌≡◌, ◌++◌, ◌<◌, OnOk, IfOk};
ghost use Rattle.mirror_maker.specs.Rows.{first_rows, hash_path, list_rows, patch_rows, release_rows, second_rows, served_script, uri_of};

use crate::lists::{Day, Lists};
use crate::texts::{index, release, release_with_index};
use acq_base::{Answer, NoMemory, Row, Scheme, Text, TryCopy, Uri, sum_of};
use std::alloc::Global;

const RELEASE: &[u8] = b"/g/dists/s/Release";

/// Where the Release of the third source stands.
const ELSEWHERE: &[u8] = b"/r";

const LIST: &[u8] = b"/g/dists/s/main/binary-amd64/Packages";

const INDEX: &[u8] = b"/g/dists/s/main/binary-amd64/Packages.diff/Index";

const PATCH: &[u8] = b"/g/dists/s/main/binary-amd64/Packages.diff/p1";

/// Appends the answers of a source's first day.
#[tactic(auto, unfolding(crate::specs::Rows::first_rows))]
pub fn append_first(
    alloc: Global,
    rows: &mut Row<(Uri, Answer)>,
    source: u8,
    lists: &Lists,
) -> Result<(), NoMemory>
    requires { source < 4 }
    ensures { OnOk result (rows.new ≡ rows.old ++ first_rows source lists.now) }
{
    let text = release(alloc, source, Day::First, lists.first.as_bytes())?;
    append_release(alloc, rows, source, text)?;
    append_list(alloc, rows, source, lists.first.copy(alloc)?)?;
    Ok(())
}

/// Appends the answers of a source's second day.
#[tactic(auto, unfolding(crate::specs::Rows::second_rows))]
pub fn append_second(
    alloc: Global,
    rows: &mut Row<(Uri, Answer)>,
    source: u8,
    lists: &Lists,
) -> Result<(), NoMemory>
    requires { source < 4 }
    ensures { OnOk result (rows.new ≡ rows.old ++ second_rows source lists.now) }
{
    let list = lists.second.as_bytes();
    if source == 1 || source == 3 {
        let index = index(alloc, lists)?;
        let text = release_with_index(alloc, source, list, index.as_bytes())?;
        append_release(alloc, rows, source, text)?;
        append_list(alloc, rows, source, lists.second.copy(alloc)?)?;
        let script = served(alloc, source, lists.script.as_bytes())?;
        append_patch(alloc, rows, source, index, script)?;
        return Ok(());
    }
    let text = release(alloc, source, Day::Second, list)?;
    append_release(alloc, rows, source, text)?;
    append_list(alloc, rows, source, lists.second.copy(alloc)?)?;
    Ok(())
}

/// A URI of a source's host.
#[tactic(auto, unfolding(crate::specs::Rows::uri_of))]
fn uri(alloc: Global, source: u8, path: &[u8]) -> Result<Uri, NoMemory>
    requires { source < 4 }
    ensures { IfOk result (λ uri. uri ≡ uri_of source path.now) }
{
    let mut host = Text::from_bytes(alloc, b"h".as_slice())?;
    host.push(b'0' + source)?;
    host.append(b".example".as_slice())?;
    Ok(Uri {
        scheme: Scheme::Http,
        host,
        port: 80,
        path: Text::from_bytes(alloc, path)?,
    })
}

/// Appends the answer to a source's Release, which the third source has elsewhere.
#[tactic(auto, unfolding(crate::specs::Rows::release_rows))]
fn append_release(
    alloc: Global,
    rows: &mut Row<(Uri, Answer)>,
    source: u8,
    text: Text,
) -> Result<(), NoMemory>
    requires { source < 4 }
    ensures { OnOk result (rows.new ≡ rows.old ++ release_rows source text) }
{
    let place = uri(alloc, source, RELEASE)?;
    if source == 2 {
        let elsewhere = uri(alloc, source, ELSEWHERE)?;
        rows.push((place, Answer::Moved(Some(elsewhere.copy(alloc)?))))?;
        rows.push((elsewhere, Answer::Served(text.into_bytes())))?;
        return Ok(());
    }
    rows.push((place, Answer::Served(text.into_bytes())))?;
    Ok(())
}

/// Appends the answer to a source's list, which the first source has under its digest.
#[tactic(auto, unfolding(crate::specs::Rows::list_rows))]
fn append_list(
    alloc: Global,
    rows: &mut Row<(Uri, Answer)>,
    source: u8,
    list: Text,
) -> Result<(), NoMemory>
    requires { source < 4 }
    ensures { OnOk result (rows.new ≡ rows.old ++ list_rows source list) }
{
    if source == 0 {
        let path = digest_path(alloc, list.as_bytes())?;
        let place = uri(alloc, source, path.as_bytes())?;
        rows.push((place, Answer::Served(list.into_bytes())))?;
        return Ok(());
    }
    rows.push((uri(alloc, source, LIST)?, Answer::Served(list.into_bytes())))?;
    Ok(())
}

/// The path of a list under its digest (Debian repository format, "Acquire-By-Hash").
#[tactic(auto, unfolding(crate::specs::Rows::hash_path))]
fn digest_path(alloc: Global, list: &[u8]) -> Result<Text, NoMemory>
    ensures { IfOk result (λ path. path ≡ hash_path list.now) }
{
    let mut path = Text::from_bytes(
        alloc,
        b"/g/dists/s/main/binary-amd64/by-hash/SHA256/".as_slice(),
    )?;
    let digest = hex::encode(alloc, sum_of(list).sha.0)?;
    path.append(digest.as_bytes())?;
    Ok(path)
}

/// Appends the answers to a source's patch index and to its patch.
#[tactic(auto, unfolding(crate::specs::Rows::patch_rows))]
fn append_patch(
    alloc: Global,
    rows: &mut Row<(Uri, Answer)>,
    source: u8,
    index: Text,
    script: Text,
) -> Result<(), NoMemory>
    requires { source < 4 }
    ensures { OnOk result (rows.new ≡ rows.old ++ patch_rows source index script) }
{
    let index_place = uri(alloc, source, INDEX)?;
    let patch_place = uri(alloc, source, PATCH)?;
    rows.push((index_place, Answer::Served(index.into_bytes())))?;
    rows.push((patch_place, Answer::Served(script.into_bytes())))?;
    Ok(())
}

/// The script as a source serves it: the last one has `x` in place of its first byte.
#[tactic(auto, unfolding(crate::specs::Rows::served_script))]
fn served(alloc: Global, source: u8, script: &[u8]) -> Result<Text, NoMemory>
    ensures { IfOk result (λ text. text ≡ served_script source script.now) }
{
    match script {
        [_, rest @ ..] if source == 3 => {
            let mut text = Text::from_bytes(alloc, b"x".as_slice())?;
            text.append(rest)?;
            Ok(text)
        }
        _ => Text::from_bytes(alloc, script),
    }
}
