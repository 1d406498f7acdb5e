//! The changes of a source that is settled.
ghost use Rattle.std.specs.Prelude.{◌≡◌, ◌++◌, ◌∷◌, map, IfOk, OnOk};
ghost use Rattle.list_commits.specs.Changes.{changes_for, content_for, drop_for, put_for, release_for};

use acq_base::{Bytes, ListName, NoMemory, Row, Source, TryCopy};
use commit_journal::{Change, Content};
use std::alloc::Global;
use update_model::{Body, Settled};

/// The changes of a source: its lists that came put under their names, then its Release, where a new one came, then the
/// lists that go removed.
pub fn changes_of(alloc: Global, source: &Source, settled: Settled) -> Result<Row<Change>, NoMemory>
    ensures { IfOk result (λ changes. changes ≡ changes_for source.now settled) }
{
    let mut changes = Row::new(alloc);
    put_lists(settled.puts, &mut changes)?;
    put_release(alloc, &source.release_name, settled.release, &mut changes)?;
    drop_lists(settled.drops, &mut changes)?;
    Ok(changes)
}

/// Adds the put of the Release, where one came.
fn put_release(
    alloc: Global,
    name: &ListName,
    release: Option<Bytes>,
    changes: &mut Row<Change>,
) -> Result<(), NoMemory>
    ensures { OnOk result (changes.new ≡ changes.old ++ release_for name.now release) }
{
    match release {
        Some(bytes) => {
            let name = name.copy(alloc)?;
            changes.push(Change::Put {
                name,
                content: Content::Held(bytes),
            })?;
            Ok(())
        }
        None => Ok(()),
    }
}

/// Adds the puts of lists.
fn put_lists(puts: Row<(ListName, Body)>, changes: &mut Row<Change>) -> Result<(), NoMemory>
    ensures { OnOk result (changes.new ≡ changes.old ++ map put_for puts) }
{
    let mut rest = puts.into_vec();
    rest.reverse();
    while let Some((name, body)) = rest.pop() {
        changes.push(Change::Put {
            name,
            content: content_of(body),
        })?;
    }
    Ok(())
}

/// What a list is to hold whose file came so.
fn content_of(body: Body) -> Content
    ensures { result ≡ content_for body }
{
    match body {
        Body::Bytes(bytes) => Content::Held(bytes),
        Body::Staged(_sum) => Content::Staged,
    }
}

/// Adds the removals of lists.
fn drop_lists(drops: Row<ListName>, changes: &mut Row<Change>) -> Result<(), NoMemory>
    ensures { OnOk result (changes.new ≡ changes.old ++ map drop_for drops) }
{
    let mut rest = drops.into_vec();
    rest.reverse();
    while let Some(name) = rest.pop() {
        changes.push(Change::Drop { name: name.0 })?;
    }
    Ok(())
}
