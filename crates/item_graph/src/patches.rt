//! The patch Index of a list, its patches, and what comes after each.

ghost use Rattle.std.specs.Prelude.{◌≡◌, [], IfOk, Some, option_map, option_and_then, reverse};
ghost use Rattle.acq_base.specs.Sum.{sum_of as summed};
ghost use Rattle.update_model.specs.Files.{served, fitting};
ghost use Rattle.update_model.specs.Points.{start};
ghost use Rattle.update_model.specs.Walks.{patches_walk, index_walk, target_walk, resume_walk};
ghost use Rattle.update_model.specs.Wanted.{patch_uri as uri_of_patch, chain as chain_of, edited_by};
ghost use Rattle.item_graph.specs.Nexts.{after, after_index as behind_index, after_patch as behind_patch, point_in};
ghost use Rattle.item_graph.specs.OldFiles.{IsEnough, bytes_of};
ghost use Rattle.item_graph.specs.Patched.{file_in};

use crate::editing::{Editing, Installed};
use crate::list::resume;
use crate::old_file::OldFile;
use crate::patching::{Listing, Patching};
use crate::release::whole_ask;
use crate::state::{Next, State};
use acq_base::{Bytes, NoMemory, Row, Sum, TryCopy, Uri, sum_of};
use ed_apply::{ApplyError, Edit, ScriptError, applied_is_edited, read_script};
use pdiff_index::{IndexError, NoChain, Step, chain, read_index};
use std::alloc::Global;
use update_model::{Body, End, Ending, Wanted};

/// The first ask for a list, beside its installed file and a partial file of so many bytes.
pub fn list(
    alloc: Global,
    retries: u32,
    installed: Option<OldFile>,
    part: u64,
    wanted: Wanted,
) -> Result<State, NoMemory>
    requires { IsEnough installed wanted }
    ensures { IfOk result (λ state. point_in state ≡ start retries (target_walk (option_map bytes_of installed) part wanted)) }
{
    match installed {
        None => resume(alloc, retries, wanted, part),
        Some(OldFile::Read(file)) => read_list(alloc, retries, file, part, wanted),
        Some(OldFile::Summed(file)) => {
            if file.sum() == wanted.sum {
                return Ok(State::Ended(End::Stands));
            }
            resume(alloc, retries, wanted, part)
        }
    }
}

/// The same where the bytes of its installed file are here.
fn read_list(
    alloc: Global,
    retries: u32,
    file: Bytes,
    part: u64,
    wanted: Wanted,
) -> Result<State, NoMemory>
    ensures { IfOk result (λ state. point_in state ≡ start retries (target_walk (Some file) part wanted)) }
{
    let installed = Installed {
        sum: sum_of(file.as_slice()),
        file,
    };
    if installed.sum == wanted.sum {
        return Ok(State::Ended(End::Stands));
    }
    match wanted.index {
        None => resume(alloc, retries, wanted, part),
        Some(sum) => {
            let ask = whole_ask(patch_uri(alloc, &wanted, b"Index")?, sum.size);
            let listing = Listing {
                wanted,
                part,
                installed,
                sum,
            };
            Ok(State::first(ask, retries, Next::Index(listing)))
        }
    }
}

/// Where the Index or a patch of a list lies.
fn patch_uri(alloc: Global, wanted: &Wanted, name: &[u8]) -> Result<Uri, NoMemory>
    ensures { IfOk result (λ uri. uri ≡ uri_of_patch wanted.now name.now) }
{
    let mut uri = wanted.uri.copy(alloc)?;
    uri.path.append(b".diff/")?;
    uri.path.append(name)?;
    Ok(uri)
}

/// The bytes of a trail, where they have this sum.
fn fitting_bytes(sum: &Sum, ending: Ending) -> Option<Bytes>
    ensures { result ≡ fitting sum.now (served ending) }
{
    match ending {
        Ending::Served(Body::Bytes(bytes)) if sum_of(bytes.as_slice()) == *sum => Some(bytes),
        _ => None,
    }
}

/// Behind the patch Index.
pub fn after_index(
    alloc: Global,
    retries: u32,
    listing: Listing,
    ending: Ending,
) -> Result<State, NoMemory>
    ensures { IfOk result (λ state. point_in state ≡ start retries (behind_index listing ending)) }
{
    let Listing {
        wanted,
        part,
        installed,
        sum,
        ..
    } = listing;
    let bytes = fitting_bytes(&sum, ending);
    let steps = steps_in(alloc, &wanted, &installed, bytes)?;
    match steps {
        Some(steps) => {
            let editing = begin_editing(alloc, installed.file)?;
            let mut later = steps.into_vec();
            later.reverse();
            next_patch(alloc, retries, wanted, part, editing, later)
        }
        None => resume(alloc, retries, wanted, part),
    }
}

/// The patches of an Index, where it came.
fn steps_in(
    alloc: Global,
    wanted: &Wanted,
    installed: &Installed,
    bytes: Option<Bytes>,
) -> Result<Option<Row<Step>>, NoMemory>
    ensures { IfOk result (λ steps. steps ≡ option_and_then (chain_of wanted.now installed.now.file) bytes) }
{
    match bytes {
        Some(bytes) => steps_by(alloc, wanted, installed, bytes.as_slice()),
        None => Ok(None),
    }
}

/// The patches by which an Index of these bytes leads from the installed file to the wanted one.
fn steps_by(
    alloc: Global,
    wanted: &Wanted,
    installed: &Installed,
    bytes: &[u8],
) -> Result<Option<Row<Step>>, NoMemory>
    ensures { IfOk result (λ steps. steps ≡ chain_of wanted.now installed.now.file bytes.now) }
{
    let index = match read_index(alloc, bytes) {
        Ok(index) => index,
        Err(IndexError::BadIndex(_)) => return Ok(None),
        Err(IndexError::NoMemory) => return Err(NoMemory),
    };
    match chain(
        alloc,
        &index,
        &installed.sum,
        &wanted.sum,
        wanted.file_limit,
        wanted.size_limit,
    ) {
        Ok(steps) => Ok(Some(steps)),
        Err(NoChain::NoMemory) => Err(NoMemory),
        Err(_) => Ok(None),
    }
}

/// The installed file before the first patch.
fn begin_editing(alloc: Global, old: Bytes) -> Result<Editing, NoMemory>
    ensures { IfOk result (λ editing. file_in editing ≡ old) }
{
    Ok(Editing {
        edit: Edit::whole(alloc, old.as_slice())?,
        old,
    })
}

/// The next patch, or the list where there is none.
fn next_patch(
    alloc: Global,
    retries: u32,
    wanted: Wanted,
    part: u64,
    editing: Editing,
    steps: Vec<Step>,
) -> Result<State, NoMemory>
    ensures { IfOk result (λ state. point_in state ≡ start retries (patches_walk wanted (resume_walk wanted part) (reverse steps.items) (file_in editing))) }
{
    let mut later = steps;
    match later.pop() {
        Some(step) => {
            let uri = patch_uri(alloc, &wanted, step.name.as_bytes())?;
            let ask = whole_ask(uri, step.sum.size);
            let patching = Patching {
                wanted,
                part,
                editing,
                sum: step.sum,
                later,
            };
            Ok(State::first(ask, retries, Next::Patch(patching)))
        }
        None => patched(alloc, retries, wanted, part, editing),
    }
}

/// Behind the last patch: the list, where they made it.
fn patched(
    alloc: Global,
    retries: u32,
    wanted: Wanted,
    part: u64,
    editing: Editing,
) -> Result<State, NoMemory>
    ensures { IfOk result (λ state. point_in state ≡ start retries (patches_walk wanted (resume_walk wanted part) [] (file_in editing))) }
{
    let file = editing.edit.copy_out(alloc, editing.old.as_slice())?;
    if sum_of(file.as_slice()) == wanted.sum {
        return Ok(State::Ended(End::Got(Body::Bytes(file))));
    }
    resume(alloc, retries, wanted, part)
}

/// Behind a patch.
pub fn after_patch(
    alloc: Global,
    retries: u32,
    patching: Patching,
    ending: Ending,
) -> Result<State, NoMemory>
    ensures { IfOk result (λ state. point_in state ≡ start retries (behind_patch patching ending)) }
{
    let Patching {
        wanted,
        part,
        editing,
        sum,
        later,
    } = patching;
    let patch = fitting_bytes(&sum, ending);
    let edited = edit_by(alloc, editing, patch)?;
    match edited {
        Some(editing) => next_patch(alloc, retries, wanted, part, editing, later),
        None => resume(alloc, retries, wanted, part),
    }
}

/// The file that a patch makes, where it came.
fn edit_by(
    alloc: Global,
    editing: Editing,
    patch: Option<Bytes>,
) -> Result<Option<Editing>, NoMemory>
    ensures { IfOk result (λ new. option_map file_in new ≡ option_and_then (edited_by (file_in editing)) patch) }
{
    match patch {
        Some(patch) => edit(alloc, editing, patch),
        None => Ok(None),
    }
}

/// The file that a patch makes, where it is an edit script and applies. Its bytes and its script are let go then.
fn edit(alloc: Global, editing: Editing, patch: Bytes) -> Result<Option<Editing>, NoMemory>
    ensures { IfOk result (λ new. option_map file_in new ≡ edited_by (file_in editing) patch) }
{
    applied_is_edited();
    let script = match read_script(alloc, patch.as_slice()) {
        Ok(script) => script,
        Err(ScriptError::NoMemory) => return Err(NoMemory),
        Err(_) => return Ok(None),
    };
    let Editing { old, mut edit, .. } = editing;
    match edit.then(alloc, script) {
        Ok(()) => Ok(Some(Editing { old, edit })),
        Err(ApplyError::Outside(_)) => Ok(None),
        Err(ApplyError::NoMemory) => Err(NoMemory),
    }
}
