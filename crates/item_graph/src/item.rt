//! Items.

ghost use Rattle.std.specs.Prelude.{◌≡◌, ◌≤◌, None, length, IfOk, IfSome, OnOk, option_copied, option_map};
ghost use Rattle.acq_base.specs.Plan.{IsPlanned};
ghost use Rattle.acq_base.specs.Uri.{IsSound, list_name};
ghost use Rattle.update_model.specs.Points.{Over, start, point_after};
ghost use Rattle.update_model.specs.Walks.{release_walk, target_walk};
ghost use Rattle.item_graph.specs.OldFiles.{IsEnough, bytes_of};
ghost use Rattle.item_graph.specs.Single.{file_walk};
ghost use Rattle.item_graph.specs.Sound.{IsSoundAnswer, IsSoundAt};

use crate::list::plain;
use crate::old_file::OldFile;
use crate::patches::list;
use crate::release::release as release_state;
use crate::state::State;
use crate::wanted::single;
use acq_base::{NoMemory, Settings, Source, Sum, Text, Uri};
use std::alloc::Global;
use std::mem;
use update_model::{Ask, Closed, End, Wanted};

/// A Release, a list or a single file that is being fetched.
#[derive(Drop)]
pub struct Item {
    /// How often a fault at one place is asked again.
    retries: u32,
    state: State,
}

impl Item {
    ghost use Rattle.item_graph.specs.Refinement.{asked, point_of, retries_of};

    /// The Release of a source: InRelease is asked for first, within 16,777,216 bytes, and Release where there is none.
    pub fn for_release(
        alloc: Global,
        source: &Source,
        settings: &Settings,
    ) -> Result<Item, NoMemory>
        ensures walk { IfOk result (λ item. point_of item ≡ start settings.now.retries (release_walk source.now)) }
        ensures retries { IfOk result (λ item. retries_of item ≡ settings.now.retries) }
        ensures sound { IsPlanned source.now → IfOk result (λ item. IsSoundAt (point_of item)) }
    {
        Ok(Item {
            retries: settings.retries,
            state: release_state(alloc, settings.retries, source)?,
        })
    }

    /// A list that a Release names, beside its installed file and the size of its partial file.
    ///
    /// Where the installed file is the wanted one, nothing is asked. Else come, each where the one before gave no
    /// fitting file: patches of the installed file, where they are on and the Release lists a patch Index; the rest
    /// behind the partial file, where that has some bytes and fewer than the list; the whole list under its digest,
    /// where it is asked for there; and the whole list at its own URI. Where patches may be asked for, the installed
    /// file's bytes are needed, beside which its sum alone will do.
    pub fn for_list(
        alloc: Global,
        wanted: Wanted,
        old: Option<OldFile>,
        part: u64,
        settings: &Settings,
    ) -> Result<Item, NoMemory>
        requires enough { IsEnough old wanted }
        ensures walk { IfOk result (λ item. point_of item ≡ start settings.now.retries (target_walk (option_map bytes_of old) part wanted)) }
        ensures retries { IfOk result (λ item. retries_of item ≡ settings.now.retries) }
        ensures sound { IsSound wanted.uri → IfSome wanted.hashed IsSound → length (list_name wanted.uri) ≤ 240
            → IfOk result (λ item. IsSoundAt (point_of item)) }
    {
        Ok(Item {
            retries: settings.retries,
            state: list(alloc, settings.retries, old, part, wanted)?,
        })
    }

    /// A single file that no Release names, of this sum. It is asked for at its own URI alone, whole, and goes into a
    /// partial file. Causes name it by its path.
    pub fn for_file(
        alloc: Global,
        uri: Uri,
        path: Text,
        sum: Sum,
        settings: &Settings,
    ) -> Result<Item, NoMemory>
        ensures walk { IfOk result (λ item. point_of item ≡ start settings.now.retries (file_walk uri path sum)) }
        ensures retries { IfOk result (λ item. retries_of item ≡ settings.now.retries) }
        ensures sound { IsSound uri → IfOk result (λ item. IsSoundAt (point_of item)) }
    {
        let wanted = single(alloc, uri, path, sum)?;
        Ok(Item {
            retries: settings.retries,
            state: plain(alloc, settings.retries, wanted)?,
        })
    }

    /// What is asked next; `None` exactly where the item has ended. It takes no memory.
    pub fn ask(&self) -> Option<&Ask>
        ensures value { option_copied result ≡ asked (point_of self.now) }
        ensures sound { IsSoundAt (point_of self.now) → IfSome result (λ ask. IsSound ask.now.uri) }
    {
        match &self.state {
            State::Ended(_) => None,
            State::Asks { ask, .. } => Some(ask),
        }
    }

    /// Takes in what the method of a lane answered to the ask. A fault is asked again while retries are left; up to ten
    /// moves of one ask are followed, but none from http to a file. An item that has ended stays as it is. After
    /// `NoMemory` the item may only be dropped.
    pub fn answer(&mut self, alloc: Global, lane: u32, closed: Closed) -> Result<(), NoMemory>
        ensures step { OnOk result (point_of self.new ≡ point_after (retries_of self.old) (point_of self.old) (record { lane = lane; closed = closed })) }
        ensures retries { retries_of self.new ≡ retries_of self.old }
        ensures sound { IsSoundAt (point_of self.old) → IsSoundAnswer closed → OnOk result (IsSoundAt (point_of self.new)) }
    {
        let state = mem::replace(&mut self.state, State::Ended(End::Stands));
        self.state = state.heard(alloc, self.retries, lane, closed)?;
        Ok(())
    }

    /// What the item came to.
    pub fn end(self) -> End
        requires ended { asked (point_of self) ≡ None }
        ensures { point_of self ≡ Over result }
    {
        match self.state {
            State::Ended(end) => end,
            State::Asks { .. } => unreachable!(),
        }
    }
}
