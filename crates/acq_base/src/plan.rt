//! What a configuration plans: sources, each with its Release and lists.

ghost use Rattle.std.specs.Prelude.{All};
ghost use Rattle.acq_base.specs.Plan.{IsPlanned, IsSound};

use crate::{ListName, NoMemory, Row, Text, TryCopy, Uri};
use std::alloc::Global;

/// What an index lists: binary packages of an architecture, source packages, or descriptions in a language.
#[derive(Debug, PartialEq, Drop)]
pub enum Kind {
    /// The architecture.
    Packages(Text),
    Sources,
    /// The language.
    Translation(Text),
}

/// One list that the configuration plans for a source.
#[derive(Debug, PartialEq, Drop)]
pub struct Target {
    /// Where it is below the folder of the source's Release, as the Release lists it.
    pub path: Text,
    pub uri: Uri,
    /// The list name of the URI.
    pub name: ListName,
    pub kind: Kind,
}

/// Whether lists are asked for under their digests: never, where the Release says so, or always.
#[derive(Clone, Copy, Debug, PartialEq, Eq)]
pub enum ByHash {
    No,
    Yes,
    Force,
}

/// A base URI with a suite: one Release file, and the lists planned below it.
#[derive(Debug, PartialEq, Drop)]
pub struct Source {
    pub base: Uri,
    /// The suite, or an exact path that ends in `/`.
    pub suite: Text,
    pub release: Uri,
    /// The list name of the Release's URI.
    pub release_name: ListName,
    pub by_hash: ByHash,
    /// Whether an installed list may be brought up to date by patches.
    pub pdiffs: bool,
    /// In the order in which they are planned.
    pub targets: Row<Target>,
}

/// All sources that a configuration names, in the order in which it first names them.
///
/// A sound plan has at most 4,096 sources and targets together, under distinct names of at most 240 bytes.
#[derive(Debug, PartialEq, Drop)]
pub struct Plan {
    pub sources: Row<Source>,
}

/// Each source of a sound plan has what a call on one source may rely on.
#[tactic(auto, using(crate::proofs::Planning::planned))]
pub fn sources_are_planned()
    ensures { (plan : Plan) → IsSound plan → All IsPlanned plan.sources }
{}

impl TryCopy for Kind {
    fn copy(&self, alloc: Global) -> Result<Kind, NoMemory> {
        Ok(match self {
            Kind::Packages(arch) => Kind::Packages(arch.copy(alloc)?),
            Kind::Sources => Kind::Sources,
            Kind::Translation(language) => Kind::Translation(language.copy(alloc)?),
        })
    }
}

impl TryCopy for Target {
    fn copy(&self, alloc: Global) -> Result<Target, NoMemory> {
        Ok(Target {
            path: self.path.copy(alloc)?,
            uri: self.uri.copy(alloc)?,
            name: self.name.copy(alloc)?,
            kind: self.kind.copy(alloc)?,
        })
    }
}

impl TryCopy for Source {
    fn copy(&self, alloc: Global) -> Result<Source, NoMemory> {
        Ok(Source {
            base: self.base.copy(alloc)?,
            suite: self.suite.copy(alloc)?,
            release: self.release.copy(alloc)?,
            release_name: self.release_name.copy(alloc)?,
            by_hash: self.by_hash,
            pdiffs: self.pdiffs,
            targets: self.targets.copy(alloc)?,
        })
    }
}

impl TryCopy for Plan {
    fn copy(&self, alloc: Global) -> Result<Plan, NoMemory> {
        Ok(Plan {
            sources: self.sources.copy(alloc)?,
        })
    }
}
