//! Steps that were read, and the names that they change, by which a name that is changed twice is found at once.
ghost use Rattle.std.specs.Prelude.{◌≡◌, ◌≤◌, ◌++◌, ◌∷◌, [], ◌||◌, length, IfOk, IsTrue, List, ℕ};
ghost use Rattle.std.specs.List.{list_any};
ghost use Rattle.acq_outside.specs.Disk.{same_name};
ghost use Rattle.journal_model.specs.Reading.{clashes as clash_of, step_named};
ghost use Rattle.journal_model.specs.Seen.{touches, has, IsPutShort};

use crate::{PartialName, Step};
use acq_base::{NoMemory, Row, Text};
use std::alloc::Global;
use std::collections::BTreeSet;
use std::marker::Model;

/// Steps in order. Contracts see the list of them.
#[derive(Drop)]
pub struct Seen {
    steps: Row<Step>,
    names: BTreeSet<Text>,
}

impl Model for Seen {
    ghost use Rattle.std.specs.Prelude.{List};
    ghost use Rattle.journal_model.specs.Seen.{HasNames};
    ghost use Rattle.journal_model.specs.declared.step.Step.{Step as Steps};

    ghost Value = { List Steps };

    ghost view = { λ seen. seen.steps };

    ghost invariant = { λ seen. HasNames seen.names seen.steps };
}

impl Seen {
    /// No steps.
    pub fn new(alloc: Global) -> Seen
        ensures { result ≡ [] }
    {
        Seen {
            steps: Row::new(alloc),
            names: BTreeSet::new(alloc),
        }
    }

    /// Whether a step of this name changes a name that one of these changes.
    #[tactic(auto, using(crate::proofs::Names::drop_clash))]
    pub fn clashes(&self, alloc: Global, put: bool, name: &[u8]) -> Result<bool, NoMemory>
        requires { IsTrue put → length name.now ≤ 247 }
        ensures { IfOk result (λ clash. clash ≡ list_any (clash_of (step_named put name.now)) self.now) }
    {
        let own = Text::from_bytes(alloc, name)?;
        if self.names.contains(&own) {
            return Ok(true);
        }
        if !put {
            return Ok(false);
        }
        let aside = Text::from_bytes(alloc, PartialName::new(name).as_bytes())?;
        Ok(self.names.contains(&aside))
    }

    /// These and one more.
    pub fn with(self, alloc: Global, step: Step) -> Result<Seen, NoMemory>
        requires { IsPutShort step }
        ensures { IfOk result (λ seen. seen ≡ self ++ step ∷ []) }
    {
        let Seen { steps, names } = self;
        let names = with_step(alloc, names, &step)?;
        let mut steps = steps;
        steps.push(step)?;
        Ok(Seen { steps, names })
    }

    /// The steps.
    pub fn into_steps(self) -> Row<Step>
        ensures { result ≡ self }
    {
        self.steps
    }
}

#[tactic(auto, using(crate::proofs::Names::more))]
fn with_name(names: BTreeSet<Text>, name: Text) -> Result<BTreeSet<Text>, NoMemory>
    ensures { IfOk result (λ new. (other : List ℕ) → has new other ≡ (has names other || same_name other name)) }
{
    let mut names = names;
    names.insert(name)?;
    Ok(names)
}

/// With the names that a step changes.
fn with_step(alloc: Global, names: BTreeSet<Text>, step: &Step) -> Result<BTreeSet<Text>, NoMemory>
    requires { IsPutShort step.now }
    ensures { IfOk result (λ new. (other : List ℕ) → has new other ≡ (has names other || touches other step.now)) }
{
    match step {
        Step::Put(list) => {
            let names = with_name(names, Text::from_bytes(alloc, list.as_bytes())?)?;
            let aside = PartialName::new(list.as_bytes());
            with_name(names, Text::from_bytes(alloc, aside.as_bytes())?)
        }
        Step::Drop(list) => with_name(names, Text::from_bytes(alloc, list.as_bytes())?),
    }
}
