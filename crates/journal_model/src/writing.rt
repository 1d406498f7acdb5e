//! The writer of a record's bytes.
ghost use Rattle.std.specs.Prelude.{◌≡◌, ◌<◌, ◌^◌, ◌++◌, [], length, IfOk, OnOk};
ghost use Rattle.journal_model.specs.Spelling.{name_bytes, step_bytes, steps_bytes, group_bytes, groups_bytes, unsealed, body_of, all_steps, AreAllowed, AreShort};
ghost use Rattle.journal_model.specs.Writing.{IsShortStep, AreShortSteps, AreShortGroups};

use crate::Step;
use acq_base::{Bytes, NoMemory, Row};
use sha2::{Digest, Sha256};
use std::alloc::Global;

fn write_name(body: &mut Bytes, name: &[u8]) -> Result<(), NoMemory>
    requires { length name.now < 2 ^ 16 }
    ensures { OnOk result (body.new ≡ body.old ++ name_bytes name.now) }
{
    body.append(&(name.len() as u16).to_be_bytes())?;
    body.append(name)
}

fn write_step(body: &mut Bytes, step: &Step) -> Result<(), NoMemory>
    requires { IsShortStep step.now }
    ensures { OnOk result (body.new ≡ body.old ++ step_bytes step.now) }
{
    match step {
        Step::Put(name) => {
            body.push(0)?;
            write_name(body, name.as_bytes())
        }
        Step::Drop(name) => {
            body.push(1)?;
            write_name(body, name.as_bytes())
        }
    }
}

fn write_steps(body: &mut Bytes, steps: &[Step]) -> Result<(), NoMemory>
    requires { AreShortSteps steps.now }
    ensures { OnOk result (body.new ≡ body.old ++ steps_bytes steps.now) }
{
    for step in steps {
        write_step(body, step)?;
    }
    Ok(())
}

fn write_group(body: &mut Bytes, steps: &[Step]) -> Result<(), NoMemory>
    requires few { length steps.now < 2 ^ 32 }
    requires short { AreShortSteps steps.now }
    ensures { OnOk result (body.new ≡ body.old ++ group_bytes steps.now) }
{
    body.append(&(steps.len() as u32).to_be_bytes())?;
    write_steps(body, steps)
}

fn write_groups(body: &mut Bytes, groups: &[Row<Step>]) -> Result<(), NoMemory>
    requires { AreShortGroups groups.now }
    ensures { OnOk result (body.new ≡ body.old ++ groups_bytes groups.now) }
{
    for group in groups {
        write_group(body, group.as_slice())?;
    }
    Ok(())
}

/// All of a record but its digest.
fn write_unsealed(alloc: Global, groups: &[Row<Step>]) -> Result<Bytes, NoMemory>
    requires few { length groups.now < 2 ^ 32 }
    requires short { AreShortGroups groups.now }
    ensures { IfOk result (λ body. body ≡ unsealed groups.now) }
{
    let mut body = Row::new(alloc);
    body.push(2)?;
    body.append(&(groups.len() as u32).to_be_bytes())?;
    write_groups(&mut body, groups)?;
    Ok(body)
}

/// The bytes of a record of these groups, in version 2: what stands in a journal behind its gate. There are fewer than
/// 2^32 groups, each of fewer than 2^32 steps, and a record may have these steps.
#[tactic(auto, using(crate::proofs::Shorts::short_groups))]
pub fn body_bytes(alloc: Global, groups: &[Row<Step>]) -> Result<Bytes, NoMemory>
    requires few { length groups.now < 2 ^ 32 }
    requires short { AreShort groups.now }
    requires allowed { AreAllowed [] (all_steps groups.now) }
    ensures { IfOk result (λ body. body ≡ body_of groups.now) }
{
    let mut body = write_unsealed(alloc, groups)?;
    let digest = Sha256::digest(body.as_slice());
    body.append(digest.as_slice())?;
    Ok(body)
}
