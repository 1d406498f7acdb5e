//! What a run reads before it asks, beside what is installed: from where lists on their way may be resumed.
ghost use Rattle.std.specs.Prelude.{◌≡◌, ◌++◌, ◌∷◌, [], All, IfOk, OnOk, map};
ghost use Rattle.acq_base.specs.Plan.{IsPlanned};
ghost use Rattle.acq_outside.specs.States.{IsTold};
ghost use Rattle.acq_outside.specs.Stays.{ReadsCounting};
ghost use Rattle.journal_model.specs.Names.{IsPutName};
ghost use Rattle.update_engine.specs.Reading.{size_of, sizes_in, sizes_of};

use acq_base::{ListName, Row, Source, Target, TryCopy};
use acq_outside::{Disk, OutError};
use partial_store::resume_from;
use std::alloc::Global;

/// Adds from which byte the list of a target may be resumed.
fn read_size<D: Disk>(
    alloc: Global,
    disk: &mut D,
    target: &Target,
    sizes: &mut Row<(ListName, u64)>,
) -> Result<(), OutError>
    requires { IsPutName target.now.name.0 }
    ensures frame { ReadsCounting OutError.Fault D.Disk disk.old disk.new result }
    ensures told { IsTold (D.trace disk.old) → OnOk result (sizes.new ≡ sizes.old ++ size_of (D.trace disk.old) target.now ∷ []) }
{
    let size = resume_from(disk, &target.name, u64::MAX)?;
    let name = target.name.copy(alloc)?;
    sizes.push((name, size))?;
    Ok(())
}

/// Adds from which bytes the lists of these targets may be resumed.
fn read_targets<D: Disk>(
    alloc: Global,
    disk: &mut D,
    targets: &[Target],
    sizes: &mut Row<(ListName, u64)>,
) -> Result<(), OutError>
    requires { All (λ target. IsPutName target.name.0) targets.now }
    ensures frame { ReadsCounting OutError.Fault D.Disk disk.old disk.new result }
    ensures told { IsTold (D.trace disk.old) → OnOk result (sizes.new ≡ sizes.old ++ map (size_of (D.trace disk.old)) targets.now) }
{
    for target in targets {
        read_size(alloc, disk, target, sizes)?;
    }
    Ok(())
}

/// Adds from which bytes the lists of a source may be resumed.
fn read_source<D: Disk>(
    alloc: Global,
    disk: &mut D,
    source: &Source,
    sizes: &mut Row<(ListName, u64)>,
) -> Result<(), OutError>
    requires { IsPlanned source.now }
    ensures frame { ReadsCounting OutError.Fault D.Disk disk.old disk.new result }
    ensures told { IsTold (D.trace disk.old) → OnOk result (sizes.new ≡ sizes.old ++ sizes_in (D.trace disk.old) source.now) }
{
    read_targets(alloc, disk, source.targets.as_slice(), sizes)?;
    Ok(())
}

/// From which bytes the lists of these sources, which are those of a sound plan, may be resumed.
///
/// `Fault` only where the disk's count of faults rose.
pub fn read_sizes<D: Disk>(
    alloc: Global,
    disk: &mut D,
    sources: &[Source],
) -> Result<Row<(ListName, u64)>, OutError>
    requires { All IsPlanned sources.now }
    ensures frame { ReadsCounting OutError.Fault D.Disk disk.old disk.new result }
    ensures told { IsTold (D.trace disk.old) → IfOk result (λ sizes. sizes ≡ sizes_of (D.trace disk.old) sources.now) }
{
    let mut sizes = Row::new(alloc);
    for source in sources {
        read_source(alloc, disk, source, &mut sizes)?;
    }
    Ok(sizes)
}
