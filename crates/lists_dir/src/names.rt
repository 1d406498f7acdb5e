//! Names of lists as names of a disk, as a law that callers may rest on. It touches nothing.

ghost use Rattle.std.specs.Prelude.{All};
ghost use Rattle.acq_base.specs.Plan.{IsPlanned, names_of};
ghost use Rattle.acq_base.specs.declared.plan.Source.{Source};
ghost use Rattle.acq_outside.specs.Disk.{IsName};

/// The list names of a source of a sound plan are names that a disk may have.
pub fn names_are_of_a_disk()
    ensures { (source : Source) → IsPlanned source → All IsName (names_of source) }
{}
