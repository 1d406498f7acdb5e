//! What logs tell: a law, a function without a body of its own.

ghost use Rattle.generated_days.specs.Told as law;

/// The log of a run over one mirror, whose method didn't fail, tells as many new sets as the mirror has, and one ask for each
/// position of the routes over it; the lists are those that are next.
pub fn logs_tell_days()
    ensures { law.LogsTellDays }
{}
