//! A package file, fetched into a folder. It may take memory.
ghost use Rattle.std.specs.Prelude.{◌≡◌, ◌⊎◌, ◌≤◌, ◌+◌, ◌*◌, None, IfErr, IfOk, IsSome, IsSomeAnd, IsTrue};
ghost use Rattle.acq_base.specs.Sum.{Fits};
ghost use Rattle.acq_base.specs.Uri.{IsSound};
ghost use Rattle.acq_outside.specs.Fetches.{Fetches};
ghost use Rattle.acq_outside.specs.States.{IsNow, Since};
ghost use Rattle.acq_outside.specs.Stays.{StaysCounting};
ghost use Rattle.deb_fetch.specs.Causes as causes;
ghost use Rattle.deb_fetch.specs.Filenames.{IsDebName};
ghost use Rattle.deb_fetch.specs.Landing.{KeepsOthers, LandsWholeSince, LeavesWhole};

use crate::asking::obtain;
use crate::landing::{check_file, land, settle_names};
use crate::{Deb, DebError};
use acq_base::Settings;
use acq_outside::{Disk, Method};
use std::alloc::Global;
use update_model::Cause;

/// Fetches the file into a folder, under its name; nothing is asked where it is there already. `None` where it stands
/// there, whole and lasting; else why it doesn't, and then the folder's files are as they were, but for the one on its
/// way under `partial/`.
///
/// The file's URI is sound, and its name that of a path which lists may name; `find_deb` gives such ones. `DiskFault` only
/// where the folder's count of faults rose in this call.
pub fn fetch_deb<D: Disk, M: Method>(
    alloc: Global,
    place: &mut D,
    deb: &Deb,
    method: &mut M,
    settings: &Settings,
) -> Result<Option<Cause>, DebError>
    requires sound { IsSound deb.now.uri }
    requires named { IsDebName deb.now.file.0 }

    ensures frame { StaysCounting DebError.DiskFault D.Disk place.old place.new result }
    ensures method { Fetches M.Method method.old method.new }

    // At every moment a crash leaves the file as it might have left it before, or whole, and all other files but the one on
    // its way as it might have left them before.
    ensures moments { Since (D.trace place.old) (D.trace place.new) (LandsWholeSince deb.now.file.0 deb.now.sum (D.trace place.old)) }
    ensures others { KeepsOthers deb.now.file.0 (D.trace place.old) (D.trace place.new) }
    ensures whole { IfOk result (λ end. end ≡ None → IsNow (LeavesWhole deb.now.file.0 deb.now.sum) (D.trace place.new)) }

    ensures kept { IsTrue (D.tells place.old) → IfOk result (λ end. IsSome end
        → D.files place.new deb.now.file.0 ≡ D.files place.old deb.now.file.0) }

    ensures unasked { IsTrue (D.tells place.old) → IsSomeAnd (D.files place.old deb.now.file.0) (λ bytes. Fits bytes deb.now.sum)
        → M.begins method.new ≡ M.begins method.old }

    // One ask at the file's URI and at each of ten places that it moves to, and each again as often as settings say.
    ensures begins { M.begins method.new ≤ M.begins method.old + 11 * (settings.now.retries + 1) }

    ensures answer { IsTrue (D.tells place.old)
        → IfOk result (causes.IsAnswerOf (M.world method.old) (D.files place.old deb.now.file.0) deb.now) }
    ensures failed { IfOk result (λ end. causes.IsMethod end
        → causes.HasFailed settings.now.retries (M.faults method.old) (M.faults method.new) deb.now end) }
    ensures only { IfErr result (λ error. (error ≡ DebError.DiskFault) ⊎ (error ≡ DebError.NoMemory)) }
    ensures route { IfOk result (causes.IsEndOfRoute settings.now.retries deb.now) }
{
    settle_names(place, deb)?;
    if check_file(place, deb)? {
        return Ok(None);
    }
    match obtain(alloc, place, deb, method, settings)? {
        Some(cause) => Ok(Some(cause)),
        None => {
            land(place, deb)?;
            Ok(None)
        }
    }
}
