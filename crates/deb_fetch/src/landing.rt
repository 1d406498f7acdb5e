//! What becomes of a folder's names around the fetch of a file: one call of the folder each. It takes no memory.
ghost use Rattle.std.specs.Prelude.{◌≡◌, ◌↔◌, true, IfOk, OnOk, IsTrue, IsSomeAnd};
ghost use Rattle.acq_base.specs.Sum.{Fits};
ghost use Rattle.acq_outside.specs.States.{IsNow};
ghost use Rattle.acq_outside.specs.Stays.{Stays};
ghost use Rattle.deb_fetch.specs.Filenames.{IsDebName};
ghost use Rattle.deb_fetch.specs.Landing as spec;

use crate::Deb;
use acq_outside::{Disk, Fault};
use journal_model::PartialName;
use lists_dir::verify;

/// Makes the names lasting as they are, so that no earlier change of one is pending.
pub fn settle_names<D: Disk>(place: &mut D, deb: &Deb) -> Result<(), Fault>
    ensures frame { Stays D.Disk place.old place.new result }
    ensures same { D.files place.new ≡ D.files place.old }
    ensures lands { spec.Lands deb.now.file.0 deb.now.sum (D.trace place.old) (D.trace place.new) }
    ensures settled { OnOk result (IsNow spec.IsSettled (D.trace place.new)) }
{
    place.sync_names()
}

/// Makes the file that is there lasting, if one is, and answers whether it is the wanted one.
pub fn check_file<D: Disk>(place: &mut D, deb: &Deb) -> Result<bool, Fault>
    requires named { IsDebName deb.now.file.0 }
    requires settled { IsNow spec.IsSettled (D.trace place.old) }
    ensures frame { Stays D.Disk place.old place.new result }
    ensures same { D.files place.new ≡ D.files place.old }
    ensures lands { spec.Lands deb.now.file.0 deb.now.sum (D.trace place.old) (D.trace place.new) }
    ensures settled { OnOk result (IsNow spec.IsSettled (D.trace place.new)) }
    ensures told { IsTrue (D.tells place.old)
        → IfOk result (λ fits. IsTrue fits ↔ IsSomeAnd (D.files place.old deb.now.file.0) (λ bytes. Fits bytes deb.now.sum)) }
    ensures whole { IfOk result (λ fits. fits ≡ true → IsNow (spec.LeavesWhole deb.now.file.0 deb.now.sum) (D.trace place.new)) }
{
    keep_file(place, deb)?;
    verify(place, &deb.file, &deb.sum)
}

/// Makes the file that is there lasting, if one is.
fn keep_file<D: Disk>(place: &mut D, deb: &Deb) -> Result<(), Fault>
    requires named { IsDebName deb.now.file.0 }
    requires settled { IsNow spec.IsSettled (D.trace place.old) }
    ensures frame { Stays D.Disk place.old place.new result }
    ensures same { D.files place.new ≡ D.files place.old }
    ensures lands { spec.Lands deb.now.file.0 deb.now.sum (D.trace place.old) (D.trace place.new) }
    ensures steady { OnOk result (IsNow (spec.IsSteady deb.now.file.0) (D.trace place.new)) }
{
    place.sync(deb.file.0.as_bytes())
}

/// Gives the file on its way its name, and makes that lasting. The file on its way lasts, and is the wanted one.
pub fn land<D: Disk>(place: &mut D, deb: &Deb) -> Result<(), Fault>
    requires named { IsDebName deb.now.file.0 }
    requires ready { IsNow (spec.IsReady deb.now.file.0 deb.now.sum) (D.trace place.old) }
    ensures frame { Stays D.Disk place.old place.new result }
    ensures lands { spec.Lands deb.now.file.0 deb.now.sum (D.trace place.old) (D.trace place.new) }
    ensures whole { OnOk result (IsNow (spec.LeavesWhole deb.now.file.0 deb.now.sum) (D.trace place.new)) }
{
    settle_part(place, deb)?;
    name_file(place, deb)?;
    last_names(place, deb)
}

/// Makes the name of the file on its way lasting.
fn settle_part<D: Disk>(place: &mut D, deb: &Deb) -> Result<(), Fault>
    requires ready { IsNow (spec.IsReady deb.now.file.0 deb.now.sum) (D.trace place.old) }
    ensures frame { Stays D.Disk place.old place.new result }
    ensures lands { spec.Lands deb.now.file.0 deb.now.sum (D.trace place.old) (D.trace place.new) }
    ensures ready { OnOk result (IsNow (spec.MayLand deb.now.file.0 deb.now.sum) (D.trace place.new)) }
{
    place.sync_names()
}

/// Gives the file on its way its name.
fn name_file<D: Disk>(place: &mut D, deb: &Deb) -> Result<(), Fault>
    requires named { IsDebName deb.now.file.0 }
    requires ready { IsNow (spec.MayLand deb.now.file.0 deb.now.sum) (D.trace place.old) }
    ensures frame { Stays D.Disk place.old place.new result }
    ensures lands { spec.Lands deb.now.file.0 deb.now.sum (D.trace place.old) (D.trace place.new) }
    ensures landed { OnOk result (IsNow (spec.HasLanded deb.now.file.0 deb.now.sum) (D.trace place.new)) }
{
    let part = PartialName::new(deb.file.0.as_bytes());
    place.rename(part.as_bytes(), deb.file.0.as_bytes())
}

/// Makes the file's name lasting.
fn last_names<D: Disk>(place: &mut D, deb: &Deb) -> Result<(), Fault>
    requires landed { IsNow (spec.HasLanded deb.now.file.0 deb.now.sum) (D.trace place.old) }
    ensures frame { Stays D.Disk place.old place.new result }
    ensures lands { spec.Lands deb.now.file.0 deb.now.sum (D.trace place.old) (D.trace place.new) }
    ensures whole { OnOk result (IsNow (spec.LeavesWhole deb.now.file.0 deb.now.sum) (D.trace place.new)) }
{
    place.sync_names()
}
