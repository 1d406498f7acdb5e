//! Which fields of a Release may change. It may take memory, and touches nothing else.

ghost use Rattle.std.specs.Prelude.{◌≡◌, ◌⊎◌, Err};
ghost use Rattle.configuration.specs.Changes.{change_given};

use apt_conf::{Conf, ConfError, boolean};
use release_file::Change;
use std::alloc::Global;

/// Which fields of a Release may differ from those of the installed one (apt-secure(8), "Information changes"):
/// `Acquire::AllowReleaseInfoChange` for all four, by default no, and then `Acquire::AllowReleaseInfoChange::Origin`,
/// `::Label`, `::Suite` and `::Codename` for one each, which count before it.
///
/// Each is a boolean of apt.conf(5). The first in this order that isn't allowed is refused with `BadValue` and its key;
/// the only other error is `NoMemory`.
#[tactic(auto, unfolding(crate::specs::Changes::change_given))]
pub fn change_of(alloc: Global, conf: &Conf) -> Result<Change, ConfError>
    ensures { (result ≡ Err ConfError.NoMemory) ⊎ (result ≡ change_given conf.now) }
{
    let all = boolean(alloc, conf, b"Acquire::AllowReleaseInfoChange", false)?;
    let origin = boolean(alloc, conf, b"Acquire::AllowReleaseInfoChange::Origin", all)?;
    let label = boolean(alloc, conf, b"Acquire::AllowReleaseInfoChange::Label", all)?;
    let suite = boolean(alloc, conf, b"Acquire::AllowReleaseInfoChange::Suite", all)?;
    let codename = boolean(
        alloc,
        conf,
        b"Acquire::AllowReleaseInfoChange::Codename",
        all,
    )?;
    Ok(Change {
        origin,
        label,
        suite,
        codename,
    })
}
