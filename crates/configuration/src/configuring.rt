//! The configuration as a whole. It reads each file of the folder that counts once, and may take memory.

ghost use Rattle.std.specs.Prelude.{IfOk, IsErrOf};
ghost use Rattle.acq_base.specs.Plan.{IsSound};
ghost use Rattle.acq_base.specs.Settings.{IsSound as IsSoundSettings};
ghost use Rattle.acq_outside.specs.Looks.{LooksCounting};
ghost use Rattle.apt_conf.specs.Settings.{settings_of};
ghost use Rattle.configuration.specs.Answers.{Gives};
ghost use Rattle.configuration.specs.Changes.{change_given};
ghost use Rattle.configuration.specs.Configured.{IsAnswer, of_value};

use crate::conf::read_pairs;
use crate::error::of_conf;
use crate::lists::read_entries;
use crate::planning::plan_of;
use crate::{ConfigurationError, change_of};
use acq_base::{Plan, Row, Settings, Text};
use acq_outside::Etc;
use apt_conf::{Conf, settings};
use release_file::Change;
use std::alloc::Global;

/// What an update runs by.
#[derive(Debug, PartialEq, Drop)]
pub struct Configured {
    /// The sources and lists.
    pub plan: Plan,
    /// The settings that take effect.
    pub settings: Settings,
    /// Which fields of a Release may differ from those of the installed one.
    pub change: Change,
}

/// The configuration of a folder and of the options of the command line (apt.conf(5), sources.list(5)).
///
/// The files of apt.conf.d count first, in byte order of their names, then apt.conf, then the options; of each key the
/// last value counts. The settings are judged, then which changed heads are allowed, and only then are sources.list and
/// the files of sources.list.d read, in byte order of their names. The plan comes last. The first refusal ends it.
///
/// A file that is listed and then isn't there is an empty text. Each file is read once, and none is changed. `Fault`
/// comes where a call of the folder is a fault, `NoMemory` where memory ran out.
pub fn configure<E: Etc>(
    alloc: Global,
    etc: &mut E,
    options: &Row<Text>,
) -> Result<Configured, ConfigurationError>
    ensures frame { LooksCounting ConfigurationError.Fault E.Etc etc.old etc.new result }
    ensures answer { IsAnswer (E.files etc.old) options.now result }
    // What it runs by is sound, whatever the files say.
    ensures sound { IfOk result (λ configured. IsSound configured.plan) }
    ensures settings { IfOk result (λ configured. IsSoundSettings configured.settings) }
{
    let conf = read_pairs(alloc, etc, options.as_slice())?;
    let settings = settings_in(alloc, &conf)?;
    let change = change_in(alloc, &conf)?;
    let entries = read_entries(alloc, etc, &settings.arch)?;
    let plan = plan_of(alloc, &entries, &settings)?;
    Ok(Configured {
        plan,
        settings,
        change,
    })
}

/// The settings, or the first value that isn't allowed.
fn settings_in(alloc: Global, conf: &Conf) -> Result<Settings, ConfigurationError>
    ensures read { Gives (of_value (settings_of conf.now)) result }
    ensures sound { IfOk result IsSoundSettings }
    ensures outside { ¬ (IsErrOf result ConfigurationError.Fault) }
{
    match settings(alloc, conf) {
        Ok(settings) => Ok(settings),
        Err(error) => Err(of_conf(Text::new(alloc), error)),
    }
}

/// Which changed heads are allowed, or the first value that isn't.
fn change_in(alloc: Global, conf: &Conf) -> Result<Change, ConfigurationError>
    ensures read { Gives (of_value (change_given conf.now)) result }
    ensures outside { ¬ (IsErrOf result ConfigurationError.Fault) }
{
    match change_of(alloc, conf) {
        Ok(change) => Ok(change),
        Err(error) => Err(of_conf(Text::new(alloc), error)),
    }
}
