//! The configuration that apt.conf.d, apt.conf and the options of the command line give, in this order. It reads each
//! file once, and may take memory.

ghost use Rattle.std.specs.Prelude.{[], IsErrOf};
ghost use Rattle.acq_outside.specs.Looks.{LooksCounting};
ghost use Rattle.acq_outside.specs.declared.etc.Place.TheVariants.{Conf as conf_place, ConfParts as conf_parts};
ghost use Rattle.apt_conf.specs.Reading.{pairs_of};
ghost use Rattle.configuration.specs.Answers.{Adds, AddsParts, AddsText, ReadsConf};
ghost use Rattle.configuration.specs.Configured as spec;
ghost use Rattle.configuration.specs.Refusals.{in_conf};

use crate::ConfigurationError;
use crate::error::of_conf;
use crate::file::{File, part, read_text, single};
use crate::names::counted_names;
use acq_base::Text;
use acq_outside::{Etc, Place};
use apt_conf::{Conf, new, read_conf, set};
use std::alloc::Global;

/// The configuration of the folder's files and of the options.
pub fn read_pairs<E: Etc>(
    alloc: Global,
    etc: &mut E,
    options: &[Text],
) -> Result<Conf, ConfigurationError>
    ensures frame { LooksCounting ConfigurationError.Fault E.Etc etc.old etc.new result }
    ensures read { ReadsConf (E.files etc.old) options.now result }
{
    let mut conf = new(alloc);
    let names = counted_names(alloc, etc, Place::ConfParts)?;
    add_parts(alloc, etc, names.as_slice(), &mut conf)?;
    add_single(alloc, etc, &mut conf)?;
    add_options(alloc, options, &mut conf)?;
    Ok(conf)
}

/// Adds the pairs of the files of apt.conf.d with these names.
fn add_parts<E: Etc>(
    alloc: Global,
    etc: &mut E,
    names: &[Text],
    conf: &mut Conf,
) -> Result<(), ConfigurationError>
    ensures frame { LooksCounting ConfigurationError.Fault E.Etc etc.old etc.new result }
    ensures read { AddsParts (E.files etc.old) conf_parts names.now spec.conf_part conf.old conf.new result }
{
    for name in names {
        add_part(alloc, etc, name, conf)?;
    }
    Ok(())
}

/// Adds the pairs of a file of apt.conf.d.
fn add_part<E: Etc>(
    alloc: Global,
    etc: &mut E,
    name: &Text,
    conf: &mut Conf,
) -> Result<(), ConfigurationError>
    ensures frame { LooksCounting ConfigurationError.Fault E.Etc etc.old etc.new result }
    ensures read { AddsText (E.files etc.old) conf_parts name.now (λ text. spec.conf_part (name.now, text)) conf.old conf.new result }
{
    let file = part(alloc, Place::ConfParts, b"apt.conf.d/", name)?;
    add_file(alloc, etc, file, conf)
}

/// Adds the pairs of apt.conf.
fn add_single<E: Etc>(alloc: Global, etc: &mut E, conf: &mut Conf) -> Result<(), ConfigurationError>
    ensures frame { LooksCounting ConfigurationError.Fault E.Etc etc.old etc.new result }
    ensures read { AddsText (E.files etc.old) conf_place [] spec.conf_text conf.old conf.new result }
{
    let file = single(alloc, Place::Conf, b"apt.conf")?;
    add_file(alloc, etc, file, conf)
}

/// Adds the pairs of a file.
fn add_file<E: Etc>(
    alloc: Global,
    etc: &mut E,
    file: File,
    conf: &mut Conf,
) -> Result<(), ConfigurationError>
    ensures frame { LooksCounting ConfigurationError.Fault E.Etc etc.old etc.new result }
    ensures read { AddsText (E.files etc.old) file.place file.name (λ text. in_conf file.label (pairs_of text)) conf.old conf.new result }
{
    let text = read_text(alloc, etc, &file)?;
    add_text(alloc, file.label, text.as_slice(), conf)
}

/// Adds the pairs of a text.
fn add_text(
    alloc: Global,
    label: Text,
    text: &[u8],
    conf: &mut Conf,
) -> Result<(), ConfigurationError>
    ensures read { Adds (in_conf label (pairs_of text.now)) conf.old conf.new result }
    ensures outside { ¬ (IsErrOf result ConfigurationError.Fault) }
{
    match read_conf(alloc, conf, text) {
        Ok(()) => Ok(()),
        Err(error) => Err(of_conf(label, error)),
    }
}

/// Adds the pairs of options of the command line.
fn add_options(alloc: Global, options: &[Text], conf: &mut Conf) -> Result<(), ConfigurationError>
    ensures read { Adds (spec.all_of spec.option_pair options.now) conf.old conf.new result }
    ensures outside { ¬ (IsErrOf result ConfigurationError.Fault) }
{
    for option in options {
        add_option(alloc, option, conf)?;
    }
    Ok(())
}

/// Adds the pair of an option.
fn add_option(alloc: Global, option: &Text, conf: &mut Conf) -> Result<(), ConfigurationError>
    ensures read { Adds (spec.option_pair option.now) conf.old conf.new result }
    ensures outside { ¬ (IsErrOf result ConfigurationError.Fault) }
{
    match set(alloc, conf, option.as_bytes()) {
        Ok(()) => Ok(()),
        Err(error) => Err(of_conf(Text::from_bytes(alloc, b"-o")?, error)),
    }
}
