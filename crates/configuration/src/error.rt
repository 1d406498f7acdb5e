//! Why a configuration is refused. It touches nothing and takes no memory.

ghost use Rattle.std.specs.Prelude.{◌≡◌};
ghost use Rattle.configuration.specs.Refusals as refusals;
ghost use Rattle.configuration.specs.declared.error.ConfigurationError.TheVariants.{Fault as etc_failed, NoMemory as no_memory};

use acq_base::{ListName, NoMemory as OutOfMemory, Refusal, Text};
use acq_outside::OutError;
use apt_conf::ConfError;
use source_lists::ListError;
use std::alloc::AllocFailed;
use std::error::Error;
use std::fmt;
use target_plan::{Place, PlanError};

/// Why there is no configuration.
#[derive(Debug, PartialEq, Drop)]
pub enum ConfigurationError {
    /// A file, an option or a setting is refused.
    Conf {
        /// `apt.conf`, `apt.conf.d/NAME`, `sources.list`, `sources.list.d/NAME`, `-o` for an option of the command line,
        /// or the key of a setting whose value isn't allowed.
        file: Text,
        /// The refusal's number: that of apt_conf's or of source_lists' error.
        number: u32,
        /// The line, counted from 1, or 0 where the refusal has none.
        line: u64,
    },
    /// This list name has more than 240 bytes.
    LongName(ListName),
    /// Two sources have a file of one name: where the entries stand that first gave each, in plan order.
    Clash {
        first: Place,
        second: Place,
    },
    /// There are more than 4,096 sources and targets together.
    TooMany,
    /// The configuration folder failed, and its count of faults rose.
    Fault,
    /// Memory ran out.
    NoMemory,
}

impl fmt::Display for ConfigurationError {
    fn fmt<W: fmt::Write>(&self, f: &mut fmt::Formatter<W>) -> fmt::Result {
        f.write_str(match self {
            ConfigurationError::Conf { .. } => "a text of the configuration is refused",
            ConfigurationError::LongName(_) => "a list name has more than 240 bytes",
            ConfigurationError::Clash { .. } => "two sources have a file of one name",
            ConfigurationError::TooMany => "there are more than 4096 sources and targets",
            ConfigurationError::Fault => "the configuration folder failed",
            ConfigurationError::NoMemory => "out of memory",
        })
    }
}

impl Error for ConfigurationError {}

impl From<OutOfMemory> for ConfigurationError {
    ghost from_gives = { λ _ e. e ≡ no_memory };

    fn from(_error: OutOfMemory) -> ConfigurationError {
        ConfigurationError::NoMemory
    }
}

impl<T: Drop> From<AllocFailed<T>> for ConfigurationError {
    ghost from_gives = { λ _ e. e ≡ no_memory };

    fn from(_error: AllocFailed<T>) -> ConfigurationError {
        ConfigurationError::NoMemory
    }
}

impl From<OutError> for ConfigurationError {
    ghost use Rattle.configuration.specs.Refusals.{of_outside};

    ghost from_gives = { λ error e. e ≡ of_outside error };

    fn from(error: OutError) -> ConfigurationError {
        match error {
            OutError::Fault => ConfigurationError::Fault,
            OutError::NoMemory => ConfigurationError::NoMemory,
        }
    }
}

impl From<PlanError> for ConfigurationError {
    ghost use Rattle.configuration.specs.Refusals.{of_plan};

    ghost from_gives = { λ error e. e ≡ of_plan error };

    fn from(error: PlanError) -> ConfigurationError {
        match error {
            PlanError::LongName(name) => ConfigurationError::LongName(name),
            PlanError::Clash { first, second } => ConfigurationError::Clash { first, second },
            PlanError::TooMany => ConfigurationError::TooMany,
            PlanError::NoMemory => ConfigurationError::NoMemory,
        }
    }
}

/// The refusal of a file of apt.conf(5), or of a value.
pub fn of_conf(file: Text, error: ConfError) -> ConfigurationError
    ensures { result ≡ refusals.of_conf file error }
{
    let number = error.number();
    let line = error.line();
    match error {
        ConfError::BadValue(key) => ConfigurationError::Conf {
            file: key,
            number,
            line,
        },
        ConfError::NoMemory => ConfigurationError::NoMemory,
        ConfError::LongFile | ConfError::BadConf(_) => {
            ConfigurationError::Conf { file, number, line }
        }
    }
}

/// The refusal of a sources list.
pub fn of_list(file: Text, error: ListError) -> ConfigurationError
    ensures { result ≡ refusals.of_list file error }
{
    match error {
        ListError::NoMemory => ConfigurationError::NoMemory,
        _ => ConfigurationError::Conf {
            file,
            number: error.number(),
            line: error.line(),
        },
    }
}

impl Refusal for ConfigurationError {
    ghost use Rattle.configuration.specs.Refusals.{refusal_number, refusal_line};

    ghost number = { refusal_number };

    ghost line = { refusal_line };

    fn number(&self) -> u32 {
        match self {
            ConfigurationError::Conf { number, .. } => *number,
            ConfigurationError::LongName(_) => 36,
            ConfigurationError::Clash { .. } => 22,
            ConfigurationError::TooMany => 23,
            ConfigurationError::Fault | ConfigurationError::NoMemory => 0,
        }
    }

    /// The line of the text that is refused; a plan has none.
    fn line(&self) -> u64 {
        match self {
            ConfigurationError::Conf { line, .. } => *line,
            _ => 0,
        }
    }
}
