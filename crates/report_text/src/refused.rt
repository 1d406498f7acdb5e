//! The line of a configuration that is refused. It touches nothing and takes no memory.

use crate::FaultLine;
use configuration::ConfigurationError;

/// The line that stands in place of a report where there is no configuration.
impl From<ConfigurationError> for FaultLine {
    ghost use Rattle.std.specs.Prelude.{◌≡◌};
    ghost use Rattle.report_text.specs.Refused.{line_of};

    ghost from_gives = { λ refusal line. line ≡ line_of refusal };

    fn from(refusal: ConfigurationError) -> FaultLine {
        match refusal {
            ConfigurationError::Conf { file, number, line } => {
                FaultLine::Conf { file, number, line }
            }
            ConfigurationError::LongName(name) => FaultLine::LongName(name),
            ConfigurationError::Clash { first, second } => FaultLine::Clash {
                first: first.file,
                first_line: first.line,
                second: second.file,
                second_line: second.line,
            },
            ConfigurationError::TooMany => FaultLine::TooMany,
            ConfigurationError::Fault => FaultLine::Etc,
            ConfigurationError::NoMemory => FaultLine::Memory,
        }
    }
}
