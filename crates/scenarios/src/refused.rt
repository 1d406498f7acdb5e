//! Why a line or a run is refused.

use acq_base::NoMemory;
use acq_outside::OutError;
use case_words::Page;
use std::alloc::{AllocError, AllocFailed};
use std::{fmt, str};
use uri_names::UriError;

/// Why a line or a run is refused.
#[derive(Clone, Copy)]
pub enum Refused {
    /// The line has none of the forms.
    Line,
    /// A word of the command line, or a URI's text, isn't UTF-8.
    NotText,
    /// A URI is none of this profile.
    NoUri,
    /// Two files of one folder have the same name, or a name is none of a file.
    Names,
    /// The files are served in more than one way, or by fewer than 1 or more than 9 methods.
    Methods,
    /// A folder couldn't be read where no call of it was to fail.
    Unread,
    /// A scenario has words and calls of the lists folder.
    Mixed,
    /// A call of the lists folder isn't one that may be made.
    Call,
    /// A journal couldn't be opened after a stop.
    Unopened,
    /// A run has not come to its end after many calls of the lists folder.
    Endless,
    /// The configuration is refused.
    Configuration,
    /// What is given begins no board or item, or leads it nowhere.
    Board,
    /// Memory ran out.
    NoMemory,
}

impl fmt::Display for Refused {
    fn fmt<W: fmt::Write>(&self, f: &mut fmt::Formatter<W>) -> fmt::Result {
        f.write_str(match self {
            Refused::Line => "no line of a scenario",
            Refused::NotText => "no UTF-8",
            Refused::NoUri => "no URI of this profile",
            Refused::Names => "two files of one name, or no name of a file",
            Refused::Methods => "files are served in one way, by 1 to 9 methods",
            Refused::Unread => "a folder that can't be read",
            Refused::Mixed => "calls stand in place of a run",
            Refused::Call => "a call that can't be made",
            Refused::Unopened => "a journal that can't be opened",
            Refused::Endless => "a run without an end",
            Refused::Configuration => "the configuration is refused",
            Refused::Board => "no board of it",
            Refused::NoMemory => "out of memory",
        })
    }
}

impl From<NoMemory> for Refused {
    fn from(_error: NoMemory) -> Refused {
        Refused::NoMemory
    }
}

impl From<AllocError> for Refused {
    fn from(_error: AllocError) -> Refused {
        Refused::NoMemory
    }
}

impl<T: Drop> From<AllocFailed<T>> for Refused {
    fn from(_error: AllocFailed<T>) -> Refused {
        Refused::NoMemory
    }
}

impl From<UriError> for Refused {
    fn from(error: UriError) -> Refused {
        match error {
            UriError::NoMemory => Refused::NoMemory,
            _ => Refused::NoUri,
        }
    }
}

impl From<OutError> for Refused {
    fn from(error: OutError) -> Refused {
        match error {
            OutError::NoMemory => Refused::NoMemory,
            OutError::Fault => Refused::Unread,
        }
    }
}

/// What a line says, where its reader takes it.
pub fn said<T, E: Drop>(read: Result<T, E>) -> Result<T, Refused> {
    match read {
        Ok(value) => Ok(value),
        Err(_) => Err(Refused::Line),
    }
}

/// A text of these bytes.
pub fn utf8(bytes: &[u8]) -> Result<&str, Refused> {
    match str::from_utf8(bytes) {
        Ok(text) => Ok(text),
        Err(_) => Err(Refused::NotText),
    }
}

/// The text of a page, where memory sufficed for it.
pub fn finished(page: Page) -> Result<String, Refused> {
    match page.finish() {
        Ok(text) => Ok(text),
        Err(_) => Err(Refused::NoMemory),
    }
}
