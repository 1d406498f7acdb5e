//! Why a text is no URI. It touches nothing and takes no memory.
use acq_base::{NoMemory, Refusal};
use std::error::Error;
use std::fmt;

/// Why a text is no URI of this profile.
#[derive(Clone, Copy, Debug, PartialEq, Eq)]
pub enum UriError {
    /// What stands before the first `:` is neither `http` nor `file`, or there is no `:`.
    Scheme,
    /// The text is no URL, or one that this profile doesn't take.
    BadUri,
    /// Memory ran out.
    NoMemory,
}

impl fmt::Display for UriError {
    fn fmt<W: fmt::Write>(&self, f: &mut fmt::Formatter<W>) -> fmt::Result {
        f.write_str(match self {
            UriError::Scheme => "the scheme is neither http nor file",
            UriError::BadUri => "not a URI that can be fetched",
            UriError::NoMemory => "out of memory",
        })
    }
}

impl Error for UriError {}

impl From<NoMemory> for UriError {
    ghost use Rattle.std.specs.Prelude.{◌≡◌};
    ghost use Rattle.uri_names.specs.declared.error.UriError.TheVariants.{NoMemory};

    ghost from_gives = { λ _ error. error ≡ NoMemory };

    fn from(_error: NoMemory) -> UriError {
        UriError::NoMemory
    }
}

impl Refusal for UriError {
    ghost use Rattle.uri_names.specs.Errors.{refusal_number};

    ghost number = { refusal_number };

    ghost line = { λ _. 0 };

    fn number(&self) -> u32 {
        match self {
            UriError::Scheme => 7,
            UriError::BadUri => 6,
            UriError::NoMemory => 0,
        }
    }

    fn line(&self) -> u64 {
        0
    }
}
