//! What is told where a program can't read what it was started with.
ghost use Rattle.std.specs.Prelude.{◌≡◌};
ghost use Rattle.start_values.specs.Refused.{line_of, status_of};

/// Why a program ends before its words are looked at.
#[derive(Clone, Copy, Debug, PartialEq, Eq)]
pub enum Refused {
    /// A word isn't UTF-8.
    Words,
    /// The variable of a folder is set and empty, or isn't UTF-8.
    Environment,
    NoMemory,
}

impl Refused {
    /// The line that tells it.
    pub fn line(self) -> &'static str
        ensures { result.now ≡ line_of self }
    {
        match self {
            Refused::Words => "E words\n",
            Refused::Environment => "E environment\n",
            Refused::NoMemory => "E memory\n",
        }
    }

    /// The exit status that goes with it.
    pub fn status(self) -> u8
        ensures { result ≡ status_of self }
    {
        match self {
            Refused::Words | Refused::Environment => 100,
            Refused::NoMemory => 103,
        }
    }
}
