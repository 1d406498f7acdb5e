//! How serving an input ends. Nothing here takes memory.

ghost use Rattle.std.specs.Prelude.{◌≡◌};
ghost use Rattle.method_server.specs.Serving.{status_of};
ghost use Rattle.method_server.specs.Taking.{end_of_stop};

use acq_base::NoMemory as OutOfMemory;
use acq_outside::OutError;

/// How serving an input ended.
#[derive(Clone, Copy, Debug, PartialEq, Eq)]
pub enum ServeEnd {
    /// The input was read to its end, outside a message.
    Whole,
    /// The stream was refused, or the input ended within a message, and that was said.
    Broken,
    /// The files failed.
    Files,
    /// Memory ran out.
    Memory,
    /// The output failed.
    Output,
    /// The input failed.
    Input,
    /// 1,099,511,627,776 bytes were read, and none of the reads gave the end.
    Full,
}

impl ServeEnd {
    /// The status of a program that ends so.
    pub fn status(self) -> u8
        ensures { result ≡ status_of self }
    {
        match self {
            ServeEnd::Whole => 0,
            ServeEnd::Broken => 100,
            ServeEnd::Files => 102,
            ServeEnd::Memory => 103,
            ServeEnd::Output => 105,
            ServeEnd::Input => 107,
            ServeEnd::Full => 109,
        }
    }
}

/// Why an answer could not be given.
#[derive(Clone, Copy, Debug, PartialEq, Eq)]
pub enum Stop {
    /// The files failed.
    Files,
    /// Memory ran out.
    Memory,
    /// The output failed.
    Output,
}

impl Stop {
    /// The end that it brings.
    pub fn end(self) -> ServeEnd
        ensures { result ≡ end_of_stop self }
    {
        match self {
            Stop::Files => ServeEnd::Files,
            Stop::Memory => ServeEnd::Memory,
            Stop::Output => ServeEnd::Output,
        }
    }
}

impl From<OutOfMemory> for Stop {
    ghost use Rattle.std.specs.Prelude.{◌≡◌};
    ghost use Rattle.method_server.specs.declared.end.Stop.TheVariants.{Memory};

    ghost from_gives = { λ _ stop. stop ≡ Memory };

    fn from(_want: OutOfMemory) -> Stop {
        Stop::Memory
    }
}

impl From<OutError> for Stop {
    ghost use Rattle.std.specs.Prelude.{◌≡◌};
    ghost use Rattle.method_server.specs.Taking.{stop_of};

    ghost from_gives = { λ error stop. stop ≡ stop_of error };

    fn from(error: OutError) -> Stop {
        match error {
            OutError::Fault => Stop::Files,
            OutError::NoMemory => Stop::Memory,
        }
    }
}
