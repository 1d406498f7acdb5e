//! Why serving stopped.
ghost use Rattle.std.specs.Prelude.{◌≡◌};
ghost use Rattle.tree_serve.specs.Frame.{serve_error_of};
ghost use Rattle.tree_serve.specs.declared.error.ServeError.TheVariants.{NoMemory as no_memory};

use acq_base::NoMemory;
use acq_outside::OutError;
use std::alloc::AllocError;
use std::error::Error;
use std::fmt;

/// Why a connection wasn't served to its end.
#[derive(Clone, Copy, Debug, PartialEq, Eq)]
pub enum ServeError {
    /// The port failed, and its count of faults rose.
    PortFault,
    /// The tree failed, and its count of faults rose.
    TreeFault,
    /// A file of `size` bytes ended behind the first `got` of them. A tree that tells its files has no such file.
    Shrunk { size: u64, got: u64 },
    /// Memory ran out.
    NoMemory,
}

/// Why a server stopped before it had served as many connections as it should.
#[derive(Clone, Copy, Debug, PartialEq, Eq)]
pub enum Stop {
    /// The port couldn't listen or accept, and its count `lost` rose.
    Port,
    /// Memory ran out.
    NoMemory,
}

impl fmt::Display for ServeError {
    fn fmt<W: fmt::Write>(&self, f: &mut fmt::Formatter<W>) -> fmt::Result {
        f.write_str(match self {
            ServeError::PortFault => "the connection failed",
            ServeError::TreeFault => "the served files failed",
            ServeError::Shrunk { size: _, got: _ } => "a file became shorter while it was sent",
            ServeError::NoMemory => "out of memory",
        })
    }
}

impl Error for ServeError {}

impl fmt::Display for Stop {
    fn fmt<W: fmt::Write>(&self, f: &mut fmt::Formatter<W>) -> fmt::Result {
        f.write_str(match self {
            Stop::Port => "the port couldn't listen or accept",
            Stop::NoMemory => "out of memory",
        })
    }
}

impl Error for Stop {}

impl From<OutError> for ServeError {
    ghost from_gives = { λ told error. error ≡ serve_error_of told };

    fn from(told: OutError) -> ServeError {
        match told {
            OutError::Fault => ServeError::TreeFault,
            OutError::NoMemory => ServeError::NoMemory,
        }
    }
}

impl From<NoMemory> for ServeError {
    ghost from_gives = { λ _ error. error ≡ no_memory };

    fn from(_want: NoMemory) -> ServeError {
        ServeError::NoMemory
    }
}

impl From<AllocError> for ServeError {
    ghost from_gives = { λ _ error. error ≡ no_memory };

    fn from(_error: AllocError) -> ServeError {
        ServeError::NoMemory
    }
}
