//! How the reading of a response ends.

use acq_base::Bytes;

/// What a response came to.
#[derive(Debug, PartialEq, Drop)]
pub enum Response {
    /// The body is whole, and the connection is kept behind it or not.
    Served(bool),
    /// The file isn't there, with the HTTP status.
    Absent(u16),
    /// The file is elsewhere, at this place.
    Moved(Bytes),
    /// The body has more bytes than are wanted.
    TooBig,
    /// The peer broke its protocol at this byte of its stream.
    Garbled(u64),
}

/// Where the reading of a response stands.
#[derive(Clone, Copy, Debug, PartialEq, Eq)]
pub enum State {
    /// More bytes are wanted.
    More,
    /// The response is whole. `keep` tells whether the connection may serve another request.
    Done { keep: bool },
    /// The body has more bytes than are wanted.
    TooBig,
    /// The peer broke its protocol at this byte of its stream.
    Garbled(u64),
}
