//! What a request is answered.

/// An answer. Its numbers count bytes.
#[derive(Clone, Copy, Debug, PartialEq, Eq)]
pub enum Answer {
    /// 400: the request isn't one that this server answers, or none can come.
    Bad,
    /// 405: what is asked to be done with the file.
    NotAllowed,
    /// 404: no file is there that is served.
    NotFound,
    /// 206: the file's bytes from one of them on.
    Part { from: u64, size: u64 },
    /// 416: the part that is asked for begins behind the file's last byte.
    Beyond { size: u64 },
    /// 200: the file.
    Whole { size: u64 },
}
