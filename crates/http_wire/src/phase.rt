//! Which part of a response is being read.

/// The part that the next byte belongs to.
#[derive(Clone, Copy, Debug, PartialEq, Eq)]
pub enum Phase {
    /// A head, behind so many interim ones.
    Heads(u8),
    /// A body of which so many bytes are to come.
    Counted(u64),
    /// A body that ends with the connection.
    Unbounded,
    /// A chunk's size line.
    SizeLine,
    /// A chunk, of which so many bytes are to come.
    Chunk(u64),
    /// The carriage return behind a chunk.
    ChunkCr,
    /// The line feed behind a chunk.
    ChunkLf,
    /// The trailers.
    Trailing,
}
