//! What is told of a file beside the wanted sum.

use acq_base::Sha;

/// How a file compares with the sum that it should have: the length counts first, then the digest.
#[derive(Clone, Copy, Debug, PartialEq, Eq)]
pub enum Verdict {
    /// It is the file that the sum names.
    Fits,
    /// It has fewer bytes, this many.
    Short(u64),
    /// It has more bytes.
    Long,
    /// Its length is right, and this is its SHA-256 digest (FIPS 180-4), which isn't the wanted one.
    Differs(Sha),
}
