//! Sums of files. Nothing here takes memory.

ghost use Rattle.std.specs.Prelude.{◌≡◌, ◌↔◌, IsErrOf, IsOk};
ghost use Rattle.acq_base.specs.Digits.{IsNumber};
ghost use Rattle.acq_base.specs.Sum.{sum_of as summed, sum_of_texts, IsHash};

use crate::{NoMemory, Refusal, TryCopy, read_digits};
use sha2::{Digest, Sha256};
use std::alloc::Global;
use std::error::Error;
use std::fmt;

/// A SHA-256 digest (FIPS 180-4).
#[derive(Clone, Copy, Debug, PartialEq, Eq)]
pub struct Sha(pub [u8; 32]);

/// What a file is known by: its length in bytes and its digest.
#[derive(Clone, Copy, Debug, PartialEq, Eq)]
pub struct Sum {
    pub size: u64,
    pub sha: Sha,
}

impl TryCopy for Sum {
    fn copy(&self, _alloc: Global) -> Result<Sum, NoMemory> {
        Ok(*self)
    }
}

/// Why two texts are no sum.
#[derive(Clone, Copy, Debug, PartialEq, Eq)]
pub enum SumError {
    /// The hash isn't 64 hexadecimal digits.
    BadHash,
    /// The size isn't 1 to 20 decimal digits of a number below 2^64.
    BadSize,
}

impl fmt::Display for SumError {
    fn fmt<W: fmt::Write>(&self, f: &mut fmt::Formatter<W>) -> fmt::Result {
        f.write_str(match self {
            SumError::BadHash => "the hash isn't 64 hexadecimal digits",
            SumError::BadSize => "the size isn't a decimal number below 2^64",
        })
    }
}

impl Error for SumError {}

impl Refusal for SumError {
    ghost use Rattle.std.specs.Prelude.{ℕ};
    ghost use Rattle.acq_base.specs.Sum.{refusal_number};

    ghost number = { refusal_number };

    ghost line = { λ _. 0 };

    fn number(&self) -> u32 {
        match self {
            SumError::BadHash => 1,
            SumError::BadSize => 2,
        }
    }

    fn line(&self) -> u64 {
        0
    }
}

/// The sum of a file's bytes. It takes no memory.
pub fn sum_of(bytes: &[u8]) -> Sum
    ensures { result ≡ summed bytes.now }
{
    Sum {
        size: bytes.len() as u64,
        sha: Sha(Sha256::digest(bytes)),
    }
}

/// Reads a sum as releases and indexes write it: the digest in hexadecimal digits of either case, the size in decimal.
///
/// Where both texts are wrong, the hash is named. It takes no memory.
pub fn read_sum(hash: &[u8], size: &[u8]) -> Result<Sum, SumError>
    ensures value { result ≡ sum_of_texts hash.now size.now }
    ensures ok { IsOk result ↔ (IsHash hash.now × IsNumber size.now) }
    ensures bad_hash { IsErrOf result SumError.BadHash ↔ (IsHash hash.now → ⊥) }
{
    let mut sha = [0; 32];
    if hex::decode_to_slice(hash, &mut sha).is_err() {
        return Err(SumError::BadHash);
    }
    match read_digits(size) {
        Some(size) => Ok(Sum {
            size,
            sha: Sha(sha),
        }),
        None => Err(SumError::BadSize),
    }
}
