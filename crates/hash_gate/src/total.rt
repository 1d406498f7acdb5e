//! The sum of pieces. It touches nothing and takes no memory.

ghost use Rattle.std.specs.Prelude.{◌≡◌, ◌+◌, ◌<◌, ◌^◌, ℕ, List, [], ◌++◌, length};
ghost use Rattle.acq_base.specs.Sum.{sum_of};
ghost use Rattle.hash_gate.specs.Pieces.{HasSummed, size_so_far};

use acq_base::{Sha, Sum};
use sha2::{Digest, Sha256};

/// The sum of a file that comes in pieces.
#[derive(Drop)]
pub struct Total {
    size: u64,
    hasher: Sha256,
}

impl Total {
    /// A total before the first piece.
    pub fn new() -> Total
        ensures nothing { HasSummed result [] }
        ensures size { size_so_far result ≡ 0 }
    {
        Total {
            size: 0,
            hasher: Sha256::new(),
        }
    }

    /// Takes the file's next bytes. All pieces together have fewer than 2^64 bytes.
    pub fn feed(&mut self, piece: &[u8])
        requires { size_so_far self.old + length piece.now < 2 ^ 64 }
        ensures taken { (bytes : List ℕ) → HasSummed self.old bytes → HasSummed self.new (bytes ++ piece.now) }
        ensures size { size_so_far self.new ≡ size_so_far self.old + length piece.now }
    {
        self.size += piece.len() as u64;
        self.hasher.update(piece);
    }

    /// The sum of all pieces together.
    pub fn sum(self) -> Sum
        ensures { (bytes : List ℕ) → HasSummed self bytes → result ≡ sum_of bytes }
    {
        Sum {
            size: self.size,
            sha: Sha(self.hasher.finalize()),
        }
    }
}
