//! Whether pieces are the wanted file. It touches nothing and takes no memory.

ghost use Rattle.std.specs.Prelude.{◌≡◌, ◌↔◌, ℕ, ◌+◌, List, [], ◌++◌, option_and_then};
ghost use Rattle.acq_base.specs.Sum.{Fits, sum_of};
ghost use Rattle.hash_gate.specs.Pieces.{HasTaken, count_within};
ghost use Rattle.hash_gate.specs.Verdict.{verdict};

use crate::Verdict;
use acq_base::{Sha, Sum};
use sha2::{Digest, Sha256};

/// Compares a file with the sum that it should have, piece by piece.
#[derive(Drop)]
pub struct Gate {
    wanted: Sum,
    /// How many bytes came, `None` where they are more than are wanted.
    count: Option<u64>,
    hasher: Sha256,
}

impl Gate {
    /// A gate for the file of this sum, before the first piece.
    pub fn new(sum: Sum) -> Gate
        ensures { HasTaken result sum [] }
    {
        Gate {
            wanted: sum,
            count: Some(0),
            hasher: Sha256::new(),
        }
    }

    /// Takes the file's next bytes. There may be any number of them.
    pub fn feed(&mut self, piece: &[u8])
        ensures { (sum : Sum) (bytes : List ℕ) → HasTaken self.old sum bytes → HasTaken self.new sum (bytes ++ piece.now) }
    {
        self.count = counted(self.count, piece.len() as u64, self.wanted.size);
        self.hasher.update(piece);
    }

    /// The verdict on all pieces together.
    pub fn end(self) -> Verdict
        ensures verdict { (sum : Sum) (bytes : List ℕ) → HasTaken self sum bytes → result ≡ verdict sum (sum_of bytes) }
        ensures fits { (sum : Sum) (bytes : List ℕ) → HasTaken self sum bytes → (result ≡ Verdict.Fits) ↔ Fits bytes sum }
    {
        let sha = Sha(self.hasher.finalize());
        match self.count {
            None => Verdict::Long,
            Some(count) if count < self.wanted.size => Verdict::Short(count),
            Some(_) if sha == self.wanted.sha => Verdict::Fits,
            Some(_) => Verdict::Differs(sha),
        }
    }
}

/// The count with so many bytes more, where it stays within the limit.
fn counted(count: Option<u64>, more: u64, limit: u64) -> Option<u64>
    ensures { result ≡ option_and_then (λ n. count_within limit (n + more)) count }
{
    let count = count?.checked_add(more)?;
    if count <= limit { Some(count) } else { None }
}
