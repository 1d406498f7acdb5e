//! One piece of a file, read from any tree.
ghost use Rattle.std.specs.Prelude.{◌≡◌, ◌≤◌, IfOk, IfSome, length};
ghost use Rattle.acq_outside.specs.Frame.{LooksCountingBy};
ghost use Rattle.acq_outside.specs.Tree.{file_at};
ghost use Rattle.file_method.specs.Piece.{IsPart, word_of};

use acq_base::{Bytes, Text};
use acq_outside::{OutError, Tree, Word};
use std::alloc::Global;

/// The most bytes of a piece.
const MOST: u64 = 65_536;

/// Reads bytes of a file from a place on, at most `most` and at most 65,536. A fault comes only where the tree's count of
/// faults rose.
#[tactic(auto, using(crate::proofs::Pieces::part_read))]
pub fn read_piece<T: Tree>(
    alloc: Global,
    tree: &mut T,
    path: &Text,
    at: u64,
    most: u64,
) -> Result<Bytes, OutError>
    ensures frame { LooksCountingBy OutError.Fault T.faults T.files tree.old tree.new result }
    ensures small { IfOk result (λ bytes. length bytes ≤ 65536) }
    ensures within { IfOk result (λ bytes. length bytes ≤ most) }
    ensures told { IfSome (T.files tree.old) (λ all. IfOk result (IsPart (file_at all path.now) at most)) }
{
    let want = most.min(MOST) as usize;
    if want == 0 {
        return Ok(Bytes::new(alloc));
    }
    let mut bytes = vec![in alloc; 0u8; want]?;
    let n = tree.read_at(path, at, bytes.as_mut_slice())?;
    bytes.truncate(n);
    Ok(Bytes::from(bytes))
}

/// A piece of these bytes, or the end where there are none.
pub fn word_of(at: u64, bytes: Bytes) -> Word
    ensures { result ≡ word_of at bytes }
{
    if bytes.is_empty() {
        Word::Done { size: at }
    } else {
        Word::Piece { at, bytes }
    }
}
