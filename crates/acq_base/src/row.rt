//! Rows of values, which contracts see as lists.

ghost use Rattle.std.specs.Prelude.{◌≡◌, ◌++◌, ◌∷◌, [], length, MatchResult, nat_eq};

use crate::{NoMemory, TryCopy};
use std::alloc::Global;
use std::marker::Model;

/// A row of cells in order. Contracts see the list of the cells.
#[derive(Debug, Drop)]
pub struct Row<T> {
    cells: Vec<T>,
}

/// Bytes of a file or of a message.
pub type Bytes = Row<u8>;

impl<T> Model for Row<T> {
    ghost use Rattle.std.specs.Prelude.{List};

    ghost Value = { List T };

    ghost view = { λ row. row.cells.items };
}

impl<T> Row<T> {
    /// The row without cells.
    pub fn new(alloc: Global) -> Row<T>
        ensures { result ≡ [] }
    {
        Row {
            cells: Vec::new(alloc),
        }
    }

    /// The cells of the row.
    pub fn as_slice(&self) -> &[T]
        ensures { result.now ≡ self.now }
    {
        self.cells.as_slice()
    }

    /// Appends a cell. Without memory the row stays as it was, and the cell is dropped.
    pub fn push(&mut self, cell: T) -> Result<(), NoMemory>
    where
        T: Drop,
        ensures { MatchResult result (λ _. self.new ≡ self.old ++ cell ∷ []) (λ _. self.new ≡ self.old) }
    {
        self.cells.push(cell)?;
        Ok(())
    }

    /// Appends copies of cells. Without memory the row stays as it was.
    pub fn append(&mut self, cells: &[T]) -> Result<(), NoMemory>
    where
        T: Copy,
        ensures { MatchResult result (λ _. self.new ≡ self.old ++ cells.now) (λ _. self.new ≡ self.old) }
    {
        self.cells.extend_from_slice(cells)?;
        Ok(())
    }

    /// The cells, which move out of the row.
    pub fn into_vec(self) -> Vec<T>
        ensures { result.items ≡ self }
    {
        self.cells
    }

    /// How many cells the row has.
    pub fn len(&self) -> usize
        ensures { result ≡ length self.now }
    {
        self.cells.len()
    }

    /// Whether the row has no cell.
    pub fn is_empty(&self) -> bool
        ensures { result ≡ nat_eq (length self.now) 0 }
    {
        self.cells.is_empty()
    }
}

impl<T> From<Vec<T>> for Row<T> {
    ghost from_gives = { λ cells row. row ≡ cells.items };

    fn from(cells: Vec<T>) -> Row<T> {
        Row { cells }
    }
}

impl<T: TryCopy + Drop> TryCopy for Row<T> {
    fn copy(&self, alloc: Global) -> Result<Row<T>, NoMemory> {
        let mut copy = Row::new(alloc);
        for cell in self.as_slice() {
            copy.push(cell.copy(alloc)?)?;
        }
        Ok(copy)
    }
}

impl<T: PartialEq> PartialEq for Row<T> {
    ghost use Rattle.std.specs.Cmp.Lexicographic.{pointwise};
    ghost use Rattle.std.specs.Cmp.Rules.{comparing};
    ghost use Rattle.std.proofs.Common.{rules};

    ghost eq = { λ a b. pointwise T.eq a b };

    ghost laws = { Prim.search (comparing, rules) };

    fn eq(&self, other: &Row<T>) -> bool {
        self.cells.as_slice() == other.cells.as_slice()
    }
}
