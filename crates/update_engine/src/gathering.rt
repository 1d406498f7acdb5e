//! The changes of all sources that are ready, for one commit.
ghost use Rattle.std.specs.Prelude.{◌≡◌, None, IfOk, OnOk, Some};
ghost use Rattle.board_model.specs.Boards.{first_ready};
ghost use Rattle.update_core.specs.BoardRefinement.{board_of};
ghost use Rattle.update_engine.specs.Session.{GathersChanges, GathersChangesOf, HasSettled, OnlySettles};

use crate::settling::{changes_from, is_new};
use acq_base::{NoMemory, Row};
use commit_journal::Change;
use std::alloc::Global;
use update_core::Board;

/// Settles all sources that are ready, in plan order: the changes of those that came to new sets.
#[tactic(auto, using(crate::proofs::OnBoards::only_none, crate::proofs::Gathered::gathers_none))]
pub fn gather(alloc: Global, board: &mut Board) -> Result<Row<Row<Change>>, NoMemory>
    ensures none { OnOk result (first_ready (board_of board.new).slots ≡ None) }
    ensures only { OnOk result (OnlySettles (board_of board.old) (board_of board.new)) }
    ensures goes { IfOk result (GathersChanges (board_of board.old) (board_of board.new)) }
{
    let mut groups = Row::new(alloc);
    'ready: while let Some(place) = board.ready() {
        gather_ready(alloc, board, place, &mut groups)?;
    }
    Ok(groups)
}

/// Settles the first source that is ready, and adds its changes where it came to a new set.
fn gather_ready(
    alloc: Global,
    board: &mut Board,
    place: u32,
    groups: &mut Row<Row<Change>>,
) -> Result<(), NoMemory>
    requires { first_ready (board_of board.old).slots ≡ Some place }
    ensures settled { OnOk result (HasSettled place (board_of board.old) (board_of board.new)) }
    ensures goes { OnOk result (GathersChangesOf place (board_of board.old) (board_of board.new) groups.old groups.new) }
{
    let settled = board.settle(alloc, place)?;
    if !is_new(&settled.verdict) {
        drop(settled);
        return Ok(());
    }
    let changes = changes_from(alloc, board, place, settled)?;
    groups.push(changes)?;
    Ok(())
}
