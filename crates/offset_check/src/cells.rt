// The cells of the start board.
ghost use Rattle.std.specs.Prelude.{◌≡◌, ◌≤◌, length, OnOk};
ghost use Rattle.bddl_model.specs.Check.{cells_fault, cell_fault};
ghost use Rattle.bddl_model.specs.Setup.{marked};
ghost use Rattle.offset_check.specs.Checks.{Checks};
ghost use Rattle.offset_check.specs.Named.{Shows};

use bddl_model::{CheckFault, InitAtom, Item, Mark};
use grid_game::Board;
use std::alloc::Global;

// A cell is on the board, and none before it, which are those that `named` shows, is the same.
fn check_cell(named: &Board, earlier: &[InitAtom], cell: InitAtom) -> Result<(), CheckFault>
    requires few { length earlier.now ≤ 4096 }
    requires shows { Shows named.now earlier.now }
    ensures { Checks (cell_fault named.now.width named.now.height earlier.now cell) result }
{
    let item = Item::Init {
        number: earlier.len() as u32 + 1,
    };
    if cell.x < 1 || named.width() < cell.x {
        return Err(CheckFault::NumberOffBoard { item, said: cell.x });
    }
    if cell.y < 1 || named.height() < cell.y {
        return Err(CheckFault::NumberOffBoard { item, said: cell.y });
    }
    if named.at(cell.x, cell.y) != Mark::Free {
        return Err(CheckFault::CellTwice {
            item,
            x: cell.x,
            y: cell.y,
        });
    }
    Ok(())
}

/// Marks the cells on a board, if there is no fault.
pub fn mark_cells(alloc: Global, board: &mut Board, cells: &[InitAtom]) -> Result<(), CheckFault>
    ensures checks { Checks (cells_fault board.old.width board.old.height cells.now) result }
    ensures marked { OnOk result (board.new ≡ record board.old { marks = marked board.old.width cells.now board.old.marks }) }
{
    let (width, height) = (board.width(), board.height());
    let mut named = Board::free(alloc, width, height)?;
    for (i, cell) in cells.iter().enumerate() {
        check_cell(&named, &cells[..i], *cell)?;
        named.set(cell.x, cell.y, Mark::Black);
        board.set(cell.x, cell.y, cell.mark);
    }
    Ok(())
}
