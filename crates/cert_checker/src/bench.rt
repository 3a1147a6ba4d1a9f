// What a check works with.
ghost use Rattle.std.specs.Prelude.{IfOk};
ghost use Rattle.cert_checker.specs.Benches.{IsBench};

use bddl_model::NoMemory;
use grid_game::{Board, MoveList};
use offset_check::Setup;
use std::alloc::Global;

/// Boards of the game, and room for its moves. A check takes them once.
#[derive(Drop)]
pub struct Bench {
    /// The board of the node that is checked.
    pub here: Board,
    /// The board behind one of its answers.
    pub behind: Board,
    /// The board of the node that the answer names, as it is known.
    pub known: Board,
    pub moves: MoveList,
}

impl Bench {
    pub fn for_setup(alloc: Global, setup: &Setup) -> Result<Bench, NoMemory>
        ensures { IfOk result (IsBench setup.now.game) }
    {
        Ok(Bench {
            here: setup.board.copy()?,
            behind: setup.board.copy()?,
            known: setup.board.copy()?,
            moves: MoveList::for_game(alloc, &setup.game)?,
        })
    }
}
