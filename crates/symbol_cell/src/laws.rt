// Laws of the sizes.
ghost use Rattle.std.specs.Prelude.{◌*◌, ◌≤◌};
ghost use Rattle.std.specs.List.{sum_by};
ghost use Rattle.bddl_model.specs.Board.{SizedBoard};
ghost use Rattle.bddl_model.specs.Layout.{anchor_bits};
ghost use Rattle.bddl_model.specs.Limits.{IsBoard, IsBoardOf};
ghost use Rattle.symbol_cell.specs.Starts.{filled, cell_gates};
ghost use Rattle.symbol_cell.specs.Steps.{step_gates};

use bddl_model::Side;
use grid_game::Game;

/// A law: how many gates the start and a step take at most, in every game.
pub fn takes_few_gates(game: &Game)
    ensures start { (board : SizedBoard) → IsBoard board → IsBoardOf game.now board → cell_gates (anchor_bits game.now) * sum_by filled board.marks ≤ 114688 }
    ensures step { (side : Side) → step_gates game.now side ≤ 17280 }
{
    game.keeps_the_limits();
}
