// Goals.
ghost use Rattle.std.specs.Prelude.{◌≡◌, ◌≤◌};
ghost use Rattle.std.specs.List.{list_any, range_with_len};
ghost use Rattle.bddl_model.specs.Game.{Game, line_atoms};
ghost use Rattle.bddl_model.specs.Limits.{IsBoardOf};
ghost use Rattle.bddl_model.specs.Rectangle.{IsRectOf};
ghost use Rattle.bddl_model.specs.Goal.{holds_from, line_holds, goal};

use crate::atoms::all_hold;
use crate::board::Board;
use crate::game::Game;
use bddl_model::{Rect, Side, Test};

// Whether the line holds from an anchor of the row, which has some that fit.
fn holds_in_row(board: &Board, rect: Rect, y: u32, line: &[Test]) -> bool
    requires rect { IsRectOf board.now.width board.now.height (line_atoms line.now) rect }
    requires row { (rect.y_low ≤ y) × (y ≤ rect.y_high) }
    ensures { (g : Game) → IsBoardOf g board.now → result ≡ list_any (λ x. holds_from g board.now.marks line.now x y) (range_with_len 1 g.width) }
{
    board.keeps_the_size();
    for x in rect.x_low..rect.x_high + 1 {
        if all_hold(board, x, y, line) {
            return true;
        }
    }
    false
}

fn line_holds(board: &Board, rect: Rect, line: &[Test]) -> bool
    requires { IsRectOf board.now.width board.now.height (line_atoms line.now) rect }
    ensures { (g : Game) → IsBoardOf g board.now → result ≡ line_holds g board.now.marks line.now }
{
    board.keeps_the_size();
    for y in rect.y_low..rect.y_high + 1 {
        if holds_in_row(board, rect, y, line) {
            return true;
        }
    }
    false
}

/// Whether some goal line of the side holds: from some anchor that fits, every test holds.
pub fn goal(game: &Game, board: &Board, side: Side) -> bool
    requires { IsBoardOf game.now board.now }
    ensures { result ≡ goal game.now board.now.marks side }
{
    for number in 0..game.lines(side) {
        if line_holds(board, game.line_rect(side, number), game.line(side, number)) {
            return true;
        }
    }
    false
}
