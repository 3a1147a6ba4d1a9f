// Legal moves, and the board after a move.
ghost use Rattle.std.specs.Prelude.{◌≡◌, true};
ghost use Rattle.bddl_model.specs.Fitting.{fits};
ghost use Rattle.bddl_model.specs.Game.{Game};
ghost use Rattle.bddl_model.specs.Limits.{IsBoardOf};
ghost use Rattle.bddl_model.specs.Moves.{legal, written, after};
ghost use Rattle.bddl_model.specs.Rectangle.{in_rect};

use crate::atoms::{all_hold, led};
use crate::board::Board;
use crate::game::Game;
use bddl_model::{Atom, Move, Rect, Side};

/// Whether an anchor is in a rectangle.
pub fn in_rect(rect: Rect, x: u32, y: u32) -> bool
    ensures { result ≡ in_rect rect x y }
{
    rect.x_low <= x && x <= rect.x_high && rect.y_low <= y && y <= rect.y_high
}

/// Whether the side may make the move: it has the action, the anchor fits, and each precondition
/// holds.
pub fn legal(game: &Game, board: &Board, side: Side, mv: Move) -> bool
    requires { IsBoardOf game.now board.now }
    ensures { result ≡ legal game.now board.now.marks side mv }
{
    board.keeps_the_size();
    if mv.action >= game.actions(side) {
        return false;
    }
    if !in_rect(game.action_rect(side, mv.action), mv.x, mv.y) {
        return false;
    }
    all_hold(board, mv.x, mv.y, game.before(side, mv.action))
}

fn write_effects(board: &mut Board, x: u32, y: u32, effects: &[Atom])
    requires { fits board.old.width board.old.height effects.now x y ≡ true }
    ensures { (g : Game) → g.width ≡ board.old.width → board.new ≡ record board.old { marks = written g x y effects.now board.old.marks } }
{
    board.keeps_the_size();
    for atom in effects {
        board.set(led(atom.x, x), led(atom.y, y), atom.mark);
    }
}

/// Makes a legal move: writes the effects in order, so that a later one on the same cell wins.
pub fn apply(game: &Game, board: &mut Board, side: Side, mv: Move)
    requires size { IsBoardOf game.now board.old }
    requires legal { legal game.now board.old.marks side mv ≡ true }
    ensures { board.new ≡ record board.old { marks = after game.now board.old.marks side mv } }
{
    write_effects(board, mv.x, mv.y, game.effects(side, mv.action));
}
