// Moves and their codes.
ghost use Rattle.std.specs.Prelude.{◌≡◌, ◌+◌, ◌≤◌, length, Some, IfSome, IfNone};
ghost use Rattle.bddl_model.specs.Bits as count;
ghost use Rattle.bddl_model.specs.Codes as spec;
ghost use Rattle.bddl_model.specs.Codes.{shape_of, code_length, IsPlaced, spelled_move};

use crate::number::{bits, number_of, write_number};
use bddl_model::{Move, Side};
use grid_game::Game;
use std::marker::Model;

/// What the codes of a side's moves depend on: how many actions it has, and the sides of the board.
#[derive(Clone, Copy, Debug, PartialEq, Eq)]
pub struct Shape {
    pub actions: u32,
    pub width: u32,
    pub height: u32,
}

impl Model for Shape {
    ghost use Rattle.bddl_model.specs.Codes as spec;

    ghost Value = { spec.Shape };

    ghost view = { λ s. record { actions = s.actions; width = s.width; height = s.height } };

    ghost inverse = { λ s. record { actions = s.actions; width = s.width; height = s.height } };
}

impl Shape {
    /// That of a side's moves in a game.
    pub fn of(game: &Game, side: Side) -> Shape
        ensures { result ≡ shape_of game.now side }
    {
        Shape {
            actions: game.actions(side),
            width: game.width(),
            height: game.height(),
        }
    }

    /// The number of bits of a code: none where there is no action.
    pub fn len(&self) -> u32
        ensures value { result ≡ code_length self.now }
        ensures bound { result ≤ 96 }
    {
        if self.actions == 0 {
            return 0;
        }
        bits(self.actions) + bits(self.width) + bits(self.height)
    }
}

/// Writes the code of a move: the action, then x - 1 and y - 1, each least bit first.
pub fn bits_of(shape: &Shape, mv: Move, into: &mut [bool])
    requires placed { IsPlaced shape.now mv }
    requires room { length into.old ≡ code_length shape.now }
    ensures { into.new ≡ spec.code shape.now mv }
{
    let (action, anchor) = into.split_at_mut(bits(shape.actions) as usize);
    let (x, y) = anchor.split_at_mut(bits(shape.width) as usize);
    write_number(mv.action, action);
    write_number(mv.x - 1, x);
    write_number(mv.y - 1, y);
}

// The move that bits spell, if it is one of an action and a cell of the board.
fn spelled(shape: &Shape, code: &[bool]) -> Option<Move>
    requires { length code.now ≡ count.bits shape.now.actions + (count.bits shape.now.width + count.bits shape.now.height) }
    ensures some { IfSome result (λ m. IsPlaced shape.now m × (spelled_move shape.now code.now ≡ m)) }
    ensures none { IfNone result (IsPlaced shape.now (spelled_move shape.now code.now) → ⊥) }
{
    let (action, anchor) = code.split_at(bits(shape.actions) as usize);
    let (x, y) = anchor.split_at(bits(shape.width) as usize);
    let (action, x, y) = (number_of(action), number_of(x), number_of(y));
    if action >= shape.actions || x >= shape.width || y >= shape.height {
        return None;
    }
    Some(Move {
        action,
        x: x + 1,
        y: y + 1,
    })
}

/// The move whose code this is; `None` where the bits name no action or no cell of the board.
pub fn move_of(shape: &Shape, code: &[bool]) -> Option<Move>
    requires { length code.now ≡ code_length shape.now }
    ensures some { IfSome result (λ m. IsPlaced shape.now m × (spec.code shape.now m ≡ code.now)) }
    ensures found { (m : Move) → IsPlaced shape.now m → spec.code shape.now m ≡ code.now → result ≡ Some m }
    ensures none { IfNone result ((m : Move) → IsPlaced shape.now m → spec.code shape.now m ≡ code.now → ⊥) }
{
    if shape.actions == 0 {
        return None;
    }
    spelled(shape, code)
}
