// A first move of Black by which it wins.
ghost use Rattle.std.specs.Prelude.{◌≡◌, ◌+◌, ◌<◌, ◌≤◌, true, false, length, take, Some, IfOk};
ghost use Rattle.bddl_model.specs.declared.game.Move as declared_move;
ghost use Rattle.bddl_model.specs.declared.game.Side.TheVariants as sides;
ghost use Rattle.bddl_model.specs.Bounds.{game_bound};
ghost use Rattle.bddl_model.specs.Codes.{shape_of, code_length, code, IsPlaced};
ghost use Rattle.bddl_model.specs.Goal.{goal};
ghost use Rattle.bddl_model.specs.Limits.{IsBoardOf};
ghost use Rattle.bddl_model.specs.Win.{win};
ghost use Rattle.lifted_encode.specs.Encoded.{setup_of};
ghost use Rattle.strategy.specs.FirstMoves.{WinsBy, IfMove, IfLost, IfSpent};

use crate::form::compile_game;
use bddl_model::{Move, NoMemory, Side, Steps};
use grid_game::{Board, Game};
use move_code::{Shape, move_of};
use qbf_search::{Answer, Decider, solve};
use std::alloc::Global;

/// A move by which Black wins, or that there is none, or that the steps are spent.
#[derive(Clone, Copy, Debug, PartialEq, Eq)]
pub enum FirstMove {
    Move(Move),
    Lost,
    Spent,
}

// The move of Black that the first of these bits spell.
fn spelled_by(game: &Game, bits: &[bool]) -> Option<Move>
    requires { code_length (shape_of game.now sides.Black) ≤ length bits.now }
    ensures { (m : declared_move.Move) → IsPlaced (shape_of game.now sides.Black) m
        → code (shape_of game.now sides.Black) m ≡ take (code_length (shape_of game.now sides.Black)) bits.now → result ≡ Some m }
{
    let shape = Shape::of(game, Side::Black);
    move_of(&shape, &bits[..shape.len() as usize])
}

/// A move by which Black, which is to move, wins from a board in so many plies at most: one that its
/// form names, in the steps that are left. With as many left as `game_bound` says, it answers a move or
/// that there is none, or memory is wanting.
pub fn first_move(
    alloc: Global,
    game: &Game,
    board: &Board,
    left: u32,
    decider: &mut Box<dyn Decider>,
    steps: &mut Steps,
) -> Result<FirstMove, NoMemory>
    requires board { IsBoardOf game.now board.now }
    requires left { (1 ≤ left) × (left ≤ 31) }
    requires unfinished { goal game.now board.now.marks sides.Black ≡ false }
    ensures wins { IfOk result (λ found. IfMove found (WinsBy game.now board.now.marks left)) }
    ensures lost { IfOk result (λ found. IfLost found (win game.now sides.Black board.now.marks left ≡ false)) }
    ensures spent { IfOk result (λ found. IfSpent found ((steps.new.used ≡ steps.new.budget) × (steps.old.budget < steps.old.used + game_bound (setup_of game.now board.now.marks sides.Black left)))) }
    ensures budget { steps.new.budget ≡ steps.old.budget }
    ensures used { (steps.old.used ≤ steps.new.used) × (steps.new.used ≤ steps.old.used + game_bound (setup_of game.now board.now.marks sides.Black left)) }
{
    let compiled = compile_game(alloc, game, board, Side::Black, left)?;
    match solve(alloc, &compiled.form, decider, steps)? {
        Answer::True { first } => {
            let Some(mv) = spelled_by(game, &first) else {
                unreachable!()
            };
            Ok(FirstMove::Move(mv))
        }
        Answer::False { .. } => Ok(FirstMove::Lost),
        Answer::Spent => Ok(FirstMove::Spent),
    }
}
