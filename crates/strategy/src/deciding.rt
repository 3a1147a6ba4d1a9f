// A game decided by its form.
ghost use Rattle.std.specs.Prelude.{◌≡◌, ◌+◌, ◌<◌, ◌≤◌, true, false, Ok};
ghost use Rattle.bddl_model.specs.Bounds.{game_bound};
ghost use Rattle.bddl_model.specs.Limits.{IsBoardOf};
ghost use Rattle.bddl_model.specs.Win.{win};
ghost use Rattle.lifted_encode.specs.Encoded.{setup_of};

use crate::form::compile_game;
use bddl_model::{NoMemory, Side, Steps};
use grid_game::{Board, Game};
use qbf_search::{Answer, Decider, solve};
use std::alloc::Global;

/// Whether Black can force its goal, or that the steps are spent.
#[derive(Clone, Copy, Debug, PartialEq, Eq)]
pub enum Decided {
    Win,
    NoWin,
    Spent,
}

/// Decides a game from a board on that this side begins, for so many plies at most, by its form and in
/// the steps that are left. With as many left as `game_bound` says, it answers whether Black wins, or
/// memory is wanting.
pub fn decide(
    alloc: Global,
    game: &Game,
    board: &Board,
    first: Side,
    depth: u32,
    decider: &mut Box<dyn Decider>,
    steps: &mut Steps,
) -> Result<Decided, NoMemory>
    requires board { IsBoardOf game.now board.now }
    requires depth { depth ≤ 31 }
    ensures won { result ≡ Ok Decided.Win → win game.now first board.now.marks depth ≡ true }
    ensures not_won { result ≡ Ok Decided.NoWin → win game.now first board.now.marks depth ≡ false }
    ensures spent { result ≡ Ok Decided.Spent → (steps.new.used ≡ steps.new.budget) × (steps.old.budget < steps.old.used + game_bound (setup_of game.now board.now.marks first depth)) }
    ensures budget { steps.new.budget ≡ steps.old.budget }
    ensures used { (steps.old.used ≤ steps.new.used) × (steps.new.used ≤ steps.old.used + game_bound (setup_of game.now board.now.marks first depth)) }
{
    let compiled = compile_game(alloc, game, board, first, depth)?;
    match solve(alloc, &compiled.form, decider, steps)? {
        Answer::True { .. } => Ok(Decided::Win),
        Answer::False { .. } => Ok(Decided::NoWin),
        Answer::Spent => Ok(Decided::Spent),
    }
}
