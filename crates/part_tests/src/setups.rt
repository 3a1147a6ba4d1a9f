// Games from their texts.
ghost use Rattle.std.specs.Prelude.{◌≡◌, ◌≤◌, true, length};
ghost use Rattle.bddl_model.specs.Limits.{IsBoardOf};

use bddl_reader::{read_domain, read_problem};
use grid_game::{Board, Game};
use offset_check::{CheckFault, Setup, check};
use std::alloc::Global;
use std::test::Fail;

/// The checked game of two texts of the grammar, and its start, or what is wrong with it.
pub fn checked(
    alloc: Global,
    domain: &str,
    problem: &str,
) -> Result<Result<Setup, CheckFault>, Fail> {
    if domain.len() > 1_048_576 || problem.len() > 1_048_576 {
        return Err("too long".into());
    }
    let domain = read_domain(alloc, domain.as_bytes())?;
    let problem = read_problem(alloc, problem.as_bytes())?;
    Ok(check(alloc, &domain, &problem))
}

/// The game of two texts without fault.
pub fn setup_of(alloc: Global, domain: &str, problem: &str) -> Result<Setup, Fail> {
    Ok(checked(alloc, domain, problem)??)
}

/// Whether the board has the game's sides.
pub fn is_board_of(game: &Game, board: &Board) -> bool
    ensures { result ≡ true → IsBoardOf game.now board.now }
{
    game.width() == board.width() && game.height() == board.height()
}
