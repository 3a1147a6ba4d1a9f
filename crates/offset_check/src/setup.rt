// The whole check.
ghost use Rattle.std.specs.Prelude.{◌≡◌, ◌≤◌, ◌*◌, ◌⊎◌, [], ◌∷◌, length, map, Err, IfOk, OnOk};
ghost use Rattle.bddl_model.specs.declared.check.Axis.TheVariants as axis;
ghost use Rattle.bddl_model.specs.declared.check.CheckFault.TheVariants.{NoMemory as out_of_memory};
ghost use Rattle.bddl_model.specs.declared.game.Side.TheVariants as side;
ghost use Rattle.bddl_model.specs.Board.{open_board};
ghost use Rattle.bddl_model.specs.Check.{first_of, size_fault, depth_fault, actions_fault, cells_fault, lines_fault, checked_setup};
ghost use Rattle.bddl_model.specs.Limits.{IsSide};
ghost use Rattle.bddl_model.specs.Setup.{action_of, tests_of, marked};
ghost use Rattle.offset_check.specs.Checks.{Checks, AreNamed};

use crate::actions::add_actions;
use crate::cells::mark_cells;
use crate::lines::add_lines;
use crate::sizes::{check_depth, check_size};
use bddl_model::{Axis, CheckFault, DomainText, ProblemText, Side};
use grid_game::{Board, Game};
use std::alloc::Global;
use std::marker::Model;

/// A game that was checked, and its start. The board has the game's size, and the depth is at most
/// 31.
#[derive(Debug, Drop)]
pub struct Setup {
    pub game: Game,
    pub board: Board,
    pub first: Side,
    pub depth: u32,
}

impl Model for Setup {
    ghost use Rattle.std.specs.Prelude.{◌≤◌};
    ghost use Rattle.bddl_model.specs.Setup as spec;
    ghost use Rattle.bddl_model.specs.Limits.{IsBoardOf};

    ghost Value = { spec.Setup };

    ghost view = { λ s. record { game = s.game; board = s.board.marks; first = s.first; depth = s.depth } };

    ghost invariant = { λ s. IsBoardOf s.game s.board × (s.depth ≤ 31) };
}

impl Setup {
    /// A law: the board has a mark for each cell of the game, and the depth is at most 31.
    pub fn keeps_its_size(&self)
        ensures board { length self.now.board ≡ self.now.game.height * self.now.game.width }
        ensures depth { self.now.depth ≤ 31 }
    {
        self.board.keeps_the_size();
    }
}

// The sides of the board, and the depth.
fn check_sizes(problem: &ProblemText) -> Result<(), CheckFault>
    ensures checks { Checks (first_of (size_fault axis.Width problem.now.width ∷ size_fault axis.Height problem.now.height ∷ depth_fault problem.now.depth ∷ [])) result }
    ensures width { OnOk result (IsSide problem.now.width) }
    ensures height { OnOk result (IsSide problem.now.height) }
    ensures depth { OnOk result (problem.now.depth ≤ 31) }
{
    check_size(Axis::Width, problem.width)?;
    check_size(Axis::Height, problem.height)?;
    check_depth(problem.depth)
}

// A game with both sides' actions, and no goal lines.
fn begun(alloc: Global, width: u32, height: u32, domain: &DomainText) -> Result<Game, CheckFault>
    requires width { IsSide width }
    requires height { IsSide height }
    requires black { AreNamed domain.now.black }
    requires white { AreNamed domain.now.white }
    ensures checks { Checks (first_of (actions_fault width height side.Black domain.now.black ∷ actions_fault width height side.White domain.now.white ∷ [])) result }
    ensures game { IfOk result (λ g. g ≡ record { width = width; height = height; black_actions = map (action_of width height) domain.now.black; white_actions = map (action_of width height) domain.now.white; black_lines = []; white_lines = [] }) }
{
    let mut game = Game::begin(alloc, width, height);
    add_actions(alloc, &mut game, Side::Black, domain.black.as_slice())?;
    add_actions(alloc, &mut game, Side::White, domain.white.as_slice())?;
    Ok(game)
}

// The start board.
fn start_board(alloc: Global, problem: &ProblemText) -> Result<Board, CheckFault>
    requires width { IsSide problem.now.width }
    requires height { IsSide problem.now.height }
    ensures checks { Checks (cells_fault problem.now.width problem.now.height problem.now.init) result }
    ensures board { let p = problem.now in IfOk result (λ b. b ≡ record { width = p.width; height = p.height; marks = marked p.width p.init (open_board p.width p.height) }) }
{
    let mut board = Board::free(alloc, problem.width, problem.height)?;
    mark_cells(alloc, &mut board, problem.init.as_slice())?;
    Ok(board)
}

// Adds both sides' goal lines to a game that has none.
fn add_goals(alloc: Global, game: &mut Game, problem: &ProblemText) -> Result<(), CheckFault>
    requires black { game.old.black_lines ≡ [] }
    requires white { game.old.white_lines ≡ [] }
    ensures checks { Checks (first_of (lines_fault game.old.width game.old.height side.Black problem.now.black ∷ lines_fault game.old.width game.old.height side.White problem.now.white ∷ [])) result }
    ensures added { OnOk result (game.new ≡ record game.old { black_lines = map (tests_of game.old.width game.old.height) problem.now.black; white_lines = map (tests_of game.old.width game.old.height) problem.now.white }) }
{
    add_lines(alloc, game, Side::Black, problem.black.as_slice())?;
    add_lines(alloc, game, Side::White, problem.white.as_slice())
}

/// The setup that the trees state, or the first thing that is wrong, in the order of the texts: the
/// sides, the depth, Black's actions and then White's, the cells of the start board, Black's goal
/// lines and then White's.
pub fn check(alloc: Global, domain: &DomainText, problem: &ProblemText) -> Result<Setup, CheckFault>
    requires black { AreNamed domain.now.black }
    requires white { AreNamed domain.now.white }
    ensures { (result ≡ checked_setup domain.now problem.now) ⊎ (result ≡ Err out_of_memory) }
{
    check_sizes(problem)?;
    let mut game = begun(alloc, problem.width, problem.height, domain)?;
    let board = start_board(alloc, problem)?;
    add_goals(alloc, &mut game, problem)?;
    Ok(Setup {
        game,
        board,
        first: problem.first,
        depth: problem.depth,
    })
}
