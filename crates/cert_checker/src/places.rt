// The places of nodes, found back from their first namings.
ghost use Rattle.std.specs.Prelude.{◌≡◌, ◌≤◌, ◌<◌, length, drop};
ghost use Rattle.bddl_model.specs.Certificate.{start};
ghost use Rattle.bddl_model.specs.Limits.{IsBoardOf};
ghost use Rattle.cert_checker.specs.Places.{place_at, place_in, IsTable, played, MayPlay};

use crate::known::Known;
use crate::turn::Turn;
use bddl_model::Move;
use grid_game::{Board, apply};
use offset_check::Setup;

// Writes the moves that lead to the node's place to the end of the list, and says where they begin.
fn moves_to(setup: &Setup, table: &[Known], node: usize, moves: &mut [Move]) -> usize
    requires table { IsTable setup.now table.now }
    requires inside { node < length table.now }
    requires room { length moves.old ≡ 31 }
    ensures within { result ≤ length moves.new }
    ensures may { MayPlay setup.now.game (start setup.now) (drop result moves.new) }
    ensures place { played setup.now.game (start setup.now) (drop result moves.new) ≡ place_in setup.now table.now node }
{
    setup.keeps_its_size();
    let mut begin = moves.len();
    let mut at = node;
    'namings: while let Known::First { from, mv } = table[at] {
        begin -= 1;
        moves[begin] = mv;
        at = from as usize;
    }
    begin
}

// Plays the moves from the start.
fn play(setup: &Setup, moves: &[Move], board: &mut Board) -> Turn
    requires size { IsBoardOf setup.now.game board.old }
    requires may { MayPlay setup.now.game (start setup.now) moves.now }
    ensures place { place_at result board.new.marks ≡ played setup.now.game (start setup.now) moves.now }
    ensures size { IsBoardOf setup.now.game board.new }
{
    board.copy_from(&setup.board);
    let mut turn = Turn {
        side: setup.first,
        left: setup.depth,
    };
    for mv in moves {
        apply(&setup.game, board, turn.side, *mv);
        turn = turn.after_move();
    }
    turn
}

/// Puts the board of a node's place there, and says whose turn it is and how many plies are left. A
/// node is at most as many namings behind the start as plies were left there.
pub fn go_to(setup: &Setup, table: &[Known], node: usize, board: &mut Board) -> Turn
    requires size { IsBoardOf setup.now.game board.old }
    requires table { IsTable setup.now table.now }
    requires inside { node < length table.now }
    ensures place { place_at result board.new.marks ≡ place_in setup.now table.now node }
    ensures size { IsBoardOf setup.now.game board.new }
{
    let mut moves = [Move {
        action: 0,
        x: 0,
        y: 0,
    }; 31];
    let begin = moves_to(setup, table, node, &mut moves);
    play(setup, &moves[begin..], board)
}
