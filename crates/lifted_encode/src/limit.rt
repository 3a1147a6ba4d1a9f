// The limit that the gates of a game's circuit keep to, by units of the game.
ghost use Rattle.std.specs.Prelude.{◌≡◌, ◌≤◌, ◌<◌, length};
ghost use Rattle.std.specs.List.{sum_by};
ghost use Rattle.bddl_model.specs.Game.{actions, action_at, lines};
ghost use Rattle.bddl_model.specs.Limits.{IsBoardOf};
ghost use Rattle.bddl_model.specs.Size as spec;
ghost use Rattle.lifted_encode.specs.Encoded.{setup_of};

use bddl_laws::sizes_have_limits;
use bddl_model::{Mark, Side};
use grid_game::{Board, Game};
use move_code::anchor_bits;

// Of one action, for each ply of its side.
fn action_units(game: &Game, side: Side, action: u32) -> u64
    requires there { action < length (actions game.now side) }
    ensures units { result ≡ spec.action_units side (action_at game.now side action) }
    ensures few { result ≤ 24 }
{
    game.keeps_the_limits();
    let before = game.before(side, action).len() as u64;
    let effects = game.effects(side, action).len() as u64;
    match side {
        Side::Black => before + effects + 2,
        Side::White => 2 * before + effects + 4,
    }
}

fn ply_units(game: &Game, side: Side) -> u64
    ensures units { result ≡ spec.ply_units game.now side }
    ensures few { result ≤ 192 }
{
    game.keeps_the_limits();
    let mut units = 0;
    for action in 0..game.actions(side) {
        units += action_units(game, side, action);
    }
    units
}

// Of so many plies, sides in turn.
fn plies_units(game: &Game, first: Side, depth: u32) -> u64
    requires { depth ≤ 31 }
    ensures units { result ≡ spec.plies_units game.now first depth }
    ensures few { result ≤ 5952 }
{
    let mut units = 0;
    let mut side = first;
    for _ply in 0..depth {
        units += ply_units(game, side);
        side = side.opponent();
    }
    units
}

// Of the goal lines of a side.
fn lines_units(game: &Game, side: Side) -> u64
    ensures units { result ≡ sum_by spec.line_units (lines game.now side) }
    ensures few { result ≤ 4608 }
{
    game.keeps_the_limits();
    let mut units = 0;
    for number in 0..game.lines(side) {
        units += game.line(side, number).len() as u64 + 2;
    }
    units
}

fn filled_cells(board: &Board) -> u64
    ensures cells { result ≡ spec.filled_cells board.now.marks }
    ensures few { result ≤ 4096 }
{
    board.keeps_the_size();
    board
        .marks()
        .iter()
        .filter(|mark| **mark != Mark::Free)
        .count() as u64
}

/// How many gates the circuit of a game from a board on may have, the one that is true among them.
pub fn gate_limit(game: &Game, board: &Board, first: Side, depth: u32) -> u64
    requires board { IsBoardOf game.now board.now }
    requires depth { depth ≤ 31 }
    ensures limit { result ≡ spec.gate_limit (setup_of game.now board.now.marks first depth) }
    ensures few { result ≤ 7859376 }
{
    sizes_have_limits();
    game.keeps_the_limits();
    board.keeps_the_size();
    let lines = lines_units(game, Side::Black) + lines_units(game, Side::White);
    let moments = 4 * (depth as u64 + 1);
    let units = plies_units(game, first, depth) + moments + lines + filled_cells(board) + 1;
    24 * (anchor_bits(game) as u64 + 6) * units
}
