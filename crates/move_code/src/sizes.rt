// How many bits each part of the inputs has.
ghost use Rattle.std.specs.Prelude.{◌≡◌, ◌≤◌};
ghost use Rattle.bddl_model.specs.Game.{actions};
ghost use Rattle.bddl_model.specs.Layout as spec;

use crate::code::Shape;
use crate::number::bits;
use bddl_model::Side;
use grid_game::Game;
use std::marker::Model;

/// How many bits each part of the inputs has: the moves of both sides, and what stands behind the
/// plies.
#[derive(Debug, Drop)]
pub(crate) struct Sizes {
    pub black_code: u32,
    pub white_code: u32,
    pub time: u32,
    pub line: u32,
    pub anchor: u32,
    pub atom: u32,
    pub white_line: u32,
    pub white_anchor: u32,
    pub white_time: u32,
    pub refuting: u32,
}

impl Model for Sizes {
    ghost use Rattle.bddl_model.specs.Layout as spec;
    ghost use Rattle.move_code.specs.LaidOut.{AreSmall};

    ghost Value = { spec.Sizes };

    ghost view = { λ z. record { black_code = z.black_code; white_code = z.white_code; time = z.time; line = z.line; anchor = z.anchor; atom = z.atom; white_line = z.white_line; white_anchor = z.white_anchor; white_time = z.white_time; refuting = z.refuting } };

    ghost invariant = { λ z. AreSmall (record { black_code = z.black_code; white_code = z.white_code; time = z.time; line = z.line; anchor = z.anchor; atom = z.atom; white_line = z.white_line; white_anchor = z.white_anchor; white_time = z.white_time; refuting = z.refuting }) };
}

/// The bits of an anchor, and of a place: those of a column and then those of a row.
pub fn anchor_bits(game: &Game) -> u32
    ensures value { result ≡ spec.anchor_bits game.now }
    ensures bound { result ≤ 64 }
{
    bits(game.width()) + bits(game.height())
}

// The bits of a move of the side.
fn code_bits(game: &Game, side: Side) -> u32
    ensures value { result ≡ spec.code_bits game.now (actions game.now side) }
    ensures bound { result ≤ 96 }
{
    Shape::of(game, side).len()
}

// The greatest number of preconditions of an action of White.
fn most_preconditions(game: &Game) -> u32
    ensures { result ≡ spec.most_preconditions game.now.white_actions }
{
    game.keeps_the_limits();
    let mut most = 0;
    for action in 0..game.actions(Side::White) {
        most = most.max(game.before(Side::White, action).len() as u32);
    }
    most
}

// The greatest number of tests of a goal line of White.
fn most_tests(game: &Game) -> u32
    ensures { result ≡ spec.most_tests game.now.white_lines }
{
    game.keeps_the_limits();
    let mut most = 0;
    for number in 0..game.lines(Side::White) {
        most = most.max(game.line(Side::White, number).len() as u32);
    }
    most
}

// So many bits where White has a goal line, else none.
fn where_lines(game: &Game, len: u32) -> u32
    ensures value { result ≡ spec.where_lines game.now.white_lines len }
    ensures bound { result ≤ len }
{
    if game.lines(Side::White) == 0 { 0 } else { len }
}

impl Sizes {
    /// The sizes of the parts, for plays of at most so many plies.
    pub fn of(game: &Game, depth: u32) -> Sizes
        requires { depth ≤ 31 }
        ensures { result ≡ spec.sizes_of game.now depth }
    {
        let anchor = anchor_bits(game);
        let time = bits(depth + 1);
        Sizes {
            black_code: code_bits(game, Side::Black),
            white_code: code_bits(game, Side::White),
            time,
            line: bits(game.lines(Side::Black)),
            anchor,
            atom: bits(most_preconditions(game)),
            white_line: bits(game.lines(Side::White)),
            white_anchor: where_lines(game, anchor),
            white_time: where_lines(game, time),
            refuting: bits(most_tests(game)),
        }
    }
}
