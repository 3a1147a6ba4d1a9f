// The value of a formula after the moves to each position of a game is that of winning from there.
ghost use Rattle.std.specs.Prelude.{◌≡◌, true};
ghost use Rattle.bddl_model.specs.Limits.{IsBoardOf};

use crate::answers::text_of;
use crate::evaluator::Evaluator;
use bddl_model::{Move, NoMemory, Side};
use bddl_reader::{read_domain, read_problem};
use grid_game::{Board, Game, apply, goal, legal};
use offset_check::{Setup, check};
use std::alloc::{AllocError, Global};
use std::process::Abort;
use std::test::Fail;

/// Values of the bits of a move, and the move that they name.
#[derive(Debug, Drop)]
struct Code {
    bits: Vec<bool>,
    mv: Move,
}

/// A game, its formula, and all codes of its moves, legal ones and others, with the one of no bits that
/// is the sample of Black.
#[derive(Drop)]
struct Play {
    game: Game,
    formula: Evaluator,
    black: Vec<Code>,
    white: Vec<Code>,
    none: Vec<Code>,
}

/// A board with the side to move, behind plies whose samples and codes have these bits.
#[derive(Drop)]
struct Position {
    known: Vec<bool>,
    side: Side,
    board: Board,
}

// The game of two texts without fault.
fn setup_of(alloc: Global, domain: &str, problem: &str) -> Result<Setup, Fail> {
    if domain.len() > 1_048_576 || problem.len() > 1_048_576 {
        return Err("too long".into());
    }
    let domain = read_domain(alloc, domain.as_bytes())?;
    let problem = read_problem(alloc, problem.as_bytes())?;
    Ok(check(alloc, &domain, &problem)?)
}

// Whether the board has the game's sides.
fn is_board_of(game: &Game, board: &Board) -> bool
    ensures { result ≡ true → IsBoardOf game.now board.now }
{
    game.width() == board.width() && game.height() == board.height()
}

// The least number of bits that tell so many things apart.
fn bits_for(things: u32) -> u32 {
    let mut told: u32 = 1;
    for bits in 0..32 {
        if things <= told {
            return bits;
        }
        told = told.saturating_mul(2);
    }
    32
}

// Adds a number in so many bits, least bit first.
fn push_number(bits: &mut Vec<bool>, number: u32, len: u32) -> Result<(), AllocError> {
    let mut rest = number;
    for _ in 0..len {
        bits.push(rest % 2 == 1)?;
        rest /= 2;
    }
    Ok(())
}

// The codes of a side's moves: the action, x - 1 and y - 1. A side without actions has one of no bits,
// which names no move.
fn codes_of(alloc: Global, game: &Game, side: Side) -> Result<Vec<Code>, AllocError> {
    let mut codes = Vec::new(alloc);
    if game.actions(side) == 0 {
        codes.push(no_code(alloc))?;
        return Ok(codes);
    }
    let actions = bits_for(game.actions(side));
    let columns = bits_for(game.width());
    let rows = bits_for(game.height());
    for action in 0..1u32.wrapping_shl(actions) {
        for column in 0..1u32.wrapping_shl(columns) {
            for row in 0..1u32.wrapping_shl(rows) {
                let mut bits = Vec::new(alloc);
                push_number(&mut bits, action, actions)?;
                push_number(&mut bits, column, columns)?;
                push_number(&mut bits, row, rows)?;
                let (x, y) = (column + 1, row + 1);
                codes.push(Code {
                    bits,
                    mv: Move { action, x, y },
                })?;
            }
        }
    }
    Ok(codes)
}

fn no_code(alloc: Global) -> Code {
    Code {
        bits: Vec::new(alloc),
        mv: Move {
            action: 0,
            x: 1,
            y: 1,
        },
    }
}

impl Play {
    fn codes(&self, side: Side) -> &[Code] {
        match side {
            Side::Black => &self.black,
            Side::White => &self.white,
        }
    }

    fn samples(&self, side: Side) -> &[Code] {
        match side {
            Side::Black => &self.none,
            Side::White => &self.white,
        }
    }

    // The formula has this value behind these bits.
    fn assert_value(&self, rt: &impl Abort, known: &[bool], value: bool) -> Result<(), Fail> {
        let found = self.formula.value_behind(known)?;
        assert_eq!(rt; found, value, "behind {known:?}");
        Ok(())
    }

    // The value at a position is that of winning from there, and that of codes which are no legal moves
    // is as it should be. The positions behind the legal ones are added to those that are reached.
    fn assert_position(
        &self,
        rt: &impl Abort,
        alloc: Global,
        position: &Position,
        left: u32,
        reached: &mut Vec<Position>,
    ) -> Result<(), Fail> {
        let Position { known, side, board } = position;
        let won = wins(rt, self, *side, board, left)?;
        self.assert_value(rt, known, won)?;
        assert!(rt; is_board_of(&self.game, board));
        if left == 0 || goal(&self.game, board, Side::Black) {
            return Ok(());
        }
        for sample in self.samples(*side) {
            let mut known = known.to_vec(alloc)?;
            known.extend_from_slice(&sample.bits)?;
            if *side == Side::White && !legal(&self.game, board, Side::White, sample.mv) {
                self.assert_value(rt, &known, false)?;
            } else {
                self.assert_codes(rt, alloc, &known, *side, board, reached)?;
            }
        }
        Ok(())
    }

    // The same of the codes of a side behind these bits, where Black's goal doesn't stand: a code of
    // Black that is no legal move loses, and one of White wins, unless White's goal stands.
    fn assert_codes(
        &self,
        rt: &impl Abort,
        alloc: Global,
        known: &[bool],
        side: Side,
        board: &Board,
        reached: &mut Vec<Position>,
    ) -> Result<(), Fail> {
        assert!(rt; is_board_of(&self.game, board));
        let has_ended = goal(&self.game, board, Side::White);
        for code in self.codes(side) {
            let mut known = known.to_vec(alloc)?;
            known.extend_from_slice(&code.bits)?;
            if !legal(&self.game, board, side, code.mv) {
                self.assert_value(rt, &known, side == Side::White && !has_ended)?;
            } else if !has_ended {
                let mut board = board.copy()?;
                apply(&self.game, &mut board, side, code.mv);
                reached.push(Position {
                    known,
                    side: side.opponent(),
                    board,
                })?;
            }
        }
        Ok(())
    }
}

// Whether Black can force its goal within so many plies, White's goal not reached before. A side that
// has no move ends the game, and Black has not won by that.
fn wins(
    rt: &impl Abort,
    play: &Play,
    side: Side,
    board: &Board,
    left: u32,
) -> Result<bool, NoMemory> {
    assert!(rt; is_board_of(&play.game, board));
    if goal(&play.game, board, Side::Black) {
        return Ok(true);
    }
    if left == 0 || goal(&play.game, board, Side::White) {
        return Ok(false);
    }
    let deciding = side == Side::Black;
    let mut has_moved = false;
    for code in play.codes(side) {
        if legal(&play.game, board, side, code.mv) {
            let mut next = board.copy()?;
            apply(&play.game, &mut next, side, code.mv);
            if wins(rt, play, side.opponent(), &next, left - 1)? == deciding {
                return Ok(deciding);
            }
            has_moved = true;
        }
    }
    Ok(has_moved && !deciding)
}

/// The formula of a game is exact at each position that is reached by legal moves from the start, of
/// which no one is made where a goal stands.
pub fn assert_exact(
    rt: &impl Abort,
    alloc: Global,
    domain: &str,
    problem: &str,
) -> Result<(), Fail> {
    let text = text_of(rt, alloc, domain, problem)?;
    let Setup {
        game,
        board,
        first,
        depth,
    } = setup_of(alloc, domain, problem)?;
    let play = Play {
        formula: Evaluator::read(alloc, &text)?,
        black: codes_of(alloc, &game, Side::Black)?,
        white: codes_of(alloc, &game, Side::White)?,
        none: vec![in alloc; no_code(alloc)]?,
        game,
    };
    let start = Position {
        known: Vec::new(alloc),
        side: first,
        board,
    };
    let mut positions = vec![in alloc; start]?;
    for left in (0..depth.saturating_add(1)).rev() {
        let mut reached = Vec::new(alloc);
        for position in &positions {
            play.assert_position(rt, alloc, position, left, &mut reached)?;
        }
        positions = reached;
    }
    Ok(())
}
