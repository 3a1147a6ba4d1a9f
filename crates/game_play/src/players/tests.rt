ghost use Rattle.std.specs.Prelude.{◌≡◌, ◌<◌, ◌≤◌, ◌+◌, length};
ghost use Rattle.game_play.specs.Replies.{said_after};

use super::*;
use crate::opponent::{Opponent, Reply};
use bddl_model::Move;
use grid_game::Board;
use std::alloc::Global;
use std::io;
use std::io::{Error, ErrorKind, Read};
use std::process::Abort;
use std::test::Fail;

const NO_NUMBER: u64 = 18446744073709551615;

// A reader of these bytes, of which a call gives one. Behind them it fails, or is at its end.
#[derive(Drop)]
struct Keys {
    bytes: Vec<u8>,
    next: usize,
    fails: bool,
}

impl Read for Keys {
    fn read(&mut self, into: &mut [u8]) -> io::Result<usize> {
        if into.is_empty() {
            return Ok(0);
        }
        match self.bytes.get(self.next) {
            Some(byte) => {
                into[0] = *byte;
                self.next = self.next.saturating_add(1);
                Ok(1)
            }
            None if self.fails => Err(Error::from(ErrorKind::Other)),
            None => Ok(0),
        }
    }
}

fn typing(alloc: Global, text: &[u8], fails: bool) -> Result<Box<dyn Opponent>, Fail> {
    let keys = Keys {
        bytes: text.to_vec(alloc)?,
        next: 0,
        fails,
    };
    Ok(Box::new(alloc, Typed::over(keys))?)
}

fn many_moves() -> [Move; 200] {
    let one = Move {
        action: 0,
        x: 1,
        y: 1,
    };
    [one; 200]
}

fn ask(opponent: &mut Box<dyn Opponent>, board: &Board) -> Reply
    requires { length (said opponent.old) < 16 }
    ensures { said opponent.new ≡ said_after result (said opponent.old) }
{
    opponent.reply(board, &many_moves())
}

fn answer(opponent: &mut Box<dyn Opponent>, board: &Board) -> Option<u64>
    requires { length (said opponent.old) < 16 }
    ensures { length (said opponent.new) ≤ length (said opponent.old) + 1 }
{
    match ask(opponent, board) {
        Reply::Choice(number) => Some(number),
        Reply::Gone => None,
    }
}

// These are the answers, each behind a start of its own.
fn assert_answers(
    rt: &impl Abort,
    opponent: &mut Box<dyn Opponent>,
    board: &Board,
    wanted: &[Option<u64>],
) {
    for (place, want) in wanted.iter().enumerate() {
        opponent.start(5);
        assert_eq!(rt; answer(opponent, board), *want, "at {place}");
    }
}

#[test]
fn answers_the_first_move(rt: HostRuntime) -> Result<(), Fail> {
    let board = Board::free(rt.alloc(), 2, 2)?;
    let mut opponent: Box<dyn Opponent> = Box::new(rt.alloc(), FirstMove::new())?;
    assert_answers(&rt, &mut opponent, &board, &[Some(0), Some(0)]);
    Ok(())
}

#[test]
fn answers_a_script_and_is_gone(rt: HostRuntime) -> Result<(), Fail> {
    let board = Board::free(rt.alloc(), 2, 2)?;
    let list = vec![in rt.alloc(); 2, 0, 99]?;
    let mut opponent: Box<dyn Opponent> = Box::new(rt.alloc(), Scripted::new(list))?;
    let wanted = [Some(2), Some(0), Some(99), None, None];
    assert_answers(&rt, &mut opponent, &board, &wanted);
    Ok(())
}

fn three_answers(opponent: &mut Box<dyn Opponent>, board: &Board, number: u64) -> [Option<u64>; 3] {
    opponent.start(number);
    let first = answer(opponent, board);
    let second = answer(opponent, board);
    let third = answer(opponent, board);
    [first, second, third]
}

// The words come from rand_pcg's rules, computed elsewhere.
#[test]
fn answers_alike_behind_one_number(rt: HostRuntime) -> Result<(), Fail> {
    let board = Board::free(rt.alloc(), 2, 2)?;
    let mut opponent: Box<dyn Opponent> = Box::new(rt.alloc(), PcgPlayer::new())?;
    assert_eq!(rt; answer(&mut opponent, &board), Some(107));
    for (number, want) in [
        (0, [Some(107), Some(127), Some(75)]),
        (7, [Some(137), Some(6), Some(85)]),
        (7, [Some(137), Some(6), Some(85)]),
    ] {
        assert_eq!(rt; three_answers(&mut opponent, &board, number), want);
    }
    Ok(())
}

#[test]
fn answers_the_lines_that_are_typed(rt: HostRuntime) -> Result<(), Fail> {
    let board = Board::free(rt.alloc(), 2, 2)?;
    let none = Some(NO_NUMBER);
    for (text, wanted) in [
        (
            b"x\n\n007\n+1\n1\r\n".as_slice(),
            [none, none, Some(7), none, none, None].as_slice(),
        ),
        (
            b"12345678901234567890\n9999999999999999999\n0\n".as_slice(),
            [none, Some(9999999999999999999), Some(0), None].as_slice(),
        ),
        (b"1\n23".as_slice(), [Some(1), None, None].as_slice()),
        (
            b"aaaaaaaaaaaaaaaaaaaaaaaaaaaaaaaaaaaaaaaaaaaaaaaaaaaaaaaaaaaaaaaa5\n6\n".as_slice(),
            [none, Some(5), Some(6), None].as_slice(),
        ),
    ] {
        for fails in [false, true] {
            let mut opponent = typing(rt.alloc(), text, fails)?;
            assert_answers(&rt, &mut opponent, &board, wanted);
        }
    }
    Ok(())
}
