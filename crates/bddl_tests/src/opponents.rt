// Who plays for White in tests.
use bddl_model::{Mark, Move};
use game_play::{FirstMove, Opponent, PcgPlayer, Reply, Scripted, Typed};
use grid_game::Board;
use std::alloc::Global;
use std::io;
use std::io::{Error, ErrorKind, Read};
use std::test::Fail;

/// The opponent alone, which has the number 0.
pub fn alone(alloc: Global, opponent: Box<dyn Opponent>) -> Result<Vec<Box<dyn Opponent>>, Fail> {
    let mut opponents: Vec<Box<dyn Opponent>> = Vec::new(alloc);
    opponents.push(opponent)?;
    Ok(opponents)
}

/// One that answers these numbers.
pub fn scripted(alloc: Global, numbers: &[u64]) -> Result<Vec<Box<dyn Opponent>>, Fail> {
    let list = numbers.to_vec(alloc)?;
    alone(alloc, Box::new(alloc, Scripted::new(list))?)
}

/// One that types these bytes, of which the call of this number fails.
pub fn typing(
    alloc: Global,
    bytes: &'static [u8],
    fails_at: usize,
) -> Result<Vec<Box<dyn Opponent>>, Fail> {
    let keys = Keys {
        bytes,
        next: 0,
        fails_at,
    };
    alone(alloc, Box::new(alloc, Typed::over(keys))?)
}

/// The opponents that the program has, nothing being typed.
pub fn program_opponents(alloc: Global) -> Result<Vec<Box<dyn Opponent>>, Fail> {
    let mut opponents = typing(alloc, b"", 0)?;
    opponents.push(Box::new(alloc, FirstMove::new())?)?;
    opponents.push(Box::new(alloc, PcgPlayer::new())?)?;
    Ok(opponents)
}

// A reader of these bytes, of which a call gives one. The call of this number fails, counted from 0.
#[derive(Drop)]
struct Keys {
    bytes: &'static [u8],
    next: usize,
    fails_at: usize,
}

impl Read for Keys {
    fn read(&mut self, into: &mut [u8]) -> io::Result<usize> {
        if into.is_empty() {
            return Ok(0);
        }
        if self.next == self.fails_at {
            return Err(Error::from(ErrorKind::Other));
        }
        let Some(byte) = self.bytes.get(self.next) else {
            return Ok(0);
        };
        into[0] = *byte;
        self.next = self.next.saturating_add(1);
        Ok(1)
    }
}

/// Answers move 2 once, on a board of two by two with a black stone at (1,1), of the moves that take the
/// other cells; otherwise it is gone.
#[derive(Drop)]
pub struct Watching {
    began: u64,
    answers: usize,
    faults: u64,
}

impl Watching {
    pub fn new() -> Self {
        Watching {
            began: 0,
            answers: 0,
            faults: 0,
        }
    }
}

const fn occupy(x: u32, y: u32) -> Move {
    Move { action: 0, x, y }
}

fn is_watched(board: &Board, moves: &[Move]) -> bool {
    let marks = [Mark::Black, Mark::Free, Mark::Free, Mark::Free];
    board.width() == 2
        && board.height() == 2
        && board.marks() == marks.as_slice()
        && moves == [occupy(2, 1), occupy(1, 2), occupy(2, 2)].as_slice()
}

impl Opponent for Watching {
    ghost use Rattle.std.specs.Prelude.{false, None, [], ◌∷◌, take};

    ghost count = { λ s. s.faults };

    ghost began = { λ s. s.began };

    ghost said = { λ s. take s.answers (2 ∷ []) };

    ghost steady = { λ _. false };

    ghost left = { λ _. None };

    fn start(&mut self, number: u64) {
        self.began = number;
        self.answers = 0;
    }

    fn reply(&mut self, board: &Board, moves: &[Move]) -> Reply {
        if self.answers == 0 && is_watched(board, moves) {
            self.answers = 1;
            return Reply::Choice(2);
        }
        self.faults = self.faults.saturating_add(1);
        Reply::Gone
    }
}
