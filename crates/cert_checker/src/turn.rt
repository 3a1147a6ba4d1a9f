// What is wrong with a move of a side, or with the replies to all its moves.
ghost use Rattle.std.specs.Prelude.{◌≡◌, ◌≤◌, ◌*◌, ◌-◌, length, Option};
ghost use Rattle.bddl_model.specs.declared.certificate.TurnFault.{TurnFault as SomeFault};
ghost use Rattle.bddl_model.specs.Certificate.{turn_fault, move_fault, difference, answers_fault, replies_fault};
ghost use Rattle.bddl_model.specs.Game.{actions, opponent};
ghost use Rattle.bddl_model.specs.Limits.{IsBoardOf};
ghost use Rattle.cert_checker.specs.Places.{place_at};
ghost use Rattle.cert_checker.specs.Turns.{or_more};

use bddl_model::{Answered, Move, Side, TurnFault};
use grid_game::{Board, Game, MoveList, goal, legal, moves_into};

/// Whose turn it is, and how many plies are left.
#[derive(Clone, Copy, Debug, PartialEq, Eq)]
pub struct Turn {
    pub side: Side,
    pub left: u32,
}

impl Turn {
    /// The turn behind a move.
    pub fn after_move(self) -> Turn
        ensures { result ≡ record { side = opponent self.side; left = self.left - 1 } }
    {
        Turn {
            side: self.side.opponent(),
            left: self.left.saturating_sub(1),
        }
    }
}

// What is wrong with any node at which the side moves, whatever it does there.
fn turn_fault(game: &Game, board: &Board, turn: Turn, side: Side) -> Option<TurnFault>
    requires { IsBoardOf game.now board.now }
    ensures { (more : Option SomeFault) → turn_fault game.now side (place_at turn board.now.marks) more ≡ or_more result more }
{
    if turn.side != side {
        return Some(TurnFault::WrongSide);
    }
    if goal(game, board, Side::White) {
        return Some(TurnFault::WhiteGoalStands);
    }
    if turn.left == 0 {
        return Some(TurnFault::PliesSpent);
    }
    None
}

/// What is wrong with a node at which the side makes this move.
pub fn move_fault(game: &Game, board: &Board, turn: Turn, side: Side, mv: Move) -> Option<TurnFault>
    requires { IsBoardOf game.now board.now }
    ensures { result ≡ move_fault game.now side (place_at turn board.now.marks) mv }
{
    if let Some(fault) = turn_fault(game, board, turn, side) {
        return Some(fault);
    }
    if legal(game, board, side, mv) {
        None
    } else {
        Some(TurnFault::IllegalMove)
    }
}

// The first number at which the replies aren't the moves, an end being a difference.
fn difference(replies: &[Answered], moves: &[Move]) -> Option<u64>
    ensures { result ≡ difference 0 replies.now moves.now }
{
    let mut at: usize = 0;
    'replies: while at < replies.len() {
        if at >= moves.len() {
            return Some(at as u64);
        }
        if replies[at].mv != moves[at] {
            return Some(at as u64);
        }
        at += 1;
    }
    if at < moves.len() {
        Some(at as u64)
    } else {
        None
    }
}

fn answers_fault(replies: &[Answered], moves: &[Move]) -> Option<TurnFault>
    ensures { result ≡ answers_fault replies.now moves.now }
{
    if moves.is_empty() {
        return Some(TurnFault::Stuck);
    }
    match difference(replies, moves) {
        None => None,
        Some(place) => Some(TurnFault::RepliesDiffer { place }),
    }
}

/// What is wrong with a node at which the side may make any move, and these are the replies to all of
/// them. It lists the moves only where the side may move.
pub fn replies_fault(
    game: &Game,
    board: &Board,
    turn: Turn,
    side: Side,
    replies: &[Answered],
    moves: &mut MoveList,
) -> Option<TurnFault>
    requires size { IsBoardOf game.now board.now }
    requires room { length (actions game.now side) * game.now.width * game.now.height ≤ moves.old.room }
    ensures fault { result ≡ replies_fault game.now side (place_at turn board.now.marks) replies.now }
    ensures room { moves.new.room ≡ moves.old.room }
{
    if let Some(fault) = turn_fault(game, board, turn, side) {
        return Some(fault);
    }
    moves_into(game, board, side, moves);
    answers_fault(replies, moves.as_slice())
}
