// One ply of a play.
ghost use Rattle.std.specs.Prelude.{◌≡◌, ◌*◌, ◌<◌, ◌≤◌, ◌++◌, [], true, false, ℕ, List, length, map, IsTrue};
ghost use Rattle.bddl_model.specs.Board.{Board as SomeBoard};
ghost use Rattle.bddl_model.specs.Game.{actions, Game as SomeGame};
ghost use Rattle.bddl_model.specs.Limits.{IsBoardOf};
ghost use Rattle.bddl_model.specs.Moves.{legal, moves};
ghost use Rattle.bddl_model.specs.declared.certificate.Node.TheVariants as nodes;
ghost use Rattle.bddl_model.specs.declared.game.Side.TheVariants as sides;
ghost use Rattle.game_play.specs.Plies.{taken, LeftAfter, ply_is_gone, Fits, Followed, GoesOn, IsWhites, Plied, TakesFew};
ghost use Rattle.game_play.specs.Replies.{is_gone, said_after, Follows, IsShown};
ghost use Rattle.game_play.specs.Shown.{AreOf};
ghost use Rattle.io_edge.specs.Ends.{put_failed};
ghost use Rattle.io_edge.specs.Outside.{Counts};

use crate::opponent::{Opponent, Reply};
use crate::show::{show_goal, show_made, show_moves};
use bddl_model::{Answered, Move, Node, Played, Side};
use grid_game::{Board, Game, MoveList, apply, moves_into};
use io_edge::{Sink, SinkEnd};

/// The play ended, or it goes on at this node.
#[derive(Clone, Copy, Debug, PartialEq, Eq)]
pub enum Ply {
    Ended(Played),
    Next(u64),
}

// Asks the opponent for one of these moves.
fn ask(opponent: &mut Box<dyn Opponent>, board: &Board, moves: &[Move]) -> Reply
    requires some { 0 < length moves.now }
    requires few { length (said opponent.old) < 16 }
    ensures began { began opponent.new ≡ began opponent.old }
    ensures said { said opponent.new ≡ said_after result (said opponent.old) }
    ensures count { Counts (count opponent.old) (count opponent.new) (is_gone result) }
    ensures left { Follows (left opponent.old) (left opponent.new) result }
    ensures stays { steady opponent.new ≡ steady opponent.old }
    ensures shown { IsTrue (steady opponent.old) → IsShown result (length moves.now) }
{
    opponent.reply(board, moves)
}

// Follows a reply to White's moves, which are those of the answers.
fn follow<K: Sink>(
    game: &Game,
    answers: &[Answered],
    board: &mut Board,
    shown: &[Move],
    reply: Reply,
    sink: &mut K,
) -> Result<Ply, SinkEnd>
    requires size { IsBoardOf game.now board.old }
    requires shown { shown.now ≡ moves game.now board.old.marks sides.White }
    requires answers { map (λ a. a.mv) answers.now ≡ shown.now }
    requires actions { AreOf game.now sides.White shown.now }
    ensures ply { Followed game.now answers.now board.old.marks board.new.marks (taken reply) (K.written sink.old) (K.written sink.new) result }
    ensures gone { ply_is_gone result ≡ is_gone reply }
    ensures on { IsShown reply (length shown.now) → GoesOn result }
    ensures size { IsBoardOf game.now board.new }
    ensures cause { Counts (K.faults sink.old) (K.faults sink.new) (put_failed result) }
{
    match reply {
        Reply::Gone => Ok(Ply::Ended(Played::Gone)),
        Reply::Choice(number) => {
            let count = shown.len() as u64;
            if number >= count {
                return Ok(Ply::Ended(Played::BadReply { number, count }));
            }
            let answer = answers[number as usize];
            show_made(sink, game, Side::White, answer.mv)?;
            apply(game, board, Side::White, answer.mv);
            Ok(Ply::Next(answer.next.0))
        }
    }
}

// Shows White's moves, and follows the opponent's reply.
fn white_ply<K: Sink>(
    game: &Game,
    answers: &[Answered],
    board: &mut Board,
    list: &mut MoveList,
    opponent: &mut Box<dyn Opponent>,
    sink: &mut K,
) -> Result<Ply, SinkEnd>
    requires size { IsBoardOf game.now board.old }
    requires room { length (actions game.now sides.White) * game.now.width * game.now.height ≤ list.old.room }
    requires fits { Fits game.now board.old.marks (nodes.White answers.now) }
    requires few { length (said opponent.old) < 16 }
    ensures ply { (all : List ℕ) × (said opponent.new ≡ said opponent.old ++ all) × LeftAfter (left opponent.old) (left opponent.new) all (ply_is_gone result)
        × (length all ≤ 1) × ((made : ℕ) → Plied game.now made (nodes.White answers.now) board.old.marks board.new.marks all (K.written sink.old) (K.written sink.new) result) }
    ensures began { began opponent.new ≡ began opponent.old }
    ensures stays { steady opponent.new ≡ steady opponent.old }
    ensures count { Counts (count opponent.old) (count opponent.new) (ply_is_gone result) }
    ensures on { IsTrue (steady opponent.old) → GoesOn result }
    ensures size { IsBoardOf game.now board.new }
    ensures room { list.new.room ≡ list.old.room }
    ensures cause { Counts (K.faults sink.old) (K.faults sink.new) (put_failed result) }
{
    moves_into(game, board, Side::White, list);
    show_moves(sink, game, list.as_slice())?;
    let reply = ask(opponent, board, list.as_slice());
    follow(game, answers, board, list.as_slice(), reply, sink)
}

fn black_ply<K: Sink>(
    game: &Game,
    mv: Move,
    next: u64,
    board: &mut Board,
    sink: &mut K,
) -> Result<Ply, SinkEnd>
    requires size { IsBoardOf game.now board.old }
    requires legal { legal game.now board.old.marks sides.Black mv ≡ true }
    ensures ply { (made : ℕ) → Plied game.now made (nodes.Black mv (record { 0 = next })) board.old.marks board.new.marks [] (K.written sink.old) (K.written sink.new) result }
    ensures gone { ply_is_gone result ≡ false }
    ensures on { GoesOn result }
    ensures size { IsBoardOf game.now board.new }
    ensures cause { Counts (K.faults sink.old) (K.faults sink.new) (put_failed result) }
{
    show_made(sink, game, Side::Black, mv)?;
    apply(game, board, Side::Black, mv);
    Ok(Ply::Next(next))
}

fn goal_ply<K: Sink>(made: u32, sink: &mut K) -> Result<Ply, SinkEnd>
    ensures ply { (g : SomeGame) (board : SomeBoard) → Plied g made nodes.Goal board board [] (K.written sink.old) (K.written sink.new) result }
    ensures gone { ply_is_gone result ≡ false }
    ensures on { GoesOn result }
    ensures cause { Counts (K.faults sink.old) (K.faults sink.new) (put_failed result) }
{
    show_goal(sink)?;
    Ok(Ply::Ended(Played::Reached { plies: made }))
}

/// Plays one ply at a node, after so many: shows what is done there, and asks the opponent where White is
/// to move.
pub fn ply_at<K: Sink>(
    game: &Game,
    node: &Node,
    made: u32,
    board: &mut Board,
    list: &mut MoveList,
    opponent: &mut Box<dyn Opponent>,
    sink: &mut K,
) -> Result<Ply, SinkEnd>
    requires size { IsBoardOf game.now board.old }
    requires room { length (actions game.now sides.White) * game.now.width * game.now.height ≤ list.old.room }
    requires fits { Fits game.now board.old.marks node.now }
    requires few { IsWhites node.now → length (said opponent.old) < 16 }
    ensures ply { (all : List ℕ) × (said opponent.new ≡ said opponent.old ++ all) × LeftAfter (left opponent.old) (left opponent.new) all (ply_is_gone result)
        × TakesFew node.now all × Plied game.now made node.now board.old.marks board.new.marks all (K.written sink.old) (K.written sink.new) result }
    ensures began { began opponent.new ≡ began opponent.old }
    ensures stays { steady opponent.new ≡ steady opponent.old }
    ensures count { Counts (count opponent.old) (count opponent.new) (ply_is_gone result) }
    ensures on { IsTrue (steady opponent.old) → GoesOn result }
    ensures size { IsBoardOf game.now board.new }
    ensures room { list.new.room ≡ list.old.room }
    ensures cause { Counts (K.faults sink.old) (K.faults sink.new) (put_failed result) }
{
    match node {
        Node::Goal => goal_ply(made, sink),
        Node::Black { mv, next } => black_ply(game, *mv, next.0, board, sink),
        Node::White { replies } => {
            white_ply(game, replies.as_slice(), board, list, opponent, sink)
        }
    }
}
