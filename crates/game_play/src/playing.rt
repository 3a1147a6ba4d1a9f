// The whole play.
ghost use Rattle.std.specs.Prelude.{◌≡◌, ◌≤◌, ◌*◌, ◌⊎◌, ℕ, List, [], length, Some, true, IsTrue, IfOk};
ghost use Rattle.bddl_model.specs.Certificate.{valid};
ghost use Rattle.bddl_model.specs.Game.{actions};
ghost use Rattle.bddl_model.specs.Limits.{IsBoardOf};
ghost use Rattle.bddl_model.specs.Play.{plays};
ghost use Rattle.bddl_model.specs.declared.game.Side.TheVariants as sides;
ghost use Rattle.game_play.specs.Plies.{LeftAfter};
ghost use Rattle.game_play.specs.Rounds.{RoundsEnd, is_gone_end, IsReached, IsEnd};
ghost use Rattle.io_edge.specs.Ends.{put_failed};
ghost use Rattle.game_play.specs.Plays.{IsWanting, PlaysOut, IsWithin, ReachesOrCut, ends_gone, ends_cut};
ghost use Rattle.io_edge.specs.Outside.{Counts};

use crate::opponent::Opponent;
use crate::ply::{Ply, ply_at};
use crate::show::show_board;
use bddl_model::{NoMemory, Node, Played};
use grid_game::{Board, MoveList};
use io_edge::{Sink, SinkEnd};
use offset_check::Setup;
use std::alloc::Global;

fn begin(opponent: &mut Box<dyn Opponent>, number: u64)
    ensures began { began opponent.new ≡ number }
    ensures said { said opponent.new ≡ [] }
    ensures count { count opponent.new ≡ count opponent.old }
    ensures steady { steady opponent.new ≡ steady opponent.old }
    ensures left { left opponent.new ≡ left opponent.old }
{
    opponent.start(number)
}

// Plays round after round, from the start on.
fn rounds<K: Sink>(
    setup: &Setup,
    nodes: &[Node],
    board: &mut Board,
    list: &mut MoveList,
    opponent: &mut Box<dyn Opponent>,
    sink: &mut K,
) -> Result<Played, SinkEnd>
    requires valid { valid setup.now nodes.now ≡ true }
    requires board { board.old.marks ≡ setup.now.board }
    requires size { IsBoardOf setup.now.game board.old }
    requires room { length (actions setup.now.game sides.White) * setup.now.game.width * setup.now.game.height ≤ list.old.room }
    requires silent { said opponent.old ≡ [] }
    ensures told { RoundsEnd setup.now nodes.now (said opponent.new) (K.written sink.old) (K.written sink.new) result }
    ensures left { LeftAfter (left opponent.old) (left opponent.new) (said opponent.new) (is_gone_end result) }
    ensures began { began opponent.new ≡ began opponent.old }
    ensures end { IfOk result (IsEnd setup.now.depth) }
    ensures steady { IsTrue (steady opponent.old) → IfOk result (IsReached setup.now.depth) }
    ensures count { Counts (count opponent.old) (count opponent.new) (is_gone_end result) }
    ensures cause { Counts (K.faults sink.old) (K.faults sink.new) (put_failed result) }
{
    setup.keeps_its_size();
    let mut id: u64 = 0;
    for made in 0..setup.depth + 1 {
        show_board(sink, &setup.game, board)?;
        let node = &nodes[id as usize];
        match ply_at(&setup.game, node, made, board, list, opponent, sink)? {
            Ply::Ended(end) => return Ok(end),
            Ply::Next(next) => id = next,
        }
    }
    unreachable!()
}

/// Plays a game under a valid certificate, from the start to Black's goal, and puts its transcript: the
/// board at the start and after each move, each move, and the moves that White has before it is asked for
/// one. What White is shown is put before the opponent answers.
///
/// It takes its memory when it begins: where there is none, the opponent isn't called and nothing is put.
/// After that memory can be wanting in the sink alone.
pub fn play<K: Sink>(
    alloc: Global,
    setup: &Setup,
    nodes: &[Node],
    opponent: &mut Box<dyn Opponent>,
    number: u64,
    sink: &mut K,
) -> Result<Played, NoMemory>
    requires valid { valid setup.now nodes.now ≡ true }

    // The end and the transcript are those of the play under these replies.
    ensures told { (IsWanting result × (opponent.new ≡ opponent.old) × (K.written sink.new ≡ K.written sink.old))
        ⊎ ((began opponent.new ≡ number) × PlaysOut (plays setup.now nodes.now (said opponent.new)) (K.written sink.old) (K.written sink.new) result) }

    // Where the numbers to come were told, they are the replies, as far as they are taken.
    ensures left { (numbers : List ℕ) → left opponent.old ≡ Some numbers → (IsWanting result × (K.written sink.new ≡ K.written sink.old))
        ⊎ PlaysOut (plays setup.now nodes.now numbers) (K.written sink.old) (K.written sink.new) result }

    // Black's goal is reached within the depth; against a steady opponent there is no other end.
    ensures within { IfOk result (λ end. IsWithin setup.now.depth end) }
    ensures steady { IsTrue (steady opponent.old) → IfOk result (λ end. ReachesOrCut setup.now.depth end) }

    // No reply came only where the opponent's count of faults rose, and a write was refused only where the sink's did.
    ensures gone { Counts (count opponent.old) (count opponent.new) (ends_gone result) }
    ensures cause { Counts (K.faults sink.old) (K.faults sink.new) (ends_cut result) }
{
    let mut board = setup.board.copy()?;
    let mut list = MoveList::for_game(alloc, &setup.game)?;
    begin(opponent, number);
    match rounds(setup, nodes, &mut board, &mut list, opponent, sink) {
        Ok(end) => Ok(end),
        Err(SinkEnd::Failed) => Ok(Played::WriteFault),
        Err(SinkEnd::NoMemory) => Err(NoMemory),
    }
}
