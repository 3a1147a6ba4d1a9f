// The lines of a transcript go out, each piece whole before the call returns.
ghost use Rattle.std.specs.Prelude.{◌≡◌, ◌*◌, ◌<◌, ◌≤◌, ◌++◌, [], ◌∷◌, map, length, codes, decimal};
ghost use Rattle.bddl_model.specs.Game.{actions};
ghost use Rattle.bddl_model.specs.Limits.{IsBoardOf};
ghost use Rattle.bddl_model.specs.Play.{mark_byte, rows_text, board_text, move_text, numbered_text, moves_text, side_word, made_text, goal_text};
ghost use Rattle.bddl_model.specs.declared.game.Side.TheVariants as sides;
ghost use Rattle.game_play.specs.Shown.{AreOf, one_numbered, count_text};
ghost use Rattle.io_edge.specs.Ends.{put_failed};
ghost use Rattle.io_edge.specs.Outside.{Counts};
ghost use Rattle.io_edge.specs.Puts.{Adds, Puts};

use bddl_model::{Mark, Move, Side};
use grid_game::{Board, Game};
use io_edge::{PieceBuffer, Sink, SinkEnd, add_texts, put_text};
use itoa::Buffer;

fn mark_byte(mark: Mark) -> u8
    ensures { result ≡ mark_byte mark }
{
    match mark {
        Mark::Free => b'.',
        Mark::Black => b'B',
        Mark::White => b'W',
    }
}

fn add_marks<K: Sink>(buffer: &mut PieceBuffer, sink: &mut K, marks: &[Mark]) -> Result<(), SinkEnd>
    ensures text { Adds (map mark_byte marks.now) (K.written sink.old) buffer.old (K.written sink.new) buffer.new result }
    ensures cause { Counts (K.faults sink.old) (K.faults sink.new) (put_failed result) }
{
    for mark in marks {
        buffer.add(sink, &[mark_byte(*mark)])?;
    }
    Ok(())
}

fn add_row<K: Sink>(buffer: &mut PieceBuffer, sink: &mut K, row: &[Mark]) -> Result<(), SinkEnd>
    ensures text { Adds (map mark_byte row.now ++ 10 ∷ []) (K.written sink.old) buffer.old (K.written sink.new) buffer.new result }
    ensures cause { Counts (K.faults sink.old) (K.faults sink.new) (put_failed result) }
{
    add_marks(buffer, sink, row)?;
    buffer.add(sink, b"\n")
}

fn add_rows<K: Sink>(
    buffer: &mut PieceBuffer,
    sink: &mut K,
    width: u32,
    height: u32,
    marks: &[Mark],
) -> Result<(), SinkEnd>
    requires { length marks.now ≡ height * width }
    ensures text { Adds (rows_text width height marks.now) (K.written sink.old) buffer.old (K.written sink.new) buffer.new result }
    ensures cause { Counts (K.faults sink.old) (K.faults sink.new) (put_failed result) }
{
    let mut left = marks;
    for _row in 0..height {
        let (row, rest) = left.split_at(width as usize);
        add_row(buffer, sink, row)?;
        left = rest;
    }
    Ok(())
}

fn add_board<K: Sink>(
    buffer: &mut PieceBuffer,
    sink: &mut K,
    game: &Game,
    board: &Board,
) -> Result<(), SinkEnd>
    requires { IsBoardOf game.now board.now }
    ensures text { Adds (board_text game.now board.now.marks) (K.written sink.old) buffer.old (K.written sink.new) buffer.new result }
    ensures cause { Counts (K.faults sink.old) (K.faults sink.new) (put_failed result) }
{
    board.keeps_the_size();
    buffer.add(sink, b"board\n")?;
    add_rows(buffer, sink, game.width(), game.height(), board.marks())
}

fn add_move<K: Sink>(
    buffer: &mut PieceBuffer,
    sink: &mut K,
    game: &Game,
    side: Side,
    mv: Move,
) -> Result<(), SinkEnd>
    requires { mv.action < length (actions game.now side) }
    ensures text { Adds (move_text game.now side mv) (K.written sink.old) buffer.old (K.written sink.new) buffer.new result }
    ensures cause { Counts (K.faults sink.old) (K.faults sink.new) (put_failed result) }
{
    let mut first = Buffer::new();
    let mut second = Buffer::new();
    let x = first.format(mv.x).as_bytes();
    let y = second.format(mv.y).as_bytes();
    let name = game.name(side, mv.action);
    add_texts(buffer, sink, &[name, b" ", x, b" ", y, b"\n"])
}

fn add_number<K: Sink>(buffer: &mut PieceBuffer, sink: &mut K, number: u64) -> Result<(), SinkEnd>
    ensures text { Adds (decimal number ++ codes " ") (K.written sink.old) buffer.old (K.written sink.new) buffer.new result }
    ensures cause { Counts (K.faults sink.old) (K.faults sink.new) (put_failed result) }
{
    let mut digits = Buffer::new();
    let number = digits.format(number).as_bytes();
    add_texts(buffer, sink, &[number, b" "])
}

// A move that White has, with its number.
fn add_numbered<K: Sink>(
    buffer: &mut PieceBuffer,
    sink: &mut K,
    game: &Game,
    number: usize,
    mv: Move,
) -> Result<(), SinkEnd>
    requires { mv.action < length (actions game.now sides.White) }
    ensures text { Adds (one_numbered game.now number mv) (K.written sink.old) buffer.old (K.written sink.new) buffer.new result }
    ensures cause { Counts (K.faults sink.old) (K.faults sink.new) (put_failed result) }
{
    add_number(buffer, sink, number as u64)?;
    add_move(buffer, sink, game, Side::White, mv)
}

fn add_list<K: Sink>(
    buffer: &mut PieceBuffer,
    sink: &mut K,
    game: &Game,
    moves: &[Move],
) -> Result<(), SinkEnd>
    requires { AreOf game.now sides.White moves.now }
    ensures text { Adds (numbered_text game.now 0 moves.now) (K.written sink.old) buffer.old (K.written sink.new) buffer.new result }
    ensures cause { Counts (K.faults sink.old) (K.faults sink.new) (put_failed result) }
{
    for (number, mv) in moves.iter().enumerate() {
        add_numbered(buffer, sink, game, number, *mv)?;
    }
    Ok(())
}

fn add_count<K: Sink>(buffer: &mut PieceBuffer, sink: &mut K, count: u64) -> Result<(), SinkEnd>
    ensures text { Adds (count_text count) (K.written sink.old) buffer.old (K.written sink.new) buffer.new result }
    ensures cause { Counts (K.faults sink.old) (K.faults sink.new) (put_failed result) }
{
    let mut digits = Buffer::new();
    let count = digits.format(count).as_bytes();
    add_texts(buffer, sink, &[b"moves ", count, b"\n"])
}

fn add_moves<K: Sink>(
    buffer: &mut PieceBuffer,
    sink: &mut K,
    game: &Game,
    moves: &[Move],
) -> Result<(), SinkEnd>
    requires { AreOf game.now sides.White moves.now }
    ensures text { Adds (moves_text game.now moves.now) (K.written sink.old) buffer.old (K.written sink.new) buffer.new result }
    ensures cause { Counts (K.faults sink.old) (K.faults sink.new) (put_failed result) }
{
    add_count(buffer, sink, moves.len() as u64)?;
    add_list(buffer, sink, game, moves)
}

fn side_word(side: Side) -> &'static [u8]
    ensures { result.now ≡ side_word side }
{
    match side {
        Side::Black => b"black ",
        Side::White => b"white ",
    }
}

fn add_made<K: Sink>(
    buffer: &mut PieceBuffer,
    sink: &mut K,
    game: &Game,
    side: Side,
    mv: Move,
) -> Result<(), SinkEnd>
    requires { mv.action < length (actions game.now side) }
    ensures text { Adds (made_text game.now side mv) (K.written sink.old) buffer.old (K.written sink.new) buffer.new result }
    ensures cause { Counts (K.faults sink.old) (K.faults sink.new) (put_failed result) }
{
    buffer.add(sink, side_word(side))?;
    add_move(buffer, sink, game, side, mv)
}

/// The board.
pub fn show_board<K: Sink>(sink: &mut K, game: &Game, board: &Board) -> Result<(), SinkEnd>
    requires { IsBoardOf game.now board.now }
    ensures text { Puts (board_text game.now board.now.marks) (K.written sink.old) (K.written sink.new) result }
    ensures cause { Counts (K.faults sink.old) (K.faults sink.new) (put_failed result) }
{
    let mut buffer = PieceBuffer::new();
    add_board(&mut buffer, sink, game, board)?;
    buffer.finish(sink)
}

/// White's moves, with their numbers.
pub fn show_moves<K: Sink>(sink: &mut K, game: &Game, moves: &[Move]) -> Result<(), SinkEnd>
    requires { AreOf game.now sides.White moves.now }
    ensures text { Puts (moves_text game.now moves.now) (K.written sink.old) (K.written sink.new) result }
    ensures cause { Counts (K.faults sink.old) (K.faults sink.new) (put_failed result) }
{
    let mut buffer = PieceBuffer::new();
    add_moves(&mut buffer, sink, game, moves)?;
    buffer.finish(sink)
}

/// A move that was made.
pub fn show_made<K: Sink>(sink: &mut K, game: &Game, side: Side, mv: Move) -> Result<(), SinkEnd>
    requires { mv.action < length (actions game.now side) }
    ensures text { Puts (made_text game.now side mv) (K.written sink.old) (K.written sink.new) result }
    ensures cause { Counts (K.faults sink.old) (K.faults sink.new) (put_failed result) }
{
    let mut buffer = PieceBuffer::new();
    add_made(&mut buffer, sink, game, side, mv)?;
    buffer.finish(sink)
}

/// That Black's goal stands.
#[tactic(auto, unfolding(bddl_model::specs::Play::goal_text))]
pub fn show_goal<K: Sink>(sink: &mut K) -> Result<(), SinkEnd>
    ensures text { Puts goal_text (K.written sink.old) (K.written sink.new) result }
    ensures cause { Counts (K.faults sink.old) (K.faults sink.new) (put_failed result) }
{
    put_text(sink, b"goal\n")
}
