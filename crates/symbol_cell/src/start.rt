// The mark of the start board.
ghost use Rattle.std.specs.Prelude.{◌≡◌, false, ◌+◌, ◌*◌, ◌≤◌, length, IfOk};
ghost use Rattle.std.specs.List.{sum_by};
ghost use Rattle.bddl_model.specs.Truth.{Assignment};
ghost use Rattle.bddl_model.specs.Circuit.{holds};
ghost use Rattle.bddl_model.specs.Encoding.{shown};
ghost use Rattle.bddl_model.specs.Growth.{HasRoom, Grows, Makes};
ghost use Rattle.bddl_model.specs.Layout.{anchor_bits};
ghost use Rattle.bddl_model.specs.Limits.{IsBoardOf};
ghost use Rattle.bddl_model.specs.OneCell.{spelled_cell};
ghost use Rattle.bddl_model.specs.Words.{AreWires, word_bits};
ghost use Rattle.symbol_cell.specs.Pairs.{IsPair, mark_of};
ghost use Rattle.symbol_cell.specs.Runs.{place_named};
ghost use Rattle.symbol_cell.specs.Starts.{filled, placed, is_at, cell_gates};

use crate::pair::{Pair, put_mark};
use crate::touch::is_number;
use bddl_model::{Mark, NoMemory, Wire};
use circuit_dag::Dag;
use grid_game::{Board, Game};
use move_code::bits;

// The open mark.
fn no_mark(dag: &Dag) -> Pair
    ensures pair { IsPair dag.now result }
    ensures shown { (a : Assignment) → mark_of dag.now result a ≡ Mark.Free }
{
    let never = dag.not(dag.truth());
    Pair {
        black: never,
        white: never,
    }
}

// A wire that holds where the place is a cell.
fn is_cell(dag: &mut Dag, x: u32, y: u32, x_bits: u32, place: &[Wire]) -> Result<Wire, NoMemory>
    requires place { AreWires dag.old place.now }
    requires columns { x_bits ≤ length place.now }
    requires short { length place.now ≤ 16 }
    requires room { HasRoom dag.old (length place.now + 1) }
    ensures { Makes (length place.now + 1) dag.old dag.new result (λ a. is_at x y (spelled_cell x_bits (word_bits dag.old place.now a))) }
{
    let (columns, rows) = place.split_at(x_bits as usize);
    let column = is_number(dag, columns, x)?;
    let row = is_number(dag, rows, y)?;
    dag.and(column, row)
}

// The mark of one cell, where the place is that cell. An open one is none.
fn put_cell(
    dag: &mut Dag,
    x: u32,
    y: u32,
    mark: Mark,
    x_bits: u32,
    place: &[Wire],
    before: Pair,
) -> Result<Pair, NoMemory>
    requires place { AreWires dag.old place.now }
    requires columns { x_bits ≤ length place.now }
    requires short { length place.now ≤ 16 }
    requires before { IsPair dag.old before }
    requires room { HasRoom dag.old (cell_gates (length place.now) * filled mark) }
    ensures pair { IfOk result (λ p. IsPair dag.new p) }
    ensures shown { IfOk result (λ p. (a : Assignment) → mark_of dag.new p a ≡ placed mark x y (spelled_cell x_bits (word_bits dag.old place.now a)) (mark_of dag.old before a)) }
    ensures grows { Grows (cell_gates (length place.now) * filled mark) dag.old dag.new }
{
    if mark == Mark::Free {
        return Ok(before);
    }
    let here = is_cell(dag, x, y, x_bits, place)?;
    put_mark(dag, here, mark, before)
}

/// A pair that shows the mark that the board has at the place.
pub fn put_board(
    dag: &mut Dag,
    game: &Game,
    board: &Board,
    place: &[Wire],
) -> Result<Pair, NoMemory>
    requires board { IsBoardOf game.now board.now }
    requires place { AreWires dag.old place.now }
    requires place_bits { length place.now ≡ anchor_bits game.now }
    requires room { HasRoom dag.old (cell_gates (length place.now) * sum_by filled board.now.marks) }
    ensures pair { IfOk result (λ p. IsPair dag.new p) }
    ensures shown { IfOk result (λ p. (a : Assignment) → mark_of dag.new p a ≡ shown game.now board.now.marks (place_named game.now dag.old a place.now)) }
    ensures grows { Grows (cell_gates (length place.now) * sum_by filled board.now.marks) dag.old dag.new }
{
    game.keeps_the_limits();
    board.keeps_the_size();
    let width = board.width();
    let x_bits = bits(width);
    let mut pair = no_mark(dag);
    'cells: for cell in 0..board.height() * width {
        let (x, y) = (cell % width + 1, cell / width + 1);
        pair = put_cell(dag, x, y, board.at(x, y), x_bits, place, pair)?;
    }
    Ok(pair)
}
