// The mark at a moment that a word of wires names.
ghost use Rattle.std.specs.Prelude.{◌≡◌, ◌==◌, ◌+◌, ◌*◌, ◌<◌, ◌≤◌, ◌&&◌, ◌||◌, length, IfOk};
ghost use Rattle.bddl_model.specs.Truth.{Assignment};
ghost use Rattle.bddl_model.specs.Board.{Board as Marks};
ghost use Rattle.bddl_model.specs.Circuit.{IsWire, holds};
ghost use Rattle.bddl_model.specs.Growth.{HasRoom, Grows};
ghost use Rattle.bddl_model.specs.Layout.{anchor_bits};
ghost use Rattle.bddl_model.specs.Words.{AreWires, word_value};
ghost use Rattle.symbol_cell.specs.Pairs.{IsPair, mark_of, is_black, is_white};
ghost use Rattle.symbol_cell.specs.Runs.{Stands};
ghost use Rattle.symbol_cell.specs.Steps.{unit};
ghost use Rattle.lifted_encode.specs.Telling.{marks_of, mark_below};

use crate::plies::{is_exactly, pair_at};
use bddl_model::{NoMemory, Wire};
use bit_arith::or_both;
use circuit_dag::Dag;
use grid_game::Game;
use symbol_cell::{Pair, SymbolRun};

// Wires that hold where others do, or where the word is a moment and its mark is black, or white.
fn also_mark(
    dag: &mut Dag,
    game: &Game,
    known: Pair,
    word: &[Wire],
    moment: u32,
    run: &SymbolRun,
) -> Result<Pair, NoMemory>
    requires known { IsWire dag.old known.black × IsWire dag.old known.white }
    requires word { AreWires dag.old word.now }
    requires short { length word.now ≤ 16 }
    requires few { moment ≤ 31 }
    requires within { moment ≤ length run.now.plies }
    requires run { (board : Marks) × Stands run.now dag.old game.now board }
    requires room { HasRoom dag.old (unit (anchor_bits game.now)) }
    ensures wires { IfOk result (λ p. IsWire dag.new p.black × IsWire dag.new p.white) }
    ensures black { IfOk result (λ p. (a : Assignment) → holds dag.new p.black a
        ≡ (holds dag.old known.black a || word_value dag.old word.now a == moment && is_black (marks_of dag.old run.now a moment))) }
    ensures white { IfOk result (λ p. (a : Assignment) → holds dag.new p.white a
        ≡ (holds dag.old known.white a || word_value dag.old word.now a == moment && is_white (marks_of dag.old run.now a moment))) }
    ensures grows { Grows (unit (anchor_bits game.now)) dag.old dag.new }
{
    let pair = pair_at(run, moment);
    let here = is_exactly(dag, word, moment)?;
    let black = or_both(dag, known.black, here, pair.black)?;
    let white = or_both(dag, known.white, here, pair.white)?;
    Ok(Pair { black, white })
}

/// A pair that shows the mark at the moment that a word names, if it is one of so many; else an open
/// one.
pub fn mark_at(
    dag: &mut Dag,
    game: &Game,
    word: &[Wire],
    count: u32,
    run: &SymbolRun,
) -> Result<Pair, NoMemory>
    requires word { AreWires dag.old word.now }
    requires short { length word.now ≤ 16 }
    requires few { count ≤ 32 }
    requires within { count ≤ length run.now.plies + 1 }
    requires run { (board : Marks) × Stands run.now dag.old game.now board }
    requires room { HasRoom dag.old (unit (anchor_bits game.now) * count) }
    ensures pair { IfOk result (λ p. IsPair dag.new p) }
    ensures shown { IfOk result (λ p. (a : Assignment) → mark_of dag.new p a ≡ mark_below count (marks_of dag.old run.now a) (word_value dag.old word.now a)) }
    ensures grows { Grows (unit (anchor_bits game.now) * count) dag.old dag.new }
{
    let never = dag.not(dag.truth());
    let mut known = Pair {
        black: never,
        white: never,
    };
    'moments: for moment in 0..count {
        known = also_mark(dag, game, known, word, moment, run)?;
    }
    Ok(known)
}
