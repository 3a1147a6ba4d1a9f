// What the inputs say of the plies.
ghost use Rattle.std.specs.Prelude.{◌≡◌, ◌==◌, ◌+◌, ◌*◌, ◌<◌, ◌≤◌, ◌&&◌, ◌||◌, All, length, slice_get, Some};
ghost use Rattle.std.specs.List.{sum_by};
ghost use Rattle.bddl_model.specs.Board.{Board as Marks};
ghost use Rattle.bddl_model.specs.Circuit.{IsWire, holds};
ghost use Rattle.bddl_model.specs.Exact as exact;
ghost use Rattle.bddl_model.specs.Growth.{HasRoom, Makes};
ghost use Rattle.bddl_model.specs.Layout.{anchor_bits};
ghost use Rattle.bddl_model.specs.Words.{AreWires, word_value};
ghost use Rattle.symbol_cell.specs.Runs.{Stands, place_named};
ghost use Rattle.symbol_cell.specs.Steps.{unit};
ghost use Rattle.lifted_encode.specs.Telling as telling;
ghost use Rattle.lifted_encode.specs.Telling.{IsPlyOf, marks_of, ply_passes, ply_refused, one_refused, own_parts, refused_parts};

use crate::asked::Asked;
use crate::choice::code_meets;
use bddl_model::{NoMemory, PlyBits, Side, Span, Wire};
use bit_arith::{at_least, or, or_both};
use circuit_dag::Dag;
use grid_game::Game;
use std::alloc::Global;
use symbol_cell::{Pair, SymbolRun};

/// The pair of a moment.
pub fn pair_at(run: &SymbolRun, time: u32) -> Pair
    requires { time ≤ length run.now.plies }
    ensures { slice_get run.now.pairs time ≡ Some result }
{
    let (black, white) = run.mark(time);
    Pair { black, white }
}

/// A wire that holds where a word is a number: it is at least this one, and not at least the next.
pub fn is_exactly(dag: &mut Dag, word: &[Wire], number: u32) -> Result<Wire, NoMemory>
    requires word { AreWires dag.old word.now }
    requires short { length word.now ≤ 16 }
    requires few { number ≤ 32 }
    requires room { HasRoom dag.old 33 }
    ensures { Makes 33 dag.old dag.new result (λ a. word_value dag.old word.now a == number) }
{
    let reached = at_least(dag, word, number)?;
    let passed = at_least(dag, word, number + 1)?;
    let not_passed = dag.not(passed);
    dag.and(reached, not_passed)
}

// The code that the player of a ply has to make legal: that of Black, or the sample of White.
fn own_code(ply: PlyBits) -> Span
    ensures { result ≡ exact.own_code ply }
{
    match ply.side {
        Side::Black => ply.code,
        Side::White => ply.sample,
    }
}

// A wire that holds where another does and the ply passes, if the time is behind it.
fn also_passes(
    alloc: Global,
    dag: &mut Dag,
    game: &Game,
    known: Wire,
    ply: PlyBits,
    number: u32,
    time: &[Wire],
    run: &SymbolRun,
) -> Result<Wire, NoMemory>
    requires known { IsWire dag.old known }
    requires ply { IsPlyOf game.now dag.old ply }
    requires few { number ≤ 31 }
    requires within { number < length run.now.plies }
    requires time { AreWires dag.old time.now }
    requires short { length time.now ≤ 16 }
    requires run { (board : Marks) × Stands run.now dag.old game.now board }
    requires room { HasRoom dag.old (unit (anchor_bits game.now) * own_parts game.now ply) }
    ensures { Makes (unit (anchor_bits game.now) * own_parts game.now ply) dag.old dag.new result (λ a.
        holds dag.old known a
        && ply_passes game.now a (word_value dag.old time.now a) (place_named game.now dag.old a run.now.place) (marks_of dag.old run.now a) number ply) }
{
    let behind = at_least(dag, time, number + 1)?;
    let code = own_code(ply);
    let mark = pair_at(run, number);
    let legal = code_meets(
        alloc,
        dag,
        game,
        ply.side,
        code,
        Asked::AllPass,
        run.place(),
        mark,
    )?;
    let before = dag.not(behind);
    let passed = or(dag, before, legal)?;
    dag.and(known, passed)
}

/// A wire that holds where each ply before the time passes.
pub fn plies_pass(
    alloc: Global,
    dag: &mut Dag,
    game: &Game,
    plies: &[PlyBits],
    time: &[Wire],
    run: &SymbolRun,
) -> Result<Wire, NoMemory>
    requires plies { All (IsPlyOf game.now dag.old) plies.now }
    requires few { length plies.now ≤ 31 }
    requires within { length plies.now ≤ length run.now.plies }
    requires time { AreWires dag.old time.now }
    requires short { length time.now ≤ 16 }
    requires run { (board : Marks) × Stands run.now dag.old game.now board }
    requires room { HasRoom dag.old (unit (anchor_bits game.now) * sum_by (own_parts game.now) plies.now) }
    ensures { Makes (unit (anchor_bits game.now) * sum_by (own_parts game.now) plies.now) dag.old dag.new result (λ a.
        telling.plies_pass game.now a (word_value dag.old time.now a) (place_named game.now dag.old a run.now.place) (marks_of dag.old run.now a) 0 plies.now) }
{
    let mut all = dag.truth();
    'plies: for number in 0..plies.len() {
        all = also_passes(
            alloc,
            dag,
            game,
            all,
            plies[number],
            number as u32,
            time,
            run,
        )?;
    }
    Ok(all)
}

// A wire that holds where another does, or where the ply ends at the time, is White's and is refused
// by the test whose number the word is.
fn also_refused(
    alloc: Global,
    dag: &mut Dag,
    game: &Game,
    known: Wire,
    ply: PlyBits,
    number: u32,
    time: &[Wire],
    test: &[Wire],
    run: &SymbolRun,
) -> Result<Wire, NoMemory>
    requires known { IsWire dag.old known }
    requires ply { IsPlyOf game.now dag.old ply }
    requires few { number ≤ 31 }
    requires within { number < length run.now.plies }
    requires time { AreWires dag.old time.now }
    requires short { length time.now ≤ 16 }
    requires test { AreWires dag.old test.now }
    requires test_short { length test.now ≤ 16 }
    requires run { (board : Marks) × Stands run.now dag.old game.now board }
    requires room { HasRoom dag.old (unit (anchor_bits game.now) * refused_parts game.now ply) }
    ensures { Makes (unit (anchor_bits game.now) * refused_parts game.now ply) dag.old dag.new result (λ a.
        holds dag.old known a
        || ply_refused game.now a (word_value dag.old time.now a) (place_named game.now dag.old a run.now.place) (marks_of dag.old run.now a) (word_value dag.old test.now a) number ply) }
{
    match ply.side {
        Side::Black => Ok(known),
        Side::White => {
            let here = is_exactly(dag, time, number + 1)?;
            let mark = pair_at(run, number);
            let (place, asked) = (run.place(), Asked::Unrefuted(test));
            let kept = code_meets(alloc, dag, game, ply.side, ply.code, asked, place, mark)?;
            let refused = dag.not(kept);
            or_both(dag, known, here, refused)
        }
    }
}

/// A wire that holds where the ply that ends at the time is White's and is refused by the test whose
/// number the word is.
pub fn one_refused(
    alloc: Global,
    dag: &mut Dag,
    game: &Game,
    plies: &[PlyBits],
    time: &[Wire],
    test: &[Wire],
    run: &SymbolRun,
) -> Result<Wire, NoMemory>
    requires plies { All (IsPlyOf game.now dag.old) plies.now }
    requires few { length plies.now ≤ 31 }
    requires within { length plies.now ≤ length run.now.plies }
    requires time { AreWires dag.old time.now }
    requires short { length time.now ≤ 16 }
    requires test { AreWires dag.old test.now }
    requires test_short { length test.now ≤ 16 }
    requires run { (board : Marks) × Stands run.now dag.old game.now board }
    requires room { HasRoom dag.old (unit (anchor_bits game.now) * sum_by (refused_parts game.now) plies.now) }
    ensures { Makes (unit (anchor_bits game.now) * sum_by (refused_parts game.now) plies.now) dag.old dag.new result (λ a.
        telling.one_refused game.now a (word_value dag.old time.now a) (place_named game.now dag.old a run.now.place) (marks_of dag.old run.now a) (word_value dag.old test.now a) 0 plies.now) }
{
    let truth = dag.truth();
    let mut known = dag.not(truth);
    'plies: for number in 0..plies.len() {
        known = also_refused(
            alloc,
            dag,
            game,
            known,
            plies[number],
            number as u32,
            time,
            test,
            run,
        )?;
    }
    Ok(known)
}
