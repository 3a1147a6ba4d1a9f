// What is asked of tests at the place.
ghost use Rattle.std.specs.Prelude.{◌≡◌, not, ◌==◌, ◌+◌, ◌*◌, ◌≤◌, ◌&&◌, length};
ghost use Rattle.bddl_model.specs.Board.{same_mark};
ghost use Rattle.bddl_model.specs.Circuit.{IsWire, holds};
ghost use Rattle.bddl_model.specs.Conditions.{passes_at, fails_at};
ghost use Rattle.bddl_model.specs.Fitting as spec;
ghost use Rattle.bddl_model.specs.Growth.{HasRoom, Makes};
ghost use Rattle.bddl_model.specs.Words.{AreWires, word_value};
ghost use Rattle.symbol_cell.specs.Pairs.{IsPair, mark_of};
ghost use Rattle.lifted_encode.specs.Asking as asking;
ghost use Rattle.lifted_encode.specs.Asking.{IsAsked, IsSpot, placed, question, here_of, meet_from};
ghost use Rattle.symbol_cell.specs.Steps.{unit, anchor_of, place_of};

use bddl_model::{Mark, NoMemory, Test, Wire};
use bit_arith::{equal_const, or};
use circuit_dag::Dag;
use std::alloc::Global;
use symbol_cell::{Cells, Pair, touches};

/// What is asked of the tests of an item at the place: that all pass there, or that the one whose
/// number a word is doesn't fail there.
#[derive(Clone, Copy)]
pub enum Asked<'a> {
    AllPass,
    Unrefuted(&'a [Wire]),
}

/// The words of an anchor and of the place, and the mark there.
#[derive(Clone, Copy)]
pub struct Spot<'a> {
    pub cells: Cells<'a>,
    pub mark: Pair,
}

// A wire that holds where a pair shows a mark.
fn shows(dag: &mut Dag, pair: Pair, mark: Mark) -> Result<Wire, NoMemory>
    requires pair { IsPair dag.old pair }
    requires room { HasRoom dag.old 1 }
    ensures { Makes 1 dag.old dag.new result (λ a. same_mark (mark_of dag.old pair a) mark) }
{
    match mark {
        Mark::Free => {
            let not_black = dag.not(pair.black);
            let not_white = dag.not(pair.white);
            dag.and(not_black, not_white)
        }
        Mark::Black => Ok(pair.black),
        Mark::White => Ok(pair.white),
    }
}

// A wire that holds where the mark passes a test.
fn passes(dag: &mut Dag, pair: Pair, test: Test) -> Result<Wire, NoMemory>
    requires pair { IsPair dag.old pair }
    requires room { HasRoom dag.old 1 }
    ensures { Makes 1 dag.old dag.new result (λ a. spec.passes (mark_of dag.old pair a) test) }
{
    let shown = shows(dag, pair, test.atom.mark)?;
    if test.negated {
        return Ok(dag.not(shown));
    }
    Ok(shown)
}

// A wire that holds where a test passes, or its cell isn't the place.
fn passes_here(alloc: Global, dag: &mut Dag, test: Test, spot: Spot) -> Result<Wire, NoMemory>
    requires spot { IsSpot dag.old spot }
    requires room { HasRoom dag.old (8 * length spot.cells.place.now + 34) }
    ensures { Makes (8 * length spot.entry.cells.place.now + 34) dag.old dag.new result (λ a. passes_at (place_of dag.old spot.entry.cells a) (mark_of dag.old spot.entry.mark a) (placed (anchor_of dag.old spot.entry.cells a) test)) }
{
    let cells = spot.cells;
    let here = touches(
        alloc,
        dag,
        test.atom,
        cells.anchor,
        cells.x_bits,
        cells.place,
    )?;
    let passed = passes(dag, spot.mark, test)?;
    let elsewhere = dag.not(here);
    or(dag, elsewhere, passed)
}

// The test that passes where this one fails.
fn opposite(test: Test) -> Test
    ensures { result ≡ record test { negated = not test.negated } }
{
    Test {
        atom: test.atom,
        negated: !test.negated,
    }
}

// A wire that holds where a test fails, or its cell isn't the place.
fn fails_here(alloc: Global, dag: &mut Dag, test: Test, spot: Spot) -> Result<Wire, NoMemory>
    requires spot { IsSpot dag.old spot }
    requires room { HasRoom dag.old (8 * length spot.cells.place.now + 34) }
    ensures { Makes (8 * length spot.entry.cells.place.now + 34) dag.old dag.new result (λ a. fails_at (place_of dag.old spot.entry.cells a) (mark_of dag.old spot.entry.mark a) (placed (anchor_of dag.old spot.entry.cells a) test)) }
{
    passes_here(alloc, dag, opposite(test), spot)
}

// A wire that holds where the word is the test's number and the test fails, or its cell isn't the
// place.
fn refutes(
    alloc: Global,
    dag: &mut Dag,
    word: &[Wire],
    number: u32,
    test: Test,
    spot: Spot,
) -> Result<Wire, NoMemory>
    requires word { AreWires dag.old word.now }
    requires short { length word.now ≤ 16 }
    requires spot { IsSpot dag.old spot }
    requires room { HasRoom dag.old (8 * length spot.cells.place.now + 51) }
    ensures { Makes (8 * length spot.entry.cells.place.now + 51) dag.old dag.new result (λ a. word_value dag.old word.now a == number && fails_at (place_of dag.old spot.entry.cells a) (mark_of dag.old spot.entry.mark a) (placed (anchor_of dag.old spot.entry.cells a) test)) }
{
    let named = equal_const(dag, word, number)?;
    let fails = fails_here(alloc, dag, test, spot)?;
    dag.and(named, fails)
}

// A wire that holds where the test of this number meets what is asked.
fn meets(
    alloc: Global,
    dag: &mut Dag,
    asked: Asked,
    number: u32,
    test: Test,
    spot: Spot,
) -> Result<Wire, NoMemory>
    requires asked { IsAsked dag.old asked }
    requires spot { IsSpot dag.old spot }
    requires room { HasRoom dag.old (8 * length spot.cells.place.now + 51) }
    ensures { Makes (8 * length spot.entry.cells.place.now + 51) dag.old dag.new result (λ a. asking.meets (question dag.old asked.entry a) number (here_of dag.old spot.entry a) test) }
{
    match asked {
        Asked::AllPass => passes_here(alloc, dag, test, spot),
        Asked::Unrefuted(word) => {
            let refuted = refutes(alloc, dag, word, number, test, spot)?;
            Ok(dag.not(refuted))
        }
    }
}

// A wire that holds where another does and the test meets what is asked.
fn also_meets(
    alloc: Global,
    dag: &mut Dag,
    known: Wire,
    asked: Asked,
    number: u32,
    test: Test,
    spot: Spot,
) -> Result<Wire, NoMemory>
    requires known { IsWire dag.old known }
    requires asked { IsAsked dag.old asked }
    requires spot { IsSpot dag.old spot }
    requires room { HasRoom dag.old (unit (length spot.cells.place.now)) }
    ensures { Makes (unit (length spot.entry.cells.place.now)) dag.old dag.new result (λ a. holds dag.old known a && asking.meets (question dag.old asked.entry a) number (here_of dag.old spot.entry a) test) }
{
    let met = meets(alloc, dag, asked, number, test, spot)?;
    dag.and(known, met)
}

/// A wire that holds where tests meet what is asked of them.
pub fn all_meet(
    alloc: Global,
    dag: &mut Dag,
    asked: Asked,
    tests: &[Test],
    spot: Spot,
) -> Result<Wire, NoMemory>
    requires asked { IsAsked dag.old asked }
    requires spot { IsSpot dag.old spot }
    requires few { length tests.now ≤ 16 }
    requires room { HasRoom dag.old (unit (length spot.cells.place.now) * length tests.now) }
    ensures { Makes (unit (length spot.entry.cells.place.now) * length tests.now) dag.old dag.new result (λ a. meet_from (question dag.old asked.entry a) 0 (here_of dag.old spot.entry a) tests.now) }
{
    let mut all = dag.truth();
    'tests: for number in 0..tests.len() {
        all = also_meets(alloc, dag, all, asked, number as u32, tests[number], spot)?;
    }
    Ok(all)
}
