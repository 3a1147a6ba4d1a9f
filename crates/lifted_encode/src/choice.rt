// Codes and goal lines that inputs choose.
ghost use Rattle.std.specs.Prelude.{◌≡◌, false, ◌+◌, ◌*◌, ◌≤◌, length};
ghost use Rattle.std.specs.List.{sum_by};
ghost use Rattle.bddl_model.specs.Truth.{Assignment};
ghost use Rattle.bddl_model.specs.Bits as spec;
ghost use Rattle.bddl_model.specs.Circuit.{IsWire, holds};
ghost use Rattle.bddl_model.specs.Codes.{shape_of, code_length};
ghost use Rattle.bddl_model.specs.Encoding.{move_tests, line_tests, number_in, cell_in};
ghost use Rattle.bddl_model.specs.Exact.{coded_move};
ghost use Rattle.bddl_model.specs.Game as game_spec;
ghost use Rattle.bddl_model.specs.Growth.{HasRoom, Makes};
ghost use Rattle.bddl_model.specs.Layout.{anchor_bits, where_lines};
ghost use Rattle.bddl_model.specs.Words.{AreWires};
ghost use Rattle.symbol_cell.specs.Pairs.{IsPair, mark_of};
ghost use Rattle.symbol_cell.specs.Runs.{place_named};
ghost use Rattle.symbol_cell.specs.Steps.{unit};
ghost use Rattle.lifted_encode.specs.Asking.{IsAsked, question, found_met};
ghost use Rattle.lifted_encode.specs.Chosen.{items_of, item_parts};
ghost use Rattle.lifted_encode.specs.Telling.{SpansOf, action_parts};

use crate::asked::{Asked, Spot};
use crate::items::{Items, some_item};
use bddl_model::{NoMemory, Side, Span, Wire};
use circuit_dag::Dag;
use grid_game::Game;
use move_code::bits;
use std::alloc::Global;
use symbol_cell::{Cells, Pair, input_word};

// A wire that never holds.
fn never(dag: &Dag) -> Wire
    ensures wire { IsWire dag.now result }
    ensures value { (a : Assignment) → holds dag.now result a ≡ false }
{
    let truth = dag.truth();
    dag.not(truth)
}

/// A wire that holds where a code of the side is in range and the tests of its action meet what is
/// asked.
pub fn code_meets(
    alloc: Global,
    dag: &mut Dag,
    game: &Game,
    side: Side,
    code: Span,
    asked: Asked,
    place: &[Wire],
    mark: Pair,
) -> Result<Wire, NoMemory>
    requires code { SpansOf dag.old (code_length (shape_of game.now side)) code }
    requires asked { IsAsked dag.old asked }
    requires place { AreWires dag.old place.now }
    requires place_bits { length place.now ≡ anchor_bits game.now }
    requires mark { IsPair dag.old mark }
    requires room { HasRoom dag.old (unit (anchor_bits game.now) * action_parts game.now side) }
    ensures { Makes (unit (anchor_bits game.now) * action_parts game.now side) dag.old dag.new result (λ a.
        found_met (question dag.old asked.entry a) (place_named game.now dag.old a place.now) (mark_of dag.old mark a) (move_tests game.now side (coded_move game.now side a code))) }
{
    game.keeps_the_limits();
    let count = game.actions(side);
    if count == 0 {
        return Ok(never(dag));
    }
    let word = input_word(alloc, dag, code)?;
    let (action, anchor) = word.split_at(bits(count) as usize);
    let cells = Cells {
        anchor,
        place,
        x_bits: bits(game.width()),
    };
    let spot = Spot { cells, mark };
    some_item(alloc, dag, game, Items::Actions(side), action, asked, spot)
}

/// A wire that holds where a line of the side has the number that inputs say, an anchor that they say
/// fits it, and its tests meet what is asked.
pub fn line_meets(
    alloc: Global,
    dag: &mut Dag,
    game: &Game,
    side: Side,
    line: Span,
    anchor: Span,
    asked: Asked,
    place: &[Wire],
    mark: Pair,
) -> Result<Wire, NoMemory>
    requires line { SpansOf dag.old (spec.bits (length (game_spec.lines game.now side))) line }
    requires anchor { SpansOf dag.old (anchor_bits game.now) anchor }
    requires asked { IsAsked dag.old asked }
    requires place { AreWires dag.old place.now }
    requires place_bits { length place.now ≡ anchor_bits game.now }
    requires mark { IsPair dag.old mark }
    requires room { HasRoom dag.old (unit (anchor_bits game.now) * sum_by item_parts (items_of game.now (Items.Lines side))) }
    ensures { Makes (unit (anchor_bits game.now) * sum_by item_parts (items_of game.now (Items.Lines side))) dag.old dag.new result (λ a.
        found_met (question dag.old asked.entry a) (place_named game.now dag.old a place.now) (mark_of dag.old mark a) (line_tests game.now side (number_in a line) (cell_in game.now a anchor))) }
{
    game.keeps_the_limits();
    let number = input_word(alloc, dag, line)?;
    let anchor = input_word(alloc, dag, anchor)?;
    let cells = Cells {
        anchor: &anchor,
        place,
        x_bits: bits(game.width()),
    };
    let spot = Spot { cells, mark };
    some_item(alloc, dag, game, Items::Lines(side), &number, asked, spot)
}
