// Actions and goal lines that a word of wires chooses.
ghost use Rattle.std.specs.Prelude.{◌≡◌, ◌==◌, ◌+◌, ◌*◌, ◌<◌, ◌≤◌, ◌&&◌, ◌||◌, length, slice_get};
ghost use Rattle.std.specs.List.{sum_by};
ghost use Rattle.bddl_model.specs.Circuit.{IsWire, holds};
ghost use Rattle.bddl_model.specs.Growth.{HasRoom, Makes};
ghost use Rattle.bddl_model.specs.Rectangle.{in_rect, IsRectOf};
ghost use Rattle.bddl_model.specs.Words.{AreWires, word_value};
ghost use Rattle.move_code.specs.CodeWords.{CountsFromOne};
ghost use Rattle.symbol_cell.specs.Steps.{AreCells, unit, anchor_of};
ghost use Rattle.lifted_encode.specs.Asking.{IsAsked, IsSpot, question, here_of, meet_from};
ghost use Rattle.lifted_encode.specs.Chosen.{items_of, item_at, item_meets, item_parts};

use crate::asked::{Asked, Spot, all_meet};
use bddl_model::{NoMemory, Rect, Side, Test, Wire};
use bit_arith::or_both;
use circuit_dag::Dag;
use grid_game::Game;
use move_code::{CodeWords, names};
use std::alloc::Global;
use symbol_cell::Cells;

/// The actions of a side, or its goal lines. They count from 0.
#[derive(Clone, Copy)]
pub enum Items {
    Actions(Side),
    Lines(Side),
}

impl Items {
    fn count(self, game: &Game) -> u32
        ensures { result ≡ length (items_of game.now self) }
    {
        match self {
            Items::Actions(side) => game.actions(side),
            Items::Lines(side) => game.lines(side),
        }
    }

    // The tests of an item.
    fn tests(self, game: &Game, number: u32) -> &[Test]
        requires { number < length (items_of game.now self) }
        ensures { result.now ≡ (item_at game.now self number).tests }
    {
        match self {
            Items::Actions(side) => game.before(side, number),
            Items::Lines(side) => game.line(side, number),
        }
    }

    // The anchors that fit an item.
    fn rect(self, game: &Game, number: u32) -> Rect
        requires { number < length (items_of game.now self) }
        ensures { IsRectOf game.now.width game.now.height (item_at game.now self number).atoms result }
    {
        match self {
            Items::Actions(side) => game.action_rect(side, number),
            Items::Lines(side) => game.line_rect(side, number),
        }
    }
}

// A wire that holds where a word is a number and the anchor is in a rectangle.
fn chooses(
    dag: &mut Dag,
    word: &[Wire],
    cells: Cells,
    number: u32,
    rect: Rect,
) -> Result<Wire, NoMemory>
    requires word { AreWires dag.old word.now }
    requires cells { AreCells dag.old cells }
    requires rect { CountsFromOne rect }
    requires room { HasRoom dag.old (length word.now + 2 * length cells.anchor.now + 4) }
    ensures { Makes (length word.now + 2 * length cells.entry.anchor.now + 4) dag.old dag.new result (λ a.
        word_value dag.old word.now a == number && in_rect rect (anchor_of dag.old cells.entry a).x (anchor_of dag.old cells.entry a).y) }
{
    let (x, y) = cells.anchor.split_at(cells.x_bits as usize);
    let words = CodeWords { action: word, x, y };
    names(dag, words, number, rect)
}

// A wire that holds where another does, or where a word is the number of an item, the anchor fits it
// and its tests meet what is asked.
fn also_chosen(
    alloc: Global,
    dag: &mut Dag,
    known: Wire,
    word: &[Wire],
    number: u32,
    rect: Rect,
    tests: &[Test],
    asked: Asked,
    spot: Spot,
) -> Result<Wire, NoMemory>
    requires known { IsWire dag.old known }
    requires word { AreWires dag.old word.now }
    requires short { length word.now ≤ 16 }
    requires rect { CountsFromOne rect }
    requires few { length tests.now ≤ 16 }
    requires asked { IsAsked dag.old asked }
    requires spot { IsSpot dag.old spot }
    requires room { HasRoom dag.old (unit (length spot.cells.place.now) * (length tests.now + 1)) }
    ensures { Makes (unit (length spot.entry.cells.place.now) * (length tests.now + 1)) dag.old dag.new result (λ a.
        holds dag.old known a
        || (word_value dag.old word.now a == number
        && in_rect rect (anchor_of dag.old spot.entry.cells a).x (anchor_of dag.old spot.entry.cells a).y)
        && meet_from (question dag.old asked.entry a) 0 (here_of dag.old spot.entry a) tests.now) }
{
    let chosen = chooses(dag, word, spot.cells, number, rect)?;
    let met = all_meet(alloc, dag, asked, tests, spot)?;
    or_both(dag, known, chosen, met)
}

/// A wire that holds where a word is the number of an item, the anchor fits it, and its tests meet
/// what is asked.
pub fn some_item(
    alloc: Global,
    dag: &mut Dag,
    game: &Game,
    items: Items,
    word: &[Wire],
    asked: Asked,
    spot: Spot,
) -> Result<Wire, NoMemory>
    requires word { AreWires dag.old word.now }
    requires short { length word.now ≤ 16 }
    requires asked { IsAsked dag.old asked }
    requires spot { IsSpot dag.old spot }
    requires room { HasRoom dag.old (unit (length spot.cells.place.now) * sum_by item_parts (items_of game.now items)) }
    ensures { Makes (unit (length spot.entry.cells.place.now) * sum_by item_parts (items_of game.now items)) dag.old dag.new result (λ a.
        item_meets game.now (slice_get (items_of game.now items) (word_value dag.old word.now a)) (question dag.old asked.entry a) (here_of dag.old spot.entry a)) }
{
    game.keeps_the_limits();
    let truth = dag.truth();
    let mut known = dag.not(truth);
    'items: for number in 0..items.count(game) {
        let (rect, tests) = (items.rect(game, number), items.tests(game, number));
        known = also_chosen(alloc, dag, known, word, number, rect, tests, asked, spot)?;
    }
    Ok(known)
}
