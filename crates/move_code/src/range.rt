// Codes that are in range.
ghost use Rattle.std.specs.Prelude.{◌≡◌, ◌+◌, ◌*◌, ◌≤◌, nat_le, ◌&&◌, ◌||◌, length};
ghost use Rattle.bddl_model.specs.Circuit.{IsWire, holds};
ghost use Rattle.bddl_model.specs.Growth.{HasRoom, Makes};
ghost use Rattle.bddl_model.specs.Words.{AreWires, word_bits, word_value};
ghost use Rattle.bddl_model.specs.Game.{actions};
ghost use Rattle.bddl_model.specs.Layout.{anchor_bits};
ghost use Rattle.bddl_model.specs.Codes as spec;
ghost use Rattle.bddl_model.specs.Codes.{shape_of, code_length, spelled_move};
ghost use Rattle.move_code.specs.CodeWords.{AreWordsOf, AreCodeWires, CountsFromOne, spelled, action_gates, is_at};

use crate::code::Shape;
use crate::number::bits;
use bddl_model::{NoMemory, Rect, Side, Wire};
use bit_arith::{at_least, at_most, equal_const, or};
use circuit_dag::Dag;
use grid_game::Game;

/// The words of a code: the action, x - 1 and y - 1. Those of a goal line and its anchor are three
/// too, and the line stands in the place of the action.
#[derive(Clone, Copy)]
pub struct CodeWords<'a> {
    pub action: &'a [Wire],
    pub x: &'a [Wire],
    pub y: &'a [Wire],
}

impl<'a> CodeWords<'a> {
    // Those of a code of a side with actions.
    fn of(game: &Game, side: Side, code: &'a [Wire]) -> CodeWords<'a>
        requires some { 1 ≤ length (actions game.now side) }
        requires length { length code.now ≡ code_length (shape_of game.now side) }
        ensures { AreWordsOf game.now side code.now result }
    {
        game.keeps_the_limits();
        let shape = Shape::of(game, side);
        let (action, anchor) = code.split_at(bits(shape.actions) as usize);
        let (x, y) = anchor.split_at(bits(shape.width) as usize);
        CodeWords { action, x, y }
    }
}

// A wire that holds where the number of a word of at most 16 wires, plus 1, is between two numbers,
// the ends included.
fn stands_between(dag: &mut Dag, word: &[Wire], low: u32, high: u32) -> Result<Wire, NoMemory>
    requires word { AreWires dag.old word.now }
    requires short { length word.now ≤ 16 }
    requires low { 1 ≤ low }
    requires high { 1 ≤ high }
    requires room { HasRoom dag.old (2 * length word.now + 1) }
    ensures { Makes (2 * length word.now + 1) dag.old dag.new result (λ a. nat_le low (word_value dag.old word.now a + 1) && nat_le (word_value dag.old word.now a + 1) high) }
{
    let from = at_least(dag, word, low - 1)?;
    let to = at_most(dag, word, high - 1)?;
    dag.and(from, to)
}

/// A wire that holds where the words spell a move of the action, at an anchor of its rectangle.
pub fn names(dag: &mut Dag, words: CodeWords, action: u32, rect: Rect) -> Result<Wire, NoMemory>
    requires words { AreCodeWires dag.old words }
    requires rect { CountsFromOne rect }
    requires room { HasRoom dag.old (action_gates words) }
    ensures { Makes (action_gates words.entry) dag.old dag.new result (λ a. is_at action rect (spelled dag.old words.entry a)) }
{
    let named = equal_const(dag, words.action, action)?;
    let in_columns = stands_between(dag, words.x, rect.x_low, rect.x_high)?;
    let in_rows = stands_between(dag, words.y, rect.y_low, rect.y_high)?;
    let inside = dag.and(in_columns, in_rows)?;
    dag.and(named, inside)
}

// A wire that holds where another does, or where the words spell such a move.
fn also_names(
    dag: &mut Dag,
    known: Wire,
    words: CodeWords,
    action: u32,
    rect: Rect,
) -> Result<Wire, NoMemory>
    requires known { IsWire dag.old known }
    requires words { AreCodeWires dag.old words }
    requires rect { CountsFromOne rect }
    requires room { HasRoom dag.old (action_gates words + 1) }
    ensures { Makes (action_gates words.entry + 1) dag.old dag.new result (λ a. holds dag.old known a || is_at action rect (spelled dag.old words.entry a)) }
{
    let named = names(dag, words, action, rect)?;
    or(dag, known, named)
}

// A wire that holds where the words spell a move of one of the side's actions, at an anchor that fits.
fn some_action(dag: &mut Dag, game: &Game, side: Side, words: CodeWords) -> Result<Wire, NoMemory>
    requires words { AreCodeWires dag.old words }
    requires room { HasRoom dag.old (length (actions game.now side) * (action_gates words + 1)) }
    ensures { Makes (length (actions game.now side) * (action_gates words.entry + 1)) dag.old dag.new result (λ a. spec.in_range game.now side (spelled dag.old words.entry a)) }
{
    let truth = dag.truth();
    let mut known = dag.not(truth);
    'actions: for action in 0..game.actions(side) {
        known = also_names(dag, known, words, action, game.action_rect(side, action))?;
    }
    Ok(known)
}

/// A wire that holds where a code names an action of the side and an anchor that fits it.
pub fn in_range(dag: &mut Dag, game: &Game, side: Side, code: &[Wire]) -> Result<Wire, NoMemory>
    requires wires { AreWires dag.old code.now }
    requires length { length code.now ≡ code_length (shape_of game.now side) }
    requires room { HasRoom dag.old (length (actions game.now side) * (4 * (anchor_bits game.now + 4))) }
    ensures { Makes (length (actions game.now side) * (4 * (anchor_bits game.now + 4))) dag.old dag.new result (λ a. spec.in_range game.now side (spelled_move (shape_of game.now side) (word_bits dag.old code.now a))) }
{
    if game.actions(side) == 0 {
        let truth = dag.truth();
        return Ok(dag.not(truth));
    }
    let words = CodeWords::of(game, side, code);
    some_action(dag, game, side, words)
}
