// The mark after a move whose code is a word of wires.
ghost use Rattle.std.specs.Prelude.{◌≡◌, ◌==◌, ◌+◌, ◌*◌, ◌≤◌, ◌&&◌, length, IfOk, if◌then◌else◌};
ghost use Rattle.std.specs.List.{sum_by};
ghost use Rattle.bddl_model.specs.Truth.{Assignment};
ghost use Rattle.bddl_model.specs.Circuit.{IsWire, holds};
ghost use Rattle.bddl_model.specs.Codes.{shape_of, code_length, spelled_move};
ghost use Rattle.bddl_model.specs.Game.{actions};
ghost use Rattle.bddl_model.specs.Growth.{HasRoom, Grows};
ghost use Rattle.bddl_model.specs.Layout.{anchor_bits};
ghost use Rattle.bddl_model.specs.OneCell.{touches, rewritten, stepped};
ghost use Rattle.bddl_model.specs.Words.{AreWires, word_bits, word_value};
ghost use Rattle.symbol_cell.specs.Pairs.{IsPair, mark_of};
ghost use Rattle.symbol_cell.specs.Steps.{AreCells, anchor_of, place_of, move_at, rewritten_if, unit, parts, step_gates};
ghost use Rattle.symbol_cell.specs.Runs.{place_named};

use crate::pair::{Pair, put_mark};
use crate::touch::touches;
use bddl_model::{Atom, NoMemory, Side, Wire};
use bit_arith::equal_const;
use circuit_dag::Dag;
use grid_game::Game;
use move_code::bits;
use std::alloc::Global;

/// The words of an anchor and of the place, the first wires of each for the column.
#[derive(Clone, Copy)]
pub struct Cells<'a> {
    pub anchor: &'a [Wire],
    pub place: &'a [Wire],
    pub x_bits: u32,
}

// The mark after one effect of an action, where it is named.
fn put_effect(
    alloc: Global,
    dag: &mut Dag,
    named: Wire,
    effect: Atom,
    cells: Cells,
    before: Pair,
) -> Result<Pair, NoMemory>
    requires named { IsWire dag.old named }
    requires cells { AreCells dag.old cells }
    requires before { IsPair dag.old before }
    requires room { HasRoom dag.old (unit (length cells.place.now)) }
    ensures pair { IfOk result (λ p. IsPair dag.new p) }
    ensures shown { IfOk result (λ p. (a : Assignment) → mark_of dag.new p a
        ≡ (if holds dag.old named a && touches effect (anchor_of dag.old cells.entry a) (place_of dag.old cells.entry a) then effect.mark else mark_of dag.old before a)) }
    ensures grows { Grows (unit (length cells.entry.place.now)) dag.old dag.new }
{
    let here = touches(alloc, dag, effect, cells.anchor, cells.x_bits, cells.place)?;
    let hit = dag.and(named, here)?;
    put_mark(dag, hit, effect.mark, before)
}

// The mark after all effects of an action, where it is named.
fn put_effects(
    alloc: Global,
    dag: &mut Dag,
    named: Wire,
    effects: &[Atom],
    cells: Cells,
    before: Pair,
) -> Result<Pair, NoMemory>
    requires named { IsWire dag.old named }
    requires cells { AreCells dag.old cells }
    requires before { IsPair dag.old before }
    requires room { HasRoom dag.old (unit (length cells.place.now) * length effects.now) }
    ensures pair { IfOk result (λ p. IsPair dag.new p) }
    ensures shown { IfOk result (λ p. (a : Assignment) → mark_of dag.new p a
        ≡ rewritten_if (holds dag.old named a) effects.now (anchor_of dag.old cells.entry a) (place_of dag.old cells.entry a) (mark_of dag.old before a)) }
    ensures grows { Grows (unit (length cells.entry.place.now) * length effects.now) dag.old dag.new }
{
    let mut pair = before;
    'effects: for effect in effects {
        pair = put_effect(alloc, dag, named, *effect, cells, pair)?;
    }
    Ok(pair)
}

// The mark after the action of this number, where the word names it, and else the mark before.
fn put_action(
    alloc: Global,
    dag: &mut Dag,
    action: &[Wire],
    number: u32,
    effects: &[Atom],
    cells: Cells,
    before: Pair,
) -> Result<Pair, NoMemory>
    requires action { AreWires dag.old action.now }
    requires short { length action.now ≤ 16 }
    requires cells { AreCells dag.old cells }
    requires before { IsPair dag.old before }
    requires room { HasRoom dag.old (unit (length cells.place.now) * (length effects.now + 1)) }
    ensures pair { IfOk result (λ p. IsPair dag.new p) }
    ensures shown { IfOk result (λ p. (a : Assignment) → mark_of dag.new p a
        ≡ (if word_value dag.old action.now a == number then rewritten effects.now (anchor_of dag.old cells.entry a) (place_of dag.old cells.entry a) (mark_of dag.old before a) else mark_of dag.old before a)) }
    ensures grows { Grows (unit (length cells.entry.place.now) * (length effects.now + 1)) dag.old dag.new }
{
    let named = equal_const(dag, action, number)?;
    put_effects(alloc, dag, named, effects, cells, before)
}

// The mark after the action that the word names, if there is one.
fn put_actions(
    alloc: Global,
    dag: &mut Dag,
    game: &Game,
    side: Side,
    action: &[Wire],
    cells: Cells,
    before: Pair,
) -> Result<Pair, NoMemory>
    requires action { AreWires dag.old action.now }
    requires short { length action.now ≤ 16 }
    requires cells { AreCells dag.old cells }
    requires before { IsPair dag.old before }
    requires room { HasRoom dag.old (unit (length cells.place.now) * sum_by parts (actions game.now side)) }
    ensures pair { IfOk result (λ p. IsPair dag.new p) }
    ensures shown { IfOk result (λ p. (a : Assignment) → mark_of dag.new p a
        ≡ stepped game.now side (move_at (word_value dag.old action.now a) (anchor_of dag.old cells.entry a)) (place_of dag.old cells.entry a) (mark_of dag.old before a)) }
    ensures grows { Grows (unit (length cells.entry.place.now) * sum_by parts (actions game.now side)) dag.old dag.new }
{
    let mut pair = before;
    'actions: for number in 0..game.actions(side) {
        let effects = game.effects(side, number);
        pair = put_action(alloc, dag, action, number, effects, cells, pair)?;
    }
    Ok(pair)
}

/// A pair that shows the mark after the move that a code of the side names.
pub fn put_move(
    alloc: Global,
    dag: &mut Dag,
    game: &Game,
    side: Side,
    code: &[Wire],
    place: &[Wire],
    before: Pair,
) -> Result<Pair, NoMemory>
    requires code { AreWires dag.old code.now }
    requires code_bits { length code.now ≡ code_length (shape_of game.now side) }
    requires place { AreWires dag.old place.now }
    requires place_bits { length place.now ≡ anchor_bits game.now }
    requires before { IsPair dag.old before }
    requires room { HasRoom dag.old (step_gates game.now side) }
    ensures pair { IfOk result (λ p. IsPair dag.new p) }
    ensures shown { IfOk result (λ p. (a : Assignment) → mark_of dag.new p a
        ≡ stepped game.now side (spelled_move (shape_of game.now side) (word_bits dag.old code.now a)) (place_named game.now dag.old a place.now) (mark_of dag.old before a)) }
    ensures grows { Grows (step_gates game.now side) dag.old dag.new }
{
    game.keeps_the_limits();
    let count = game.actions(side);
    if count == 0 {
        return Ok(before);
    }
    let (action, anchor) = code.split_at(bits(count) as usize);
    let cells = Cells {
        anchor,
        place,
        x_bits: bits(game.width()),
    };
    put_actions(alloc, dag, game, side, action, cells, before)
}
