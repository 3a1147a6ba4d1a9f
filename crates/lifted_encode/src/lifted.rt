// A game from a board on, as a circuit.
ghost use Rattle.std.specs.Prelude.{◌≡◌, ◌≤◌, suc, length, IfOk};
ghost use Rattle.bddl_model.specs.Circuit.{IsWire, holds};
ghost use Rattle.bddl_model.specs.Encoding.{MeetsConditions};
ghost use Rattle.bddl_model.specs.Exact.{IsExact};
ghost use Rattle.bddl_model.specs.Layout as spec;
ghost use Rattle.bddl_model.specs.Limits.{IsBoardOf};
ghost use Rattle.bddl_model.specs.Setup.{Setup};
ghost use Rattle.bddl_model.specs.Size.{gate_limit};
ghost use Rattle.lifted_encode.specs.Encoded.{setup_of};

use crate::conditions::conditions;
use crate::run::follow;
use bddl_laws::{served_claims_are_exact, sizes_have_limits};
use bddl_model::{Block, NoMemory, Side, Wire};
use circuit_dag::Dag;
use grid_game::{Board, Game};
use move_code::Layout;
use std::alloc::Global;

/// A circuit over the inputs of a layout, its output, and the quantifier blocks of the inputs,
/// outermost first.
#[derive(Drop)]
pub struct Lifted {
    pub dag: Dag,
    pub out: Wire,
    pub blocks: Vec<Block>,
    pub layout: Layout,
}

/// A circuit whose output says, under the blocks of the inputs, of every position of the game that
/// this side begins, for so many plies at most, what Black can force from there.
pub fn encode(
    alloc: Global,
    game: &Game,
    board: &Board,
    first: Side,
    depth: u32,
) -> Result<Lifted, NoMemory>
    requires board { IsBoardOf game.now board.now }
    requires depth { depth ≤ 31 }
    ensures layout { IfOk result (λ l. l.layout ≡ spec.layout game.now first depth) }
    ensures blocks { IfOk result (λ l. l.blocks.items ≡ spec.blocks l.layout) }
    ensures inputs { IfOk result (λ l. l.dag.inputs ≡ l.layout.inputs) }
    ensures out { IfOk result (λ l. IsWire l.dag l.out) }
    ensures meaning { IfOk result (λ l. MeetsConditions (setup_of game.now board.now.marks first depth) (holds l.dag l.out)) }
    ensures exact { IfOk result (λ l. IsExact (spec.prefix_of l.blocks.items) (holds l.dag l.out) (setup_of game.now board.now.marks first depth)) }
    ensures small { IfOk result (λ l. suc (length l.dag.gates) ≤ gate_limit (setup_of game.now board.now.marks first depth)) }
{
    served_claims_are_exact();
    sizes_have_limits();
    game.keeps_the_limits();
    board.keeps_the_size();
    let layout = Layout::of(alloc, game, first, depth)?;
    let blocks = layout.blocks(alloc)?;
    let mut dag = Dag::new(alloc, layout.inputs)?;
    let run = follow(alloc, &mut dag, game, board, depth, &layout)?;
    run.keeps_its_moments();
    let out = conditions(alloc, &mut dag, game, depth, &layout, &run)?;
    Ok(Lifted {
        dag,
        out,
        blocks,
        layout,
    })
}
