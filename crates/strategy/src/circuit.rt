// A game as a circuit and the prefix of its form.
ghost use Rattle.std.specs.Prelude.{◌≡◌, ◌≤◌, IfOk};
ghost use Rattle.std.specs.List.{range_with_len};
ghost use Rattle.bddl_model.specs.Circuit.{IsWire, nodes_of, circuit_clauses};
ghost use Rattle.bddl_model.specs.Encodes.{Encodes};
ghost use Rattle.bddl_model.specs.Forms.{prefix_variables};
ghost use Rattle.bddl_model.specs.Layout as spec;
ghost use Rattle.bddl_model.specs.Limits.{IsBoardOf};
ghost use Rattle.lifted_encode.specs.Encoded.{setup_of};

use bddl_model::{NoMemory, Side, Wire};
use circuit_dag::Dag;
use grid_game::{Board, Game};
use lifted_encode::encode;
use move_code::Layout;
use prenexer::prefix_of;
use qbf_form::Prefix;
use std::alloc::Global;

/// A circuit, its output, the prefix of all its variables, and where its inputs stand.
#[derive(Drop)]
pub struct GameCircuit {
    pub dag: Dag,
    pub out: Wire,
    pub prefix: Prefix,
    pub layout: Layout,
}

/// A circuit whose clauses under the prefix are the form of a game from a board on that this side
/// begins, for so many plies at most.
pub fn game_circuit(
    alloc: Global,
    game: &Game,
    board: &Board,
    first: Side,
    depth: u32,
) -> Result<GameCircuit, NoMemory>
    requires board { IsBoardOf game.now board.now }
    requires depth { depth ≤ 31 }
    ensures layout { IfOk result (λ c. c.layout ≡ spec.layout game.now first depth) }
    ensures out { IfOk result (λ c. IsWire c.dag c.out) }
    ensures variables { IfOk result (λ c. prefix_variables c.prefix ≡ range_with_len 1 (nodes_of c.dag)) }
    ensures form { IfOk result (λ c. Encodes (record { prefix = c.prefix; clauses = circuit_clauses c.dag c.out }) (setup_of game.now board.now.marks first depth)) }
{
    let lifted = encode(alloc, game, board, first, depth)?;
    let dag = lifted.dag;
    dag.keeps_its_order();
    dag.keeps_its_gates_apart();
    lifted.layout.keeps_its_order();
    let gates = dag.len() - dag.inputs();
    let prefix = prefix_of(alloc, &lifted.blocks, dag.inputs(), gates)?;
    Ok(GameCircuit {
        dag,
        out: lifted.out,
        prefix,
        layout: lifted.layout,
    })
}
