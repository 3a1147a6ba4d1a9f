// A game as the text of a formula, whose clauses are held in no form.
ghost use Rattle.std.specs.Prelude.{◌≤◌, flat_map};
ghost use Rattle.bddl_model.specs.Circuit.{IsWire, circuit_clauses};
ghost use Rattle.bddl_model.specs.FormulaText.{clause_text, qtext};
ghost use Rattle.bddl_model.specs.Limits.{IsBoardOf};
ghost use Rattle.io_edge.specs.Ends.{put_failed};
ghost use Rattle.io_edge.specs.Outside.{Counts};
ghost use Rattle.io_edge.specs.Puts.{Adds};
ghost use Rattle.lifted_encode.specs.Encoded.{setup_of};
ghost use Rattle.strategy.specs.Written.{WritesForm};
ghost use Rattle.tseitin.specs.GateClauses.{literals_of};

use crate::circuit::{GameCircuit, game_circuit};
use bddl_model::{Side, Wire};
use circuit_dag::Dag;
use grid_game::{Board, Game};
use io_edge::{PieceBuffer, Sink, SinkEnd};
use qdimacs_io::{add_clause, add_head};
use std::alloc::Global;
use tseitin::{GateClause, clause_at, clause_count};

// Adds the line of a clause.
fn add_gate_clause<K: Sink>(
    buffer: &mut PieceBuffer,
    sink: &mut K,
    clause: GateClause,
) -> Result<(), SinkEnd>
    ensures text { Adds (clause_text (literals_of clause)) (K.written sink.old) buffer.old (K.written sink.new) buffer.new result }
    ensures cause { Counts (K.faults sink.old) (K.faults sink.new) (put_failed result) }
{
    match clause {
        GateClause::One(first) => add_clause(buffer, sink, &[first]),
        GateClause::Two(first, second) => add_clause(buffer, sink, &[first, second]),
        GateClause::Three(first, second, third) => add_clause(
            buffer,
            sink,
            &[first, second, third],
        ),
    }
}

// Adds the lines of a circuit's clauses, in their order.
fn add_clauses<K: Sink>(
    buffer: &mut PieceBuffer,
    sink: &mut K,
    dag: &Dag,
    out: Wire,
) -> Result<(), SinkEnd>
    requires { IsWire dag.now out }
    ensures text { Adds (flat_map clause_text (circuit_clauses dag.now out)) (K.written sink.old) buffer.old (K.written sink.new) buffer.new result }
    ensures cause { Counts (K.faults sink.old) (K.faults sink.new) (put_failed result) }
{
    for number in 0..clause_count(dag) {
        add_gate_clause(buffer, sink, clause_at(dag, out, number))?;
    }
    Ok(())
}

// Adds the text of the form: the head, and then the clauses of the circuit.
fn add_circuit<K: Sink>(
    buffer: &mut PieceBuffer,
    sink: &mut K,
    circuit: &GameCircuit,
) -> Result<(), SinkEnd>
    requires { IsWire circuit.now.dag circuit.now.out }
    ensures text { Adds (qtext (record { prefix = circuit.now.prefix; clauses = circuit_clauses circuit.now.dag circuit.now.out })) (K.written sink.old) buffer.old (K.written sink.new) buffer.new result }
    ensures cause { Counts (K.faults sink.old) (K.faults sink.new) (put_failed result) }
{
    add_head(buffer, sink, &circuit.prefix, clause_count(&circuit.dag))?;
    add_clauses(buffer, sink, &circuit.dag, circuit.out)
}

/// Writes the text of the form of a game from a board on that this side begins, for so many plies at
/// most. All memory is taken before the first byte, and the clauses go out one after the other, in
/// large pieces. It ends with the first refusal.
pub fn compile_to<K: Sink>(
    alloc: Global,
    game: &Game,
    board: &Board,
    first: Side,
    depth: u32,
    sink: &mut K,
) -> Result<(), SinkEnd>
    requires board { IsBoardOf game.now board.now }
    requires depth { depth ≤ 31 }
    ensures text { WritesForm (setup_of game.now board.now.marks first depth) (K.written sink.old) (K.written sink.new) result }
    ensures cause { Counts (K.faults sink.old) (K.faults sink.new) (put_failed result) }
{
    let circuit = game_circuit(alloc, game, board, first, depth)?;
    let mut buffer = PieceBuffer::new();
    add_circuit(&mut buffer, sink, &circuit)?;
    buffer.finish(sink)
}
