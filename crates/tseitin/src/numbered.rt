// The clauses of a circuit by their numbers.
ghost use Rattle.std.specs.Prelude.{◌≡◌, ◌+◌, ◌*◌, ◌<◌, ◌≤◌, Some, [], length, slice_get};
ghost use Rattle.bddl_model.specs.declared.circuit.Wire.{Wire};
ghost use Rattle.bddl_model.specs.Circuit as spec;
ghost use Rattle.bddl_model.specs.Forms.{greatest_variables};
ghost use Rattle.tseitin.specs.GateClauses.{literals_of};

use bddl_model::{Lit, NodeId, Var, Wire};
use circuit_dag::Dag;

/// A clause of a circuit, with its literals in their order. It takes no memory, so that a caller
/// can look at one clause after the other without a form.
#[derive(Clone, Copy, Debug, PartialEq, Eq)]
pub enum GateClause {
    One(Lit),
    Two(Lit, Lit),
    Three(Lit, Lit, Lit),
}

// An input has its own number. Node 0 stands behind the inputs, and the gates behind it.
fn variable_of(inputs: u32, node: NodeId) -> u32
    requires inputs { inputs ≤ greatest_variables }
    requires node { node.0 ≤ greatest_variables }
    ensures { result ≡ spec.variable_of inputs node.0 }
{
    if node.0 == 0 {
        return inputs + 1;
    }
    if node.0 <= inputs {
        return node.0;
    }
    node.0 + 1
}

fn literal_of(inputs: u32, wire: Wire) -> Lit
    requires inputs { inputs ≤ greatest_variables }
    requires node { wire.node.0 ≤ greatest_variables }
    ensures { result ≡ spec.literal_of inputs wire }
{
    Lit {
        var: Var(variable_of(inputs, wire.node)),
        negated: wire.negated,
    }
}

// One of the three clauses of a gate, whose variable holds exactly where both operands do.
fn gate_clause(variable: u32, left: Lit, right: Lit, place: u64) -> GateClause
    requires { place < 3 }
    ensures { slice_get (spec.gate_clauses variable left right []) place ≡ Some (literals_of result) }
{
    let own = Lit::positive(Var(variable));
    match place {
        0 => GateClause::Two(own.negation(), left),
        1 => GateClause::Two(own.negation(), right),
        _ => GateClause::Three(own, left.negation(), right.negation()),
    }
}

/// The number of clauses that say that a wire of a circuit holds: one for truth, three for each
/// gate, and one for the wire.
pub fn clause_count(dag: &Dag) -> u64
    ensures gates { result ≡ 3 * length dag.now.gates + 2 }
    ensures clauses { (out : Wire) → result ≡ length (spec.circuit_clauses dag.now out) }
{
    let gates = dag.len() - dag.inputs() - 1;
    3 * gates as u64 + 2
}

/// A clause that says that a wire of a circuit holds, by its number from 0 on. An input's variable
/// has its number, that of node 0, which is true, stands behind the inputs, and that of a gate is
/// its node and one. The first clause says that node 0 is true; then come three for each gate, in
/// the order of the nodes: the gate implies its first operand, it implies its second, and both
/// imply it; the last says that the wire holds.
pub fn clause_at(dag: &Dag, out: Wire, number: u64) -> GateClause
    requires out { spec.IsWire dag.now out }
    requires number { number < length (spec.circuit_clauses dag.now out) }
    ensures { slice_get (spec.circuit_clauses dag.now out) number ≡ Some (literals_of result) }
{
    dag.keeps_its_order();
    let inputs = dag.inputs();
    if number == 0 {
        return GateClause::One(Lit::positive(Var(inputs + 1)));
    }
    let node = inputs + 1 + ((number - 1) / 3) as u32;
    let Some((left, right)) = dag.gate(NodeId(node)) else {
        return GateClause::One(literal_of(inputs, out));
    };
    let (left, right) = (literal_of(inputs, left), literal_of(inputs, right));
    gate_clause(node + 1, left, right, (number - 1) % 3)
}
