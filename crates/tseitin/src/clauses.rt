// The clauses of a circuit as a form.
ghost use Rattle.std.specs.Prelude.{◌≡◌, ◌↔◌, true, List, [], ◌∷◌, ◌++◌, IfOk, OnOk};
ghost use Rattle.std.specs.List.{range_with_len};
ghost use Rattle.bddl_model.specs.declared.formula.Bound.{Bound};
ghost use Rattle.bddl_model.specs.Circuit as spec;
ghost use Rattle.bddl_model.specs.CircuitValues.{SameInputs, SameGates, gate_bounds};
ghost use Rattle.bddl_model.specs.Forms.{FitsPrefix, prefix_variables};
ghost use Rattle.bddl_model.specs.Truth.{Assignment, value, clauses_true};
ghost use Rattle.tseitin.specs.GateClauses.{literals_of};

use crate::numbered::{GateClause, clause_at, clause_count};
use bddl_laws::circuit_clauses_hold;
use bddl_model::{NoMemory, Wire};
use circuit_dag::Dag;
use qbf_form::{Form, Prefix};
use std::alloc::Global;

fn add_clause(form: &mut Form, clause: GateClause) -> Result<(), NoMemory>
    requires { FitsPrefix form.old.prefix (literals_of clause) }
    ensures { OnOk result (form.new ≡ record form.old { clauses = form.old.clauses ++ literals_of clause ∷ [] }) }
{
    match clause {
        GateClause::One(literal) => form.add(&[literal]),
        GateClause::Two(first, second) => form.add(&[first, second]),
        GateClause::Three(first, second, third) => form.add(&[first, second, third]),
    }
}

/// The clauses that say that a wire of a circuit holds, in the order of `clause_at`, under a prefix
/// of all its variables.
pub fn to_clauses(alloc: Global, dag: &Dag, out: Wire, prefix: Prefix) -> Result<Form, NoMemory>
    requires out { spec.IsWire dag.now out }
    requires prefix { prefix_variables prefix ≡ range_with_len 1 (spec.nodes_of dag.now) }
    ensures form { IfOk result (λ f. f ≡ record { prefix = prefix; clauses = spec.circuit_clauses dag.now out }) }
    ensures satisfied { IfOk result (λ f. (a : Assignment)
        → ((b : Assignment) × SameInputs dag.now a b × (clauses_true f.clauses b ≡ true)) ↔ (spec.holds dag.now out a ≡ true)) }
    ensures unique { IfOk result (λ f. (a b : Assignment) → SameInputs dag.now a b
        → clauses_true f.clauses a ≡ true → clauses_true f.clauses b ≡ true → SameGates dag.now a b) }
    ensures valued { IfOk result (λ f. (front : List Bound) (a : Assignment) → prefix ≡ front ++ gate_bounds dag.now
        → value f.prefix (clauses_true f.clauses) a ≡ value front (spec.holds dag.now out) a) }
{
    dag.keeps_its_order();
    circuit_clauses_hold();
    let mut form = Form::begin(alloc, prefix);
    for number in 0..clause_count(dag) {
        add_clause(&mut form, clause_at(dag, out, number))?;
    }
    Ok(form)
}
