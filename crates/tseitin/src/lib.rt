//! A circuit as clauses that say what each gate holds, and that the output holds: each by its
//! number, and all of them as a form.
//!
//! Under the gate variables the form has the value of the circuit's output: read
//! `bddl_model/specs/Circuit.antt` first, "the clauses of a circuit".
#![tactic(auto)]

mod clauses;
mod numbered;

pub use clauses::to_clauses;
pub use numbered::{GateClause, clause_at, clause_count};
