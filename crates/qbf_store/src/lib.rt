//! The constraints of a search by number: the clauses of a form, and what was learned from it.
//!
//! Each of them is fine (`IsFine` in `bddl_model/specs/Fine.antt`), and keeps its literals as long
//! as it lives. Read `specs/Constraints.antt` first: what contracts see of a store.
#![tactic(auto)]

mod constraint;
mod holders;
mod store;

pub use bddl_model::Kind;
pub use constraint::ConstraintId;
pub use store::Store;
