//! Tokens to the trees of domain and problem files, and trees to their canonical texts.
//!
//! `read_domain` and `read_problem` give the one tree that a text spells, or the one fault that it
//! has. `print_domain` and `print_problem` write the one canonical text of a tree, which reads as the
//! tree. Begin with `bddl_model/specs/Grammar.antt`, the grammar, `bddl_model/specs/Reading.antt`,
//! what it is to read a text of it, and `bddl_model/specs/Canonical.antt`, the canonical texts.
#![tactic(auto)]

mod atoms;
mod cells;
mod domain;
mod laws;
mod list;
mod names;
mod numbers;
mod printing;
mod problem;
mod reading;
mod sides;
mod single;
mod stop;
mod terms;

pub use bddl_model::ReadFault;
pub use laws::{
    canonical_domain_stays, canonical_problem_stays, domain_tree_is_one, problem_tree_is_one,
};
pub use printing::{print_domain, print_problem};
pub use reading::{read_domain, read_problem};
