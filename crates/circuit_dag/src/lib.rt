//! Circuits of and-gates over numbered inputs, with one gate for each pair of operands.
//!
//! A circuit only grows, and earlier wires keep their meaning: read `Circuit.antt` and
//! `Growth.antt` in `bddl_model/specs`, and then `specs/Gates.antt`.
#![tactic(auto)]

mod dag;
mod gates;

pub use bddl_model::{NodeId, Wire};
pub use dag::Dag;
