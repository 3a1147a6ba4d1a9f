//! A game as a circuit over the moves of both sides and a claim of Black, by which it is decided.
//!
//! The circuit holds no board but the start, and follows one cell, whose place is chosen last: read
//! `Conditions.antt` and `Encoding.antt` in `bddl_model/specs` first.
#![tactic(auto)]

mod asked;
mod choice;
mod conditions;
mod items;
mod lifted;
mod limit;
mod moments;
mod plies;
mod run;

pub use lifted::{Lifted, encode};
pub use limit::gate_limit;
