//! From the two trees of a game to the game that they state, or the first thing that is wrong.
//!
//! `check` is `checked_setup` of `bddl_model/specs/Check.antt`: read that first.
#![tactic(auto)]

mod actions;
mod cells;
mod items;
mod lines;
mod setup;
mod sizes;
mod terms;

pub use bddl_model::{Axis, CheckFault, Item, Part};
pub use setup::{Setup, check};
