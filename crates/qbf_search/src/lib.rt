//! Whether a form is true, by search within a budget of steps.
//!
//! `solve` answers the value of a form with the values of its first block, or that the steps are spent.
//! What an answer says stands in `specs/Answers.antt`, and what a search keeps, wherever it stands, in
//! `specs/Standing.antt`. The search decides the variables before the tail in the order of the prefix and
//! goes back one decision at a time; the values of the tail follow from those before.
#![tactic(auto)]

mod answer;
mod decider;
mod decisions;
mod search;
mod solving;
mod tail;
mod values;

pub use answer::Answer;
pub use decider::{Decider, Pick, PlainDecider};
pub use solving::solve;
