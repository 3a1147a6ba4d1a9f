//! A game as a formula: as a form for a solver, which `decide` and `extract` ask, or as a text that goes
//! straight to a sink.
//!
//! `extract` makes a certificate of a winning strategy: it asks for one move of Black at each place that
//! is met, and what it answers is valid whatever the solver guessed. What it keeps while nodes are made
//! is `Grows` in `specs/Growing.antt`.
//!
//! The formula is true exactly when Black can force its goal, and so is it after every list of moves:
//! read `Encodes` in `bddl_model/specs/Encodes.antt` first.
#![tactic(auto)]

mod circuit;
mod deciding;
mod extracting;
mod form;
mod growing;
mod moving;
mod text;

pub use deciding::{Decided, decide};
pub use extracting::{Extracted, extract};
pub use form::{Compiled, compile_game};
pub use moving::{FirstMove, first_move};
pub use text::compile_to;
