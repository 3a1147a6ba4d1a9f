//! Trial games: two games that a number makes, as canonical texts.
//!
//! Begin with `specs/Trial.antt`, which says what the games are, and then with `make_texts`.
#![tactic(auto)]

mod draws;
mod items;
mod large;
mod laws;
mod making;
mod small;

pub use bddl_model::NoMemory;
pub use laws::trial_games_have_no_fault;
pub use making::{MadeTexts, TrialKind, make_texts};
