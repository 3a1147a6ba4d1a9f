//! The requests of the program `bddl`: it compiles the files of a game to a quantified
//! formula, decides games and formulas, writes and checks certificates, plays under them, makes trial
//! games from a number, and prints the files of a game.
//!
//! `run` is the whole program over any shelf of files and any two sinks. Read its contract first,
//! and then `MayEnd` in `bddl_model/specs/Outcome.antt`.
#![tactic(auto)]

mod certify;
mod check;
mod compile;
mod playing;
mod program;
mod recertify;
mod solve;
mod solve_formula;
mod trial;

pub use program::run;
