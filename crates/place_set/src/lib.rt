//! The places of a game that were met, each once and with a number.
//!
//! A place is a side to move, a board and a number of plies left: read `Place` in
//! `bddl_model/specs/Certificate.antt` first.
#![tactic(auto)]

mod set;

pub use set::PlaceSet;
