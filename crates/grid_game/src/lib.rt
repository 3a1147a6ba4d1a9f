//! Boards, moves and goals of a game, on concrete boards.
//!
//! Each call is the definition of its name in `bddl_model/specs`: read `Fitting.antt`, `Moves.antt`
//! and `Goal.antt` first.
#![tactic(auto)]

mod atoms;
mod board;
mod game;
mod goals;
mod items;
mod laws;
mod moves;
mod rect;
mod turns;

pub use bddl_model::Rect;
pub use board::Board;
pub use game::Game;
pub use goals::goal;
pub use laws::{legal_moves_are_listed, moves_keep_the_size};
pub use moves::{MoveList, moves_into};
pub use rect::rect_of;
pub use turns::{apply, legal};
