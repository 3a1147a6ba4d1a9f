//! Playing a game under a certificate, against an opponent who answers for White.
//!
//! `play` follows `plays` of `bddl_model/specs/Play.antt`: read that first. `opponent` says who answers,
//! `players` holds the opponents that the program has, `show` puts the lines of a transcript, and `ply`
//! makes one move.
#![tactic(auto)]

mod opponent;
mod players;
mod playing;
mod ply;
mod show;

pub use bddl_model::{Node, Played};
pub use offset_check::Setup;
pub use opponent::{Opponent, Reply};
pub use players::{FirstMove, PcgPlayer, Scripted, Typed};
pub use playing::play;
