// The opponents that the program has.
mod first_move;
mod pcg_player;
mod said;
mod scripted;
#[cfg(test)]
mod tests;
mod typed;

pub use first_move::FirstMove;
pub use pcg_player::PcgPlayer;
pub use scripted::Scripted;
pub use typed::Typed;
