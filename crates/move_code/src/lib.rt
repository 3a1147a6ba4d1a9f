//! Moves as bits, circuits that read them, and where all inputs of the encoding stand.
//!
//! A move's code is its action, its column less 1 and its row less 1, each in as few bits as serve,
//! least bit first: read `Codes.antt` in `bddl_model/specs` first. `Layout.antt` there says which
//! inputs a game has; `Layout::of` answers its `layout`, and `Layout::blocks` its `blocks`.
#![tactic(auto)]

mod code;
mod layout;
mod number;
mod range;
mod sizes;

pub use bddl_model::PlyBits;
pub use code::{Shape, bits_of, move_of};
pub use layout::Layout;
pub use number::bits;
pub use range::{CodeWords, in_range, names};
pub use sizes::anchor_bits;
