//! Blocks of inputs and the gates of a circuit as one prefix.
//!
//! Neighbours of one quantifier become one block, and the gate variables stand behind the inputs:
//! read `bddl_model/specs/Prenex.antt` first.
#![tactic(auto)]

mod merge;
mod prefix;

pub use bddl_model::{Block, Quant, Span};
pub use merge::merged_blocks;
pub use prefix::prefix_of;
