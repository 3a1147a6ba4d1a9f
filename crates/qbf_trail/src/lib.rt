//! The literals that a search has put, in order, each with its cause and its level.
//!
//! To put a literal and to go back take no memory. Read `specs/Entries.antt` first: what contracts
//! see of a trail.
#![tactic(auto)]

mod entry;
mod trail;

pub use entry::{Cause, Entry, Level};
pub use trail::Trail;
