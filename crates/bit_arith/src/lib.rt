//! Words of wires, least bit first, that compute plain numbers.
//!
//! Each call answers wires that hold, under every assignment of the inputs, exactly what its
//! contract says of numbers, and says how many gates may come, also where memory is wanting: read
//! `Words.antt` and `Growth.antt` in `bddl_model/specs` first.
#![tactic(auto)]

mod compare;
mod gates;
mod many;
mod subtract;
mod sum;

pub use compare::{at_least, at_most, equal, equal_const, less};
pub use gates::{choose, or, or_both};
pub use many::{all_of, any_of};
pub use subtract::difference;
pub use sum::add_const;
