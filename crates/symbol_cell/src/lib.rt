//! The mark of one cell, whose place is a word of wires, from ply to ply.
//!
//! For every list of legal moves whose codes the wires of the plies carry, and every place, the pair
//! of a moment shows the mark that the board has there: read `OneCell.antt` in `bddl_model/specs`, and
//! then `specs/Runs.antt`. No gate hangs on the number of cells but those of the start board that
//! aren't open.
#![tactic(auto)]

mod laws;
mod pair;
mod run;
mod start;
mod step;
mod touch;
mod word;

pub use laws::takes_few_gates;
pub use pair::Pair;
pub use run::{SymbolRun, later_gates_keep, layout_marks_are_shown};
pub use step::Cells;
pub use touch::touches;
pub use word::input_word;
