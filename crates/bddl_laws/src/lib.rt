//! Laws of the definitions that the solver and the encoder stand on, each the contract of a function
//! with an empty body.
//!
//! `constraints` holds those of fine clauses and cubes: which ones there are, that resolution and
//! reduction keep them, and what a form's value is where one has no literal left. Begin with
//! `bddl_model/specs/Fine.antt`. `exactness` says why the encoding says of every position what can be
//! forced from there; begin with `bddl_model/specs/Conditions.antt`. `circuits` says what the clauses of
//! a circuit mean, `following` which values a tail's variables have, `texts` that a form is read from its
//! text and that each text has one reading, `certificates` what a valid certificate gives and how one is
//! made, `plays` how a play under one ends, and `bounds` how large a form gets and how many steps a
//! search over it takes.
#![tactic(auto)]

mod bounds;
mod certificates;
mod circuits;
mod constraints;
mod exactness;
mod following;
mod plays;
mod texts;

pub use bounds::{
    certificate_steps_are_bounded, circuit_tail_holds_the_gates, flip_keeps_steps_within,
    form_bound_is_at_most_game_bound, paid_steps_are_below_the_bound, push_keeps_steps_within,
    sizes_have_limits, tail_is_the_longest, worked_bounds,
};
pub use certificates::{
    nodes_may_be_made_breadth_first, placed_nodes_are_valid, trees_are_linked,
    valid_certificates_have_a_text, valid_certificates_win,
};
pub use circuits::{circuit_clauses_hold, growth_keeps_words, shared_gates_are_apart};
pub use constraints::{
    clause_decides, cube_decides, cubes_are_dual, first_block_has_values, first_cube_is_fine,
    original_clause_is_fine, reduced_clause_is_fine, reduced_cube_is_fine, resolved_clause_is_fine,
    resolved_cube_is_fine, resolvent_fits,
};
pub use exactness::{lines_of_play_are_played, served_claims_are_exact};
pub use following::tail_values_follow;
pub use plays::plays_reach_the_goal;
pub use texts::{one_reading, text_is_read};
