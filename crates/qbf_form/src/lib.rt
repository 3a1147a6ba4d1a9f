//! A prefix and a form in memory, and the length of a form's tail.
//!
//! A prefix binds each of its variables once, and a form's clauses fit its prefix: `IsForm` in
//! `bddl_model/specs/Forms.antt`. The tail is that of `Tail.antt` there, found in a time that
//! grows as the form does.
#![tactic(auto)]

mod clauses;
mod form;
mod marks;
mod pairs;
mod prefix;
mod tail;

pub use bddl_model::Bound;
pub use clauses::Clauses;
pub use form::Form;
pub use prefix::Prefix;
