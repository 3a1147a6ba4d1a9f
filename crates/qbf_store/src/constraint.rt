// A constraint and its number.
use bddl_model::{Kind, Lit};
use smallvec::SmallVec;

/// The number of a constraint: a clause of the form counted from 0, or a number that stands for
/// what was learned until it is forgotten.
#[derive(Clone, Copy, Debug, PartialEq, Eq)]
pub enum ConstraintId {
    Original(u64),
    Learned(usize),
}

/// A constraint that was learned. Few literals need no allocation of their own.
#[derive(Debug, Drop)]
pub struct LearnedConstraint {
    pub kind: Kind,
    pub literals: SmallVec<Lit, 8>,
}
