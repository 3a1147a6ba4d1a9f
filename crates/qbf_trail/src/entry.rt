// A literal that was put.
ghost use Rattle.std.specs.Prelude.{◌≡◌, ◌+◌, ◌^◌, ◌<◌, ◌≤◌};
ghost use Rattle.qbf_trail.specs.Entries as spec;

use bddl_model::Lit;
use qbf_store::ConstraintId;

/// Why a literal was put: a decision, or a constraint that left no other choice.
#[derive(Clone, Copy, Debug, PartialEq, Eq)]
pub enum Cause {
    Decision,
    By(ConstraintId),
}

/// How many decisions are open. Before the first it is 0.
#[derive(Clone, Copy, Debug, PartialEq, Eq, PartialOrd, Ord)]
pub struct Level(pub u32);

/// A literal that was put, with the level behind it.
#[derive(Clone, Copy, Debug, PartialEq, Eq)]
pub struct Entry {
    pub literal: Lit,
    pub cause: Cause,
    pub level: Level,
}

impl Cause {
    // The level behind an entry of this cause, where it was this one before.
    pub(crate) fn raise(self, level: u32) -> u32
        requires { level + 1 < 2 ^ 32 }
        ensures { result ≡ spec.raised level self }
    {
        match self {
            Cause::Decision => level + 1,
            Cause::By(_) => level,
        }
    }

    // The level before an entry of this cause, where it is this one behind.
    pub(crate) fn lower(self, level: u32) -> u32
        requires { spec.raised 0 self ≤ level }
        ensures { spec.raised result self ≡ level }
    {
        match self {
            Cause::Decision => level - 1,
            Cause::By(_) => level,
        }
    }

    pub(crate) fn is_by(self, id: ConstraintId) -> bool
        ensures { result ≡ spec.is_by id self }
    {
        match self {
            Cause::Decision => false,
            Cause::By(other) => other == id,
        }
    }
}
