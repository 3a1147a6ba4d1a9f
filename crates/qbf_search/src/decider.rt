// Who chooses what a search decides next.
ghost use Rattle.std.specs.Prelude.{◌≡◌, true};

use bddl_model::{Lit, Var};

/// A variable by its place in a list, and the value that is tried first. A place past the end means the
/// first variable.
#[derive(Clone, Copy, Debug, PartialEq, Eq)]
pub struct Pick {
    pub place: u64,
    pub positive: bool,
}

/// Is asked for the next decision. Whatever it picks, a search answers the same value.
pub trait Decider: Drop {
    /// Picks one of these variables: those of the outermost block with a free one that have no value and
    /// are outside the tail, in the order of the prefix.
    fn pick(&mut self, free: &[Var]) -> Pick;

    /// Is told a constraint that was learned.
    fn learned(&mut self, literals: &[Lit]);
}

/// Picks the first variable, positive.
#[derive(Debug, Drop)]
pub struct PlainDecider {}

impl PlainDecider {
    pub fn new() -> Self {
        PlainDecider {}
    }
}

impl Decider for PlainDecider {
    fn pick(&mut self, _free: &[Var]) -> Pick
        ensures { result ≡ record { place = 0; positive = true } }
    {
        Pick {
            place: 0,
            positive: true,
        }
    }

    fn learned(&mut self, _literals: &[Lit]) {}
}
