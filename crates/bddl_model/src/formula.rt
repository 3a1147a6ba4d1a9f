ghost use Rattle.std.specs.Prelude.{◌≡◌};
ghost use Rattle.bddl_model.specs.Circuit as circuit;
ghost use Rattle.bddl_model.specs.Truth as truth;

use crate::Items;

/// A variable of a formula, from 1 on.
#[derive(Clone, Copy, Debug, Default, PartialEq, Eq, PartialOrd, Ord, Hash)]
pub struct Var(pub u32);

/// A variable, or its negation.
#[derive(Clone, Copy, Debug, Default, PartialEq, Eq, Hash)]
pub struct Lit {
    pub var: Var,
    pub negated: bool,
}

impl Lit {
    /// The variable itself.
    pub fn positive(var: Var) -> Lit
        ensures { result ≡ circuit.positive var.0 }
    {
        Lit {
            var,
            negated: false,
        }
    }

    /// The opposite literal.
    pub fn negation(self) -> Lit
        ensures { result ≡ truth.negation self }
    {
        Lit {
            var: self.var,
            negated: !self.negated,
        }
    }
}

pub type LitList = Items<Lit>;

/// A constraint that a solver keeps: a disjunction of literals, or a conjunction.
#[derive(Clone, Copy, Debug, PartialEq, Eq)]
pub enum Kind {
    Clause,
    Cube,
}

#[derive(Clone, Copy, Debug, PartialEq, Eq)]
pub enum Quant {
    Exists,
    All,
}

/// A variable under its quantifier.
#[derive(Clone, Copy, Debug, PartialEq, Eq)]
pub struct Bound {
    pub quant: Quant,
    pub var: Var,
}

/// So many variables from one on.
#[derive(Clone, Copy, Debug, PartialEq, Eq)]
pub struct Span {
    pub from: u32,
    pub len: u32,
}

/// Variables that follow each other, under one quantifier. There may be none, and the next block
/// may have the same quantifier.
#[derive(Clone, Copy, Debug, PartialEq, Eq)]
pub struct Block {
    pub quant: Quant,
    pub span: Span,
}

/// What is found of a formula in so many steps: its value, or that they are spent.
#[derive(Clone, Copy, Debug, PartialEq, Eq)]
pub enum Verdict {
    True,
    False,
    Spent,
}
