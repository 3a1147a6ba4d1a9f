// The clauses of two literals, as a set in which they are found.
ghost use Rattle.std.specs.Prelude.{◌≡◌, ◌||◌, false, IfOk, OnOk};
ghost use Rattle.qbf_form.specs.declared.pairs.Pair.{Pair};
ghost use Rattle.qbf_form.specs.Pairs as spec;

use crate::form::Form;
use bddl_model::{Lit, NoMemory};
use indexmap::IndexSet;
use std::alloc::Global;
use std::marker::Model;

/// Two literals, that of the smaller variable first.
#[derive(Clone, Copy, Debug, PartialEq, Eq, Hash)]
pub struct Pair {
    first: Lit,
    second: Lit,
}

/// The clauses of two literals of a form. Contracts see the list of their pairs.
#[derive(Debug, Drop)]
pub struct Pairs {
    pairs: IndexSet<Pair>,
}

impl Model for Pairs {
    ghost use Rattle.std.specs.Prelude.{List};
    ghost use Rattle.qbf_form.specs.declared.pairs.Pair.{Pair};

    ghost Value = { List Pair };

    ghost view = { λ p. p.pairs.keys };
}

impl Pair {
    // The same in either order.
    fn of(one: Lit, other: Lit) -> Pair
        ensures { result ≡ spec.pair_of one other }
    {
        let (first, second) = if one.var < other.var {
            (one, other)
        } else {
            (other, one)
        };
        Pair { first, second }
    }
}

impl Pairs {
    fn new(alloc: Global) -> Pairs
        ensures { (pair : Pair) → spec.has_pair result pair ≡ false }
    {
        Pairs {
            pairs: IndexSet::new(alloc),
        }
    }

    // Adds the pair of a clause that has two literals.
    fn add(&mut self, clause: &[Lit]) -> Result<(), NoMemory>
        ensures { OnOk result ((pair : Pair) → spec.has_pair self.new pair ≡ (spec.has_pair self.old pair || spec.has_pair (spec.clause_pairs clause.now) pair)) }
    {
        if let [one, other] = clause {
            self.pairs.insert(Pair::of(*one, *other))?;
        }
        Ok(())
    }

    pub fn of(alloc: Global, form: &Form) -> Result<Pairs, NoMemory>
        ensures { IfOk result (λ pairs. (pair : Pair) → spec.has_pair pairs pair ≡ spec.has_pair (spec.pairs_of form.now.clauses) pair) }
    {
        let mut pairs = Pairs::new(alloc);
        for number in 0..form.clauses() {
            pairs.add(form.clause(number))?;
        }
        Ok(pairs)
    }

    /// Whether some clause has these two literals and no others.
    pub fn hold(&self, one: Lit, other: Lit) -> bool
        ensures { result ≡ spec.has_pair self.now (spec.pair_of one other) }
    {
        self.pairs.contains(&Pair::of(one, other))
    }
}
