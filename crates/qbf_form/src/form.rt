// A form: a prefix and clauses that fit it.
ghost use Rattle.std.specs.Prelude.{◌≡◌, ◌<◌, [], ◌∷◌, ◌++◌, length, IfOk, OnOk, OnErr, slice_index_or};
ghost use Rattle.bddl_model.specs.Forms.{FitsPrefix, AllFitPrefix, IsForm};

use crate::clauses::Clauses;
use crate::prefix::Prefix;
use bddl_model::{Lit, NoMemory};
use std::alloc::Global;
use std::marker::Model;

/// A prefix and its clauses. Contracts see it as a formula. Each clause's variables are bound, and
/// none stands twice in it.
#[derive(Debug, Drop)]
pub struct Form {
    prefix: Prefix,
    clauses: Clauses,
}

impl Model for Form {
    ghost use Rattle.bddl_model.specs.Forms.{AllFitPrefix};
    ghost use Rattle.bddl_model.specs.Truth.{Formula};

    ghost Value = { Formula };

    ghost view = { λ f. record { prefix = f.prefix; clauses = f.clauses } };

    ghost invariant = { λ f. AllFitPrefix f.prefix f.clauses };
}

impl Form {
    /// Without clauses.
    pub fn begin(alloc: Global, prefix: Prefix) -> Form
        ensures { result ≡ record { prefix = prefix; clauses = [] } }
    {
        Form {
            prefix,
            clauses: Clauses::new(alloc),
        }
    }

    /// Of a prefix and clauses that are made already. Neither is copied.
    pub fn of(prefix: Prefix, clauses: Clauses) -> Form
        requires { AllFitPrefix prefix clauses }
        ensures { result ≡ record { prefix = prefix; clauses = clauses } }
    {
        Form { prefix, clauses }
    }

    /// A form of its own with the same prefix and the same clauses.
    pub fn copy(&self, alloc: Global) -> Result<Form, NoMemory>
        ensures { IfOk result (λ copy. copy ≡ self.now) }
    {
        Ok(Form {
            prefix: self.prefix.copy(alloc)?,
            clauses: self.clauses.copy(alloc)?,
        })
    }

    /// A law: each form keeps to what a formula keeps to that is decided.
    pub fn keeps_its_form(&self)
        ensures { IsForm self.now }
    {
        self.prefix.keeps_its_variables();
    }

    /// Adds a clause behind the others, or leaves the form as it was.
    pub fn add(&mut self, literals: &[Lit]) -> Result<(), NoMemory>
        requires { FitsPrefix self.old.prefix literals.now }
        ensures ok { OnOk result (self.new ≡ record self.old { clauses = self.old.clauses ++ literals.now ∷ [] }) }
        ensures err { OnErr result (self.new ≡ self.old) }
    {
        self.clauses.add(literals)
    }

    pub fn prefix(&self) -> &Prefix
        ensures { result.now ≡ self.now.prefix }
    {
        &self.prefix
    }

    /// The number of clauses. They count from 0, in the order of adding.
    pub fn clauses(&self) -> u64
        ensures { result ≡ length self.now.clauses }
    {
        self.clauses.len()
    }

    /// The literals of a clause, in the order in which they were given.
    pub fn clause(&self, number: u64) -> &[Lit]
        requires { number < length self.now.clauses }
        ensures literals { result.now ≡ slice_index_or self.now.clauses number [] }
        ensures fits { FitsPrefix self.now.prefix result.now }
    {
        self.clauses.clause(number)
    }
}
