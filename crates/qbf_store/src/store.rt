// The store.
ghost use Rattle.std.specs.Prelude.{◌≡◌, ◌↔◌, ℕ, All, IsTrue, ◌+◌, ◌≤◌, ◌<◌, if◌then◌else◌, length, None, Some, IfOk, OnOk, OnErr, IsSomeAnd};
ghost use Rattle.bddl_model.specs.Fine.{IsFine};
ghost use Rattle.qbf_store.specs.declared.constraint.ConstraintId.{ConstraintId};
ghost use Rattle.qbf_store.specs.Constraints.{constraint, learned_count, of_form, holds, times, IsLive, IsLearned, AreFine, ChangesAt};
ghost use Rattle.qbf_store.specs.Kept.{RowsHold};
ghost use Rattle.qbf_store.specs.Rows.{row_count};
ghost use Rattle.slab.specs.Slab.{slab_len, ContainsKey, Updates};
ghost use Rattle.qbf_store.specs.declared.constraint.LearnedConstraint.{LearnedConstraint};

use crate::constraint::{ConstraintId, LearnedConstraint};
use crate::holders::Holders;
use bddl_laws::original_clause_is_fine;
use bddl_model::{Kind, Lit, NoMemory};
use qbf_form::Form;
use slab::Slab;
use smallvec::SmallVec;
use std::alloc::Global;
use std::marker::Model;

/// The clauses of a form, and constraints that were learned from it. Contracts see the form, the
/// learned constraints by number, and how many of these there may be at a time.
#[derive(Debug, Drop)]
pub struct Store {
    form: Form,
    learned: Slab<LearnedConstraint>,
    holders: Holders,
    most: u64,
}

impl Model for Store {
    ghost use Rattle.qbf_store.specs.Constraints.{Constraints};
    ghost use Rattle.qbf_store.specs.Kept.{shown, KeepsConstraints};

    ghost Value = { Constraints };

    ghost view = { shown };

    ghost invariant = { λ s. KeepsConstraints (shown s) s.holders.rows.items };
}

// Drops a learned constraint.
fn remove(learned: &mut Slab<LearnedConstraint>, number: usize)
    requires { ContainsKey learned.old number }
    ensures updates { Updates learned.old learned.new number None }
    ensures count { slab_len learned.new + 1 ≡ slab_len learned.old }
{
    learned.remove(number);
}

// Enters the clauses of a form into empty rows.
fn holders_of(alloc: Global, form: &Form) -> Result<Holders, NoMemory>
    ensures count { IfOk result (λ holders. length holders.rows.items ≡ row_count form.now.prefix) }
    ensures rows { IfOk result (λ holders. (most : ℕ) → RowsHold (of_form form.now most) holders.rows.items) }
{
    let mut holders = Holders::of(alloc, form.prefix())?;
    for number in 0..form.clauses() {
        let literals = form.clause(number);
        holders.reserve(form.prefix(), literals)?;
        holders.enter(form.prefix(), literals, ConstraintId::Original(number));
    }
    Ok(holders)
}

impl Store {
    /// The clauses of a form, with a bound of 4,096 learned constraints more than it has variables.
    pub fn of(alloc: Global, form: &Form) -> Result<Store, NoMemory>
        ensures { IfOk result (λ store. store ≡ of_form form.now (length form.now.prefix + 4096)) }
    {
        form.prefix().keeps_its_variables();
        let variables = form.prefix().as_slice().len() as u64;
        Store::of_bounded(alloc, form, variables + 4096)
    }

    /// The clauses of a form, with no learned constraint and at most so many at a time.
    pub fn of_bounded(alloc: Global, form: &Form, most: u64) -> Result<Store, NoMemory>
        ensures { IfOk result (λ store. store ≡ of_form form.now most) }
    {
        form.keeps_its_form();
        original_clause_is_fine();
        Ok(Store {
            form: form.copy(alloc)?,
            learned: Slab::new(alloc),
            holders: holders_of(alloc, form)?,
            most,
        })
    }

    /// A law: each live constraint is fine.
    pub fn keeps_fine(&self)
        ensures { AreFine self.now }
    {
        let _ = &self.form;
    }

    /// How many learned constraints are live.
    pub fn learned(&self) -> u64
        ensures count { result ≡ learned_count self.now }
        ensures few { result ≤ self.now.most }
    {
        self.learned.len() as u64
    }

    /// Whether a constraint stands under the number.
    pub fn is_live(&self, id: ConstraintId) -> bool
        ensures { IsTrue result ↔ IsLive self.now id }
    {
        match id {
            ConstraintId::Original(number) => number < self.form.clauses(),
            ConstraintId::Learned(number) => self.learned.contains(number),
        }
    }

    pub fn kind(&self, id: ConstraintId) -> Kind
        requires { IsLive self.now id }
        ensures { IsSomeAnd (constraint self.now id) (λ c. result ≡ c.kind) }
    {
        match id {
            ConstraintId::Original(_) => Kind::Clause,
            ConstraintId::Learned(number) => self.learned[number].kind,
        }
    }

    pub fn literals(&self, id: ConstraintId) -> &[Lit]
        requires { IsLive self.now id }
        ensures { IsSomeAnd (constraint self.now id) (λ c. result.now ≡ c.literals) }
    {
        match id {
            ConstraintId::Original(number) => self.form.clause(number),
            ConstraintId::Learned(number) => self.learned[number].literals.as_slice(),
        }
    }

    /// The live constraints that hold a literal, in any order.
    pub fn with(&self, literal: Lit) -> &[ConstraintId]
        ensures each_once { (id : ConstraintId) → times id result.now ≡ (if holds self.now literal id then 1 else 0) }
        ensures live { All (IsLive self.now) result.now }
    {
        self.holders.row(self.form.prefix(), literal)
    }

    /// Adds a constraint under a number of its own, or leaves the store as it was.
    pub fn add_learned(&mut self, kind: Kind, literals: &[Lit]) -> Result<ConstraintId, NoMemory>
        requires fine { IsFine kind self.old.form literals.now }
        requires room { learned_count self.old < self.old.most }
        ensures learned { IfOk result IsLearned }
        ensures free { IfOk result (λ id. constraint self.old id ≡ None) }
        ensures added { IfOk result (λ id. ChangesAt self.old self.new id (Some (record { kind = kind; literals = literals.now }))) }
        ensures count { OnOk result (learned_count self.new ≡ learned_count self.old + 1) }
        ensures err { OnErr result (self.new ≡ self.old) }
    {
        let alloc = *self.holders.rows.allocator();
        self.learned.reserve(1)?;
        self.holders.reserve(self.form.prefix(), literals)?;
        let number = self.learned.insert_reserved(LearnedConstraint {
            kind,
            literals: SmallVec::from_slice(alloc, literals)?,
        });
        let id = ConstraintId::Learned(number);
        self.holders.enter(self.form.prefix(), literals, id);
        Ok(id)
    }

    /// Forgets a learned constraint. Its number may stand for another one later.
    pub fn forget(&mut self, id: ConstraintId)
        requires learned { IsLearned id }
        requires live { IsLive self.old id }
        ensures forgotten { ChangesAt self.old self.new id None }
        ensures count { learned_count self.new + 1 ≡ learned_count self.old }
    {
        if let ConstraintId::Learned(number) = id {
            let literals = self.learned[number].literals.as_slice();
            self.holders.leave(self.form.prefix(), literals, id);
            remove(&mut self.learned, number);
        }
    }
}
