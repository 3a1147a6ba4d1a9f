// The trail.
ghost use Rattle.std.specs.Prelude.{◌≡◌, ◌≤◌, ◌<◌, ◌+◌, ◌↔◌, true, false, [], None, IfOk, IsTrue, IsFalse, IsSomeAnd, length, slice_get};
ghost use Rattle.bddl_model.specs.Forms.{has_number, prefix_variables};
ghost use Rattle.qbf_form.specs.Places.{place_in};
ghost use Rattle.qbf_trail.specs.Entries as spec;

use crate::entry::{Cause, Entry, Level};
use bddl_model::{Lit, NoMemory, Steps, Var};
use qbf_form::{Form, Prefix};
use qbf_store::ConstraintId;
use std::alloc::Global;
use std::marker::Model;

/// The literals that were put over a prefix, in order. Contracts see the prefix, the entries and
/// the level. No variable is put twice.
#[derive(Debug, Drop)]
pub struct Trail {
    prefix: Prefix,
    entries: Vec<Entry>,
    level: u32,
    // Of each variable its value, and its place among the entries, counted from 1; 0 where it has
    // none.
    values: Vec<Option<bool>>,
    places: Vec<u32>,
}

impl Model for Trail {
    ghost use Rattle.qbf_trail.specs.Entries.{Entries};
    ghost use Rattle.qbf_trail.specs.Kept.{shown, KeepsTrail};

    ghost Value = { Entries };

    ghost view = { shown };

    ghost invariant = { KeepsTrail };
}

impl Trail {
    /// No literal of the form's variables, and room for all.
    pub fn begin(alloc: Global, form: &Form) -> Result<Trail, NoMemory>
        ensures { IfOk result (λ trail. trail ≡ record { prefix = form.now.prefix; entries = []; level = 0 }) }
    {
        let prefix = form.prefix().copy(alloc)?;
        let entries = Vec::with_capacity(alloc, prefix.as_slice().len())?;
        let values = vec![in alloc; None; prefix.room()]?;
        let places = vec![in alloc; 0; prefix.room()]?;
        Ok(Trail {
            prefix,
            entries,
            level: 0,
            values,
            places,
        })
    }

    /// A law: variables are bound and put once, and a decision raises the level by one.
    pub fn keeps_its_entries(&self)
        ensures { spec.AreEntries self.now }
    {
        let _ = &self.entries;
    }

    /// Puts a literal, unless the budget is used, and says whether it did.
    pub fn push(&mut self, literal: Lit, cause: Cause, steps: &mut Steps) -> bool
        requires bound { has_number (prefix_variables self.old.prefix) literal.var.0 ≡ true }
        requires free { spec.value_in self.old.entries literal.var.0 ≡ None }
        ensures spent { (result ≡ false) ↔ (steps.old.used ≡ steps.old.budget) }
        ensures unchanged { IsFalse result → self.new ≡ self.old }
        ensures no_step { IsFalse result → steps.new ≡ steps.old }
        ensures put { IsTrue result → self.new ≡ spec.with_literal self.old literal cause }
        ensures counted { IsTrue result → steps.new ≡ record steps.old { used = steps.old.used + 1 } }
    {
        if !steps.tick() {
            return false;
        }
        self.put(literal, cause);
        true
    }

    fn put(&mut self, literal: Lit, cause: Cause)
        requires bound { has_number (prefix_variables self.old.prefix) literal.var.0 ≡ true }
        requires free { spec.value_in self.old.entries literal.var.0 ≡ None }
        ensures { self.new ≡ spec.with_literal self.old literal cause }
    {
        self.prefix.keeps_its_variables();
        let level = cause.raise(self.level);
        self.entries.push_reserved(Entry {
            literal,
            cause,
            level: Level(level),
        });
        self.level = level;
        self.values[literal.var.0 as usize] = Some(!literal.negated);
        self.places[literal.var.0 as usize] = self.entries.len() as u32;
    }

    /// Takes back the literals of greater levels.
    pub fn back_to(&mut self, level: Level)
        requires { level.0 ≤ self.old.level }
        ensures { self.new ≡ record self.old { entries = spec.up_to level.0 self.old.entries; level = level.0 } }
    {
        while self.level > level.0 {
            self.take_back();
        }
    }

    // Takes back the last literal.
    fn take_back(&mut self)
        requires { 0 < self.old.level }
        ensures { (e : Entry) × (self.old ≡ spec.with_literal self.new e.literal e.cause) }
    {
        if let Some(entry) = self.entries.pop() {
            self.level = entry.cause.lower(self.level);
            self.values[entry.literal.var.0 as usize] = None;
            self.places[entry.literal.var.0 as usize] = 0;
        }
    }

    /// The value of a variable of which a literal was put.
    pub fn value(&self, var: Var) -> Option<bool>
        ensures { result ≡ spec.value_in self.now.entries var.0 }
    {
        match self.values.get(var.0 as usize) {
            Some(value) => *value,
            None => None,
        }
    }

    pub fn level(&self) -> Level
        ensures { result.0 ≡ self.now.level }
    {
        Level(self.level)
    }

    /// The number of entries.
    pub fn len(&self) -> u32
        ensures { result ≡ length self.now.entries }
    {
        self.prefix.keeps_its_variables();
        self.entries.len() as u32
    }

    /// An entry by its number. They count from 0, in the order of putting.
    pub fn entry(&self, number: u32) -> (Lit, Cause, Level)
        requires { number < length self.now.entries }
        ensures { IsSomeAnd (slice_get self.now.entries number) (λ e. result ≡ (e.literal, e.cause, e.level)) }
    {
        let entry = self.entries[number as usize];
        (entry.literal, entry.cause, entry.level)
    }

    /// The variable's place among the entries, counted from 1; 0 where it has none.
    pub fn place(&self, var: Var) -> u32
        ensures { result ≡ place_in (spec.entry_variables self.now.entries) var.0 }
    {
        match self.places.get(var.0 as usize) {
            Some(place) => *place,
            None => 0,
        }
    }

    /// Whether some literal was put by this constraint. This goes over the whole trail.
    pub fn is_cause(&self, id: ConstraintId) -> bool
        ensures { result ≡ spec.has_cause self.now.entries id }
    {
        self.entries.iter().any(|entry| entry.cause.is_by(id))
    }
}
