// A prefix that binds each variable once.
ghost use Rattle.std.specs.Prelude.{◌≡◌, ℕ, ◌≤◌, ◌<◌, true, false, [], ◌∷◌, ◌++◌, length, IfOk, OnOk, OnErr, slice_index_or};
ghost use Rattle.bddl_model.specs.Forms.{has_number, greatest_variables, prefix_variables, AllInRange, AllApart};
ghost use Rattle.qbf_form.specs.Places.{place_in};

use bddl_model::{Bound, NoMemory, Quant, Var};
use std::alloc::Global;
use std::marker::Model;

/// Quantifiers with their variables, the outermost first. Contracts see it as its list of bounds.
/// No variable stands twice, and each is from 1 to 16,777,215.
#[derive(Debug, Drop)]
pub struct Prefix {
    bounds: Vec<Bound>,
    // Of each variable, its place among the bounds, counted from 1; 0 where it has none.
    places: Vec<u32>,
}

impl Model for Prefix {
    ghost use Rattle.std.specs.Prelude.{List};
    ghost use Rattle.bddl_model.specs.declared.formula.Bound.{Bound};
    ghost use Rattle.qbf_form.specs.Places.{KeepsPlaces};

    ghost Value = { List Bound };

    ghost view = { λ p. p.bounds.items };

    ghost invariant = { λ p. KeepsPlaces p.bounds.items p.places.items };
}

// Makes room for the variable's place, which is 0 if there was none.
fn cover(places: &mut Vec<u32>, var: Var) -> Result<(), NoMemory>
    ensures places { (v : ℕ) → slice_index_or places.new.items v 0 ≡ slice_index_or places.old.items v 0 }
    ensures room { OnOk result (var.0 < length places.new.items) }
{
    let room = var.0 as usize + 1;
    if places.len() < room {
        places.resize(room, 0)?;
    }
    Ok(())
}

impl Prefix {
    /// Without variables.
    pub fn empty(alloc: Global) -> Prefix
        ensures { result ≡ [] }
    {
        Prefix {
            bounds: Vec::new(alloc),
            places: Vec::new(alloc),
        }
    }

    /// A prefix of its own with the same variables.
    pub fn copy(&self, alloc: Global) -> Result<Prefix, NoMemory>
        ensures { IfOk result (λ copy. copy ≡ self.now) }
    {
        Ok(Prefix {
            bounds: Vec::from_slice(alloc, &self.bounds)?,
            places: Vec::from_slice(alloc, &self.places)?,
        })
    }

    /// A law: each prefix binds its variables once, and they are in range.
    pub fn keeps_its_variables(&self)
        ensures in_range { AllInRange greatest_variables (prefix_variables self.now) }
        ensures apart { AllApart (prefix_variables self.now) }
        ensures few { length self.now ≤ greatest_variables }
    {
        let _ = &self.bounds;
    }

    /// The variable's place among the bounds, counted from 1; 0 where it has none.
    pub fn place(&self, var: Var) -> u32
        ensures { result ≡ place_in (prefix_variables self.now) var.0 }
    {
        match self.places.get(var.0 as usize) {
            Some(place) => *place,
            None => 0,
        }
    }

    /// A number that is above each variable.
    pub fn room(&self) -> usize
        ensures { (v : ℕ) → has_number (prefix_variables self.now) v ≡ true → v < result }
    {
        self.places.len()
    }

    /// Whether the variable is bound.
    pub fn holds(&self, var: Var) -> bool
        ensures { result ≡ has_number (prefix_variables self.now) var.0 }
    {
        self.place(var) != 0
    }

    /// Adds a variable behind the others, or leaves the prefix as it was.
    pub fn push(&mut self, quant: Quant, var: Var) -> Result<(), NoMemory>
        requires low { 1 ≤ var.0 }
        requires high { var.0 ≤ greatest_variables }
        requires new { has_number (prefix_variables self.old) var.0 ≡ false }
        ensures ok { OnOk result (self.new ≡ self.old ++ record { quant = quant; var = var } ∷ []) }
        ensures err { OnErr result (self.new ≡ self.old) }
    {
        self.keeps_its_variables();
        let place = self.bounds.len() as u32 + 1;
        cover(&mut self.places, var)?;
        self.bounds.push(Bound { quant, var })?;
        self.places[var.0 as usize] = place;
        Ok(())
    }

    pub fn as_slice(&self) -> &[Bound]
        ensures { result.now ≡ self.now }
    {
        &self.bounds
    }
}
