// The constraints that hold each literal.
ghost use Rattle.std.specs.Prelude.{◌≡◌, ◌≢◌, ℕ, ◌+◌, ◌-◌, ◌<◌, ◌&&◌, ◌==◌, true, if◌then◌else◌, [], Option, Some, IfOk, OnOk, MatchOption, slice_get, length, vec_len};
ghost use Rattle.bddl_model.specs.declared.formula.Lit.{Lit};
ghost use Rattle.bddl_model.specs.Forms.{has_literal, FitsPrefix};
ghost use Rattle.qbf_store.specs.declared.constraint.ConstraintId.{ConstraintId};
ghost use Rattle.qbf_store.specs.Constraints.{same_id, times};
ghost use Rattle.qbf_store.specs.Rows.{row, row_of, row_count, entered, HasRoom};

use crate::constraint::ConstraintId;
use bddl_model::{Lit, NoMemory};
use qbf_form::Prefix;
use std::alloc::Global;

/// A row for each literal of a prefix, with the constraints that hold it.
#[derive(Debug, Drop)]
pub struct Holders {
    pub rows: Vec<Vec<ConstraintId>>,
}

fn empty_rows(alloc: Global, count: usize) -> Result<Vec<Vec<ConstraintId>>, NoMemory>
    ensures count { IfOk result (λ rows. vec_len rows ≡ count) }
    ensures empty { IfOk result (λ rows. (n : ℕ) → row rows.items n ≡ []) }
{
    let mut rows = Vec::with_capacity(alloc, count)?;
    'rows: while rows.len() < count {
        rows.push_reserved(Vec::new(alloc));
    }
    Ok(rows)
}

// The row of a literal.
fn row_number(prefix: &Prefix, literal: Lit) -> usize
    ensures number { result ≡ row_of prefix.now literal }
    ensures within { result < row_count prefix.now }
{
    2 * prefix.place(literal.var) as usize + usize::from(literal.negated)
}

fn reserve_in(rows: &mut Vec<Vec<ConstraintId>>, number: usize) -> Result<(), NoMemory>
    requires { number < vec_len rows.old }
    ensures rows { (n : ℕ) → row rows.new.items n ≡ row rows.old.items n }
    ensures count { vec_len rows.new ≡ vec_len rows.old }
    ensures keeps { (n : ℕ) → HasRoom rows.old.items n → HasRoom rows.new.items n }
    ensures ok { OnOk result (HasRoom rows.new.items number) }
{
    rows[number].reserve(1)?;
    Ok(())
}

fn enter(rows: &mut Vec<Vec<ConstraintId>>, number: usize, id: ConstraintId)
    requires within { number < vec_len rows.old }
    requires room { HasRoom rows.old.items number }
    ensures rows { (n : ℕ) (x : ConstraintId) → times x (row rows.new.items n) ≡ times x (row rows.old.items n) + (if n == number && same_id x id then 1 else 0) }
    ensures count { vec_len rows.new ≡ vec_len rows.old }
    ensures keeps { (n : ℕ) → n ≢ number → HasRoom rows.old.items n → HasRoom rows.new.items n }
{
    rows[number].push_reserved(id);
}

fn place_of(ids: &[ConstraintId], id: ConstraintId) -> Option<usize>
    ensures { MatchOption result (times id ids.now ≡ 0) (λ place. slice_get ids.now place ≡ Some id) }
{
    for place in 0..ids.len() {
        if ids[place] == id {
            return Some(place);
        }
    }
    None
}

fn leave(rows: &mut Vec<Vec<ConstraintId>>, number: usize, id: ConstraintId)
    requires { number < vec_len rows.old }
    ensures rows { (n : ℕ) (x : ConstraintId) → times x (row rows.new.items n) ≡ times x (row rows.old.items n) - (if n == number && same_id x id then 1 else 0) }
    ensures count { vec_len rows.new ≡ vec_len rows.old }
{
    if let Some(place) = place_of(&rows[number], id) {
        rows[number].swap_remove(place);
    }
}

impl Holders {
    /// Rows without constraints.
    pub fn of(alloc: Global, prefix: &Prefix) -> Result<Holders, NoMemory>
        ensures count { IfOk result (λ holders. vec_len holders.rows ≡ row_count prefix.now) }
        ensures empty { IfOk result (λ holders. (n : ℕ) → row holders.rows.items n ≡ []) }
    {
        prefix.keeps_its_variables();
        let count = 2 * (prefix.as_slice().len() + 1);
        Ok(Holders {
            rows: empty_rows(alloc, count)?,
        })
    }

    /// The constraints that hold a literal.
    pub fn row(&self, prefix: &Prefix, literal: Lit) -> &[ConstraintId]
        requires { vec_len self.now.rows ≡ row_count prefix.now }
        ensures { result.now ≡ row self.now.rows.items (row_of prefix.now literal) }
    {
        &self.rows[row_number(prefix, literal)]
    }

    /// Makes room for one more constraint of these literals.
    pub fn reserve(&mut self, prefix: &Prefix, literals: &[Lit]) -> Result<(), NoMemory>
        requires { vec_len self.old.rows ≡ row_count prefix.now }
        ensures rows { (n : ℕ) → row self.new.rows.items n ≡ row self.old.rows.items n }
        ensures count { vec_len self.new.rows ≡ vec_len self.old.rows }
        ensures ok { OnOk result ((l : Lit) → has_literal literals.now l ≡ true → HasRoom self.new.rows.items (row_of prefix.now l)) }
    {
        for literal in literals {
            reserve_in(&mut self.rows, row_number(prefix, *literal))?;
        }
        Ok(())
    }

    /// Enters a constraint into the rows of its literals, where there is room.
    pub fn enter(&mut self, prefix: &Prefix, literals: &[Lit], id: ConstraintId)
        requires count { vec_len self.old.rows ≡ row_count prefix.now }
        requires fits { FitsPrefix prefix.now literals.now }
        requires room { (l : Lit) → has_literal literals.now l ≡ true → HasRoom self.old.rows.items (row_of prefix.now l) }
        ensures rows { (l : Lit) (x : ConstraintId) → times x (row self.new.rows.items (row_of prefix.now l)) ≡ times x (row self.old.rows.items (row_of prefix.now l)) + entered literals.now id l x }
        ensures count { vec_len self.new.rows ≡ vec_len self.old.rows }
    {
        for literal in literals {
            enter(&mut self.rows, row_number(prefix, *literal), id);
        }
    }

    /// Takes a constraint out of the rows of its literals.
    pub fn leave(&mut self, prefix: &Prefix, literals: &[Lit], id: ConstraintId)
        requires count { vec_len self.old.rows ≡ row_count prefix.now }
        requires fits { FitsPrefix prefix.now literals.now }
        ensures rows { (l : Lit) (x : ConstraintId) → times x (row self.new.rows.items (row_of prefix.now l)) ≡ times x (row self.old.rows.items (row_of prefix.now l)) - entered literals.now id l x }
        ensures count { vec_len self.new.rows ≡ vec_len self.old.rows }
    {
        for literal in literals {
            leave(&mut self.rows, row_number(prefix, *literal), id);
        }
    }
}
