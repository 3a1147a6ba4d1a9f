// The tail of a form, and the values of its variables.
ghost use Rattle.std.specs.Prelude.{◌≡◌, ◌≤◌, ◌<◌, ◌+◌, ◌++◌, ℕ, [], nat_lt, length, vec_len, IfOk, OnOk};
ghost use Rattle.bddl_model.specs.Forms.{prefix_variables};
ghost use Rattle.bddl_laws.specs.FollowingValues.{implied_by};
ghost use Rattle.qbf_form.specs.Places.{place_in};
ghost use Rattle.qbf_search.specs.Tails as spec;
ghost use Rattle.qbf_search.specs.Tails.{row, TellsTail};
ghost use Rattle.qbf_search.specs.Values.{assignment};

use crate::values::literals_hold;
use bddl_model::{Lit, NoMemory};
use qbf_form::{Form, Prefix};
use std::alloc::Global;

/// Where the tail of a form begins, and which literals each of its variables implies.
#[derive(Debug, Drop)]
pub struct Tail {
    before: usize,
    // Of each variable of the tail, in the order of the prefix.
    implied: Vec<Vec<Lit>>,
}

// Adds a literal to the row at this place.
fn add_to_row(rows: &mut Vec<Vec<Lit>>, place: usize, literal: Lit) -> Result<(), NoMemory>
    requires { place < vec_len rows.old }
    ensures rows { OnOk result ((i : ℕ) → row rows.new i ≡ row rows.old i ++ spec.added_at place i literal) }
    ensures len { vec_len rows.new ≡ vec_len rows.old }
{
    rows[place].push(literal)?;
    Ok(())
}

// Adds the literal where the other one of its clause is the negation of a variable of the tail that
// stands behind its own.
fn add_beside(
    rows: &mut Vec<Vec<Lit>>,
    prefix: &Prefix,
    before: usize,
    other: Lit,
    literal: Lit,
) -> Result<(), NoMemory>
    requires { length prefix.now ≤ before + vec_len rows.old }
    ensures rows { OnOk result ((i : ℕ) → row rows.new i ≡ row rows.old i ++ spec.added_beside (place_in (prefix_variables prefix.now)) (before + i) other literal) }
    ensures len { vec_len rows.new ≡ vec_len rows.old }
{
    let place = prefix.place(other.var) as usize;
    if other.negated && before < place && (prefix.place(literal.var) as usize) < place {
        add_to_row(rows, place - before - 1, literal)?;
    }
    Ok(())
}

// Adds what the clause of this number says to its rows.
fn add_clause(
    rows: &mut Vec<Vec<Lit>>,
    form: &Form,
    before: usize,
    number: u64,
) -> Result<(), NoMemory>
    requires rows { length form.now.prefix ≤ before + vec_len rows.old }
    requires number { number < length form.now.clauses }
    ensures rows { OnOk result ((i : ℕ) → before + i < length form.now.prefix
        → row rows.new i ≡ row rows.old i ++ implied_by (spec.variables_before form.now (before + i)) (spec.variable_at form.now (before + i)) (spec.clause_at form.now number)) }
    ensures len { vec_len rows.new ≡ vec_len rows.old }
{
    form.keeps_its_form();
    if let [first, second] = form.clause(number) {
        add_beside(rows, form.prefix(), before, *first, *second)?;
        add_beside(rows, form.prefix(), before, *second, *first)?;
    }
    Ok(())
}

fn empty_rows(alloc: Global, count: usize) -> Result<Vec<Vec<Lit>>, NoMemory>
    ensures len { IfOk result (λ rows. vec_len rows ≡ count) }
    ensures empty { IfOk result (λ rows. (i : ℕ) → row rows i ≡ []) }
{
    let mut rows = Vec::with_capacity(alloc, count)?;
    for _ in 0..count {
        rows.push(Vec::new(alloc))?;
    }
    Ok(rows)
}

impl Tail {
    pub fn of(alloc: Global, form: &Form) -> Result<Tail, NoMemory>
        ensures { IfOk result (λ tail. TellsTail form.now tail.before tail.implied) }
    {
        let variables = form.prefix().as_slice().len();
        let count = form.tail(alloc)? as usize;
        let before = variables - count;
        let mut implied = empty_rows(alloc, count)?;
        for number in 0..form.clauses() {
            add_clause(&mut implied, form, before, number)?;
        }
        Ok(Tail { before, implied })
    }

    /// Whether the place in the prefix stands before the tail.
    pub fn is_before(&self, place: usize) -> bool
        ensures { result ≡ nat_lt place self.now.before }
    {
        place < self.before
    }

    /// The value that the variable at this place of the prefix is given first: true before the tail, and
    /// in the tail the one that follows.
    pub fn first_value(&self, values: &[bool], place: usize) -> bool
        ensures { result ≡ spec.first_value self.now.before self.now.implied place (assignment values.now) }
    {
        if place < self.before {
            return true;
        }
        match self.implied.get(place - self.before) {
            Some(row) => literals_hold(values, row),
            None => true,
        }
    }
}
