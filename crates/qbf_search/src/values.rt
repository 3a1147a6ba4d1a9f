// The values of variables in a table, and what holds under them.
ghost use Rattle.std.specs.Prelude.{◌≡◌, ◌<◌, vec_len};
ghost use Rattle.std.specs.List.{list_all};
ghost use Rattle.bddl_model.specs.Truth.{assign, literal_true, clause_true, clauses_true};
ghost use Rattle.qbf_search.specs.Values.{assignment};

use bddl_model::{Lit, Var};
use qbf_form::Form;

/// The variable's value, which is false past the end.
pub fn value_of(values: &[bool], var: Var) -> bool
    ensures { result ≡ assignment values.now var.0 }
{
    match values.get(var.0 as usize) {
        Some(value) => *value,
        None => false,
    }
}

pub fn set_value(values: &mut Vec<bool>, var: Var, value: bool)
    requires { var.0 < vec_len values.old }
    ensures value { assignment values.new.items ≡ assign var.0 value (assignment values.old.items) }
    ensures len { vec_len values.new ≡ vec_len values.old }
{
    values[var.0 as usize] = value;
}

fn literal_holds(values: &[bool], literal: Lit) -> bool
    ensures { result ≡ literal_true (assignment values.now) literal }
{
    value_of(values, literal.var) != literal.negated
}

fn clause_holds(values: &[bool], clause: &[Lit]) -> bool
    ensures { result ≡ clause_true (assignment values.now) clause.now }
{
    for literal in clause {
        if literal_holds(values, *literal) {
            return true;
        }
    }
    false
}

/// Whether each literal holds.
pub fn literals_hold(values: &[bool], literals: &[Lit]) -> bool
    ensures { result ≡ list_all (literal_true (assignment values.now)) literals.now }
{
    for literal in literals {
        if !literal_holds(values, *literal) {
            return false;
        }
    }
    true
}

/// Whether each clause of the form holds.
pub fn clauses_hold(values: &[bool], form: &Form) -> bool
    ensures { result ≡ clauses_true form.now.clauses (assignment values.now) }
{
    for number in 0..form.clauses() {
        if !clause_holds(values, form.clause(number)) {
            return false;
        }
    }
    true
}
