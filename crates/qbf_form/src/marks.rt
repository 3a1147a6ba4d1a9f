// Marks by variable: those that a tail can begin with, and those that gates define.
ghost use Rattle.std.specs.Prelude.{◌≡◌, ℕ, ◌≤◌, ◌<◌, ◌==◌, ◌&&◌, ◌||◌, true, IfOk, vec_len};
ghost use Rattle.bddl_model.specs.Forms.{has_number, prefix_variables, literal_variables};
ghost use Rattle.qbf_form.specs.Pairs.{has_pair};
ghost use Rattle.qbf_form.specs.Places.{place_in};
ghost use Rattle.qbf_form.specs.TailMarks as spec;

use crate::form::Form;
use crate::pairs::Pairs;
use crate::prefix::Prefix;
use bddl_model::{Lit, NoMemory, Var};
use std::alloc::Global;

/// Whether the variable is marked; one without a place in the list isn't.
pub fn has_mark(marks: &[bool], var: Var) -> bool
    ensures { result ≡ spec.has_mark marks.now var.0 }
{
    match marks.get(var.0 as usize) {
        Some(mark) => *mark,
        None => false,
    }
}

fn set_mark(marks: &mut Vec<bool>, var: Var)
    requires { var.0 < vec_len marks.old }
    ensures marks { (v : ℕ) → spec.has_mark marks.new.items v ≡ (spec.has_mark marks.old.items v || var.0 == v) }
    ensures len { vec_len marks.new ≡ vec_len marks.old }
{
    marks[var.0 as usize] = true;
}

// ---- the variables that a tail can begin with

fn mark_unit(marks: &mut Vec<bool>, clause: &[Lit])
    requires { (v : ℕ) → has_number (literal_variables clause.now) v ≡ true → v < vec_len marks.old }
    ensures marks { (v : ℕ) → spec.has_mark marks.new.items v ≡ (spec.has_mark marks.old.items v || spec.is_unit clause.now v) }
    ensures len { vec_len marks.new ≡ vec_len marks.old }
{
    if let [literal] = clause
        && !literal.negated
    {
        set_mark(marks, literal.var);
    }
}

/// Marks each variable that is a clause.
pub fn unit_marks(alloc: Global, form: &Form) -> Result<Vec<bool>, NoMemory>
    ensures { IfOk result (λ marks. (v : ℕ) → spec.has_mark marks.items v ≡ spec.has_unit form.now.clauses v) }
{
    let mut marks = vec![in alloc; false; form.prefix().room()]?;
    for number in 0..form.clauses() {
        mark_unit(&mut marks, form.clause(number));
    }
    Ok(marks)
}

// ---- the variables that gates define

// Whether the literal's variable stands before the head's, and a clause says that the literal is
// false where the head's variable holds.
fn is_operand(prefix: &Prefix, pairs: &Pairs, head: Lit, literal: Lit) -> bool
    ensures { result ≡ spec.is_operand (place_in (prefix_variables prefix.now)) (has_pair pairs.now) head literal }
{
    prefix.place(literal.var) < prefix.place(head.var)
        && pairs.hold(head.negation(), literal.negation())
}

// Marks the head's variable if the other two literals are its operands.
fn mark_head(marks: &mut Vec<bool>, prefix: &Prefix, pairs: &Pairs, head: Lit, operands: (Lit, Lit))
    requires { head.var.0 < vec_len marks.old }
    ensures marks { (v : ℕ) → spec.has_mark marks.new.items v ≡ (spec.has_mark marks.old.items v || (head.var.0 == v && spec.is_head (place_in (prefix_variables prefix.now)) (has_pair pairs.now) head operands.0 operands.1)) }
    ensures len { vec_len marks.new ≡ vec_len marks.old }
{
    if !head.negated
        && is_operand(prefix, pairs, head, operands.0)
        && is_operand(prefix, pairs, head, operands.1)
    {
        set_mark(marks, head.var);
    }
}

fn mark_definition(marks: &mut Vec<bool>, prefix: &Prefix, pairs: &Pairs, clause: &[Lit])
    requires { (v : ℕ) → has_number (literal_variables clause.now) v ≡ true → v < vec_len marks.old }
    ensures marks { (v : ℕ) → spec.has_mark marks.new.items v ≡ (spec.has_mark marks.old.items v || spec.is_defined (place_in (prefix_variables prefix.now)) (has_pair pairs.now) clause.now v) }
    ensures len { vec_len marks.new ≡ vec_len marks.old }
{
    if let [first, second, third] = clause {
        mark_head(marks, prefix, pairs, *first, (*second, *third));
        mark_head(marks, prefix, pairs, *second, (*first, *third));
        mark_head(marks, prefix, pairs, *third, (*first, *second));
    }
}

/// Marks each variable that a gate defines.
pub fn gate_marks(alloc: Global, form: &Form, pairs: &Pairs) -> Result<Vec<bool>, NoMemory>
    ensures { IfOk result (λ marks. (v : ℕ) → spec.has_mark marks.items v ≡ spec.has_definition (place_in (prefix_variables form.now.prefix)) (has_pair pairs.now) form.now.clauses v) }
{
    form.keeps_its_form();
    let prefix = form.prefix();
    let mut marks = vec![in alloc; false; prefix.room()]?;
    for number in 0..form.clauses() {
        mark_definition(&mut marks, prefix, pairs, form.clause(number));
    }
    Ok(marks)
}
