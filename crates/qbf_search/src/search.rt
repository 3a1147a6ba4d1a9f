// A plain search through the values of a form's variables.
ghost use Rattle.std.specs.Prelude.{◌≡◌, ℕ, ◌≤◌, ◌<◌, ◌+◌, ◌-◌, ◌++◌, ◌∷◌, [], true, false, nat_lt, length, vec_len, vec_capacity, slice_set, IfSome, IfNone};
ghost use Rattle.bddl_model.specs.Bounds.{bound};
ghost use Rattle.qbf_search.specs.Standing as spec;
ghost use Rattle.qbf_search.specs.Standing.{Stands, Settles, HasRoom, is_open, value_from};
ghost use Rattle.qbf_search.specs.Tails.{TellsTail};
ghost use Rattle.qbf_search.specs.Values.{assignment};

use crate::decisions::{bound_at, leave};
use crate::tail::Tail;
use crate::values::{clauses_hold, set_value, value_of};
use bddl_model::Steps;
use qbf_form::Form;

// Gives the next variable its first value. Before the tail it is a decision that is open.
fn put(form: &Form, tail: &Tail, values: &mut Vec<bool>, decisions: &mut Vec<bool>)
    requires tail { TellsTail form.now tail.now.before tail.now.implied }
    requires stands { Stands form.now tail.now.before decisions.old.items (assignment values.old.items) }
    requires more { vec_len decisions.old < length form.now.prefix }
    requires room { HasRoom form.now (vec_len values.old) }
    requires capacity { vec_len decisions.old < vec_capacity decisions.old }
    ensures stands { Stands form.now tail.now.before decisions.new.items (assignment values.new.items) }
    ensures decisions { decisions.new.items ≡ decisions.old.items ++ nat_lt (vec_len decisions.old) tail.now.before ∷ [] }
    ensures len { vec_len values.new ≡ vec_len values.old }
    ensures capacity { vec_capacity decisions.new ≡ vec_capacity decisions.old }
{
    form.keeps_its_form();
    let place = decisions.len();
    let value = tail.first_value(values, place);
    set_value(values, bound_at(form.prefix().as_slice(), place).var, value);
    decisions.push_reserved(tail.is_before(place));
}

// Gives the last variable, whose decision is open, its other value.
fn flip(form: &Form, tail: &Tail, values: &mut Vec<bool>, decisions: &mut Vec<bool>)
    requires some { 0 < vec_len decisions.old }
    requires stands { Stands form.now tail.now.before decisions.old.items (assignment values.old.items) }
    requires open { is_open decisions.old.items (vec_len decisions.old - 1) ≡ true }
    requires tried { spec.decides (spec.bound_at form.now.prefix (vec_len decisions.old - 1)).quant (value_from (vec_len decisions.old) form.now (assignment values.old.items)) ≡ false }
    requires room { HasRoom form.now (vec_len values.old) }
    ensures stands { Stands form.now tail.now.before decisions.new.items (assignment values.new.items) }
    ensures decisions { decisions.new.items ≡ slice_set decisions.old.items (vec_len decisions.old - 1) false }
    ensures len { vec_len values.new ≡ vec_len values.old }
    ensures capacity { vec_capacity decisions.new ≡ vec_capacity decisions.old }
{
    form.keeps_its_form();
    let place = decisions.len() - 1;
    let var = bound_at(form.prefix().as_slice(), place).var;
    let value = value_of(values, var);
    set_value(values, var, !value);
    decisions[place] = false;
}

/// The value of the form, and values that settle it, or none where the steps are spent. It takes a step
/// for each value that it gives, those of the tail too.
pub fn settle(
    form: &Form,
    tail: &Tail,
    values: &mut Vec<bool>,
    mut decisions: Vec<bool>,
    steps: &mut Steps,
) -> Option<bool>
    requires tail { TellsTail form.now tail.now.before tail.now.implied }
    requires none { (v : ℕ) → assignment values.old.items v ≡ false }
    requires room { HasRoom form.now (vec_len values.old) }
    requires empty { vec_len decisions ≡ 0 }
    requires capacity { length form.now.prefix ≤ vec_capacity decisions }
    ensures settled { IfSome result (Settles form.now (assignment values.new.items)) }
    ensures spent { IfNone result (steps.new.used ≡ steps.new.budget) }
    ensures used { steps.new.used < steps.old.used + bound form.now }
    ensures never_fewer { steps.old.used ≤ steps.new.used }
    ensures budget { steps.new.budget ≡ steps.old.budget }
{
    let prefix = form.prefix().as_slice();
    'search: loop {
        if decisions.len() < prefix.len() {
            if !steps.tick() {
                return None;
            }
            put(form, tail, values, &mut decisions);
        } else {
            let value = clauses_hold(values, form);
            leave(prefix, &mut decisions, value);
            if decisions.is_empty() {
                return Some(value);
            }
            if !steps.tick() {
                return None;
            }
            flip(form, tail, values, &mut decisions);
        }
    }
}
