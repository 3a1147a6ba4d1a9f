// The prefix of a form: the variables that no set binds, and behind them those of the sets.
ghost use Rattle.std.specs.Prelude.{◌≡◌, ◌≤◌, ◌<◌, ◌+◌, ◌++◌, ◌&&◌, not, false, length, map, slice_index_or, IfOk, OnOk};
ghost use Rattle.bddl_model.specs.declared.formula.Quant.TheVariants.{Exists};
ghost use Rattle.bddl_model.specs.Forms.{greatest_variables, has_number, prefix_variables, AllApart, AllInRange};
ghost use Rattle.bddl_model.specs.Qdimacs.{bound_of};
ghost use Rattle.qdimacs_io.specs.States as spec;

use crate::marks::Marks;
use bddl_model::{Bound, NoMemory, Quant, Var};
use qbf_form::Prefix;
use std::alloc::Global;

// Whether the variable is marked, and the prefix doesn't bind it.
fn is_free(number: u32, occurs: &Marks, prefix: &Prefix) -> bool
    requires { number < length occurs.now }
    ensures { result ≡ (slice_index_or occurs.now number false && not (has_number (prefix_variables prefix.now) number)) }
{
    occurs.has(number as usize) && !prefix.holds(Var(number))
}

// The free variables, in rising order.
fn free_variables(
    alloc: Global,
    variables: u32,
    occurs: &Marks,
    prefix: &Prefix,
) -> Result<Prefix, NoMemory>
    requires variables { variables ≤ greatest_variables }
    requires occurs { length occurs.now ≡ variables + 1 }
    ensures { IfOk result (λ free. free ≡ map (bound_of Exists) (spec.free_marks variables occurs.now prefix.now)) }
{
    let mut free = Prefix::empty(alloc);
    for number in 1..variables + 1 {
        if is_free(number, occurs, prefix) {
            free.push(Quant::Exists, Var(number))?;
        }
    }
    Ok(free)
}

// Adds bounds behind the others.
fn push_all(prefix: &mut Prefix, bounds: &[Bound]) -> Result<(), NoMemory>
    requires in_range { AllInRange greatest_variables (prefix_variables bounds.now) }
    requires apart { AllApart (prefix_variables (prefix.old ++ bounds.now)) }
    ensures { OnOk result (prefix.new ≡ prefix.old ++ bounds.now) }
{
    for bound in bounds {
        prefix.push(bound.quant, bound.var)?;
    }
    Ok(())
}

/// The prefix behind the variables that are marked and that it doesn't bind. It isn't copied where
/// there are none.
pub fn with_free(
    alloc: Global,
    variables: u32,
    occurs: &Marks,
    prefix: Prefix,
) -> Result<Prefix, NoMemory>
    requires variables { variables ≤ greatest_variables }
    requires occurs { length occurs.now ≡ variables + 1 }
    ensures { IfOk result (λ whole. whole ≡ spec.with_free variables occurs.now prefix) }
{
    let mut whole = free_variables(alloc, variables, occurs, &prefix)?;
    if whole.as_slice().is_empty() {
        return Ok(prefix);
    }
    whole.keeps_its_variables();
    prefix.keeps_its_variables();
    push_all(&mut whole, prefix.as_slice())?;
    Ok(whole)
}
