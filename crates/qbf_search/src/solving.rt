// The value of a form, with values of its first block.
ghost use Rattle.std.specs.Prelude.{◌≡◌, ◌≤◌, ◌<◌, ◌+◌, true, false, map, take, IfOk};
ghost use Rattle.bddl_model.specs.declared.formula.Quant.TheVariants as quant;
ghost use Rattle.bddl_model.specs.Bounds.{bound};
ghost use Rattle.bddl_model.specs.Fine.{first_block};
ghost use Rattle.bddl_model.specs.Verdicts.{IsValue};
ghost use Rattle.qbf_search.specs.Answers.{IfTrue, IfFalse, IfSpent};
ghost use Rattle.qbf_search.specs.Values.{assignment};

use crate::answer::Answer;
use crate::decider::Decider;
use crate::search::settle;
use crate::tail::Tail;
use crate::values::value_of;
use bddl_model::{Bound, NoMemory, Quant, Steps};
use qbf_form::Form;
use std::alloc::Global;

// The values of the first block, or none if it is of the other quantifier.
fn first_values(
    alloc: Global,
    prefix: &[Bound],
    quant: Quant,
    values: &[bool],
) -> Result<Vec<bool>, NoMemory>
    ensures { IfOk result (λ first. first.items ≡ map (λ b. assignment values.now b.var.0) (take (first_block quant prefix.now) prefix.now)) }
{
    let mut first = Vec::new(alloc);
    for bound in prefix {
        if bound.quant != quant {
            return Ok(first);
        }
        first.push(value_of(values, bound.var))?;
    }
    Ok(first)
}

/// Whether the form is true, whatever the decider picks. Where as many steps are left as the form's bound,
/// the answer is never Spent. The room for all values is taken before the first step.
pub fn solve(
    alloc: Global,
    form: &Form,
    decider: &mut Box<dyn Decider>,
    steps: &mut Steps,
) -> Result<Answer, NoMemory>
    ensures yes { IfOk result (λ answer. IfTrue answer (IsValue form.now quant.Exists true)) }
    ensures no { IfOk result (λ answer. IfFalse answer (IsValue form.now quant.All false)) }
    ensures spent { IfOk result (λ answer. IfSpent answer ((steps.new.used ≡ steps.new.budget) × (steps.old.budget < steps.old.used + bound form.now))) }
    ensures used { steps.new.used ≤ steps.old.used + bound form.now }
    ensures never_fewer { steps.old.used ≤ steps.new.used }
    ensures budget { steps.new.budget ≡ steps.old.budget }
{
    // The plain search decides in the order of the prefix.
    let _ = decider;
    let tail = Tail::of(alloc, form)?;
    let mut values = vec![in alloc; false; form.prefix().room()]?;
    let decisions = Vec::with_capacity(alloc, form.prefix().as_slice().len())?;
    let prefix = form.prefix().as_slice();
    match settle(form, &tail, &mut values, decisions, steps) {
        Some(true) => Ok(Answer::True {
            first: first_values(alloc, prefix, Quant::Exists, &values)?,
        }),
        Some(false) => Ok(Answer::False {
            first: first_values(alloc, prefix, Quant::All, &values)?,
        }),
        None => Ok(Answer::Spent),
    }
}
