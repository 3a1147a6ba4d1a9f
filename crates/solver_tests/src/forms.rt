// Forms of at most three literals a clause, given by numbers as in QDIMACS.
use bddl_model::{Lit, NoMemory, Quant, Var};
use qbf_form::{Form, Prefix};
use std::alloc::Global;
use std::process::Abort;

/// The literal of a number other than 0.
pub fn literal(number: i32) -> Lit {
    Lit {
        var: Var(number.unsigned_abs()),
        negated: number < 0,
    }
}

// The variables in order, a universal one with a minus.
fn prefix_of(rt: &impl Abort, alloc: Global, variables: &[i32]) -> Result<Prefix, NoMemory> {
    let mut prefix = Prefix::empty(alloc);
    for number in variables {
        let quant = if *number < 0 {
            Quant::All
        } else {
            Quant::Exists
        };
        let var = Var(number.unsigned_abs());
        assert!(rt; 1 <= var.0 && var.0 <= 16_777_215 && !prefix.holds(var));
        prefix.push(quant, var)?;
    }
    Ok(prefix)
}

fn add_one(rt: &impl Abort, form: &mut Form, one: Lit) -> Result<(), NoMemory> {
    assert!(rt; form.prefix().holds(one.var));
    form.add(&[one])
}

fn add_two(rt: &impl Abort, form: &mut Form, one: Lit, two: Lit) -> Result<(), NoMemory> {
    assert!(rt; form.prefix().holds(one.var));
    assert!(rt; form.prefix().holds(two.var));
    assert!(rt; two.var.0 != one.var.0);
    form.add(&[one, two])
}

fn add_three(
    rt: &impl Abort,
    form: &mut Form,
    one: Lit,
    two: Lit,
    three: Lit,
) -> Result<(), NoMemory> {
    assert!(rt; form.prefix().holds(one.var));
    assert!(rt; form.prefix().holds(two.var));
    assert!(rt; form.prefix().holds(three.var));
    assert!(rt; two.var.0 != one.var.0);
    assert!(rt; three.var.0 != one.var.0);
    assert!(rt; three.var.0 != two.var.0);
    form.add(&[one, two, three])
}

/// The form of these variables, in order, a universal one with a minus, and of these clauses, which
/// end with a zero each.
pub fn form_of(
    rt: &impl Abort,
    alloc: Global,
    variables: &[i32],
    clauses: &[i32],
) -> Result<Form, NoMemory> {
    let mut form = Form::begin(alloc, prefix_of(rt, alloc, variables)?);
    let Some((_, clauses)) = clauses.split_last() else {
        return Ok(form);
    };
    for clause in clauses.split(|number| *number == 0) {
        match clause {
            [one] => add_one(rt, &mut form, literal(*one))?,
            [one, two] => add_two(rt, &mut form, literal(*one), literal(*two))?,
            [one, two, three] => add_three(
                rt,
                &mut form,
                literal(*one),
                literal(*two),
                literal(*three),
            )?,
            _ => {
                assert!(rt; clause.is_empty());
                form.add(&[])?;
            }
        }
    }
    Ok(form)
}
