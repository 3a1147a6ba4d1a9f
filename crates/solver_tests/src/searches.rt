// What the search answers, for the plain decider.
use crate::forms::form_of;
use bddl_model::{NoMemory, Steps};
use qbf_form::Form;
use qbf_search::{Answer, Decider, PlainDecider, solve};
use std::alloc::Global;
use std::process::Abort;
use std::test::Fail;

fn answer_of(alloc: Global, form: &Form, steps: &mut Steps) -> Result<Answer, NoMemory> {
    let mut decider: Box<dyn Decider> = Box::new(alloc, PlainDecider::new())?;
    solve(alloc, form, &mut decider, steps)
}

// Each case: a prefix, clauses, the value, and the values of the first block.
fn expect(
    rt: &impl Abort,
    alloc: Global,
    cases: &[(&[i32], &[i32], bool, &[bool])],
) -> Result<(), NoMemory> {
    for (variables, clauses, value, wanted) in cases {
        let form = form_of(rt, alloc, variables, clauses)?;
        let mut steps = Steps::new(1000);
        match answer_of(alloc, &form, &mut steps)? {
            Answer::True { first } => {
                assert!(rt; *value, "{clauses:?}");
                assert_eq!(rt; first.as_slice(), *wanted, "{clauses:?}");
            }
            Answer::False { first } => {
                assert!(rt; !*value, "{clauses:?}");
                assert_eq!(rt; first.as_slice(), *wanted, "{clauses:?}");
            }
            Answer::Spent => assert!(rt; false, "{clauses:?}"),
        }
    }
    Ok(())
}

#[test]
fn forms_have_their_value(rt: HostRuntime) -> Result<(), Fail> {
    let same: &[i32] = &[1, -2, 0, -1, 2, 0];
    let cases: [(&[i32], &[i32], bool, &[bool]); 10] = [
        (&[-1, 2], same, true, &[]),
        (&[2, -1], same, false, &[]),
        (&[-1, -2], same, false, &[true, false]),
        (&[1, 2], same, true, &[true, true]),
        (&[1, 2], &[1, 0, -2, 0], true, &[true, false]),
        (&[1], &[-1, 0], true, &[false]),
        (&[-1], &[-1, 0], false, &[true]),
        (&[-1], &[1, 0], false, &[false]),
        (&[], &[], true, &[]),
        (&[1], &[0], false, &[]),
    ];
    expect(&rt, rt.alloc(), &cases)?;
    Ok(())
}

// The first clauses say that 3 holds, and 4 where 1 does and 2 does not.
#[test]
fn the_values_of_gates_follow(rt: HostRuntime) -> Result<(), Fail> {
    let gate: &[i32] = &[3, 0, -4, 1, 0, -4, -2, 0, 4, -1, 2, 0, 4, 0];
    let opposite: &[i32] = &[3, 0, -4, 1, 0, -4, -2, 0, 4, -1, 2, 0, -4, 0];
    let cases: [(&[i32], &[i32], bool, &[bool]); 6] = [
        (&[-1, 2, 3, 4], gate, false, &[false]),
        (&[1, 2, 3, 4], gate, true, &[true, false, true, true]),
        (&[2, -1, 3, 4], gate, false, &[]),
        (&[-1, 2, 3, 4], opposite, true, &[]),
        (&[2, -1, 3, 4], opposite, true, &[true]),
        (&[-1, -2, 3, 4], opposite, false, &[true, false]),
    ];
    expect(&rt, rt.alloc(), &cases)?;
    Ok(())
}

// Each case: a prefix, clauses, a budget, the steps that are used, and whether they are spent.
fn expect_steps(
    rt: &impl Abort,
    alloc: Global,
    cases: &[(&[i32], &[i32], u64, u64, bool)],
) -> Result<(), NoMemory> {
    for (variables, clauses, budget, used, spent) in cases {
        let form = form_of(rt, alloc, variables, clauses)?;
        let mut steps = Steps::new(*budget);
        let ends = match answer_of(alloc, &form, &mut steps)? {
            Answer::Spent => true,
            _ => false,
        };
        assert_eq!(rt; ends, *spent, "{clauses:?} {budget}");
        assert_eq!(rt; steps.used(), *used, "{clauses:?} {budget}");
        assert_eq!(rt; steps.budget(), *budget);
    }
    Ok(())
}

#[test]
fn each_value_that_is_put_is_a_step(rt: HostRuntime) -> Result<(), Fail> {
    let same: &[i32] = &[1, -2, 0, -1, 2, 0];
    let opposite: &[i32] = &[3, 0, -4, 1, 0, -4, -2, 0, 4, -1, 2, 0, -4, 0];
    let cases: [(&[i32], &[i32], u64, u64, bool); 9] = [
        (&[], &[], 0, 0, false),
        (&[1], &[], 0, 0, true),
        (&[1], &[], 1, 1, false),
        (&[1], &[-1, 0], 1, 1, true),
        (&[1], &[-1, 0], 2, 2, false),
        (&[-1, 2], same, 4, 4, true),
        (&[-1, 2], same, 5, 5, false),
        (&[2, -1, 3, 4], opposite, 6, 6, true),
        (&[2, -1, 3, 4], opposite, 7, 7, false),
    ];
    expect_steps(&rt, rt.alloc(), &cases)?;
    Ok(())
}
