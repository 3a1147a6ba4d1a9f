// Literals that are put and taken back.
ghost use Rattle.std.specs.Prelude.{◌≡◌};

use crate::forms::{form_of, literal};
use bddl_model::Steps;
use qbf_form::Form;
use qbf_store::ConstraintId;
use qbf_trail::{Cause, Level, Trail};
use std::process::Abort;
use std::test::Fail;

#[derive(Clone, Copy)]
enum Act {
    Put(i32, Cause),
    // A literal that isn't put, since the budget is used.
    Refuse(i32),
    Back(u32),
}

fn put(
    rt: &impl Abort,
    form: &Form,
    trail: &mut Trail,
    number: i32,
    cause: Cause,
    steps: &mut Steps,
) -> bool
    requires { trail.old.prefix ≡ form.now.prefix }
    ensures { trail.new.prefix ≡ trail.old.prefix }
{
    let literal = literal(number);
    assert!(rt; form.prefix().holds(literal.var));
    assert!(rt; trail.value(literal.var).is_none());
    trail.push(literal, cause, steps)
}

fn perform(rt: &impl Abort, form: &Form, trail: &mut Trail, act: Act, steps: &mut Steps)
    requires { trail.old.prefix ≡ form.now.prefix }
    ensures { trail.new.prefix ≡ trail.old.prefix }
{
    match act {
        Act::Put(number, cause) => {
            assert!(rt; put(rt, form, trail, number, cause, steps));
        }
        Act::Refuse(number) => {
            assert!(rt; !put(rt, form, trail, number, Cause::Decision, steps));
        }
        Act::Back(level) => {
            assert!(rt; level <= trail.level().0);
            trail.back_to(Level(level));
        }
    }
}

// The trail has these literals, each with its level.
fn expect(rt: &impl Abort, trail: &Trail, wanted: &[(i32, u32)]) {
    assert_eq!(rt; trail.len() as usize, wanted.len());
    for (number, (named, level)) in wanted.iter().enumerate() {
        let number = number as u32;
        assert!(rt; number < trail.len());
        let (put, _, at) = trail.entry(number);
        assert_eq!(rt; (put, at.0), (literal(*named), *level));
        assert_eq!(rt; trail.value(put.var), Some(!put.negated));
        assert_eq!(rt; trail.place(put.var), number + 1);
    }
}

// No literal of these variables was put.
fn expect_free(rt: &impl Abort, trail: &Trail, numbers: &[i32]) {
    for number in numbers {
        let var = literal(*number).var;
        assert_eq!(rt; (trail.value(var), trail.place(var)), (None, 0));
    }
}

#[test]
fn going_back_takes_greater_levels(rt: HostRuntime) -> Result<(), Fail> {
    let form = form_of(&rt, rt.alloc(), &[4, -2, 1, 3], &[])?;
    let mut trail = Trail::begin(rt.alloc(), &form)?;
    let mut steps = Steps::new(5);
    let clause = Cause::By(ConstraintId::Original(0));
    let learned = Cause::By(ConstraintId::Learned(7));
    let script: [(Act, &[(i32, u32)], &[i32]); 8] = [
        (Act::Put(-3, clause), &[(-3, 0)], &[1, 2, 4, 5]),
        (Act::Put(4, Cause::Decision), &[(-3, 0), (4, 1)], &[1, 2]),
        (Act::Put(-2, learned), &[(-3, 0), (4, 1), (-2, 1)], &[1]),
        (
            Act::Put(1, Cause::Decision),
            &[(-3, 0), (4, 1), (-2, 1), (1, 2)],
            &[],
        ),
        (Act::Back(1), &[(-3, 0), (4, 1), (-2, 1)], &[1]),
        (Act::Back(0), &[(-3, 0)], &[1, 2, 4]),
        (Act::Put(2, Cause::Decision), &[(-3, 0), (2, 1)], &[1, 4]),
        (Act::Refuse(4), &[(-3, 0), (2, 1)], &[1, 4]),
    ];
    'script: for (act, entries, free) in &script {
        perform(&rt, &form, &mut trail, *act, &mut steps);
        expect(&rt, &trail, entries);
        expect_free(&rt, &trail, free);
    }
    Ok(())
}

#[test]
fn a_cause_is_found(rt: HostRuntime) -> Result<(), Fail> {
    let form = form_of(&rt, rt.alloc(), &[1, 2], &[])?;
    let mut trail = Trail::begin(rt.alloc(), &form)?;
    let mut steps = Steps::new(5);
    let learned = ConstraintId::Learned(7);
    assert!(rt; put(&rt, &form, &mut trail, 1, Cause::Decision, &mut steps));
    assert!(rt; put(&rt, &form, &mut trail, -2, Cause::By(learned), &mut steps));
    assert!(rt; trail.is_cause(learned));
    assert!(rt; !trail.is_cause(ConstraintId::Original(7)));
    Ok(())
}
