// Constraints that come and go.
ghost use Rattle.std.specs.Prelude.{◌≡◌, ◌<◌, ◌+◌, Some, IfOk, OnOk, length, [], slice_index_or};
ghost use Rattle.bddl_model.specs.declared.formula.Kind.TheVariants as kinds;
ghost use Rattle.qbf_store.specs.Constraints.{learned_count, IsLearned, IsLive, ChangesAt};

use crate::forms::{form_of, literal};
use bddl_laws::original_clause_is_fine;
use bddl_model::NoMemory;
use qbf_form::Form;
use qbf_store::{ConstraintId, Kind, Store};
use std::alloc::Global;
use std::process::Abort;
use std::test::Fail;

// Learns a clause of the form once more.
fn learn(store: &mut Store, form: &Form, number: u64) -> Result<ConstraintId, NoMemory>
    requires same { store.old.form ≡ form.now }
    requires within { number < length form.now.clauses }
    requires room { learned_count store.old < store.old.most }
    ensures learned { IfOk result IsLearned }
    ensures count { OnOk result (learned_count store.new ≡ learned_count store.old + 1) }
    ensures added { IfOk result (λ id. ChangesAt store.old store.new id (Some (record { kind = kinds.Clause; literals = slice_index_or form.now.clauses number [] }))) }
{
    form.keeps_its_form();
    original_clause_is_fine();
    store.add_learned(Kind::Clause, form.clause(number))
}

// How many constraints hold each literal.
fn expect_counts(rt: &impl Abort, store: &Store, cases: &[(i32, usize)]) {
    for (number, count) in cases {
        assert_eq!(rt; store.with(literal(*number)).len(), *count, "{number}");
    }
}

fn expect_literals(rt: &impl Abort, store: &Store, id: ConstraintId, numbers: &[i32])
    requires { IsLive store.now id }
{
    let literals = store.literals(id);
    assert_eq!(rt; literals.len(), numbers.len());
    for (held, number) in literals.iter().zip(numbers) {
        assert_eq!(rt; *held, literal(*number));
    }
}

// The clauses are (1 -3), (-1 2 3) and (2).
fn three_clauses(rt: &impl Abort, alloc: Global) -> Result<Form, NoMemory>
    ensures { IfOk result (λ form. length form.clauses ≡ 3) }
{
    let clauses = [1, -3, 0, -1, 2, 3, 0, 2, 0];
    let form = form_of(rt, alloc, &[1, 2, -3], &clauses)?;
    assert!(rt; form.clauses() == 3);
    Ok(form)
}

#[test]
fn originals_are_the_clauses_of_the_form(rt: HostRuntime) -> Result<(), Fail> {
    let form = three_clauses(&rt, rt.alloc())?;
    let store = Store::of(rt.alloc(), &form)?;
    let cases = [
        (1, 1),
        (-1, 1),
        (2, 2),
        (-2, 0),
        (3, 1),
        (-3, 1),
        (4, 0),
        (-4, 0),
    ];
    expect_counts(&rt, &store, &cases);
    expect_literals(&rt, &store, ConstraintId::Original(1), &[-1, 2, 3]);
    Ok(())
}

#[test]
fn what_is_forgotten_leaves_the_rest(rt: HostRuntime) -> Result<(), Fail> {
    let form = three_clauses(&rt, rt.alloc())?;
    let mut store = Store::of_bounded(rt.alloc(), &form, 2)?;
    let first = learn(&mut store, &form, 0)?;
    let second = learn(&mut store, &form, 1)?;
    expect_counts(&rt, &store, &[(1, 2), (-1, 2), (2, 3), (3, 2), (-3, 2)]);
    assert!(rt; first != second);
    store.forget(first);
    expect_literals(&rt, &store, second, &[-1, 2, 3]);
    expect_counts(&rt, &store, &[(1, 1), (-1, 2), (2, 3), (3, 2), (-3, 1)]);
    let third = learn(&mut store, &form, 2)?;
    expect_literals(&rt, &store, third, &[2]);
    expect_counts(&rt, &store, &[(1, 1), (-1, 2), (2, 4), (3, 2), (-3, 1)]);
    Ok(())
}
