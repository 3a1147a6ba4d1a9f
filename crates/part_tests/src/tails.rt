// The lengths of tails.
use crate::forms::form_of;
use bddl_model::NoMemory;
use std::alloc::Global;
use std::process::Abort;
use std::test::Fail;

// Each case: a prefix, clauses, and the length of the tail.
fn expect(rt: &impl Abort, alloc: Global, cases: &[(&[i32], &[i32], u32)]) -> Result<(), NoMemory> {
    for (variables, clauses, length) in cases {
        let form = form_of(rt, alloc, variables, clauses)?;
        assert_eq!(rt; form.tail(alloc)?, *length, "{clauses:?}");
    }
    Ok(())
}

// The first clauses say that 4 holds where 1 does and 2 does not.
#[test]
fn a_tail_is_a_unit_clause_and_gates(rt: HostRuntime) -> Result<(), Fail> {
    let gate: &[i32] = &[3, 0, -4, 1, 0, -4, -2, 0, 4, -1, 2, 0, 4, 0];
    let cases: [(&[i32], &[i32], u32); 12] = [
        (&[1, 2, 3, 4], gate, 2),
        (&[-1, -2, 3, 4], gate, 2),
        (&[1, 2, -3, 4], gate, 1),
        (&[1, 2, 3, -4], gate, 0),
        (&[1, 2, 3, 4, -5], gate, 0),
        (&[1, 2, 3, 4, 5], gate, 0),
        (&[3, 2, 1, 4], gate, 1),
        (&[1, 2, 3, 4], &[], 0),
        (&[], &[], 0),
        (&[1, 2, 3, 4], &[4, 0], 1),
        (&[1, 2, 3, -4], &[4, 0], 0),
        (&[1, 2, 4, 3], &[4, 0], 0),
    ];
    expect(&rt, rt.alloc(), &cases)?;
    Ok(())
}

#[test]
fn each_clause_of_a_gate_counts(rt: HostRuntime) -> Result<(), Fail> {
    let cases: [(&[i32], &[i32], u32); 8] = [
        (&[1, 2, 3, 4], &[3, 0, -4, 1, 0, 4, -1, 2, 0], 0),
        (&[1, 2, 3, 4], &[3, 0, -4, -2, 0, 4, -1, 2, 0], 0),
        (&[1, 2, 3, 4], &[3, 0, -4, 1, 0, -4, -2, 0], 0),
        (&[1, 2, 3, 4], &[-4, 1, 0, -4, -2, 0, 4, -1, 2, 0], 0),
        (&[1, 2, 3, 4], &[-3, 0, -4, 1, 0, -4, -2, 0, 4, -1, 2, 0], 0),
        (&[1, 2, 3, 4], &[3, 0, -4, 1, 0, -4, 2, 0, 4, -1, 2, 0], 0),
        (&[1, 2, 3, 4], &[3, 0, 4, 1, 0, 4, -2, 0, -4, -1, 2, 0], 0),
        (&[1, 2, 3, 4], &[3, 0, -4, 1, 0, -4, 1, 0, 4, -1, 0], 0),
    ];
    expect(&rt, rt.alloc(), &cases)?;
    Ok(())
}

#[test]
fn clauses_and_literals_stand_in_any_order(rt: HostRuntime) -> Result<(), Fail> {
    let turned: &[i32] = &[2, -1, 4, 0, -2, -4, 0, 1, 2, 0, 3, 0, 1, -4, 0, -2, -4, 0];
    // 4 holds where 1 and 5 do.
    let later: &[i32] = &[-4, 1, 0, -1, -5, 4, 0, -4, 5, 0, 3, 0];
    // 4 holds where 1 and 3 do.
    let several: &[i32] = &[
        4, 1, 2, 0, 4, -1, 2, 0, 4, -1, -3, 0, -4, 1, 0, -4, 3, 0, 3, 0, 4, -1, -3, 0,
    ];
    let cases: [(&[i32], &[i32], u32); 6] = [
        (&[1, 2, 3, 4], turned, 2),
        (&[2, 1, 3, 4], turned, 2),
        (&[1, 2, 3, 4, 5], later, 0),
        (&[1, 2, 5, 3, 4], later, 2),
        (&[5, 1, 2, 3, 4], later, 2),
        (&[1, 2, 3, 4], several, 2),
    ];
    expect(&rt, rt.alloc(), &cases)?;
    Ok(())
}

#[test]
fn the_longest_tail_counts(rt: HostRuntime) -> Result<(), Fail> {
    let gate_of_3_and_not_4: &[i32] = &[2, 0, 4, 0, -5, 3, 0, -5, -4, 0, 5, -3, 4, 0];
    let gates: &[i32] = &[
        5, 0, 4, 0, -4, 1, 0, -4, 2, 0, 4, -1, -2, 0, -5, 3, 0, -5, -4, 0, 5, -3, 4, 0, 3, 0,
    ];
    let cases: [(&[i32], &[i32], u32); 3] = [
        (&[1, 2, 3, 4, 5], gates, 3),
        (&[1, 2, 3, 4, 5], gate_of_3_and_not_4, 2),
        (&[1, 3, 2, 4, 5], gate_of_3_and_not_4, 2),
    ];
    expect(&rt, rt.alloc(), &cases)?;
    Ok(())
}
