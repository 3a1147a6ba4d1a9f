// Circuits of at most two inputs and one gate.
use circuit_dag::{Dag, NodeId, Wire};
use std::alloc::Global;
use std::process::Abort;
use std::test::Fail;

fn wire((node, negated): (u32, bool)) -> Wire {
    Wire {
        node: NodeId(node),
        negated,
    }
}

type Numbered = (u32, bool);

// What a circuit answers to these calls one behind the other: two wires, and their conjunction. A wire is
// given by its node, and whether it is negated.
fn assert_conjunctions(
    rt: &impl Abort,
    alloc: Global,
    inputs: u32,
    calls: &[(Numbered, Numbered, Numbered)],
) -> Result<Dag, Fail> {
    assert!(rt; inputs <= 2);
    let mut dag = Dag::new(alloc, inputs)?;
    for (left, right, both) in calls {
        let (left, right) = (wire(*left), wire(*right));
        assert!(rt; dag.len() < 9 && left.node.0 < dag.len() && right.node.0 < dag.len());
        assert_eq!(rt; dag.and(left, right)?, wire(*both));
    }
    Ok(dag)
}

#[test]
fn a_pair_has_one_gate_in_either_order(rt: HostRuntime) -> Result<(), Fail> {
    let (first, second, both) = ((1, false), (2, false), (3, false));
    let calls = [
        (first, second, both),
        (second, first, both),
        (first, second, both),
    ];
    let dag = assert_conjunctions(&rt, rt.alloc(), 2, &calls)?;
    assert_eq!(rt; dag.len(), 4);
    Ok(())
}

#[test]
fn a_node_with_itself_and_with_truth_makes_no_gate(rt: HostRuntime) -> Result<(), Fail> {
    let (truth, never, one, not_one) = ((0, false), (0, true), (1, false), (1, true));
    let calls = [
        (one, one, one),
        (one, not_one, never),
        (not_one, one, never),
        (truth, one, one),
        (one, truth, one),
        (never, one, never),
        (one, never, never),
        (truth, truth, truth),
    ];
    let dag = assert_conjunctions(&rt, rt.alloc(), 1, &calls)?;
    assert_eq!(rt; dag.len(), 2);
    Ok(())
}

#[test]
fn a_gate_has_its_operands_in_order(rt: HostRuntime) -> Result<(), Fail> {
    let calls = [((2, true), (1, false), (3, false))];
    let dag = assert_conjunctions(&rt, rt.alloc(), 2, &calls)?;
    for (node, operands) in [
        (2, None),
        (3, Some((wire((1, false)), wire((2, true))))),
        (4, None),
    ] {
        assert_eq!(rt; dag.gate(NodeId(node)), operands);
    }
    Ok(())
}

#[test]
fn without_inputs_there_is_truth_alone(rt: HostRuntime) -> Result<(), Fail> {
    let truth = (0, false);
    let dag = assert_conjunctions(&rt, rt.alloc(), 0, &[(truth, truth, truth)])?;
    assert_eq!(rt; dag.len(), 1);
    Ok(())
}
