// Circuits of at most one gate, with the texts of the forms that they have.
ghost use Rattle.std.specs.Prelude.{◌≡◌};
ghost use Rattle.bddl_model.specs.Circuit.{IsWire};
ghost use Rattle.bddl_model.specs.Layout as spec;
ghost use Rattle.bddl_model.specs.Prenex.{Cover};
ghost use Rattle.bddl_model.specs.declared.formula.Quant.TheVariants as quant;

use crate::forms::assert_text;
use bddl_model::{Lit, NoMemory, Var, Wire};
use circuit_dag::Dag;
use prenexer::{Block, Quant, Span, prefix_of};
use qbf_form::Form;
use std::alloc::Global;
use std::test::Fail;
use tseitin::{GateClause, clause_at, clause_count, to_clauses};

fn block(quant: Quant, from: u32, len: u32) -> Block
    ensures { result ≡ spec.block quant (spec.span from len) }
{
    Block {
        quant,
        span: Span { from, len },
    }
}

// The form of a circuit whose inputs stand in these blocks.
fn form_of(alloc: Global, blocks: &[Block], dag: &Dag, out: Wire) -> Result<Form, NoMemory>
    requires cover { Cover blocks.now dag.now.inputs }
    requires out { IsWire dag.now out }
{
    dag.keeps_its_order();
    let inputs = dag.inputs();
    let prefix = prefix_of(alloc, blocks, inputs, dag.len() - inputs)?;
    to_clauses(alloc, dag, out, prefix)
}

// The first input, and not the second, which stands in an existential block.
fn form_of_one_gate(alloc: Global, negated: bool) -> Result<Form, NoMemory> {
    let blocks = [block(Quant::All, 1, 1), block(Quant::Exists, 2, 1)];
    let mut dag = Dag::new(alloc, 2)?;
    let no_second = dag.not(dag.input(2));
    let both = dag.and(dag.input(1), no_second)?;
    let out = if negated { dag.not(both) } else { both };
    form_of(alloc, &blocks, &dag, out)
}

#[test]
fn a_gate_has_three_clauses_and_stands_behind_the_inputs(rt: HostRuntime) -> Result<(), Fail> {
    let text = b"p cnf 4 5\na 1 0\ne 2 3 4 0\n3 0\n-4 1 0\n-4 -2 0\n4 -1 2 0\n4 0\n";
    let form = form_of_one_gate(rt.alloc(), false)?;
    assert_text(&rt, rt.alloc(), &form, text);
    assert_eq!(rt; form.tail(rt.alloc())?, 2);
    Ok(())
}

#[test]
fn a_negated_output_is_a_negated_literal(rt: HostRuntime) -> Result<(), Fail> {
    let text = b"p cnf 4 5\na 1 0\ne 2 3 4 0\n3 0\n-4 1 0\n-4 -2 0\n4 -1 2 0\n-4 0\n";
    assert_text(&rt, rt.alloc(), &form_of_one_gate(rt.alloc(), true)?, text);
    Ok(())
}

#[test]
fn an_input_without_gates_is_an_output(rt: HostRuntime) -> Result<(), Fail> {
    let dag = Dag::new(rt.alloc(), 2)?;
    let form = form_of(rt.alloc(), &[block(Quant::All, 1, 2)], &dag, dag.input(2))?;
    assert_text(
        &rt,
        rt.alloc(),
        &form,
        b"p cnf 3 2\na 1 2 0\ne 3 0\n3 0\n2 0\n",
    );
    Ok(())
}

#[test]
fn truth_without_inputs_is_an_output(rt: HostRuntime) -> Result<(), Fail> {
    let dag = Dag::new(rt.alloc(), 0)?;
    let form = form_of(rt.alloc(), &[], &dag, dag.truth())?;
    assert_text(&rt, rt.alloc(), &form, b"p cnf 1 2\ne 1 0\n1 0\n1 0\n");
    Ok(())
}

fn positive(number: u32) -> Lit {
    Lit::positive(Var(number))
}

fn negative(number: u32) -> Lit {
    positive(number).negation()
}

#[test]
fn a_clause_is_found_by_its_number(rt: HostRuntime) -> Result<(), Fail> {
    let mut dag = Dag::new(rt.alloc(), 2)?;
    let no_second = dag.not(dag.input(2));
    let both = dag.and(dag.input(1), no_second)?;
    let clauses = [
        GateClause::One(positive(3)),
        GateClause::Two(negative(4), positive(1)),
        GateClause::Two(negative(4), negative(2)),
        GateClause::Three(positive(4), negative(1), positive(2)),
        GateClause::One(positive(4)),
    ];
    assert_eq!(rt; clause_count(&dag), 5);
    for (number, clause) in clauses.iter().enumerate() {
        assert_eq!(rt; clause_at(&dag, both, number as u64), *clause);
    }
    Ok(())
}
