// The texts of small forms, and a sink that fails.
use crate::forms::{assert_text, form_of};
use io_edge::{MemorySink, Sink, SinkEnd, SteadySink};
use qbf_form::Form;
use qdimacs_io::{write_clause, write_head, write_qdimacs};
use std::test::Fail;

const VARIABLES: &[i32] = &[-3, 1, 12, -2];

const CLAUSES: &[i32] = &[-12, 3, -1, 0, 0, 2, 0];

const THREE_BLOCKS: &[u8] = b"p cnf 12 3\na 3 0\ne 1 12 0\na 2 0\n-12 3 -1 0\n0\n2 0\n";

#[test]
fn blocks_and_clauses_have_their_lines(rt: HostRuntime) -> Result<(), Fail> {
    let form = form_of(&rt, rt.alloc(), VARIABLES, CLAUSES)?;
    assert_text(&rt, rt.alloc(), &form, THREE_BLOCKS);
    Ok(())
}

fn write_in_parts<K: Sink>(form: &Form, sink: &mut K) -> Result<(), SinkEnd> {
    write_head(form.prefix(), form.clauses(), sink)?;
    for number in 0..form.clauses() {
        write_clause(form.clause(number), sink)?;
    }
    Ok(())
}

#[test]
fn the_head_and_each_clause_are_written_alone(rt: HostRuntime) -> Result<(), Fail> {
    let form = form_of(&rt, rt.alloc(), VARIABLES, CLAUSES)?;
    let mut sink = SteadySink::new(rt.alloc());
    assert_eq!(rt; write_in_parts(&form, &mut sink), Ok(()));
    assert_eq!(rt; sink.bytes(), THREE_BLOCKS);
    let mut sink = MemorySink::new(rt.alloc());
    sink.fail_at(3, 1)?;
    assert_eq!(rt; write_in_parts(&form, &mut sink), Err(SinkEnd::Failed));
    assert_eq!(rt; Some(sink.bytes()), THREE_BLOCKS.get(..44));
    Ok(())
}

#[test]
fn a_form_of_nothing_has_its_problem_line(rt: HostRuntime) -> Result<(), Fail> {
    let form = form_of(&rt, rt.alloc(), &[], &[])?;
    assert_text(&rt, rt.alloc(), &form, b"p cnf 0 0\n");
    Ok(())
}

#[test]
fn a_sink_that_fails_has_a_front(rt: HostRuntime) -> Result<(), Fail> {
    let form = form_of(&rt, rt.alloc(), VARIABLES, CLAUSES)?;
    for kept in [0, 7, 100] {
        let mut sink = MemorySink::new(rt.alloc());
        sink.fail_at(1, kept)?;
        assert_eq!(rt; write_qdimacs(&form, &mut sink), Err(SinkEnd::Failed));
        assert_eq!(rt;
            Some(sink.bytes()),
            THREE_BLOCKS.get(..(kept as usize).min(THREE_BLOCKS.len()))
        );
    }
    Ok(())
}
