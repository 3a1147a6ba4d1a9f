// The lines that tell what was found of a formula.
ghost use Rattle.std.specs.Prelude.{◌≡◌, ◌≤◌, length};
ghost use Rattle.bddl_model.specs.Verdicts.{answer_text, minus_if, result_line, result_word, value_line, value_lines};
ghost use Rattle.io_edge.specs.Ends.{put_failed};
ghost use Rattle.io_edge.specs.Outside.{Counts};
ghost use Rattle.io_edge.specs.Puts.{Adds, Puts};

use bddl_model::{Bound, Var, Verdict};
use io_edge::{PieceBuffer, Sink, SinkEnd, add_texts};
use itoa::Buffer;
use qbf_form::Prefix;

/// Writes the answer lines: the result with the two numbers of the formula's problem line, and a line
/// for each of the prefix's first variables that has a value here. It ends with the first refusal,
/// and a front of the lines was put.
pub fn write_answer<K: Sink>(
    verdict: Verdict,
    variables: u32,
    clauses: u64,
    prefix: &Prefix,
    first: &[bool],
    sink: &mut K,
) -> Result<(), SinkEnd>
    requires { length first.now ≤ length prefix.now }
    ensures text { Puts (answer_text verdict variables clauses prefix.now first.now) (K.written sink.old) (K.written sink.new) result }
    ensures cause { Counts (K.faults sink.old) (K.faults sink.new) (put_failed result) }
{
    let mut buffer = PieceBuffer::new();
    add_answer(
        &mut buffer,
        sink,
        verdict,
        variables,
        clauses,
        prefix,
        first,
    )?;
    buffer.finish(sink)
}

fn add_answer<K: Sink>(
    buffer: &mut PieceBuffer,
    sink: &mut K,
    verdict: Verdict,
    variables: u32,
    clauses: u64,
    prefix: &Prefix,
    first: &[bool],
) -> Result<(), SinkEnd>
    requires { length first.now ≤ length prefix.now }
    ensures text { Adds (answer_text verdict variables clauses prefix.now first.now) (K.written sink.old) buffer.old (K.written sink.new) buffer.new result }
    ensures cause { Counts (K.faults sink.old) (K.faults sink.new) (put_failed result) }
{
    add_result(buffer, sink, verdict, variables, clauses)?;
    add_values(buffer, sink, prefix.as_slice(), first)
}

fn add_result<K: Sink>(
    buffer: &mut PieceBuffer,
    sink: &mut K,
    verdict: Verdict,
    variables: u32,
    clauses: u64,
) -> Result<(), SinkEnd>
    ensures text { Adds (result_line verdict variables clauses) (K.written sink.old) buffer.old (K.written sink.new) buffer.new result }
    ensures cause { Counts (K.faults sink.old) (K.faults sink.new) (put_failed result) }
{
    let mut first = Buffer::new();
    let mut second = Buffer::new();
    let variables = first.format(variables).as_bytes();
    let clauses = second.format(clauses).as_bytes();
    let result = result_word(verdict);
    add_texts(
        buffer,
        sink,
        &[b"s cnf ", result, b" ", variables, b" ", clauses, b"\n"],
    )
}

fn result_word(verdict: Verdict) -> &'static [u8]
    ensures { result.now ≡ result_word verdict }
{
    match verdict {
        Verdict::True => b"1",
        Verdict::False => b"0",
        Verdict::Spent => b"-1",
    }
}

fn add_values<K: Sink>(
    buffer: &mut PieceBuffer,
    sink: &mut K,
    prefix: &[Bound],
    values: &[bool],
) -> Result<(), SinkEnd>
    requires { length values.now ≤ length prefix.now }
    ensures text { Adds (value_lines prefix.now values.now) (K.written sink.old) buffer.old (K.written sink.new) buffer.new result }
    ensures cause { Counts (K.faults sink.old) (K.faults sink.new) (put_failed result) }
{
    'values: for i in 0..values.len() {
        add_value(buffer, sink, prefix[i].var, values[i])?;
    }
    Ok(())
}

fn add_value<K: Sink>(
    buffer: &mut PieceBuffer,
    sink: &mut K,
    var: Var,
    value: bool,
) -> Result<(), SinkEnd>
    ensures text { Adds (value_line var.0 value) (K.written sink.old) buffer.old (K.written sink.new) buffer.new result }
    ensures cause { Counts (K.faults sink.old) (K.faults sink.new) (put_failed result) }
{
    let mut digits = Buffer::new();
    let number = digits.format(var.0).as_bytes();
    add_texts(buffer, sink, &[b"V ", minus_if(!value), number, b" 0\n"])
}

fn minus_if(negated: bool) -> &'static [u8]
    ensures { result.now ≡ minus_if negated }
{
    if negated { b"-" } else { b"" }
}
