// The line of a clause.
ghost use Rattle.std.specs.Prelude.{◌++◌, codes};
ghost use Rattle.bddl_model.specs.FormulaText.{literal_text, clause_text};
ghost use Rattle.io_edge.specs.Ends.{put_failed};
ghost use Rattle.io_edge.specs.Outside.{Counts};
ghost use Rattle.io_edge.specs.Puts.{Adds, Puts};

use bddl_model::Lit;
use io_edge::{PieceBuffer, Sink, SinkEnd, add_texts};
use itoa::Buffer;

/// Writes the line of a clause, with the literals in the order in which they are given. Nothing is
/// held back: many clauses go out in fewer pieces by `add_clause`. It ends with the first refusal,
/// and a front of the line was put.
pub fn write_clause<K: Sink>(literals: &[Lit], sink: &mut K) -> Result<(), SinkEnd>
    ensures text { Puts (clause_text literals.now) (K.written sink.old) (K.written sink.new) result }
    ensures cause { Counts (K.faults sink.old) (K.faults sink.new) (put_failed result) }
{
    let mut buffer = PieceBuffer::new();
    add_clause(&mut buffer, sink, literals)?;
    buffer.finish(sink)
}

/// Adds the line of a clause, as `write_clause` writes it, behind what the buffer holds. A piece is
/// put when it has 4,096 bytes, and none has more; what is left is held back, so the caller ends
/// with `PieceBuffer::finish`. After a refusal a front of what was held and of the line was put,
/// and the buffer is empty.
pub fn add_clause<K: Sink>(
    buffer: &mut PieceBuffer,
    sink: &mut K,
    literals: &[Lit],
) -> Result<(), SinkEnd>
    ensures text { Adds (clause_text literals.now) (K.written sink.old) buffer.old (K.written sink.new) buffer.new result }
    ensures cause { Counts (K.faults sink.old) (K.faults sink.new) (put_failed result) }
{
    for literal in literals {
        add_literal(buffer, sink, *literal)?;
    }
    buffer.add(sink, b"0\n")
}

fn add_literal<K: Sink>(buffer: &mut PieceBuffer, sink: &mut K, literal: Lit) -> Result<(), SinkEnd>
    ensures text { Adds (literal_text literal ++ codes " ") (K.written sink.old) buffer.old (K.written sink.new) buffer.new result }
    ensures cause { Counts (K.faults sink.old) (K.faults sink.new) (put_failed result) }
{
    let mut digits = Buffer::new();
    let number = digits.format(literal.var.0).as_bytes();
    let sign: &[u8] = if literal.negated { b"-" } else { b"" };
    add_texts(buffer, sink, &[sign, number, b" "])
}
