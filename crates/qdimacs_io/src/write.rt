// The text of a form: its head, and a line for each clause.
ghost use Rattle.std.specs.Prelude.{flat_map};
ghost use Rattle.bddl_model.specs.FormulaText.{clause_text, qtext};
ghost use Rattle.io_edge.specs.Ends.{put_failed};
ghost use Rattle.io_edge.specs.Outside.{Counts};
ghost use Rattle.io_edge.specs.Puts.{Adds, Puts};

use crate::clause::add_clause;
use crate::head::add_head;
use io_edge::{PieceBuffer, Sink, SinkEnd};
use qbf_form::Form;

/// Writes the text of a form: the head, and then the clauses in the form's order. It ends with the
/// first refusal, and a front of the text was put.
pub fn write_qdimacs<K: Sink>(form: &Form, sink: &mut K) -> Result<(), SinkEnd>
    ensures text { Puts (qtext form.now) (K.written sink.old) (K.written sink.new) result }
    ensures cause { Counts (K.faults sink.old) (K.faults sink.new) (put_failed result) }
{
    let mut buffer = PieceBuffer::new();
    add_form(&mut buffer, sink, form)?;
    buffer.finish(sink)
}

fn add_form<K: Sink>(buffer: &mut PieceBuffer, sink: &mut K, form: &Form) -> Result<(), SinkEnd>
    ensures text { Adds (qtext form.now) (K.written sink.old) buffer.old (K.written sink.new) buffer.new result }
    ensures cause { Counts (K.faults sink.old) (K.faults sink.new) (put_failed result) }
{
    add_head(buffer, sink, form.prefix(), form.clauses())?;
    add_clauses(buffer, sink, form)
}

fn add_clauses<K: Sink>(buffer: &mut PieceBuffer, sink: &mut K, form: &Form) -> Result<(), SinkEnd>
    ensures text { Adds (flat_map clause_text form.now.clauses) (K.written sink.old) buffer.old (K.written sink.new) buffer.new result }
    ensures cause { Counts (K.faults sink.old) (K.faults sink.new) (put_failed result) }
{
    for number in 0..form.clauses() {
        add_clause(buffer, sink, form.clause(number))?;
    }
    Ok(())
}
