// The head of a text: the problem line, and a line for each block of the prefix.
ghost use Rattle.std.specs.Prelude.{◌≡◌, ◌≤◌, ◌++◌, codes, decimal, flat_map, length};
ghost use Rattle.std.specs.List.{prefix_len};
ghost use Rattle.bddl_model.specs.FormulaText.{line_text, letter_of, same_quant, head_line, set_line, sets_of, greatest_variable, head_text};
ghost use Rattle.bddl_model.specs.Forms.{prefix_variables};
ghost use Rattle.io_edge.specs.Ends.{put_failed};
ghost use Rattle.io_edge.specs.Outside.{Counts};
ghost use Rattle.io_edge.specs.Puts.{Adds, Puts};

use bddl_model::{Bound, Quant, Var};
use io_edge::{PieceBuffer, Sink, SinkEnd, add_texts};
use itoa::Buffer;
use qbf_form::Prefix;

/// Writes what stands before so many clauses: the problem line, and a line for each block of the
/// prefix, the outermost first. The caller writes that many clauses behind it. It ends with the
/// first refusal, and a front of the head was put.
pub fn write_head<K: Sink>(prefix: &Prefix, clauses: u64, sink: &mut K) -> Result<(), SinkEnd>
    ensures text { Puts (head_text prefix.now clauses) (K.written sink.old) (K.written sink.new) result }
    ensures cause { Counts (K.faults sink.old) (K.faults sink.new) (put_failed result) }
{
    let mut buffer = PieceBuffer::new();
    add_head(&mut buffer, sink, prefix, clauses)?;
    buffer.finish(sink)
}

/// Adds what stands before so many clauses, as `write_head` writes it, behind what the buffer holds.
/// A piece is put when it has 4,096 bytes, and none has more; what is left is held back, so the
/// caller ends with `PieceBuffer::finish`. After a refusal a front of what was held and of the head
/// was put, and the buffer is empty.
pub fn add_head<K: Sink>(
    buffer: &mut PieceBuffer,
    sink: &mut K,
    prefix: &Prefix,
    clauses: u64,
) -> Result<(), SinkEnd>
    ensures text { Adds (head_text prefix.now clauses) (K.written sink.old) buffer.old (K.written sink.new) buffer.new result }
    ensures cause { Counts (K.faults sink.old) (K.faults sink.new) (put_failed result) }
{
    let bounds = prefix.as_slice();
    add_problem_line(buffer, sink, greatest(bounds), clauses)?;
    add_blocks(buffer, sink, bounds)
}

fn greatest(prefix: &[Bound]) -> u32
    ensures { result ≡ greatest_variable prefix.now }
{
    let mut greatest = 0;
    for bound in prefix {
        greatest = bound.var.0.max(greatest);
    }
    greatest
}

fn add_problem_line<K: Sink>(
    buffer: &mut PieceBuffer,
    sink: &mut K,
    variables: u32,
    clauses: u64,
) -> Result<(), SinkEnd>
    ensures text { Adds (line_text (head_line variables clauses)) (K.written sink.old) buffer.old (K.written sink.new) buffer.new result }
    ensures cause { Counts (K.faults sink.old) (K.faults sink.new) (put_failed result) }
{
    let mut first = Buffer::new();
    let mut second = Buffer::new();
    let variables = first.format(variables).as_bytes();
    let clauses = second.format(clauses).as_bytes();
    add_texts(buffer, sink, &[b"p cnf ", variables, b" ", clauses, b"\n"])
}

// ---- the blocks

fn add_blocks<K: Sink>(
    buffer: &mut PieceBuffer,
    sink: &mut K,
    prefix: &[Bound],
) -> Result<(), SinkEnd>
    ensures text { Adds (flat_map (λ s. line_text (set_line s)) (sets_of prefix.now)) (K.written sink.old) buffer.old (K.written sink.new) buffer.new result }
    ensures cause { Counts (K.faults sink.old) (K.faults sink.new) (put_failed result) }
{
    let mut rest = prefix;
    while let [first, ..] = rest {
        let (block, behind) = rest.split_at(run_length(first.quant, rest));
        add_block(buffer, sink, first.quant, block)?;
        rest = behind;
    }
    Ok(())
}

// How many variables in front stand under this quantifier.
fn run_length(quant: Quant, bounds: &[Bound]) -> usize
    ensures run { result ≡ prefix_len (λ b. same_quant quant b.quant) bounds.now }
    ensures within { result ≤ length bounds.now }
{
    bounds
        .iter()
        .take_while(|bound| bound.quant == quant)
        .count()
}

fn add_block<K: Sink>(
    buffer: &mut PieceBuffer,
    sink: &mut K,
    quant: Quant,
    block: &[Bound],
) -> Result<(), SinkEnd>
    ensures text { Adds (line_text (set_line (record { quant = quant; vars = prefix_variables block.now }))) (K.written sink.old) buffer.old (K.written sink.new) buffer.new result }
    ensures cause { Counts (K.faults sink.old) (K.faults sink.new) (put_failed result) }
{
    buffer.add(sink, opening(quant))?;
    for bound in block {
        add_variable(buffer, sink, bound.var)?;
    }
    buffer.add(sink, b"0\n")
}

fn opening(quant: Quant) -> &'static [u8]
    ensures { result.now ≡ letter_of quant ++ codes " " }
{
    match quant {
        Quant::Exists => b"e ",
        Quant::All => b"a ",
    }
}

fn add_variable<K: Sink>(buffer: &mut PieceBuffer, sink: &mut K, var: Var) -> Result<(), SinkEnd>
    ensures text { Adds (decimal var.0 ++ codes " ") (K.written sink.old) buffer.old (K.written sink.new) buffer.new result }
    ensures cause { Counts (K.faults sink.old) (K.faults sink.new) (put_failed result) }
{
    let mut digits = Buffer::new();
    let number = digits.format(var.0).as_bytes();
    add_texts(buffer, sink, &[number, b" "])
}
