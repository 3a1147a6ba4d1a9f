// The text of nodes in version 2: its header, and a line for each node.
ghost use Rattle.std.specs.Prelude.{◌++◌, codes, decimal, flat_map};
ghost use Rattle.bddl_model.specs.CertificateText.{numbered, ctext, header_text, node_text};
ghost use Rattle.bddl_model.specs.declared.certificate.Node.TheVariants.{Black, White};
ghost use Rattle.cert_text.specs.Writing.{spaced_answer};
ghost use Rattle.io_edge.specs.Ends.{put_failed};
ghost use Rattle.io_edge.specs.Outside.{Counts};
ghost use Rattle.io_edge.specs.Puts.{Adds, Puts};

use bddl_model::{Answered, Node};
use io_edge::{PieceBuffer, Sink, SinkEnd, add_texts};
use itoa::Buffer;

/// Writes the text of nodes in version 2. It takes no memory. It ends with the first refusal, and a
/// front of the text was put.
pub fn write_cert<K: Sink>(nodes: &[Node], sink: &mut K) -> Result<(), SinkEnd>
    ensures text { Puts (ctext nodes.now) (K.written sink.old) (K.written sink.new) result }
    ensures cause { Counts (K.faults sink.old) (K.faults sink.new) (put_failed result) }
{
    let mut buffer = PieceBuffer::new();
    add_cert(&mut buffer, sink, nodes)?;
    buffer.finish(sink)
}

fn add_cert<K: Sink>(buffer: &mut PieceBuffer, sink: &mut K, nodes: &[Node]) -> Result<(), SinkEnd>
    ensures text { Adds (ctext nodes.now) (K.written sink.old) buffer.old (K.written sink.new) buffer.new result }
    ensures cause { Counts (K.faults sink.old) (K.faults sink.new) (put_failed result) }
{
    add_header(buffer, sink, nodes.len() as u64)?;
    add_nodes(buffer, sink, nodes)
}

fn add_header<K: Sink>(buffer: &mut PieceBuffer, sink: &mut K, count: u64) -> Result<(), SinkEnd>
    ensures text { Adds (header_text numbered count) (K.written sink.old) buffer.old (K.written sink.new) buffer.new result }
    ensures cause { Counts (K.faults sink.old) (K.faults sink.new) (put_failed result) }
{
    let mut digits = Buffer::new();
    let count = digits.format(count).as_bytes();
    add_texts(buffer, sink, &[b"bddlcert 2 ", count, b"\n"])
}

fn add_nodes<K: Sink>(buffer: &mut PieceBuffer, sink: &mut K, nodes: &[Node]) -> Result<(), SinkEnd>
    ensures text { Adds (flat_map (node_text numbered) nodes.now) (K.written sink.old) buffer.old (K.written sink.new) buffer.new result }
    ensures cause { Counts (K.faults sink.old) (K.faults sink.new) (put_failed result) }
{
    for node in nodes {
        add_node(buffer, sink, node)?;
    }
    Ok(())
}

fn add_node<K: Sink>(buffer: &mut PieceBuffer, sink: &mut K, node: &Node) -> Result<(), SinkEnd>
    ensures text { Adds (node_text numbered node.now) (K.written sink.old) buffer.old (K.written sink.new) buffer.new result }
    ensures cause { Counts (K.faults sink.old) (K.faults sink.new) (put_failed result) }
{
    match node {
        Node::Goal => buffer.add(sink, b"g\n"),
        Node::Black { mv, next } => add_black(
            buffer,
            sink,
            Answered {
                mv: *mv,
                next: *next,
            },
        ),
        Node::White { replies } => add_white(buffer, sink, replies.as_slice()),
    }
}

fn add_black<K: Sink>(
    buffer: &mut PieceBuffer,
    sink: &mut K,
    answer: Answered,
) -> Result<(), SinkEnd>
    ensures text { Adds (node_text numbered (Black answer.mv answer.next)) (K.written sink.old) buffer.old (K.written sink.new) buffer.new result }
    ensures cause { Counts (K.faults sink.old) (K.faults sink.new) (put_failed result) }
{
    buffer.add(sink, b"b")?;
    add_answer(buffer, sink, answer)?;
    buffer.add(sink, b"\n")
}

fn add_white<K: Sink>(
    buffer: &mut PieceBuffer,
    sink: &mut K,
    replies: &[Answered],
) -> Result<(), SinkEnd>
    ensures text { Adds (node_text numbered (White replies.now)) (K.written sink.old) buffer.old (K.written sink.new) buffer.new result }
    ensures cause { Counts (K.faults sink.old) (K.faults sink.new) (put_failed result) }
{
    add_count(buffer, sink, replies.len() as u64)?;
    add_answers(buffer, sink, replies)?;
    buffer.add(sink, b"\n")
}

// How a line of White begins: with the number of the replies.
fn add_count<K: Sink>(buffer: &mut PieceBuffer, sink: &mut K, count: u64) -> Result<(), SinkEnd>
    ensures text { Adds (codes "w " ++ decimal count) (K.written sink.old) buffer.old (K.written sink.new) buffer.new result }
    ensures cause { Counts (K.faults sink.old) (K.faults sink.new) (put_failed result) }
{
    let mut digits = Buffer::new();
    let count = digits.format(count).as_bytes();
    add_texts(buffer, sink, &[b"w ", count])
}

fn add_answers<K: Sink>(
    buffer: &mut PieceBuffer,
    sink: &mut K,
    answers: &[Answered],
) -> Result<(), SinkEnd>
    ensures text { Adds (flat_map spaced_answer answers.now) (K.written sink.old) buffer.old (K.written sink.new) buffer.new result }
    ensures cause { Counts (K.faults sink.old) (K.faults sink.new) (put_failed result) }
{
    for answer in answers {
        add_answer(buffer, sink, *answer)?;
    }
    Ok(())
}

fn add_answer<K: Sink>(
    buffer: &mut PieceBuffer,
    sink: &mut K,
    answer: Answered,
) -> Result<(), SinkEnd>
    ensures text { Adds (spaced_answer answer) (K.written sink.old) buffer.old (K.written sink.new) buffer.new result }
    ensures cause { Counts (K.faults sink.old) (K.faults sink.new) (put_failed result) }
{
    let mut first = Buffer::new();
    let mut second = Buffer::new();
    let mut third = Buffer::new();
    let mut fourth = Buffer::new();
    let action = first.format(answer.mv.action).as_bytes();
    let x = second.format(answer.mv.x).as_bytes();
    let y = third.format(answer.mv.y).as_bytes();
    let next = fourth.format(answer.next.0).as_bytes();
    add_texts(buffer, sink, &[b" ", action, b" ", x, b" ", y, b" ", next])
}
