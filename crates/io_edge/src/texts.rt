// Texts that go into a buffer one behind the other.
ghost use Rattle.std.specs.Prelude.{flat_map};
ghost use Rattle.io_edge.specs.Ends.{put_failed};
ghost use Rattle.io_edge.specs.Outside.{Counts};
ghost use Rattle.io_edge.specs.Puts.{Adds};

use crate::{PieceBuffer, Sink, SinkEnd};

/// Adds texts one behind the other.
pub fn add_texts<K: Sink>(
    buffer: &mut PieceBuffer,
    sink: &mut K,
    texts: &[&[u8]],
) -> Result<(), SinkEnd>
    ensures text { Adds (flat_map (λ text. text.now) texts.now) (K.written sink.old) buffer.old (K.written sink.new) buffer.new result }
    ensures cause { Counts (K.faults sink.old) (K.faults sink.new) (put_failed result) }
{
    for text in texts {
        buffer.add(sink, text)?;
    }
    Ok(())
}
