// Texts of any length, put in pieces.
ghost use Rattle.io_edge.specs.Ends.{put_failed};
ghost use Rattle.io_edge.specs.Outside.{Counts};
ghost use Rattle.io_edge.specs.Puts.{Puts};

use crate::sink::LONGEST_PIECE;
use crate::{Sink, SinkEnd};

/// Adds a text at the end, in pieces as large as a sink takes.
pub fn put_text<K: Sink>(sink: &mut K, text: &[u8]) -> Result<(), SinkEnd>
    ensures text { Puts text.now (K.written sink.old) (K.written sink.new) result }
    ensures cause { Counts (K.faults sink.old) (K.faults sink.new) (put_failed result) }
{
    let mut at = 0;
    'pieces: while at < text.len() {
        let end = at + (text.len() - at).min(LONGEST_PIECE);
        sink.put(&text[at..end])?;
        at = end;
    }
    Ok(())
}
