ghost use Rattle.std.specs.Prelude.{◌≡◌, None, OnOk, OnErr};
ghost use Rattle.std.specs.Bool.{OnTrue};
ghost use Rattle.std.specs.Io.KnownBytes.{Appends};
ghost use Rattle.io_edge.specs.Ends.{put_failed};
ghost use Rattle.io_edge.specs.Outside.{count_after, Counts, WithFront};

use crate::{Sink, SinkEnd};
use std::io::Write;
use std::marker::Model;

/// A sink over a writer. As a sink it tells nothing of its content.
#[derive(Drop)]
pub struct StreamSink<W: Write + Drop> {
    writer: W,
    faults: u64,
}

impl<W: Write + Drop> Model for StreamSink<W> {
    ghost use Rattle.io_edge.specs.Adapters.{Stream};

    ghost Value = { Stream };

    ghost view = { λ s. record { contents = W.contents s.writer; faults = s.faults } };
}

impl<W: Write + Drop> StreamSink<W> {
    pub fn over(writer: W) -> Self
        ensures { result ≡ record { contents = W.contents writer; faults = 0 } }
    {
        StreamSink { writer, faults: 0 }
    }
}

// Writes the piece whole, and flushes.
fn write_piece<W: Write>(writer: &mut W, bytes: &[u8]) -> bool
    ensures { OnTrue result (Appends (W.contents writer.old) (W.contents writer.new) bytes.now) }
{
    let mut rest = bytes;
    while !rest.is_empty() {
        match writer.write(rest) {
            Ok(0) => return false,
            Ok(n) => rest = &rest[n..],
            Err(_) => return false,
        }
    }
    writer.flush().is_ok()
}

impl<W: Write + Drop> Sink for StreamSink<W> {
    ghost written = { λ _. None };

    ghost faults = { λ s. s.faults };

    fn put(&mut self, bytes: &[u8]) -> Result<(), SinkEnd>
        ensures whole { OnOk result (Appends self.old.contents self.new.contents bytes.now) }
        ensures count { self.new.faults ≡ count_after self.old.faults (put_failed result) }

        // What the trait promises of each sink.
        ensures err { OnErr result (WithFront None None bytes.now) }
        ensures cause { Counts self.old.faults self.new.faults (put_failed result) }
    {
        if write_piece(&mut self.writer, bytes) {
            return Ok(());
        }
        self.faults = self.faults.saturating_add(1);
        Err(SinkEnd::Failed)
    }
}

#[cfg(test)]
mod tests;
