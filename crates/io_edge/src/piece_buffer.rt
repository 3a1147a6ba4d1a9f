ghost use Rattle.std.specs.Prelude.{◌≡◌, ◌<◌, ◌≤◌, ◌+◌, ◌%◌, [], length, OnOk};
ghost use Rattle.arrayvec.specs.ArrayVec.{array_vec_len};
ghost use Rattle.io_edge.specs.Ends.{put_failed};
ghost use Rattle.io_edge.specs.Outside.{Counts};
ghost use Rattle.io_edge.specs.Puts.{Adds, Puts};

use crate::sink::LONGEST_PIECE;
use crate::{Sink, SinkEnd};
use arrayvec::ArrayVec;
use std::marker::Model;

/// Text on its way to a sink. It is held back until it fills a piece, and takes no memory.
#[derive(Drop)]
pub struct PieceBuffer {
    held: ArrayVec<u8, LONGEST_PIECE>,
}

impl Model for PieceBuffer {
    ghost use Rattle.std.specs.Prelude.{List, ℕ, ◌<◌};
    ghost use Rattle.arrayvec.specs.ArrayVec.{array_vec_len};

    ghost Value = { List ℕ };

    ghost view = { λ b. b.held.items };

    ghost invariant = { λ b. array_vec_len b.held < 4096 };
}

impl PieceBuffer {
    pub fn new() -> Self
        ensures { result ≡ [] }
    {
        PieceBuffer {
            held: ArrayVec::new(),
        }
    }

    /// Takes a text in, and puts each piece that is full, and nothing less.
    pub fn add<K: Sink>(&mut self, sink: &mut K, text: &[u8]) -> Result<(), SinkEnd>
        ensures text { Adds text.now (K.written sink.old) self.old
            (K.written sink.new) self.new result }

        // Only full pieces are gone.
        ensures rest { OnOk result (length self.new ≡ (length self.old + length text.now) % 4096) }
        ensures cause { Counts (K.faults sink.old) (K.faults sink.new) (put_failed result) }
    {
        let mut at = 0;
        'runs: while at < text.len() {
            let end = at + (text.len() - at).min(self.held.remaining_capacity());
            add_run(&mut self.held, sink, &text[at..end])?;
            at = end;
        }
        Ok(())
    }

    /// Puts what is held.
    pub fn finish<K: Sink>(self, sink: &mut K) -> Result<(), SinkEnd>
        ensures text { Puts self (K.written sink.old) (K.written sink.new) result }
        ensures cause { Counts (K.faults sink.old) (K.faults sink.new) (put_failed result) }
    {
        if self.held.is_empty() {
            return Ok(());
        }
        sink.put(&self.held)
    }
}

// Takes a run in, and puts the piece if it is full.
fn add_run<K: Sink>(
    held: &mut ArrayVec<u8, LONGEST_PIECE>,
    sink: &mut K,
    run: &[u8],
) -> Result<(), SinkEnd>
    requires { array_vec_len held.old + length run.now ≤ 4096 }
    ensures text { Adds run.now (K.written sink.old) held.old.items
        (K.written sink.new) held.new.items result }
    ensures rest { OnOk result
        (array_vec_len held.new ≡ (array_vec_len held.old + length run.now) % 4096) }
    ensures room { array_vec_len held.new < 4096 }
    ensures cause { Counts (K.faults sink.old) (K.faults sink.new) (put_failed result) }
{
    held.try_extend_from_slice(run).unwrap();
    if !held.is_full() {
        return Ok(());
    }
    let result = sink.put(held);
    held.clear();
    result
}

#[cfg(test)]
mod tests;
