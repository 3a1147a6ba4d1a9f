ghost use Rattle.std.specs.Prelude.{◌≡◌, ◌+◌, [], ◌∷◌, ◌++◌, Some, Option, take, OnOk, OnErr, IsErrOf, IsNone, IsSome};
ghost use Rattle.io_edge.specs.Ends.{put_failed};
ghost use Rattle.io_edge.specs.Fakes.{kept_of, next_kept, after_put, SinkState};
ghost use Rattle.io_edge.specs.Outside.{Counts, WithFront};

use crate::{Sink, SinkEnd};
use bddl_model::NoMemory;
use std::alloc::Global;
use std::marker::Model;

/// A sink in memory that fails at the calls that it is told.
#[derive(Drop)]
pub struct MemorySink {
    held: Vec<u8>,
    calls: u64,
    failing: Vec<(u64, u64)>,
    faults: u64,
}

impl Model for MemorySink {
    ghost use Rattle.io_edge.specs.Fakes.{SinkState};

    ghost Value = { SinkState };

    ghost view = { λ s. record {
      written = s.held.items;
      calls = s.calls;
      failing = s.failing.items;
      faults = s.faults;
    } };
}

impl MemorySink {
    pub fn new(alloc: Global) -> Self
        ensures { result ≡ record { written = []; calls = 0; failing = []; faults = 0 } }
    {
        MemorySink {
            held: Vec::new(alloc),
            calls: 0,
            failing: Vec::new(alloc),
            faults: 0,
        }
    }

    /// The call of this number, counted from 1, is to fail and to keep a front of its piece.
    pub fn fail_at(&mut self, call: u64, kept: u64) -> Result<(), NoMemory>
        ensures ok { OnOk result
            (self.new ≡ record self.old { failing = (call, kept) ∷ self.old.failing }) }
        ensures err { OnErr result (self.new ≡ self.old) }
    {
        self.failing.insert(0, (call, kept))?;
        Ok(())
    }

    pub fn bytes(&self) -> &[u8]
        ensures { result.now ≡ self.now.written }
    {
        &self.held
    }
}

// How much the call behind so many calls keeps, if it is to fail.
fn kept_at(failing: &[(u64, u64)], calls: u64) -> Option<u64>
    ensures { result ≡ kept_of failing.now (calls + 1) }
{
    for (call, kept) in failing {
        if *call != 0 && *call - 1 == calls {
            return Some(*kept);
        }
    }
    None
}

fn front(bytes: &[u8], kept: u64) -> &[u8]
    ensures { result.now ≡ take kept bytes.now }
{
    if kept < bytes.len() as u64 {
        &bytes[..kept as usize]
    } else {
        bytes
    }
}

impl Sink for MemorySink {
    ghost written = { λ s. Some s.written };

    ghost faults = { λ s. s.faults };

    fn put(&mut self, bytes: &[u8]) -> Result<(), SinkEnd>
        // It fails where it is to, and nowhere else, but for want of memory.
        ensures named { OnOk result (IsNone (next_kept self.old)) }
        ensures failed { IsErrOf result SinkEnd.Failed → IsSome (next_kept self.old) }
        ensures state { self.new ≡ after_put self.old bytes.now result }

        // What the trait promises of each sink.
        ensures ok { OnOk result (self.new.written ≡ self.old.written ++ bytes.now) }
        ensures err { OnErr result
            (WithFront (Some self.old.written) (Some self.new.written) bytes.now) }
        ensures cause { Counts self.old.faults self.new.faults (put_failed result) }
    {
        let next = kept_at(&self.failing, self.calls);
        self.calls = self.calls.saturating_add(1);
        match next {
            None => {
                self.held.extend_from_slice(bytes)?;
                Ok(())
            }
            Some(kept) => {
                self.held.extend_from_slice(front(bytes, kept))?;
                self.faults = self.faults.saturating_add(1);
                Err(SinkEnd::Failed)
            }
        }
    }
}

#[cfg(test)]
mod tests {
    use super::*;

    #[test]
    fn keeps_a_front_at_its_named_calls(rt: HostRuntime) {
        let mut sink = MemorySink::new(rt.alloc());
        for (call, kept) in [(2, 0), (3, 1), (4, 9), (5, 3), (5, 2)] {
            assert_eq!(rt; sink.fail_at(call, kept), Ok(()));
        }
        for (want, text) in [
            (Ok(()), "abc"),
            (Err(SinkEnd::Failed), "abc"),
            (Err(SinkEnd::Failed), "abca"),
            (Err(SinkEnd::Failed), "abcaabc"),
            (Err(SinkEnd::Failed), "abcaabcab"),
            (Ok(()), "abcaabcababc"),
        ] {
            assert_eq!(rt; sink.put(b"abc"), want);
            assert_eq!(rt; sink.bytes(), text.as_bytes());
        }
        assert_eq!(rt; sink.faults, 4);
    }
}
