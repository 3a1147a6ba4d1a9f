ghost use Rattle.std.specs.Prelude.{◌≡◌, ◌++◌, [], Some, false, OnOk, OnErr};
ghost use Rattle.io_edge.specs.Ends.{put_failed};
ghost use Rattle.io_edge.specs.Outside.{Counts, WithFront};

use crate::{Sink, SinkEnd};
use std::alloc::Global;
use std::marker::Model;

/// A sink in memory that never fails.
#[derive(Drop)]
pub struct SteadySink {
    held: Vec<u8>,
}

impl Model for SteadySink {
    ghost use Rattle.std.specs.Prelude.{List, ℕ};

    ghost Value = { List ℕ };

    ghost view = { λ s. s.held.items };
}

impl SteadySink {
    pub fn new(alloc: Global) -> Self
        ensures { result ≡ [] }
    {
        SteadySink {
            held: Vec::new(alloc),
        }
    }

    pub fn bytes(&self) -> &[u8]
        ensures { result.now ≡ self.now }
    {
        &self.held
    }
}

impl Sink for SteadySink {
    ghost written = { λ s. Some s };

    ghost faults = { λ _. 0 };

    fn put(&mut self, bytes: &[u8]) -> Result<(), SinkEnd>
        ensures steady { put_failed result ≡ false }
        ensures ok { OnOk result (self.new ≡ self.old ++ bytes.now) }
        ensures none { OnErr result (self.new ≡ self.old) }

        // What the trait promises of each sink.
        ensures err { OnErr result (WithFront (Some self.old) (Some self.new) bytes.now) }
        ensures cause { Counts 0 0 (put_failed result) }
    {
        self.held.extend_from_slice(bytes)?;
        Ok(())
    }
}
