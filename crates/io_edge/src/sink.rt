ghost use Rattle.std.specs.Prelude.{◌≡◌, ◌<◌, ◌≤◌, ℕ, List, Option, length, OnOk, OnErr};
ghost use Rattle.io_edge.specs.Ends.{put_failed};
ghost use Rattle.io_edge.specs.Outside.{Counts, with_bytes, WithFront};
ghost use Rattle.io_edge.specs.declared.sink.SinkEnd.TheVariants.{NoMemory as out_of_memory};

use bddl_model::NoMemory;
use std::alloc::{AllocError, AllocFailed};
use thiserror::Error;

/// Why a write was refused.
#[derive(Clone, Copy, Debug, PartialEq, Eq, Error)]
pub enum SinkEnd {
    #[error("the text could not be written")]
    Failed,
    #[error("out of memory")]
    NoMemory,
}

impl From<NoMemory> for SinkEnd {
    ghost from_gives = { λ _ e. e ≡ out_of_memory };

    fn from(_: NoMemory) -> Self {
        SinkEnd::NoMemory
    }
}

impl From<AllocError> for SinkEnd {
    ghost from_gives = { λ _ e. e ≡ out_of_memory };

    fn from(_: AllocError) -> Self {
        SinkEnd::NoMemory
    }
}

impl<T: Drop> From<AllocFailed<T>> for SinkEnd {
    ghost from_gives = { λ _ e. e ≡ out_of_memory };

    fn from(_: AllocFailed<T>) -> Self {
        SinkEnd::NoMemory
    }
}

/// The most bytes that a sink takes in one piece.
pub(crate) const LONGEST_PIECE: usize = 4096;

/// Where text goes, piece by piece.
pub trait Sink {
    /// The bytes that were written, where they are told.
    ghost written: { Self → Option (List ℕ) };

    /// How often a write has failed.
    ghost faults: { Self → ℕ };

    /// Adds a piece at the end. A refusal adds a front of it.
    fn put(&mut self, bytes: &[u8]) -> Result<(), SinkEnd>
        requires some { 0 < length bytes.now }
        requires few { length bytes.now ≤ 4096 }

        ensures ok { OnOk result (written self.new ≡ with_bytes (written self.old) bytes.now) }
        ensures err { OnErr result (WithFront (written self.old) (written self.new) bytes.now) }
        ensures cause { Counts (faults self.old) (faults self.new) (put_failed result) };
}
