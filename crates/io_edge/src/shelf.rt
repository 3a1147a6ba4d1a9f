ghost use Rattle.std.specs.Prelude.{◌≡◌, ◌^◌, ◌<◌, ℕ, [], Option, None, OnOk, OnErr, IsErrOf};
ghost use Rattle.std.specs.Option.{ForSome};
ghost use Rattle.bddl_model.specs.Files.{Files, file_at};
ghost use Rattle.io_edge.specs.Ends.{read_failed};
ghost use Rattle.io_edge.specs.Outside.{Counts, Delivers, DeliversFront};
ghost use Rattle.io_edge.specs.declared.shelf.ShelfEnd.TheVariants.{NoMemory as out_of_memory};

use std::alloc::{AllocError, AllocFailed};
use thiserror::Error;

/// Why a read was refused.
#[derive(Clone, Copy, Debug, PartialEq, Eq, Error)]
pub enum ShelfEnd {
    #[error("the file could not be read")]
    Failed,
    #[error("out of memory")]
    NoMemory,
}

impl From<AllocError> for ShelfEnd {
    ghost from_gives = { λ _ e. e ≡ out_of_memory };

    fn from(_: AllocError) -> Self {
        ShelfEnd::NoMemory
    }
}

impl<T: Drop> From<AllocFailed<T>> for ShelfEnd {
    ghost from_gives = { λ _ e. e ≡ out_of_memory };

    fn from(_: AllocFailed<T>) -> Self {
        ShelfEnd::NoMemory
    }
}

/// Files by name.
pub trait Shelf {
    /// The files, where they are told.
    ghost held: { Self → Option Files };

    /// How often a read has failed.
    ghost faults: { Self → ℕ };

    /// No fault is to come but for names that are not held.
    ghost calm: { Self → Type 0 };

    /// Reads a file, cut after `max + 1` bytes, so that a file past its limit can be told.
    fn read(&mut self, name: &[u8], max: Option<u64>, into: &mut Vec<u8>) -> Result<(), ShelfEnd>
        requires empty { into.old.items ≡ [] }
        requires limit { ForSome max (λ m. m < 2 ^ 62) }

        ensures ok { OnOk result (Delivers (held self.old) name.now max into.new.items) }
        ensures err { OnErr result (DeliversFront (held self.old) name.now into.new.items) }
        ensures held { held self.new ≡ held self.old }
        ensures cause { Counts (faults self.old) (faults self.new) (read_failed result) }
        ensures calm { calm self.old → calm self.new }
        ensures calm_cause { calm self.old → IsErrOf result ShelfEnd.Failed
            → file_at (held self.old) name.now ≡ None };
}
