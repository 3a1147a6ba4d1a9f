ghost use Rattle.std.specs.Prelude.{◌≡◌};
ghost use Rattle.bddl_reader.specs.declared.stop.Stop.TheVariants.{NoMemory as out_of_memory};

use bddl_model::NoMemory;

/// Why the reading of tokens stopped.
#[derive(Clone, Copy, Debug, PartialEq, Eq)]
pub enum Stop {
    /// So many tokens are left, and the first of them can't stand there.
    Stuck { left: usize },
    NoMemory,
}

impl From<NoMemory> for Stop {
    ghost from_gives = { λ _ e. e ≡ out_of_memory };

    fn from(_: NoMemory) -> Self {
        Stop::NoMemory
    }
}
