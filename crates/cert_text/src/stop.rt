// Why a reading stopped.
ghost use Rattle.std.specs.Prelude.{◌≡◌};
ghost use Rattle.cert_text.specs.declared.stop.Stop.TheVariants.{NoMemory as out_of_memory};

use bddl_model::NoMemory;

#[derive(Clone, Copy, Debug, PartialEq, Eq)]
pub enum Stop {
    NoMemory,
    /// The text is not of the form that is read.
    Stuck,
}

impl From<NoMemory> for Stop {
    ghost from_gives = { λ _ e. e ≡ out_of_memory };

    fn from(_: NoMemory) -> Self {
        Stop::NoMemory
    }
}
