ghost use Rattle.std.specs.Prelude.{◌≡◌};
ghost use Rattle.bddl_model.specs.declared.fault.QFault.TheVariants.{NoMemory as formula_out_of_memory};
ghost use Rattle.bddl_model.specs.declared.fault.ReadFault.TheVariants.{NoMemory as out_of_memory};

use crate::{LexFault, NoMemory, Place};
use std::alloc::{AllocError, AllocFailed};

/// Why a text is no domain or no problem. Tokens count from 0.
#[derive(Clone, Copy, Debug, PartialEq, Eq)]
pub enum ReadFault {
    /// Some bytes are no token. This fault is never want of memory.
    Lex(LexFault),
    /// The tokens before this one begin a text, and with it they begin none.
    Unexpected { token: u32, place: Place },
    /// The tokens begin a text, and are none.
    EndsEarly { place: Place },
    NoMemory,
}

impl From<AllocError> for ReadFault {
    ghost from_gives = { λ _ e. e ≡ out_of_memory };

    fn from(_: AllocError) -> Self {
        ReadFault::NoMemory
    }
}

impl<T: Drop> From<AllocFailed<T>> for ReadFault {
    ghost from_gives = { λ _ e. e ≡ out_of_memory };

    fn from(_: AllocFailed<T>) -> Self {
        ReadFault::NoMemory
    }
}

/// Why a text is no formula. Lines count from 1, and the line is that of the first word that can't
/// stand where it does; where the text ended too early, it is the last line, which may be empty.
#[derive(Clone, Copy, Debug, PartialEq, Eq)]
pub enum QFault {
    /// The first word isn't `p`, or there is no word.
    NoProblemLine { line: u32 },
    /// A word can't stand where it does, for none of the reasons below.
    BadWord { line: u32 },
    /// A literal of a clause, or a variable of a quantifier set, is greater than the problem line's
    /// number of variables.
    OutOfRange { line: u32, literal: i64 },
    /// A variable stands a second time in quantifier sets.
    BoundTwice { line: u32, var: u32 },
    /// A quantifier stands where a clause would begin, behind a clause.
    AfterMatrix { line: u32 },
    /// The text ends in the problem line, in a quantifier set or in a clause.
    EndsEarly { line: u32 },
    /// The problem line says more than 16,777,215 variables.
    TooManyVariables { line: u32, said: u32 },
    /// The text ends well, and has another number of clauses than its problem line says.
    CountDiffers { said: u64, found: u64 },
    NoMemory,
}

impl From<AllocError> for QFault {
    ghost from_gives = { λ _ e. e ≡ formula_out_of_memory };

    fn from(_: AllocError) -> Self {
        QFault::NoMemory
    }
}

impl<T: Drop> From<AllocFailed<T>> for QFault {
    ghost from_gives = { λ _ e. e ≡ formula_out_of_memory };

    fn from(_: AllocFailed<T>) -> Self {
        QFault::NoMemory
    }
}

impl From<NoMemory> for QFault {
    ghost from_gives = { λ _ e. e ≡ formula_out_of_memory };

    fn from(_: NoMemory) -> Self {
        QFault::NoMemory
    }
}
