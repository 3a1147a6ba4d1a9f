// Tokens of domain and problem files.

ghost use Rattle.std.specs.Prelude.{◌≡◌};
ghost use Rattle.bddl_model.specs.declared.tokens.LexFault.TheVariants.{NoMemory as out_of_memory};

use std::alloc::{AllocError, AllocFailed};
use thiserror::Error;

#[derive(Clone, Copy, Debug, PartialEq, Eq)]
pub enum TokenKind {
    Left,
    Right,
    Comma,
    Plus,
    Minus,
    VarX,
    VarY,
    Hash,
    Colon,
    Name,
    Number,
}

/// A token: its spelling is the bytes from `start` on and before `end`.
#[derive(Clone, Copy, Debug, PartialEq, Eq)]
pub struct Token {
    pub kind: TokenKind,
    pub start: u32,
    pub end: u32,
}

/// What keeps bytes from being a token.
#[derive(Clone, Copy, Debug, PartialEq, Eq)]
pub enum TokenFault {
    BadByte,
    NameTooLong,
    NumberTooLong,
}

/// Why the bytes of a text are not tokens. `at` is the first byte that begins none, counted from 0.
#[derive(Clone, Copy, Debug, PartialEq, Eq, Error)]
pub enum LexFault {
    #[error("bad byte")]
    BadByte { at: u32 },
    #[error("name too long")]
    NameTooLong { at: u32 },
    #[error("number too long")]
    NumberTooLong { at: u32 },
    #[error("out of memory")]
    NoMemory,
}

impl From<AllocError> for LexFault {
    ghost from_gives = { λ _ e. e ≡ out_of_memory };

    fn from(_: AllocError) -> Self {
        LexFault::NoMemory
    }
}

impl<T: Drop> From<AllocFailed<T>> for LexFault {
    ghost from_gives = { λ _ e. e ≡ out_of_memory };

    fn from(_: AllocFailed<T>) -> Self {
        LexFault::NoMemory
    }
}
