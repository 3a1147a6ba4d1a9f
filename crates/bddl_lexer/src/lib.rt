//! Bytes of domain and problem files to tokens.
//!
//! `lex` answers the tokens of a text with their places, or the first byte that begins none. What
//! tokens are is said in `bddl_model/specs/Tokens.antt`: read `token_at` and `Tokens` first.
#![tactic(auto)]

mod bytes;
mod front;
mod lexer;
mod places;

pub use bddl_model::{LexFault, Token, TokenKind};
pub use bytes::{is_letter, is_name_byte};
pub use lexer::{lex, placing_is_one, tokens_are_one};
pub use places::place_of;
