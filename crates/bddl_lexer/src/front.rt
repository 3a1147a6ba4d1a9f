//! The token at the front of a text.

ghost use Rattle.std.specs.Prelude.{◌≡◌, ◌+◌, ◌≤◌, ◌<◌, length, IfOk};
ghost use Rattle.bddl_model.specs.Tokens.{named, numbered, marked_at, variable_at, token_at};

use crate::bytes::{digit_run, is_digit, is_letter, name_run};
use bddl_model::{TokenFault, TokenKind};

/// A run of name bytes, behind the byte that marks it if there is one.
fn named(kind: TokenKind, before: usize, run: usize) -> Result<(TokenKind, usize), TokenFault>
    requires { before ≤ 1 }
    ensures is { result ≡ named kind before run }
    ensures len { IfOk result (λ x. x.1 ≡ before + run) }
{
    if run <= 32 {
        Ok((kind, before + run))
    } else {
        Err(TokenFault::NameTooLong)
    }
}

fn numbered(run: usize) -> Result<(TokenKind, usize), TokenFault>
    ensures is { result ≡ numbered run }
    ensures len { IfOk result (λ x. x.1 ≡ run) }
{
    if run <= 9 {
        Ok((TokenKind::Number, run))
    } else {
        Err(TokenFault::NumberTooLong)
    }
}

fn marked(kind: TokenKind, after: &[u8]) -> Result<(TokenKind, usize), TokenFault>
    ensures is { result ≡ marked_at kind after.now }
    ensures len { IfOk result (λ x. (0 < x.1) × (x.1 ≤ length after.now + 1)) }
{
    match after {
        [first, ..] if is_letter(*first) => named(kind, 1, name_run(after)),
        _ => Err(TokenFault::BadByte),
    }
}

fn variable(after: &[u8]) -> Result<(TokenKind, usize), TokenFault>
    ensures is { result ≡ variable_at after.now }
    ensures len { IfOk result (λ x. (0 < x.1) × (x.1 ≤ length after.now + 1)) }
{
    match after {
        [b'x', ..] => Ok((TokenKind::VarX, 2)),
        [b'y', ..] => Ok((TokenKind::VarY, 2)),
        _ => Err(TokenFault::BadByte),
    }
}

/// The token that begins at the first byte, and its length.
pub(crate) fn token(bytes: &[u8]) -> Result<(TokenKind, usize), TokenFault>
    ensures is { result ≡ token_at bytes.now }
    ensures len { IfOk result (λ x. (0 < x.1) × (x.1 ≤ length bytes.now)) }
{
    match bytes {
        [b'(', ..] => Ok((TokenKind::Left, 1)),
        [b')', ..] => Ok((TokenKind::Right, 1)),
        [b',', ..] => Ok((TokenKind::Comma, 1)),
        [b'+', ..] => Ok((TokenKind::Plus, 1)),
        [b'-', ..] => Ok((TokenKind::Minus, 1)),
        [b'?', after @ ..] => variable(after),
        [b'#', after @ ..] => marked(TokenKind::Hash, after),
        [b':', after @ ..] => marked(TokenKind::Colon, after),
        [b, ..] if is_letter(*b) => named(TokenKind::Name, 0, name_run(bytes)),
        [b, ..] if is_digit(*b) => numbered(digit_run(bytes)),
        _ => Err(TokenFault::BadByte),
    }
}
