// Single tokens.

ghost use Rattle.std.specs.Prelude.{ℕ, List, ◌≡◌, ◌&&◌, [], not, bytes_eq};
ghost use Rattle.bddl_model.specs.Tokens.{spelling, lexemes};
ghost use Rattle.bddl_model.specs.Meanings.{same_kind, is, a_mark, mark_in, mark_named};
ghost use Rattle.bddl_reader.specs.ListReaders.{one_at, lacks, ended_at};
ghost use Rattle.bddl_reader.specs.Gives.{Gives};

use crate::stop::Stop;
use bddl_model::{Mark, Token, TokenKind};

/// The spelling of a token. What would lie past the end of the bytes is left out.
pub fn text_of<'a>(bytes: &'a [u8], token: &Token) -> &'a [u8]
    ensures { result.now ≡ spelling bytes.now token.now }
{
    let start = token.start as usize;
    let end = bytes.len().min(token.end as usize);
    if start < end { &bytes[start..end] } else { &[] }
}

pub fn is_token(bytes: &[u8], token: &Token, kind: TokenKind, text: &[u8]) -> bool
    ensures { result ≡ (same_kind token.now.kind kind && bytes_eq (spelling bytes.now token.now) text.now) }
{
    token.kind == kind && text_of(bytes, token) == text
}

/// The tokens behind one of this kind and spelling.
pub fn token<'a>(
    bytes: &[u8],
    rest: &'a [Token],
    kind: TokenKind,
    text: &[u8],
) -> Result<&'a [Token], Stop>
    ensures { Gives (λ after. (tt, lexemes bytes.now after.now)) result (one_at (is kind text.now) (lexemes bytes.now rest.now)) }
{
    match rest {
        [] => Err(Stop::Stuck { left: 0 }),
        [first, after @ ..] => {
            if is_token(bytes, first, kind, text) {
                Ok(after)
            } else {
                Err(Stop::Stuck { left: rest.len() })
            }
        }
    }
}

pub fn is_next(bytes: &[u8], rest: &[Token], kind: TokenKind, text: &[u8]) -> bool
    ensures { lacks (is kind text.now) (lexemes bytes.now rest.now) ≡ not result }
{
    match rest {
        [] => false,
        [first, ..] => is_token(bytes, first, kind, text),
    }
}

pub fn ended(rest: &[Token]) -> Result<(), Stop>
    ensures { (bytes : List ℕ) → Gives (λ _. (tt, [])) result (ended_at (lexemes bytes rest.now)) }
{
    match rest {
        [] => Ok(()),
        [_, _after @ ..] => Err(Stop::Stuck { left: rest.len() }),
    }
}

fn mark_named(text: &[u8]) -> Option<Mark>
    ensures { result ≡ mark_named text.now }
{
    if text == b"open".as_slice() {
        Some(Mark::Free)
    } else if text == b"black".as_slice() {
        Some(Mark::Black)
    } else if text == b"white".as_slice() {
        Some(Mark::White)
    } else {
        None
    }
}

pub fn mark_of(bytes: &[u8], token: &Token) -> Option<Mark>
    ensures { result ≡ mark_in token.now.kind (spelling bytes.now token.now) }
{
    match token.kind {
        TokenKind::Name => mark_named(text_of(bytes, token)),
        _ => None,
    }
}

pub fn mark<'a>(bytes: &[u8], rest: &'a [Token]) -> Result<(Mark, &'a [Token]), Stop>
    ensures { Gives (λ x. (x.0, lexemes bytes.now x.1.now)) result (one_at a_mark (lexemes bytes.now rest.now)) }
{
    match rest {
        [] => Err(Stop::Stuck { left: 0 }),
        [first, after @ ..] => match mark_of(bytes, first) {
            Some(mark) => Ok((mark, after)),
            None => Err(Stop::Stuck { left: rest.len() }),
        },
    }
}

pub fn mark_is_next(bytes: &[u8], rest: &[Token]) -> bool
    ensures { lacks a_mark (lexemes bytes.now rest.now) ≡ not result }
{
    match rest {
        [] => false,
        [first, ..] => mark_of(bytes, first).is_some(),
    }
}
