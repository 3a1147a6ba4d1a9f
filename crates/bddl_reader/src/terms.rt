// Coordinates of a cell, from the anchor or fixed.

ghost use Rattle.std.specs.Prelude.{◌≡◌};
ghost use Rattle.bddl_model.specs.Tokens.{lexemes, lexeme_of};
ghost use Rattle.bddl_model.specs.Meanings.{end_named};
ghost use Rattle.bddl_reader.specs.Gives.{Gives};
ghost use Rattle.bddl_reader.specs.GrammarReaders.{shift_at, term_at, start_of};
ghost use Rattle.bddl_reader.specs.Starts.{begun};

use crate::numbers::{decimal, number};
use crate::single::text_of;
use crate::stop::Stop;
use bddl_model::{TermText, Token, TokenKind};

#[derive(Clone, Copy, Debug, PartialEq, Eq)]
pub enum Coordinate {
    X,
    Y,
}

/// How a term begins: it is whole, or the variable, behind which a shift may stand.
#[derive(Clone, Copy, Debug, PartialEq, Eq)]
pub enum Start {
    Whole(TermText),
    Variable,
}

fn shift<'a>(bytes: &[u8], rest: &'a [Token]) -> Result<(TermText, &'a [Token]), Stop>
    ensures { Gives (λ x. (x.0, lexemes bytes.now x.1.now)) result (shift_at (lexemes bytes.now rest.now)) }
{
    match rest {
        [] => Ok((TermText::Shift(0), rest)),
        [sign, after @ ..] => match (sign.kind, text_of(bytes, sign)) {
            (TokenKind::Plus, b"+") => {
                let (by, rest) = number(bytes, after)?;
                Ok((TermText::Shift(by as i32), rest))
            }
            (TokenKind::Minus, b"-") => {
                let (by, rest) = number(bytes, after)?;
                Ok((TermText::Shift(-(by as i32)), rest))
            }
            _ => Ok((TermText::Shift(0), rest)),
        },
    }
}

fn end_named(text: &[u8], least: &[u8], greatest: &[u8]) -> Option<Start>
    ensures { begun result ≡ end_named least.now greatest.now text.now }
{
    if text == least {
        Some(Start::Whole(TermText::Least))
    } else if text == greatest {
        Some(Start::Whole(TermText::Greatest))
    } else {
        None
    }
}

fn start_of(bytes: &[u8], token: &Token, coordinate: Coordinate) -> Option<Start>
    ensures { begun result ≡ start_of coordinate (lexeme_of bytes.now token.now) }
{
    let text = text_of(bytes, token);
    match (token.kind, coordinate) {
        (TokenKind::Number, _) => decimal(text).map(|value| Start::Whole(TermText::Number(value))),
        (TokenKind::Name, Coordinate::X) => end_named(text, b"xmin", b"xmax"),
        (TokenKind::Name, Coordinate::Y) => end_named(text, b"ymin", b"ymax"),
        (TokenKind::VarX, Coordinate::X) if text == b"?x".as_slice() => Some(Start::Variable),
        (TokenKind::VarY, Coordinate::Y) if text == b"?y".as_slice() => Some(Start::Variable),
        _ => None,
    }
}

pub fn term<'a>(
    bytes: &[u8],
    rest: &'a [Token],
    coordinate: Coordinate,
) -> Result<(TermText, &'a [Token]), Stop>
    ensures { Gives (λ x. (x.0, lexemes bytes.now x.1.now)) result (term_at coordinate (lexemes bytes.now rest.now)) }
{
    match rest {
        [] => Err(Stop::Stuck { left: 0 }),
        [first, after @ ..] => match start_of(bytes, first, coordinate) {
            Some(Start::Variable) => shift(bytes, after),
            Some(Start::Whole(term)) => Ok((term, after)),
            None => Err(Stop::Stuck { left: rest.len() }),
        },
    }
}
