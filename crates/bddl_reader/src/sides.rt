// The side that moves first.

ghost use Rattle.std.specs.Prelude.{◌≡◌};
ghost use Rattle.bddl_model.specs.Tokens.{spelling, lexemes};
ghost use Rattle.bddl_model.specs.Meanings.{a_side, side_in};
ghost use Rattle.bddl_reader.specs.ListReaders.{one_at};
ghost use Rattle.bddl_reader.specs.Gives.{Gives};
ghost use Rattle.bddl_reader.specs.GrammarReaders.{first_at};

use crate::single::{is_token, text_of};
use crate::stop::Stop;
use bddl_model::{Side, Token, TokenKind};

fn side_of(bytes: &[u8], token: &Token) -> Option<Side>
    ensures { result ≡ side_in token.now.kind (spelling bytes.now token.now) }
{
    match (token.kind, text_of(bytes, token)) {
        (TokenKind::Name, b"black") => Some(Side::Black),
        (TokenKind::Name, b"white") => Some(Side::White),
        _ => None,
    }
}

fn side<'a>(bytes: &[u8], rest: &'a [Token]) -> Result<(Side, &'a [Token]), Stop>
    ensures { Gives (λ x. (x.0, lexemes bytes.now x.1.now)) result (one_at a_side (lexemes bytes.now rest.now)) }
{
    match rest {
        [] => Err(Stop::Stuck { left: 0 }),
        [first, after @ ..] => match side_of(bytes, first) {
            Some(side) => Ok((side, after)),
            None => Err(Stop::Stuck { left: rest.len() }),
        },
    }
}

/// The side behind its word, or Black without one.
pub fn first_side<'a>(bytes: &[u8], rest: &'a [Token]) -> Result<(Side, &'a [Token]), Stop>
    ensures { Gives (λ x. (x.0, lexemes bytes.now x.1.now)) result (first_at (lexemes bytes.now rest.now)) }
{
    match rest {
        [word, after @ ..] if is_token(bytes, word, TokenKind::Hash, b"#first") => {
            side(bytes, after)
        }
        _ => Ok((Side::Black, rest)),
    }
}
