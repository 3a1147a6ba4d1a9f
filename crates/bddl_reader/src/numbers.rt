// Numbers of one to nine digits.

ghost use Rattle.std.specs.Prelude.{◌≡◌, ◌<◌, IfSome, IfOk};
ghost use Rattle.bddl_model.specs.Bytes.{digits_value};
ghost use Rattle.bddl_model.specs.Tokens.{spelling, lexemes};
ghost use Rattle.bddl_model.specs.Meanings.{number_in, a_number};
ghost use Rattle.bddl_reader.specs.ListReaders.{one_at};
ghost use Rattle.bddl_reader.specs.Gives.{Gives};

use crate::single::text_of;
use crate::stop::Stop;
use bddl_model::{Token, TokenKind};

pub fn decimal(text: &[u8]) -> Option<u32>
    ensures value { result ≡ digits_value text.now }
    ensures small { IfSome result (λ n. n < 1000000000) }
{
    if text.is_empty() || text.len() > 9 {
        return None;
    }
    let mut value: u32 = 0;
    for digit in text {
        if !(b'0' <= *digit && *digit <= b'9') {
            return None;
        }
        value = 10 * value + (*digit - b'0') as u32;
    }
    Some(value)
}

pub fn number<'a>(bytes: &[u8], rest: &'a [Token]) -> Result<(u32, &'a [Token]), Stop>
    ensures gives { Gives (λ x. (x.0, lexemes bytes.now x.1.now)) result (one_at a_number (lexemes bytes.now rest.now)) }
    ensures small { IfOk result (λ x. x.0 < 1000000000) }
{
    match rest {
        [] => Err(Stop::Stuck { left: 0 }),
        [first, after @ ..] => match number_of(bytes, first) {
            Some(value) => Ok((value, after)),
            None => Err(Stop::Stuck { left: rest.len() }),
        },
    }
}

fn number_of(bytes: &[u8], token: &Token) -> Option<u32>
    ensures value { result ≡ number_in token.now.kind (spelling bytes.now token.now) }
    ensures small { IfSome result (λ n. n < 1000000000) }
{
    match token.kind {
        TokenKind::Number => decimal(text_of(bytes, token)),
        _ => None,
    }
}
