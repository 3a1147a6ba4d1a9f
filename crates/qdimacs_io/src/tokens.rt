// What a word of a formula text is.
ghost use Rattle.std.specs.Prelude.{◌≡◌, ◌<◌, IfSome};
ghost use Rattle.bddl_model.specs.Bytes as bytes;
ghost use Rattle.bddl_model.specs.FormulaWords as spec;
ghost use Rattle.qdimacs_io.specs.Scanning.{token_view};

use bddl_model::Quant;

#[derive(Clone, Copy, Debug)]
pub enum Token {
    Problem,
    Cnf,
    Quantifier { quant: Quant },
    Number { negated: bool, size: u32 },
    Other,
}

fn is_digit(byte: u8) -> bool
    ensures { result ≡ bytes.is_digit byte }
{
    b'0' <= byte && byte <= b'9'
}

// The number that one to nine digits spell.
fn digits_value(digits: &[u8]) -> Option<u32>
    ensures value { result ≡ bytes.digits_value digits.now }
    ensures small { IfSome result (λ n. n < 1000000000) }
{
    if digits.is_empty() || digits.len() > 9 {
        return None;
    }
    let mut value: u32 = 0;
    for (i, digit) in digits.iter().enumerate() {
        if !is_digit(*digit) {
            return None;
        }
        value = 10 * value + (*digit - b'0') as u32;
    }
    Some(value)
}

// The token of a word of these digits.
fn plain(digits: &[u8]) -> Token
    ensures { token_view result ≡ spec.plain (bytes.digits_value digits.now) }
{
    match digits_value(digits) {
        Some(size) => Token::Number {
            negated: false,
            size,
        },
        None => Token::Other,
    }
}

// The token of a word of a minus and these digits.
fn negative(digits: &[u8]) -> Token
    ensures { token_view result ≡ spec.negative (bytes.digits_value digits.now) }
{
    match digits_value(digits) {
        Some(0) | None => Token::Other,
        Some(size) => Token::Number {
            negated: true,
            size,
        },
    }
}

impl Token {
    pub fn of(text: &[u8]) -> Token
        ensures { token_view result ≡ spec.token_of text.now }
    {
        if text == b"p".as_slice() {
            return Token::Problem;
        }
        if text == b"cnf".as_slice() {
            return Token::Cnf;
        }
        if text == b"a".as_slice() {
            return Token::Quantifier { quant: Quant::All };
        }
        if text == b"e".as_slice() {
            return Token::Quantifier {
                quant: Quant::Exists,
            };
        }
        match text {
            [b'-', digits @ ..] => negative(digits),
            _ => plain(text),
        }
    }
}
