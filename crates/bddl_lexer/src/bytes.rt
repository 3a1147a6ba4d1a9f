//! Kinds of bytes, and how far a run of them goes.

ghost use Rattle.std.specs.Prelude.{◌≡◌, ◌≤◌, ◌<◌, ℕ, List, ◌∷◌, true, false, length};
ghost use Rattle.bddl_model.specs.Bytes.{is_white, is_letter, is_digit, is_name_byte};
ghost use Rattle.bddl_model.specs.Tokens.{run_len};
ghost use Rattle.bddl_lexer.specs.Gaps.{gap_len};

pub(crate) fn is_white(b: u8) -> bool
    ensures { result ≡ is_white b }
{
    matches!(b, b' ' | b'\t' | b'\r' | b'\n')
}

/// An ASCII letter.
pub fn is_letter(b: u8) -> bool
    ensures { result ≡ is_letter b }
{
    matches!(b, b'A'..=b'Z' | b'a'..=b'z')
}

pub(crate) fn is_digit(b: u8) -> bool
    ensures { result ≡ is_digit b }
{
    matches!(b, b'0'..=b'9')
}

/// A letter, a digit, `_` or `-`.
pub fn is_name_byte(b: u8) -> bool
    ensures { result ≡ is_name_byte b }
{
    is_letter(b) || is_digit(b) || b == b'_' || b == b'-'
}

/// How many name bytes stand at the front.
pub(crate) fn name_run(bytes: &[u8]) -> usize
    ensures run { result ≡ run_len is_name_byte bytes.now }
    ensures within { result ≤ length bytes.now }
    ensures positive { (b : ℕ) (bs : List ℕ) → bytes.now ≡ b ∷ bs → is_name_byte b ≡ true → 0 < result }
{
    for (i, b) in bytes.iter().enumerate() {
        if !is_name_byte(*b) {
            return i;
        }
    }
    bytes.len()
}

/// How many digits stand at the front.
pub(crate) fn digit_run(bytes: &[u8]) -> usize
    ensures run { result ≡ run_len is_digit bytes.now }
    ensures within { result ≤ length bytes.now }
    ensures positive { (b : ℕ) (bs : List ℕ) → bytes.now ≡ b ∷ bs → is_digit b ≡ true → 0 < result }
{
    for (i, b) in bytes.iter().enumerate() {
        if !is_digit(*b) {
            return i;
        }
    }
    bytes.len()
}

/// How many bytes of white space and comments stand at the front.
pub(crate) fn gap(bytes: &[u8]) -> usize
    ensures is { result ≡ gap_len false bytes.now }
    ensures within { result ≤ length bytes.now }
{
    let mut commenting = false;
    for (i, b) in bytes.iter().enumerate() {
        if commenting {
            commenting = *b != b'\n';
        } else if *b == b';' {
            commenting = true;
        } else if !is_white(*b) {
            return i;
        }
    }
    bytes.len()
}
