// Bytes and numbers at the front of a text.
ghost use Rattle.std.specs.Prelude.{◌≡◌, ◌+◌, ◌-◌, ◌*◌, ◌^◌, ◌<◌, ◌≤◌, IfSome};
ghost use Rattle.cert_text.specs.Reading as spec;
ghost use Rattle.cert_text.specs.Reading.{Finds};

/// Behind the greatest number of nine digits.
pub const SHORT: u128 = 1_000_000_000;

/// Behind the greatest number of 64 bits.
pub const LONG: u128 = 1 << 64;

pub fn byte<'a>(bytes: &'a [u8], wanted: u8) -> Option<&'a [u8]>
    ensures { Finds (λ x. (tt, x.now)) result (spec.byte_at wanted bytes.now) }
{
    match bytes {
        [first, rest @ ..] if *first == wanted => Some(rest),
        _ => None,
    }
}

fn is_digit(byte: u8) -> bool
    ensures { result ≡ spec.is_digit byte }
{
    b'0' <= byte && byte <= b'9'
}

// More digits behind these, the value of which is known.
fn digits<'a>(bytes: &'a [u8], limit: u128, first: u64) -> Option<(u64, &'a [u8])>
    requires limit { limit ≤ 2 ^ 64 }
    requires first { first < limit }
    ensures found { Finds (λ x. (x.0, x.1.now)) result (spec.digits_at limit first bytes.now) }
    ensures small { IfSome result (λ x. x.0 < limit) }
{
    let mut value = first;
    let mut rest = bytes;
    'digits: while let [digit, behind @ ..] = rest {
        if !is_digit(*digit) {
            return Some((value, rest));
        }
        let longer = 10 * value as u128 + (*digit - b'0') as u128;
        if longer >= limit {
            return None;
        }
        value = longer as u64;
        rest = behind;
    }
    Some((value, rest))
}

#[tactic(auto, unfolding(crate::specs::Reading::number_at))]
fn number<'a>(bytes: &'a [u8], limit: u128) -> Option<(u64, &'a [u8])>
    requires limit { limit ≤ 2 ^ 64 }
    requires ten { 10 ≤ limit }
    ensures found { Finds (λ x. (x.0, x.1.now)) result (spec.number_at limit bytes.now) }
    ensures small { IfSome result (λ x. x.0 < limit) }
{
    match bytes {
        [b'0', rest @ ..] => Some((0, rest)),
        [first, rest @ ..] if is_digit(*first) => digits(rest, limit, (*first - b'0') as u64),
        _ => None,
    }
}

/// A space, and a number below the limit.
#[tactic(auto, unfolding(crate::specs::Reading::spaced_at))]
pub fn spaced<'a>(bytes: &'a [u8], limit: u128) -> Option<(u64, &'a [u8])>
    requires limit { limit ≤ 2 ^ 64 }
    requires ten { 10 ≤ limit }
    ensures found { Finds (λ x. (x.0, x.1.now)) result (spec.spaced_at limit bytes.now) }
    ensures small { IfSome result (λ x. x.0 < limit) }
{
    let rest = byte(bytes, b' ')?;
    number(rest, limit)
}
