// The first line.
ghost use Rattle.std.specs.Prelude.{◌≡◌, ◌<◌, ◌^◌, IfSome};
ghost use Rattle.cert_text.specs.Reading as spec;
ghost use Rattle.cert_text.specs.Reading.{Finds, version_of};

use crate::number::{LONG, byte, spaced};

/// What tells which node follows: in version 1 the order of the lines, in version 2 a number.
#[derive(Clone, Copy, Debug, PartialEq, Eq)]
pub enum Version {
    Ordered,
    Numbered,
}

impl Version {
    fn of(number: u64) -> Option<Version>
        ensures { Finds version_of result (spec.version_numbered number) }
    {
        match number {
            1 => Some(Version::Ordered),
            2 => Some(Version::Numbered),
            _ => None,
        }
    }

    // Whether a header may say this count.
    fn counts(self, count: u64) -> bool
        ensures { result ≡ spec.counts (version_of self) count }
    {
        match self {
            Version::Ordered => true,
            Version::Numbered => count >= 1,
        }
    }
}

fn word<'a>(bytes: &'a [u8], wanted: &[u8]) -> Option<&'a [u8]>
    ensures { Finds (λ x. (tt, x.now)) result (spec.word_at wanted.now bytes.now) }
{
    bytes.strip_prefix(wanted)
}

/// The version and the count of a header, and the bytes behind it.
#[tactic(auto, unfolding(crate::specs::Reading::header_at))]
pub fn header<'a>(bytes: &'a [u8]) -> Option<(Version, u64, &'a [u8])>
    ensures { Finds (λ h. ((version_of h.0, h.1), h.2.now)) result (spec.header_at bytes.now) }
{
    let rest = word(bytes, b"bddlcert")?;
    let (number, rest) = spaced(rest, LONG)?;
    let version = Version::of(number)?;
    let (count, rest) = spaced(rest, LONG)?;
    let rest = byte(rest, b'\n')?;
    if !version.counts(count) {
        return None;
    }
    Some((version, count, rest))
}
