// Numbers in bits, least bit first.
ghost use Rattle.std.specs.Prelude.{◌≡◌, ◌≤◌, length};
ghost use Rattle.bddl_model.specs.Bits as spec;
ghost use Rattle.bddl_model.specs.Words.{number_of_bits};
ghost use Rattle.bddl_model.specs.Codes.{number_bits};

/// The least k with 2 to the power k at least n.
pub fn bits(n: u32) -> u32
    ensures value { result ≡ spec.bits n }
    ensures bound { result ≤ 32 }
{
    let mut power: u64 = 1;
    'powers: for k in 0..32 {
        if n as u64 <= power {
            return k;
        }
        power *= 2;
    }
    32
}

/// Writes a number into bits, least bit first.
pub fn write_number(number: u32, into: &mut [bool])
    ensures { into.new ≡ number_bits (length into.old) number }
{
    let mut rest = number;
    'bits: for i in 0..into.len() {
        into[i] = rest % 2 == 1;
        rest = rest / 2;
    }
}

/// The number that bits make, least bit first.
pub fn number_of(bits: &[bool]) -> u32
    requires { length bits.now ≤ 32 }
    ensures { result ≡ number_of_bits bits.now }
{
    match bits {
        [] => 0,
        [first, later @ ..] => {
            let rest = 2 * number_of(later);
            if *first { rest + 1 } else { rest }
        }
    }
}
