//! Numbers of at most 20 octets in decimal.

ghost use Rattle.std.specs.Prelude.{◌≡◌, ◌+◌, ◌*◌, ◌^◌, ◌<◌, ◌≤◌, length, Some, decimal};
ghost use Rattle.std.specs.Fmt.{DisplaysOnOk};
ghost use Rattle.std.specs.Int.Digits.{number_from_digits};

use std::fmt;

/// How many octets a number has at most that is shown in decimal: those of a serial number (RFC 5280, 4.1.2.2).
pub(crate) const MOST_OCTETS: usize = 20;

// 10^36, the greatest power of ten of which 256 times as much is a `u128`.
const BASE: u128 = 1_000_000_000_000_000_000_000_000_000_000_000_000;

/// Writes the number with these octets, the most significant first, in decimal.
pub(crate) fn write_decimal<W: fmt::Write>(octets: &[u8], f: &mut fmt::Formatter<W>) -> fmt::Result
    requires { length octets.now ≤ 20 }
    ensures { DisplaysOnOk W.write_str_gives f.old result (Some (decimal (number_from_digits 256 octets.now))) f.new }
{
    let (high, low) = in_two_digits(octets);
    if high == 0 {
        write!(f, "{low}")
    } else {
        write!(f, "{high}{low:036}")
    }
}

// The number with these octets in two digits of base 10^36.
fn in_two_digits(octets: &[u8]) -> (u128, u128)
    requires { length octets.now ≤ 20 }
    ensures value { result.0 * 10 ^ 36 + result.1 ≡ number_from_digits 256 octets.now }
    ensures low { result.1 < 10 ^ 36 }
    ensures small { result.0 < 10 ^ 13 }
{
    let mut high = 0u128;
    let mut low = 0u128;
    for octet in octets {
        let sum = low * 256 + u128::from(*octet);
        high = high * 256 + sum / BASE;
        low = sum % BASE;
    }
    (high, low)
}
