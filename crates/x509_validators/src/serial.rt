//! Serials.

ghost use Rattle.std.specs.Prelude.{◌≡◌, map};
ghost use Rattle.x509_validators.specs.Rules.{row_of};
ghost use Rattle.x509_validators.specs.Serial.{has_leading_zeros, is_there, serial_rules};

use crate::public_key::is_negative;
use crate::rule::{Rule, error_where, warning_where};

/// The rules of the contents octets of a serial (RFC 5280, section 4.1.2.2).
pub(crate) fn serial_rules(serial: &[u8]) -> [Rule<'static>; 3]
    ensures { map row_of result ≡ serial_rules serial.now }
{
    [
        error_where(!is_there(serial), "Serial is empty"),
        warning_where(is_negative(serial), "Serial number is negative"),
        warning_where(has_leading_zeros(serial), "Leading zeroes in serial number"),
    ]
}

/// Whether there is one.
pub(crate) fn is_there(serial: &[u8]) -> bool
    ensures { result ≡ is_there serial.now }
{
    !serial.is_empty()
}

// Whether fewer octets would do.
#[tactic(auto, unfolding(crate::specs::Serial::has_leading_zeros))]
fn has_leading_zeros(serial: &[u8]) -> bool
    ensures { result ≡ has_leading_zeros serial.now }
{
    matches!(serial, [0, 0..0x80, ..])
}
