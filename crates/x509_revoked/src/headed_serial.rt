//! Serials behind their heads.

ghost use Rattle.std.specs.Prelude.{◌≡◌};
ghost use Rattle.std.specs.Ordering.{nat_cmp};
ghost use Rattle.x509_der.specs.Unsigned.{unsigned_number};
ghost use Rattle.x509_revoked.specs.SerialHead.{serial_head};

use std::cmp::Ordering;
use x509_der::UnsignedBytes;

/// How many octets of a serial its head has.
const OCTETS: usize = 7;

/// The head of a serial: heads are in the order of the serials as numbers, and mostly differ where these do.
pub(crate) fn head_of(serial: &UnsignedBytes<'_>) -> u64
    ensures { result ≡ serial_head (unsigned_number serial.now) }
{
    let octets = serial.as_bytes();
    if octets.len() > u8::MAX as usize {
        return u64::MAX;
    }
    let mut first = 0;
    for octet in &octets[..octets.len().min(OCTETS)] {
        first = first * 256 + *octet as u64;
    }
    octets.len() as u64 * (1 << 56) + first
}

/// A serial with its head, in the order of the serials as numbers.
#[derive(Clone, Copy, Debug, Eq, Ord, PartialEq, PartialOrd)]
pub struct HeadedSerial<'a> {
    head: u64,
    serial: UnsignedBytes<'a>,
    ghost is_head: { head ≡ serial_head (unsigned_number serial) },
}

impl<'a> HeadedSerial<'a> {
    ghost use Rattle.x509_revoked.specs.Entries.{number_of};

    /// A serial with its head.
    pub fn new(serial: UnsignedBytes<'a>) -> HeadedSerial<'a>
        ensures { number_of result ≡ unsigned_number serial.entry }
    {
        HeadedSerial {
            head: head_of(&serial),
            serial,
        }
    }

    /// Its head.
    pub fn head(&self) -> u64
        ensures { result ≡ serial_head (number_of self.now) }
    {
        self.head
    }

    /// The serial alone.
    pub fn serial(&self) -> &UnsignedBytes<'a>
        ensures { unsigned_number result.now ≡ number_of self.now }
    {
        &self.serial
    }

    /// The order of two serials: their octets are read only where their heads are equal.
    pub fn compare(&self, other: &HeadedSerial<'_>) -> Ordering
        ensures { result ≡ nat_cmp (number_of self.now) (number_of other.now) }
    {
        if self.head < other.head {
            return Ordering::Less;
        }
        if self.head > other.head {
            return Ordering::Greater;
        }
        self.serial.cmp(&other.serial)
    }
}
