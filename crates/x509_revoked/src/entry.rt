//! Serials with the positions of their entries.

ghost use Rattle.std.specs.Prelude.{◌≡◌, ◌<◌, ◌+◌, ◌^◌};
ghost use Rattle.std.specs.Ordering.{nat_cmp};
ghost use Rattle.x509_der.specs.Unsigned.{unsigned_number};

use crate::headed_serial::HeadedSerial;
use std::cmp::Ordering;
use x509_der::UnsignedBytes;

/// A serial with its head, and the position of its entry on the list: in order by the serial as a number, then by the position.
#[derive(Clone, Copy, Debug, Eq, Ord, PartialEq, PartialOrd)]
pub struct Entry<'a> {
    serial: HeadedSerial<'a>,
    position: usize,
}

impl<'a> Entry<'a> {
    ghost use Rattle.x509_revoked.specs.Entries.{Indexed, indexed, number_of};

    /// The entry with this serial at this position.
    pub fn new(serial: UnsignedBytes<'a>, position: usize) -> Entry<'a>
        ensures { indexed result ≡ record { number = unsigned_number serial.entry; position = position } }
    {
        Entry {
            serial: HeadedSerial::new(serial),
            position,
        }
    }

    /// The position on the list.
    pub fn position(&self) -> usize
        ensures { result ≡ (indexed self.now).position }
    {
        self.position
    }

    /// Compares two serials, and counts it: the one way to look at an entry's serial.
    pub fn compare(&self, serial: &HeadedSerial<'_>, compared: &mut u32) -> Ordering
        requires { compared.old + 1 < 2 ^ 32 }
        ensures is { result ≡ nat_cmp ((indexed self.now).number) (number_of serial.now) }
        ensures counted { compared.new ≡ compared.old + 1 }
    {
        *compared += 1;
        self.serial.compare(serial)
    }
}
