//! Entries in order of their serials.

ghost use Rattle.std.specs.Prelude.{◌≡◌, ◌<◌, ◌+◌, ◌^◌, List, length};
ghost use Rattle.std.specs.Ordering.{nat_cmp};
ghost use Rattle.x509_revoked.specs.Entries.{Indexed, number_at, number_of, position_at};

use crate::headed_serial::HeadedSerial;
use std::cmp::Ordering;

/// What can be searched by halves: entries, each with its serial and the place where it stands.
pub(crate) trait Ordered {
    /// The entries, in the order in which they are searched.
    ghost indexed: { Self → List Indexed };

    /// How many there are.
    fn count(&self) -> usize
        ensures { result ≡ length (indexed self.now) };

    /// Compares the serial of an entry with this one, and counts it: the one way to look at an entry's serial.
    fn compare(&self, entry: usize, serial: &HeadedSerial<'_>, compared: &mut u32) -> Ordering
        requires within { entry < length (indexed self.now) }
        requires fits { compared.old + 1 < 2 ^ 32 }
        ensures is { result ≡ nat_cmp (number_at (indexed self.now) entry) (number_of serial.now) }
        ensures counted { compared.new ≡ compared.old + 1 };

    /// Where an entry stands.
    fn place(&self, entry: usize) -> usize
        requires { entry < length (indexed self.now) }
        ensures { result ≡ position_at (indexed self.now) entry };
}
