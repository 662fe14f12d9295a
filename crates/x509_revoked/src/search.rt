//! Searching by halves.

ghost use Rattle.std.specs.Prelude.{◌≡◌, ◌<◌, ◌≤◌, ◌+◌, ◌^◌, length};
ghost use Rattle.x509_der.specs.Unsigned.{unsigned_number};
ghost use Rattle.x509_revoked.specs.Entries.{position_in, AreInOrder};
ghost use Rattle.x509_revoked.specs.Index.{binary_digits};

use crate::headed_serial::HeadedSerial;
use crate::ordered::Ordered;
use x509_der::UnsignedBytes;

/// The place of the first entry with this serial among entries that are in order, and how many times two serials were compared.
pub(crate) fn search<R: Ordered>(entries: &R, serial: &UnsignedBytes<'_>) -> (Option<usize>, u32)
    requires { AreInOrder (R.indexed entries.now) }
    ensures found { result.0 ≡ position_in (R.indexed entries.now) (unsigned_number serial.now) }
    ensures least { 0 < length (R.indexed entries.now) → 0 < result.1 }
    ensures most { result.1 ≤ binary_digits (length (R.indexed entries.now)) + 1 }
{
    let sought = HeadedSerial::new(*serial);
    let mut compared = 0;
    // Those before `first` are less, and those from `first + size` on are not.
    let mut first = 0;
    let count = entries.count();
    let mut size = count;
    'halves: while size > 0 {
        let half = size / 2;
        if entries
            .compare(first + half, &sought, &mut compared)
            .is_lt()
        {
            first += half + 1;
            size -= half + 1;
        } else {
            size = half;
        }
    }
    if first == count {
        return (None, compared);
    }
    if entries.compare(first, &sought, &mut compared).is_ne() {
        return (None, compared);
    }
    (Some(entries.place(first)), compared)
}
