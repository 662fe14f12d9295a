//! Indexes of lists by serials, in rows of the caller's.

ghost use Rattle.std.specs.Prelude.{◌≡◌, ℕ, List, length, map};
ghost use Rattle.std.specs.Int.Digits.{number_from_digits};
ghost use Rattle.std.specs.List.Sorted.{IsNonDecreasingBy, IsPermutation};
ghost use Rattle.std.specs.Ordering.{nat_cmp};
ghost use Rattle.x509_der.specs.Unsigned.{unsigned_number};
ghost use Rattle.x509_lists.specs.CertificateList.{certificate_list};
ghost use Rattle.x509_lists.specs.FindRevoked.{serial_numbers};
ghost use Rattle.x509_lists.specs.RevokedCertificate.{revoked_of};
ghost use Rattle.x509_revoked.specs.Entries.{AreInOrder, position_in};
ghost use Rattle.x509_c.specs.Index.{IsIndexOf, IsPositionOf, ShowsIndex, rank, row_of};
ghost use Rattle.x509_c.specs.Tells.{Tells, Done};

use crate::status::{NOT_FOUND, OK, refused};
use std::alloc::Global;
use std::cmp::Ordering;
use x509_der::{FromDer, UnsignedBytes};
use x509_lists::{CertificateRevocationList, RevokedCertificate};

/// A serial on a list and the position of its entry: `rtv_index_row` of rushtrivet.h.
#[repr(C)]
#[derive(Clone, Copy)]
pub struct IndexRow<'a> {
    /// The octets of the serial without zeros in front.
    pub serial: &'a [u8],
    /// The position of its entry on the list, from 0 on.
    pub position: usize,
}

/// Compares two rows by their serials as numbers, and then by their positions.
fn order(a: IndexRow<'_>, b: IndexRow<'_>) -> Ordering
    ensures { result ≡ nat_cmp (rank a.entry) (rank b.entry) }
{
    let serials = UnsignedBytes::new(a.serial).cmp(&UnsignedBytes::new(b.serial));
    serials.then(a.position.cmp(&b.position))
}

/// Brings rows in order.
fn sort(rows: &mut [IndexRow<'_>])
    ensures same { IsPermutation rows.old rows.new }
    ensures sorted { IsNonDecreasingBy rank rows.new }
{
    rows.sort_unstable_by(|a, b| order(*a, *b));
}

/// Writes the index of these entries.
fn write_index<'a>(rows: &mut [IndexRow<'a>], revoked: &[RevokedCertificate<'a>])
    requires { length rows.old ≡ length revoked.now }
    ensures { IsIndexOf (serial_numbers (map revoked_of revoked.now)) rows.new }
{
    for i in 0..revoked.len() {
        rows[i] = IndexRow {
            serial: revoked[i].user_certificate.as_bytes(),
            position: i,
        };
    }
    sort(rows);
}

/// Reads the list at the front of the buffer and writes its index, a row for each entry, in order of the serials. The count of the
/// entries is told; where there are fewer rows, none is written.
#[unsafe(no_mangle)]
pub extern "C" fn rtv_index_build<'a>(
    alloc: Global,
    der: &'a [u8],
    rows: &mut [IndexRow<'a>],
    count: &mut usize,
    at: &mut usize,
) -> u32
    ensures { Tells certificate_list der.now
        (λ list _. Done (ShowsIndex rows.old rows.new count.new (serial_numbers list.tbs.revoked_certificates)))
        ((rows.new ≡ rows.old) × (count.new ≡ count.old))
        at.old at.new result }
{
    match CertificateRevocationList::from_der_located(alloc, der) {
        Ok((_, list)) => {
            *count = put_index(rows, list.tbs_cert_list.revoked_certificates.as_slice());
            OK
        }
        Err(refusal) => refused(refusal, at),
    }
}

/// Writes the index of these entries where it has room, and gives their count.
fn put_index<'a>(rows: &mut [IndexRow<'a>], revoked: &[RevokedCertificate<'a>]) -> usize
    ensures { ShowsIndex rows.old rows.new result (serial_numbers (map revoked_of revoked.now)) }
{
    let count = revoked.len();
    if count <= rows.len() {
        write_index(&mut rows[..count], revoked);
    }
    count
}

/// Compares the serial of a row with another, as numbers.
fn compare(row: &IndexRow<'_>, serial: &UnsignedBytes<'_>) -> Ordering
    ensures { result ≡ nat_cmp (number_from_digits 256 row.now.serial.now) (unsigned_number serial.now) }
{
    UnsignedBytes::new(row.serial).cmp(serial)
}

/// The least position with this serial, among rows that are in order.
fn search(rows: &[IndexRow<'_>], serial: &UnsignedBytes<'_>) -> Option<usize>
    ensures { AreInOrder (map row_of rows.now) → result ≡ position_in (map row_of rows.now) (unsigned_number serial.now) }
{
    // Those before `first` are less, and those from `first + size` on are not.
    let mut first = 0;
    let count = rows.len();
    let mut size = count;
    'halves: while size > 0 {
        let half = size / 2;
        if compare(&rows[first + half], serial).is_lt() {
            first += half + 1;
            size -= half + 1;
        } else {
            size = half;
        }
    }
    if first == count {
        return None;
    }
    let row = &rows[first];
    if compare(row, serial).is_ne() {
        return None;
    }
    Some(row.position)
}

/// Looks a serial up in the rows of an index, as an unsigned number: writes the position of the first entry with it on the list, or
/// answers 50 where no entry has it. Rows that are no index are answered too, by any position or none.
#[unsafe(no_mangle)]
pub extern "C" fn rtv_index_find(rows: &[IndexRow<'_>], serial: &[u8], position: &mut usize) -> u32
    ensures found { (numbers : List ℕ) → IsIndexOf numbers rows.now → IsPositionOf numbers (number_from_digits 256 serial.now) position.new result }
    ensures kept { (result ≡ 0 → ⊥) → position.new ≡ position.old }
{
    match search(rows, &UnsignedBytes::new(serial)) {
        Some(found) => {
            *position = found;
            OK
        }
        None => NOT_FOUND,
    }
}
