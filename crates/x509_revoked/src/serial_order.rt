//! The order of the entries of a list by their serials, where they stand in their octets.

ghost use Rattle.std.specs.Prelude.{◌≡◌, ◌↔◌, IsTrue, drop};
ghost use Rattle.std.specs.List.Sorted.{IsPermutation, IsSorted};
ghost use Rattle.x509_der.specs.Unsigned.{unsigned_number};
ghost use Rattle.x509_revoked.specs.HeadedEntries.{IsHeaded, by_head};
ghost use Rattle.x509_revoked.specs.SerialOrder.{number_at_offset, serial_number};

use crate::headed_entry::HeadedEntry;
use crate::headed_serial::head_of;
use std::cmp::Ordering;
use x509_der::{Place, Tries, UnsignedBytes};
use x509_fields::{sequence_at, serial_at};

/// The serial that stands first in the SEQUENCE at the front of the octets; zero where none does.
fn first_serial<'a>(octets: &'a [u8]) -> UnsignedBytes<'a>
    ensures { unsigned_number result ≡ serial_number octets.now }
{
    let mut tries = Tries::new();
    let place = Place::look(&mut tries, octets);
    let contents = match sequence_at(&place) {
        Ok(contents) => contents,
        Err(_) => return UnsignedBytes::new(&[]),
    };
    match serial_at(&Place::inside(&mut tries, &contents)) {
        Ok((serial, _)) => UnsignedBytes::new(serial),
        Err(_) => UnsignedBytes::new(&[]),
    }
}

/// The octets from an offset on; none where it lies behind them.
pub(crate) fn octets_from<'a>(octets: &'a [u8], offset: usize) -> &'a [u8]
    ensures { result.now ≡ drop offset octets.now }
{
    match octets.get(offset..) {
        Some(left) => left,
        None => &[],
    }
}

/// The serial that stands first in the SEQUENCE at an offset; zero where none does.
pub(crate) fn serial_from<'a>(octets: &'a [u8], offset: u32) -> UnsignedBytes<'a>
    ensures { unsigned_number result ≡ number_at_offset octets.now offset }
{
    first_serial(octets_from(octets, offset as usize))
}

/// The entry that begins at an offset.
pub(crate) fn entry_at(octets: &[u8], offset: u32) -> HeadedEntry
    ensures offset { result.offset ≡ offset }
    ensures headed { IsHeaded octets.now result }
{
    HeadedEntry {
        head: head_of(&serial_from(octets, offset)),
        offset,
    }
}

/// The order of two entries: by their heads, and where these are equal, by their serials as numbers, and then by the offsets.
fn compare_at(octets: &[u8], a: &HeadedEntry, b: &HeadedEntry) -> Ordering
    ensures { result ≡ by_head octets.now a.now b.now }
{
    let heads = a.head.cmp(&b.head);
    if heads.is_ne() {
        return heads;
    }
    let first = serial_from(octets, a.offset);
    let serials = first.cmp(&serial_from(octets, b.offset));
    serials.then(a.offset.cmp(&b.offset))
}

/// Puts entries in this order.
pub(crate) fn sort(octets: &[u8], entries: &mut Vec<HeadedEntry>)
    ensures permutation { IsPermutation entries.old.items entries.new.items }
    ensures sorted { IsSorted (by_head octets.now) entries.new.items }
{
    entries.sort_unstable_by(|a, b| compare_at(octets, a, b));
}

/// Whether entries are in this order.
pub(crate) fn are_in_order(octets: &[u8], entries: &[HeadedEntry]) -> bool
    ensures { IsTrue result ↔ IsSorted (by_head octets.now) entries.now }
{
    for entry in 1..entries.len() {
        if compare_at(octets, &entries[entry], &entries[entry - 1]).is_lt() {
            return false;
        }
    }
    true
}
