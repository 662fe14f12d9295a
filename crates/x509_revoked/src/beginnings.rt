//! The entries of a list, and where they begin in their octets.

ghost use Rattle.std.specs.Prelude.{◌≡◌, ◌<◌, ◌^◌, ◌↔◌, IsTrue, MatchResult, length};
ghost use Rattle.x509_lists.specs.EntriesIn.{HoldsEntries};
ghost use Rattle.x509_revoked.specs.Beginnings.{beginnings};
ghost use Rattle.x509_revoked.specs.HeadedEntries.{AreHeaded, offsets_of};
ghost use Rattle.x509_revoked.specs.declared.index_error.IndexError.TheVariants.{OutOfMemory};

use crate::headed_entry::HeadedEntry;
use crate::index_error::IndexError;
use crate::serial_order::entry_at;
use std::alloc::Global;
use x509_der::{Place, Tries};

/// The entries that fill these octets, in the order of the list.
pub(crate) fn read_beginnings(
    alloc: Global,
    octets: &[u8],
    count: usize,
) -> Result<Vec<HeadedEntry>, IndexError>
    requires holds { HoldsEntries octets.now count }
    requires short { length octets.now < 2 ^ 32 }
    ensures begin { MatchResult result (λ entries. (offsets_of entries.items ≡ beginnings octets.now) × AreHeaded octets.now entries.items)
        (λ e. e ≡ OutOfMemory) }
    ensures held { HoldsEntries octets.now count }
{
    let mut entries = match Vec::with_capacity(alloc, count) {
        Ok(entries) => entries,
        Err(_) => return Err(IndexError::OutOfMemory),
    };
    let mut tries = Tries::new();
    let mut left = octets;
    while !left.is_empty() {
        let offset = (octets.len() - left.len()) as u32;
        if entries.push(entry_at(octets, offset)).is_err() {
            return Err(IndexError::OutOfMemory);
        }
        left = Place::look(&mut tries, left).rest();
    }
    Ok(entries)
}

/// The entries that begin at these offsets.
pub(crate) fn entries_from(
    alloc: Global,
    octets: &[u8],
    offsets: &[u32],
) -> Result<Vec<HeadedEntry>, IndexError>
    ensures { MatchResult result (λ entries. (offsets_of entries.items ≡ offsets.now) × AreHeaded octets.now entries.items) (λ e. e ≡ OutOfMemory) }
{
    let mut entries = match Vec::with_capacity(alloc, offsets.len()) {
        Ok(entries) => entries,
        Err(_) => return Err(IndexError::OutOfMemory),
    };
    for offset in offsets {
        if entries.push(entry_at(octets, *offset)).is_err() {
            return Err(IndexError::OutOfMemory);
        }
    }
    Ok(entries)
}

/// Whether these are where the entries begin that fill the octets, in the order of the list.
pub(crate) fn are_beginnings(octets: &[u8], count: usize, offsets: &[u32]) -> bool
    requires { HoldsEntries octets.now count }
    ensures are { IsTrue result ↔ (offsets.now ≡ beginnings octets.now) }
    ensures held { HoldsEntries octets.now count }
{
    let mut tries = Tries::new();
    let mut left = octets;
    for offset in offsets {
        if left.is_empty() {
            return false;
        }
        if *offset as usize != octets.len() - left.len() {
            return false;
        }
        left = Place::look(&mut tries, left).rest();
    }
    left.is_empty()
}
