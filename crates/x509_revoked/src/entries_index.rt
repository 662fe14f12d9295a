//! The index of a list whose entries stay in their octets.

ghost use Rattle.std.specs.Prelude.{◌≡◌, ◌==◌, ◌<◌, ◌≤◌, ◌+◌, ◌⊎◌, ◌^◌, length, MatchResult};
ghost use Rattle.x509_der.specs.Unsigned.{unsigned_number};
ghost use Rattle.x509_fields.specs.declared.error.X509Error.TheVariants.{OutOfMemory};
ghost use Rattle.x509_lists.specs.EntriesIn.{HoldsEntries};
ghost use Rattle.x509_lists.specs.RevokedEntries.{octets_of, entries_of};
ghost use Rattle.x509_revoked.specs.declared.index_error.IndexError.TheVariants as errors;
ghost use Rattle.x509_revoked.specs.HeadedEntries.{AreHeaded, offsets_of};
ghost use Rattle.x509_revoked.specs.IndexOf.{AreIndexOf, IsFileOf};

use crate::beginnings::{are_beginnings, entries_from, read_beginnings};
use crate::headed_entry::HeadedEntry;
use crate::headed_serial::HeadedSerial;
use crate::index_error::IndexError;
use crate::index_file::{read_index, write_index};
use crate::ordered::Ordered;
use crate::search::search;
use crate::serial_order::{are_in_order, octets_from, serial_from, sort};
use std::alloc::Global;
use std::cmp::Ordering;
use x509_der::{FromDer, Tries, UnsignedBytes};
use x509_fields::X509Error;
use x509_lists::{RevokedCertificate, RevokedEntries};

/// Where the entries of a list begin in their octets, in the order of the serials, each with the head of its serial: how many octets it
/// has, and the first seven of them. Where heads differ, a look-up reads no octets; where they are equal, the octets decide.
///
/// It holds 16 octets for each entry, and borrows the octets that it is of: so it can't be asked of another list. It can be written
/// out and read back; octets that aren't the index of the list are refused then.
///
/// It goes by serials alone. On an indirect list entries may be of other issuers (RFC 5280, section 5.3.3), and on a delta list
/// one may say that a certificate is to be taken off (section 5.3.1): there the entry that is found says which.
#[derive(Debug, Drop)]
pub struct EntriesIndex<'a> {
    octets: &'a [u8],
    entries: Vec<HeadedEntry>,
    ghost holds: { HoldsEntries octets.now (length entries.items) },
    ghost is_index: { AreIndexOf octets.now (offsets_of entries.items) },
    ghost are_headed: { AreHeaded octets.now entries.items },
}

impl<'a> EntriesIndex<'a> {
    ghost use Rattle.x509_revoked.specs.OctetsIndex.{indexed_entries, BeginsFirst, IsFirst};
    ghost use Rattle.x509_revoked.specs.Index.{binary_digits};

    /// The index of the entries of a list.
    ///
    /// # Errors
    ///
    /// `OutOfMemory`, and `TooLong` where the entries take 4 GiB or more.
    pub fn build(
        alloc: Global,
        entries: &RevokedEntries<'a>,
    ) -> Result<EntriesIndex<'a>, IndexError>
        ensures { MatchResult result (λ index. (index.octets.now ≡ octets_of entries.now) × (indexed_entries index ≡ entries_of entries.now))
            (λ e. (e ≡ errors.OutOfMemory) ⊎ ((e ≡ errors.TooLong) × (2 ^ 32 ≤ length (octets_of entries.now)))) }
    {
        let octets = entries.as_bytes();
        if octets.len() > u32::MAX as usize {
            return Err(IndexError::TooLong);
        }
        let mut indexed = read_beginnings(alloc, octets, entries.len())?;
        sort(octets, &mut indexed);
        Ok(EntriesIndex {
            octets,
            entries: indexed,
        })
    }

    /// How many entries the list has.
    pub fn len(&self) -> usize
        ensures { result ≡ length (indexed_entries self.now) }
    {
        self.entries.len()
    }

    /// Whether the list has no entry.
    pub fn is_empty(&self) -> bool
        ensures { result ≡ (length (indexed_entries self.now) == 0) }
    {
        self.entries.is_empty()
    }

    /// The first entry of the list with this serial, as a number (RFC 5280, section 5.1.2.6); none where no entry has it. Its extensions
    /// take memory from here.
    ///
    /// # Errors
    ///
    /// `OutOfMemory`.
    pub fn find(
        &self,
        alloc: Global,
        serial: &UnsignedBytes<'_>,
    ) -> Result<Option<RevokedCertificate<'a>>, X509Error>
        ensures { MatchResult result (IsFirst (indexed_entries self.now) (unsigned_number serial.now)) (λ e. e ≡ OutOfMemory) }
    {
        let (found, _) = self.find_counted(serial);
        let offset = match found {
            Some(offset) => offset,
            None => return Ok(None),
        };
        let entry = octets_from(self.octets, offset);
        match RevokedCertificate::read(alloc, &mut Tries::new(), entry) {
            Ok((_, certificate)) => Ok(Some(certificate)),
            Err(_) => Err(X509Error::OutOfMemory),
        }
    }

    /// The offset at which that entry begins among the octets of the entries, and how many times two serials were compared: at most
    /// once more than the count of entries has binary digits.
    pub fn find_counted(&self, serial: &UnsignedBytes<'_>) -> (Option<usize>, u32)
        ensures found { BeginsFirst self.now (unsigned_number serial.now) result.0 }
        ensures least { 0 < length (indexed_entries self.now) → 0 < result.1 }
        ensures most { result.1 ≤ binary_digits (length (indexed_entries self.now)) + 1 }
    {
        search(self, serial)
    }

    /// The index as octets.
    ///
    /// # Errors
    ///
    /// `OutOfMemory`.
    pub fn to_bytes(&self, alloc: Global) -> Result<Vec<u8>, IndexError>
        ensures { MatchResult result (λ file. IsFileOf self.now.octets.now file.items) (λ e. e ≡ errors.OutOfMemory) }
    {
        write_index(alloc, self.octets.len(), self.entries.as_slice())
    }

    /// The index of a list from what [`EntriesIndex::to_bytes`] wrote.
    ///
    /// # Errors
    ///
    /// `OutOfMemory`, `TooLong` where the entries take 4 GiB or more, and else, where the octets aren't the index of this list, why: `CutShort`, `NotAnIndex`,
    /// `OtherVersion`, `OtherList`, `TrailingOctets`, `NotTheEntries` and `NotInOrder`.
    pub fn from_bytes(
        alloc: Global,
        entries: &RevokedEntries<'a>,
        file: &[u8],
    ) -> Result<EntriesIndex<'a>, IndexError>
        ensures { MatchResult result
            (λ index. (index.octets.now ≡ octets_of entries.now) × (indexed_entries index ≡ entries_of entries.now) × IsFileOf index.octets.now file.now)
            (λ e. (e ≡ errors.OutOfMemory)
            ⊎ (((e ≡ errors.TooLong) × (2 ^ 32 ≤ length (octets_of entries.now))) ⊎ (IsFileOf (octets_of entries.now) file.now → ⊥))) }
    {
        let octets = entries.as_bytes();
        if octets.len() > u32::MAX as usize {
            return Err(IndexError::TooLong);
        }
        let mut offsets = match read_index(alloc, entries.len(), octets.len(), file) {
            Ok(offsets) => offsets,
            Err(e) => return Err(e),
        };
        let indexed = entries_from(alloc, octets, offsets.as_slice())?;
        offsets.sort_unstable();
        if !are_beginnings(octets, entries.len(), offsets.as_slice()) {
            return Err(IndexError::NotTheEntries);
        }
        if !are_in_order(octets, indexed.as_slice()) {
            return Err(IndexError::NotInOrder);
        }
        Ok(EntriesIndex {
            octets,
            entries: indexed,
        })
    }
}

impl Ordered for EntriesIndex<'_> {
    ghost use Rattle.x509_revoked.specs.OctetsIndex.{placed_in};

    ghost indexed = { placed_in };

    fn count(&self) -> usize {
        self.entries.len()
    }

    fn compare(&self, entry: usize, serial: &HeadedSerial<'_>, compared: &mut u32) -> Ordering {
        *compared += 1;
        let there = self.entries[entry];
        let head = serial.head();
        if there.head < head {
            return Ordering::Less;
        }
        if there.head > head {
            return Ordering::Greater;
        }
        serial_from(self.octets, there.offset).cmp(serial.serial())
    }

    fn place(&self, entry: usize) -> usize {
        self.entries[entry].offset as usize
    }
}
