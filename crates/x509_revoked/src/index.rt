//! The index of a list.

ghost use Rattle.std.specs.Prelude.{◌≡◌, ◌==◌, ◌<◌, ◌≤◌, ◌+◌, map, MatchResult};
ghost use Rattle.x509_der.specs.Unsigned.{unsigned_number};
ghost use Rattle.x509_fields.specs.declared.error.X509Error.TheVariants.{OutOfMemory};
ghost use Rattle.x509_lists.specs.FindRevoked.{serial_numbers};
ghost use Rattle.x509_lists.specs.RevokedCertificate.{revoked_of};
ghost use Rattle.x509_lists.specs.TbsCertList.{tbs_list_of};
ghost use Rattle.x509_revoked.specs.Entries.{indexed, AreInOrder};

use crate::entry::Entry;
use crate::headed_serial::HeadedSerial;
use crate::ordered::Ordered;
use crate::search::search;
use std::alloc::Global;
use std::cmp::Ordering;
use x509_der::UnsignedBytes;
use x509_fields::X509Error;
use x509_lists::{RevokedCertificate, TbsCertList};

/// The serials of a list of revoked certificates, in order, each with the position of its entry on the list.
///
/// It holds 32 octets for each entry, and borrows the bytes that the list was read from, not the list.
///
/// It goes by serials alone. On an indirect list entries may be of other issuers (RFC 5280, section 5.3.3), and on a delta list
/// one may say that a certificate is to be taken off (section 5.3.1): there the entry that is found says which.
#[derive(Debug, Drop)]
pub struct RevocationIndex<'a> {
    entries: Vec<Entry<'a>>,
    ghost in_order: { AreInOrder (map indexed entries.items) },
}

impl<'a> RevocationIndex<'a> {
    ghost use Rattle.x509_revoked.specs.Index.{IsIndexOf, size, answer, binary_digits};

    /// The index of the certificates on a list.
    ///
    /// # Errors
    ///
    /// `OutOfMemory`.
    pub fn build(list: &TbsCertList<'a>) -> Result<RevocationIndex<'a>, X509Error>
        ensures { MatchResult result (λ index. IsIndexOf (serial_numbers (tbs_list_of list.now).revoked_certificates) index) (λ e. e ≡ OutOfMemory) }
    {
        let entries = &list.revoked_certificates;
        RevocationIndex::from_entries(entries.allocator(), entries.as_slice())
    }

    /// The index of these certificates alone, as those of one issuer on an indirect list (RFC 5280, section 5.3.3): positions are those
    /// among them.
    ///
    /// # Errors
    ///
    /// `OutOfMemory`.
    pub fn from_entries(
        alloc: Global,
        revoked: &[RevokedCertificate<'a>],
    ) -> Result<RevocationIndex<'a>, X509Error>
        ensures { MatchResult result (λ index. IsIndexOf (serial_numbers (map revoked_of revoked.now)) index) (λ e. e ≡ OutOfMemory) }
    {
        let mut entries = Vec::with_capacity(alloc, revoked.len())?;
        for certificate in revoked {
            let entry = Entry::new(certificate.user_certificate, entries.len());
            if entries.push(entry).is_err() {
                return Err(X509Error::OutOfMemory);
            }
        }
        entries.sort_unstable();
        Ok(RevocationIndex { entries })
    }

    /// How many certificates the list has.
    pub fn len(&self) -> usize
        ensures { result ≡ size self.now }
    {
        self.entries.len()
    }

    /// Whether the list has no certificate.
    pub fn is_empty(&self) -> bool
        ensures { result ≡ (size self.now == 0) }
    {
        self.entries.is_empty()
    }

    /// The position of the first certificate on the list with this serial, as a number (RFC 5280, section 5.1.2.6); none where
    /// no certificate has it.
    pub fn find(&self, serial: &UnsignedBytes<'_>) -> Option<usize>
        ensures { result ≡ answer self.now (unsigned_number serial.now) }
    {
        let (position, _) = self.find_counted(serial);
        position
    }

    /// The same, and how many times two serials were compared: at most once more than the count of entries has binary digits.
    pub fn find_counted(&self, serial: &UnsignedBytes<'_>) -> (Option<usize>, u32)
        ensures found { result.0 ≡ answer self.now (unsigned_number serial.now) }
        ensures least { 0 < size self.now → 0 < result.1 }
        ensures most { result.1 ≤ binary_digits (size self.now) + 1 }
    {
        search(self, serial)
    }
}

impl Ordered for RevocationIndex<'_> {
    ghost indexed = { λ index. map indexed index.entries.items };

    fn count(&self) -> usize {
        self.entries.len()
    }

    fn compare(&self, entry: usize, serial: &HeadedSerial<'_>, compared: &mut u32) -> Ordering {
        self.entries[entry].compare(serial, compared)
    }

    fn place(&self, entry: usize) -> usize {
        self.entries[entry].position()
    }
}
