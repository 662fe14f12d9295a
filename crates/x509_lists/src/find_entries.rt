//! The entry of a serial among certificates in their octets.

ghost use Rattle.std.specs.Prelude.{◌≡◌, ℕ, List, None, MatchOption, MatchResult};
ghost use Rattle.x509_der.specs.Place.{at};
ghost use Rattle.x509_der.specs.Plan.{got};
ghost use Rattle.x509_der.specs.Unsigned.{unsigned_number};
ghost use Rattle.x509_fields.specs.declared.error.X509Error.TheVariants.{OutOfMemory};
ghost use Rattle.x509_lists.specs.FindEntries.{IsFound, IsSought};
ghost use Rattle.x509_lists.specs.FindRevoked.{first_of, serial_numbers};
ghost use Rattle.x509_lists.specs.ListEntries.{tbs_entries_of};
ghost use Rattle.x509_lists.specs.RevokedCertificate.{Revoked, revoked};
ghost use Rattle.x509_lists.specs.RevokedEntries.{IsSplit, entries_of};

use crate::revoked_certificate::RevokedCertificate;
use crate::revoked_entries::RevokedEntries;
use crate::tbs_cert_list::TbsCertListEntries;
use std::alloc::Global;
use x509_der::{Nowhere, Place, Tries, UnsignedBytes};
use x509_fields::{X509Error, sequence_at, serial_at};

/// The contents octets of the serial of the certificate that stands there; of no meaning where none does.
#[tactic(auto, using(crate::proofs::Passing::serial_first))]
fn first_serial<'a>(tries: &mut Tries, place: &Place<'a, Nowhere>) -> &'a [u8]
    ensures { (entry : Revoked) (next : List ℕ) → revoked.read (at place.now) ≡ got entry next → result.now ≡ entry.raw_serial }
{
    let contents = match sequence_at(place) {
        Ok(contents) => contents,
        Err(_) => return &[],
    };
    match serial_at(&Place::inside(tries, &contents)) {
        Ok((serial, _)) => serial,
        Err(_) => &[],
    }
}

impl<'a> RevokedEntries<'a> {
    /// The serial of the first certificate, and the certificates behind it; none where there is none. No memory is taken, so all serials
    /// can be looked at in turn, with the octets from each certificate on.
    pub fn split_first(&self) -> Option<(UnsignedBytes<'a>, RevokedEntries<'a>)>
        ensures { IsSplit self.now result }
    {
        if self.bytes.is_empty() {
            return None;
        }
        let mut tries = Tries::new();
        let place = Place::look(&mut tries, self.bytes);
        let serial = UnsignedBytes::new(first_serial(&mut tries, &place));
        Some((serial, self.behind_first(&place)))
    }

    /// The position of the first certificate with this serial, and the certificates from it on.
    fn seek(&self, serial: &UnsignedBytes<'_>) -> Option<(usize, RevokedEntries<'a>)>
        ensures { MatchOption result (first_of (serial_numbers (entries_of self.now)) (unsigned_number serial.now) ≡ None)
            (λ x. IsSought (entries_of self.now) (unsigned_number serial.now) x.0 (entries_of x.1)) }
    {
        let mut left = *self;
        let mut position = 0;
        while let Some((first, behind)) = left.split_first() {
            if first == *serial {
                return Some((position, left));
            }
            left = behind;
            position += 1;
        }
        None
    }

    /// The position of the first certificate with this serial, as a number (RFC 5280, section 5.1.2.6); none where no certificate has
    /// it. Each serial is read in turn, which takes no memory.
    pub fn position(&self, serial: &UnsignedBytes<'_>) -> Option<usize>
        ensures { result ≡ first_of (serial_numbers (entries_of self.now)) (unsigned_number serial.now) }
    {
        match self.seek(serial) {
            Some((position, _)) => Some(position),
            None => None,
        }
    }

    /// The same, and the certificate that stands there.
    ///
    /// # Errors
    ///
    /// `OutOfMemory`.
    pub fn find(
        &self,
        alloc: Global,
        serial: &UnsignedBytes<'_>,
    ) -> Result<Option<(usize, RevokedCertificate<'a>)>, X509Error>
        ensures { MatchResult result (IsFound (entries_of self.now) (unsigned_number serial.now)) (λ e. e ≡ OutOfMemory) }
    {
        let (position, left) = match self.seek(serial) {
            Some((position, left)) => (position, left),
            None => return Ok(None),
        };
        match left.iter(alloc).next() {
            Some(Ok(certificate)) => Ok(Some((position, certificate))),
            Some(Err(e)) => Err(e),
            None => Ok(None),
        }
    }
}

impl<'a> TbsCertListEntries<'a> {
    /// The position of the first revoked certificate with this serial, as [`crate::TbsCertList::find_revoked`] answers it.
    pub fn find_revoked(&self, serial: &UnsignedBytes<'_>) -> Option<usize>
        ensures { result ≡ first_of (serial_numbers (tbs_entries_of self.now).revoked_certificates) (unsigned_number serial.now) }
    {
        self.revoked_certificates.position(serial)
    }
}
