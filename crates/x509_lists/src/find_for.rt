//! The entry of an issuer's serial on an indirect list.

ghost use Rattle.std.specs.Prelude.{◌≡◌, ◌⊎◌, Some, None, map, option_map, MatchResult};
ghost use Rattle.std.specs.List.{list_any};
ghost use Rattle.x509_der.specs.Unsigned.{unsigned_number};
ghost use Rattle.x509_fields.specs.declared.error.X509Error.TheVariants.{InvalidExtensions, OutOfMemory};
ghost use Rattle.x509_general_names.specs.GeneralName.{general_name_of};
ghost use Rattle.x509_lists.specs.EntryIssuers.{FindsFor, IsFoundFor, IsPlace, is_name, is_of, place_on, said_by, said_of, unreadable};
ghost use Rattle.x509_lists.specs.ListEntries.{tbs_entries_of};
ghost use Rattle.x509_lists.specs.RevokedCertificate.{revoked_of};
ghost use Rattle.x509_lists.specs.TbsCertList.{tbs_list_of};
ghost use Rattle.x509_names.specs.Names.{name_of};

use crate::revoked_certificate::RevokedCertificate;
use crate::tbs_cert_list::{TbsCertList, TbsCertListEntries};
use std::alloc::Global;
use x509_der::{FromDer, Oid, Sequence, Tries, UnsignedBytes};
use x509_fields::X509Error;
use x509_general_names::{GeneralName, SubjectAlternativeName};
use x509_names::X509Name;

/// The identifier of certificateIssuer (RFC 5280, section 5.3.3): 2.5.29.29.
const CERTIFICATE_ISSUER: &[u8] = &[0x55, 0x1d, 0x1d];

/// Whether this is the issuer's name, octet for octet.
fn is_name(name: &GeneralName<'_>, issuer: &[u8]) -> bool
    ensures { result ≡ is_name issuer.now (general_name_of name.now) }
{
    match name {
        GeneralName::DirectoryName(name) => name.as_raw() == issuer,
        _ => false,
    }
}

/// Whether one of these is.
fn are_of(names: &[GeneralName<'_>], issuer: &[u8]) -> bool
    ensures { result ≡ list_any (is_name issuer.now) (map general_name_of names.now) }
{
    names.iter().any(|name| is_name(name, issuer))
}

impl<'a> RevokedCertificate<'a> {
    /// The names of the issuer of this certificate, and of those of the entries behind it up to the next that names its own
    /// (certificateIssuer; RFC 5280, section 5.3.3): read anew, none where the entry doesn't name one.
    ///
    /// # Errors
    ///
    /// `InvalidExtensions` where they can't be read, or bytes stand behind them; and `OutOfMemory`.
    pub fn certificate_issuer(
        &self,
        alloc: Global,
    ) -> Result<Option<Sequence<GeneralName<'a>>>, X509Error>
        ensures { MatchResult result (λ said. said_by (revoked_of self.now).extensions ≡ said_of (option_map (map general_name_of) said))
            (λ e. (e ≡ OutOfMemory) ⊎ ((e ≡ InvalidExtensions) × (said_by (revoked_of self.now).extensions ≡ unreadable))) }
    {
        let oid = Oid::new(CERTIFICATE_ISSUER);
        let value = match self.find_extension(&oid) {
            Some(extension) => extension.value,
            None => return Ok(None),
        };
        match SubjectAlternativeName::read(alloc, &mut Tries::new(), value) {
            Ok((rest, SubjectAlternativeName { general_names })) => {
                if !rest.is_empty() {
                    return Err(X509Error::InvalidExtensions);
                }
                Ok(Some(general_names))
            }
            Err(e) => {
                if e.is_out_of_memory() {
                    return Err(X509Error::OutOfMemory);
                }
                Err(X509Error::InvalidExtensions)
            }
        }
    }
}

/// Whether an entry is of this issuer, where the entry before it is, or isn't.
fn is_entry_of(
    alloc: Global,
    entry: &RevokedCertificate<'_>,
    issuer: &[u8],
    before: bool,
) -> Result<bool, X509Error>
    ensures { MatchResult result (λ ours. is_of issuer.now before (said_by (revoked_of entry.now).extensions) ≡ Some ours)
        (λ e. (e ≡ OutOfMemory) ⊎ ((e ≡ InvalidExtensions) × (is_of issuer.now before (said_by (revoked_of entry.now).extensions) ≡ None))) }
{
    match entry.certificate_issuer(alloc)? {
        Some(names) => Ok(are_of(names.as_slice(), issuer)),
        None => Ok(before),
    }
}

impl<'a> TbsCertListEntries<'a> {
    /// The first entry of this issuer's certificate with this serial, and its position (RFC 5280, section 5.3.3). An entry is of the issuers
    /// that its certificateIssuer names; where it has none, of those of the entry before it, and the first, of the list's own issuer. Names are
    /// compared octet for octet. An entry whose extensions can't be read at all has none: a strict reading refuses such a list.
    ///
    /// # Errors
    ///
    /// `InvalidExtensions` where a certificateIssuer up to that entry can't be read, so that nobody knows whose the entries behind it are; and
    /// `OutOfMemory`.
    pub fn find_for(
        &self,
        alloc: Global,
        issuer: &X509Name<'_>,
        serial: &UnsignedBytes<'_>,
    ) -> Result<Option<(usize, RevokedCertificate<'a>)>, X509Error>
        ensures { FindsFor (IsFoundFor (tbs_entries_of self.now).revoked_certificates)
            (place_on (tbs_entries_of self.now) (name_of issuer.now).raw (unsigned_number serial.now)) result }
    {
        let mut ours = self.issuer.as_raw() == issuer.as_raw();
        let mut position = 0;
        let mut entries = self.revoked_certificates.iter(alloc);
        while let Some(read) = entries.next() {
            let entry = match read {
                Ok(entry) => entry,
                Err(e) => return Err(e),
            };
            ours = is_entry_of(alloc, &entry, issuer.as_raw(), ours)?;
            if ours & (entry.user_certificate == *serial) {
                return Ok(Some((position, entry)));
            }
            position += 1;
        }
        Ok(None)
    }
}

impl<'a> TbsCertList<'a> {
    /// The position of the first entry of this issuer's certificate with this serial, as [`TbsCertListEntries::find_for`] answers it. The names
    /// that entries say are read anew, with memory from where the list takes its own.
    ///
    /// # Errors
    ///
    /// As there.
    pub fn find_for(
        &self,
        issuer: &X509Name<'_>,
        serial: &UnsignedBytes<'_>,
    ) -> Result<Option<usize>, X509Error>
        ensures { FindsFor IsPlace (place_on (tbs_list_of self.now) (name_of issuer.now).raw (unsigned_number serial.now)) result }
    {
        let alloc = self.revoked_certificates.allocator();
        let mut ours = self.issuer.as_raw() == issuer.as_raw();
        let mut position = 0;
        let revoked = self.revoked_certificates.as_slice();
        for certificate in revoked {
            ours = is_entry_of(alloc, certificate, issuer.as_raw(), ours)?;
            if ours & (certificate.user_certificate == *serial) {
                return Ok(Some(position));
            }
            position += 1;
        }
        Ok(None)
    }
}
