//! Extensions of a list and of a revoked certificate by their identifiers, and what they say.

ghost use Rattle.std.specs.Prelude.{◌≡◌, option_map};
ghost use Rattle.std.specs.List.{find};
ghost use Rattle.std.specs.Option.{option_copied};
ghost use Rattle.x509_der.specs.Oid.{oid_bytes};
ghost use Rattle.x509_names.specs.Objects as objects;
ghost use Rattle.x509_extensions.specs.Lookups.{MapsExtensions, has_oid, first_said, crl_number_in, reason_code_in, invalidity_date_in};

use crate::certificate_list::CertificateListOf;
use crate::revoked_certificate::RevokedCertificate;
use crate::tbs_cert_list::TbsCertListOf;
use std::alloc::Global;
use std::collections::HashMap;
use std::hash::BuildHasher;
use x509_der::{Oid, UnsignedBytes};
use x509_extensions::{ParsedExtension, X509Extension};
use x509_fields::{ASN1Time, ReasonCode, X509Error};
use x509_names::{OID_X509_EXT_CRL_NUMBER, OID_X509_EXT_INVALIDITY_DATE, OID_X509_EXT_REASON_CODE};

impl<'a, R> TbsCertListOf<'a, R> {
    /// The first extension with this identifier.
    pub fn find_extension(&self, oid: &Oid<'_>) -> Option<&X509Extension<'a>>
        ensures { option_copied result ≡ find (has_oid (oid_bytes oid.now)) self.now.extensions }
    {
        x509_extensions::find_extension(self.extensions(), oid)
    }

    /// Each extension under its identifier.
    ///
    /// # Errors
    ///
    /// `DuplicateExtensions` where an identifier stands twice, and `OutOfMemory`.
    pub fn extensions_map<S: BuildHasher + Drop>(
        &self,
        alloc: Global,
        hasher: S,
    ) -> Result<HashMap<Oid<'a>, &X509Extension<'a>, S>, X509Error>
        ensures { MapsExtensions self.now.extensions result }
    {
        x509_extensions::extensions_map(alloc, self.extensions(), hasher)
    }
}

impl<'a> RevokedCertificate<'a> {
    /// The first extension with this identifier.
    pub fn find_extension(&self, oid: &Oid<'_>) -> Option<&X509Extension<'a>>
        ensures { option_copied result ≡ find (has_oid (oid_bytes oid.now)) self.now.extensions }
    {
        x509_extensions::find_extension(self.extensions(), oid)
    }

    /// Each extension under its identifier.
    ///
    /// # Errors
    ///
    /// `DuplicateExtensions` where an identifier stands twice, and `OutOfMemory`.
    pub fn extensions_map<S: BuildHasher + Drop>(
        &self,
        alloc: Global,
        hasher: S,
    ) -> Result<HashMap<Oid<'a>, &X509Extension<'a>, S>, X509Error>
        ensures { MapsExtensions self.now.extensions result }
    {
        x509_extensions::extensions_map(alloc, self.extensions(), hasher)
    }

    /// Whether the reason is critical, and why the certificate was revoked (RFC 5280, section 5.3.1), as the first extension with that
    /// identifier says; none where its value can't be read.
    pub fn reason_code(&self) -> Option<(bool, ReasonCode)>
        ensures { result ≡ first_said reason_code_in (find (has_oid objects.reason_code) self.now.extensions) }
    {
        let extension = self.find_extension(&Oid::new(OID_X509_EXT_REASON_CODE))?;
        match extension.parsed_extension() {
            ParsedExtension::ReasonCode(reason) => Some((extension.critical, *reason)),
            _ => None,
        }
    }

    /// Whether the date is critical, and since when the certificate is held to be invalid (RFC 5280, section 5.3.2), as the first
    /// extension with that identifier says; none where its value can't be read.
    pub fn invalidity_date(&self) -> Option<(bool, ASN1Time)>
        ensures { result ≡ first_said invalidity_date_in (find (has_oid objects.invalidity_date) self.now.extensions) }
    {
        let extension = self.find_extension(&Oid::new(OID_X509_EXT_INVALIDITY_DATE))?;
        match extension.parsed_extension() {
            ParsedExtension::InvalidityDate(date) => Some((extension.critical, *date)),
            _ => None,
        }
    }
}

// The number of a list with these extensions, as the first with that identifier says.
fn crl_number_among<'v, 'a>(extensions: &'v [X509Extension<'a>]) -> Option<&'v UnsignedBytes<'a>>
    ensures { option_map (λ number. number.now) result
        ≡ option_map (λ said. said.1) (first_said crl_number_in (find (has_oid objects.crl_number) extensions.now)) }
{
    let extension = x509_extensions::find_extension(
        extensions,
        &Oid::new(OID_X509_EXT_CRL_NUMBER),
    )?;
    match extension.parsed_extension() {
        ParsedExtension::CRLNumber(number) => Some(number),
        _ => None,
    }
}

impl<'a, R> CertificateListOf<'a, R> {
    /// The number of the list (RFC 5280, section 5.2.3), as the first extension with that identifier says; none where its value
    /// can't be read.
    pub fn crl_number(&self) -> Option<&UnsignedBytes<'a>>
        ensures { option_map (λ number. number.now) result
            ≡ option_map (λ said. said.1) (first_said crl_number_in (find (has_oid objects.crl_number) self.now.tbs_cert_list.extensions)) }
    {
        crl_number_among(self.extensions())
    }
}
