//! A visitor of lists with a method for each visit.

use crate::calls::recorder::Recorder;
use x509_der::{BerError, BitString, Err, UnsignedBytes};
use x509_extensions::X509Extension;
use x509_fields::{ASN1Time, AlgorithmIdentifier, ReasonCode, X509Error, X509Version};
use x509_general_names::{
    AuthorityInfoAccess, AuthorityKeyIdentifier, IssuerAlternativeName, IssuingDistributionPoint,
};
use x509_lists::{RevokedCertificate, TbsCertList};
use x509_names::X509Name;
use x509_values::SignedCertificateTimestamp;
use x509_visitors::CertificateRevocationListVisitor;

impl CertificateRevocationListVisitor for Recorder {
    ghost use Rattle.std.specs.Prelude.{⊤};

    ghost step = { λ _ _ _ _. ⊤ };

    fn visit_tbs_cert_list(&mut self, tbs: &TbsCertList<'_>) -> Result<(), X509Error> {
        self.note_bytes("visit_tbs_cert_list", tbs.as_ref())
    }

    fn visit_signature_algorithm(
        &mut self,
        algorithm: &AlgorithmIdentifier<'_>,
    ) -> Result<(), X509Error> {
        self.note("visit_signature_algorithm", algorithm)
    }

    fn visit_signature_value(&mut self, signature: &BitString<'_>) -> Result<(), X509Error> {
        self.note("visit_signature_value", signature)
    }

    fn visit_version(&mut self, version: Option<&X509Version>) -> Result<(), X509Error> {
        self.note_any("visit_version", version)
    }

    fn visit_tbs_signature_algorithm(
        &mut self,
        algorithm: &AlgorithmIdentifier<'_>,
    ) -> Result<(), X509Error> {
        self.note("visit_tbs_signature_algorithm", algorithm)
    }

    fn visit_issuer(&mut self, name: &X509Name<'_>) -> Result<(), X509Error> {
        self.note("visit_issuer", name)
    }

    fn visit_this_update(&mut self, time: &ASN1Time) -> Result<(), X509Error> {
        self.note("visit_this_update", time)
    }

    fn visit_next_update(&mut self, time: Option<&ASN1Time>) -> Result<(), X509Error> {
        self.note_any("visit_next_update", time)
    }

    fn visit_revoked_certificates(
        &mut self,
        certificates: &[RevokedCertificate<'_>],
    ) -> Result<(), X509Error> {
        self.note_count("visit_revoked_certificates", certificates.len())
    }

    fn visit_revoked_certificate(
        &mut self,
        certificate: &RevokedCertificate<'_>,
    ) -> Result<(), X509Error> {
        self.note("visit_revoked_certificate", certificate)
    }

    fn pre_visit_extensions(&mut self, extensions: &[X509Extension<'_>]) -> Result<(), X509Error> {
        self.note_ids("pre_visit_extensions", extensions)
    }

    fn visit_extension(&mut self, extension: &X509Extension<'_>) -> Result<(), X509Error> {
        self.note("visit_extension", extension)
    }

    fn visit_extension_authority_information_access(
        &mut self,
        access: &AuthorityInfoAccess<'_>,
    ) -> Result<(), X509Error> {
        self.note("visit_extension_authority_information_access", access)
    }

    fn visit_extension_aki(
        &mut self,
        identifier: &AuthorityKeyIdentifier<'_>,
    ) -> Result<(), X509Error> {
        self.note("visit_extension_aki", identifier)
    }

    fn visit_extension_issuer_alternative_name(
        &mut self,
        names: &IssuerAlternativeName<'_>,
    ) -> Result<(), X509Error> {
        self.note("visit_extension_issuer_alternative_name", names)
    }

    fn visit_extension_sct(
        &mut self,
        timestamps: &[SignedCertificateTimestamp<'_>],
    ) -> Result<(), X509Error> {
        self.note_all("visit_extension_sct", timestamps)
    }

    fn visit_extension_crl_number(&mut self, number: &UnsignedBytes<'_>) -> Result<(), X509Error> {
        self.note("visit_extension_crl_number", number)
    }

    fn visit_extension_invalidity_date(&mut self, date: &ASN1Time) -> Result<(), X509Error> {
        self.note("visit_extension_invalidity_date", date)
    }

    fn visit_extension_issuing_distribution_point(
        &mut self,
        point: &IssuingDistributionPoint<'_>,
    ) -> Result<(), X509Error> {
        self.note("visit_extension_issuing_distribution_point", point)
    }

    fn visit_extension_reason_code(&mut self, reason: &ReasonCode) -> Result<(), X509Error> {
        self.note("visit_extension_reason_code", reason)
    }

    fn visit_extension_parse_error(
        &mut self,
        extension: &X509Extension<'_>,
        error: &Err<BerError>,
    ) -> Result<(), X509Error> {
        self.note_error("visit_extension_parse_error", extension, error)
    }

    fn visit_extension_unknown(&mut self, extension: &X509Extension<'_>) -> Result<(), X509Error> {
        self.note("visit_extension_unknown", extension)
    }

    fn post_visit_extensions(&mut self, extensions: &[X509Extension<'_>]) -> Result<(), X509Error> {
        self.note_ids("post_visit_extensions", extensions)
    }
}
