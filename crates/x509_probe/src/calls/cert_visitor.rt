//! A visitor of certificates with a method for each visit.

use crate::calls::recorder::Recorder;
use x509_certs::{TbsCertificate, UniqueIdentifier, Validity};
use x509_der::{BerError, BitString, Err};
use x509_extensions::X509Extension;
use x509_fields::{AlgorithmIdentifier, X509Error, X509Version};
use x509_general_names::{
    AuthorityInfoAccess, AuthorityKeyIdentifier, CRLDistributionPoints, IssuerAlternativeName,
    KeyIdentifier, NameConstraints, SubjectAlternativeName,
};
use x509_keys::SubjectPublicKeyInfo;
use x509_names::X509Name;
use x509_values::{
    BasicConstraints, CertificatePolicies, ExtendedKeyUsage, InhibitAnyPolicy, KeyUsage,
    NSCertType, PolicyConstraints, PolicyMappings, SignedCertificateTimestamp,
};
use x509_visitors::X509CertificateVisitor;

impl X509CertificateVisitor for Recorder {
    ghost use Rattle.std.specs.Prelude.{⊤};

    ghost step = { λ _ _ _ _. ⊤ };

    fn visit_tbs_certificate(&mut self, tbs: &TbsCertificate<'_>) -> Result<(), X509Error> {
        self.note_bytes("visit_tbs_certificate", tbs.as_ref())
    }

    fn visit_signature_algorithm(
        &mut self,
        algorithm: &AlgorithmIdentifier<'_>,
    ) -> Result<(), X509Error> {
        self.note("visit_signature_algorithm", algorithm)
    }

    fn visit_signature_value(&mut self, signature: &BitString<'_>) -> Result<(), X509Error> {
        self.note("visit_signature_value", signature)
    }

    fn visit_version(&mut self, version: &X509Version) -> Result<(), X509Error> {
        self.note("visit_version", version)
    }

    fn visit_serial_number(&mut self, serial: &[u8]) -> Result<(), X509Error> {
        self.note_bytes("visit_serial_number", serial)
    }

    fn visit_tbs_signature_algorithm(
        &mut self,
        algorithm: &AlgorithmIdentifier<'_>,
    ) -> Result<(), X509Error> {
        self.note("visit_tbs_signature_algorithm", algorithm)
    }

    fn visit_issuer(&mut self, name: &X509Name<'_>) -> Result<(), X509Error> {
        self.note("visit_issuer", name)
    }

    fn visit_validity(&mut self, validity: &Validity) -> Result<(), X509Error> {
        self.note("visit_validity", validity)
    }

    fn visit_subject(&mut self, name: &X509Name<'_>) -> Result<(), X509Error> {
        self.note("visit_subject", name)
    }

    fn visit_subject_public_key_info(
        &mut self,
        key: &SubjectPublicKeyInfo<'_>,
    ) -> Result<(), X509Error> {
        self.note("visit_subject_public_key_info", key)
    }

    fn visit_issuer_unique_id(
        &mut self,
        id: Option<&UniqueIdentifier<'_>>,
    ) -> Result<(), X509Error> {
        self.note_any("visit_issuer_unique_id", id)
    }

    fn visit_subject_unique_id(
        &mut self,
        id: Option<&UniqueIdentifier<'_>>,
    ) -> Result<(), X509Error> {
        self.note_any("visit_subject_unique_id", id)
    }

    fn pre_visit_extensions(&mut self, extensions: &[X509Extension<'_>]) -> Result<(), X509Error> {
        self.note_ids("pre_visit_extensions", extensions)
    }

    fn visit_extension(&mut self, extension: &X509Extension<'_>) -> Result<(), X509Error> {
        self.note("visit_extension", extension)
    }

    fn visit_extension_authority_information_access(
        &mut self,
        access: &AuthorityInfoAccess<'_>,
    ) -> Result<(), X509Error> {
        self.note("visit_extension_authority_information_access", access)
    }

    fn visit_extension_aki(
        &mut self,
        identifier: &AuthorityKeyIdentifier<'_>,
    ) -> Result<(), X509Error> {
        self.note("visit_extension_aki", identifier)
    }

    fn visit_extension_basic_constraints(
        &mut self,
        constraints: &BasicConstraints,
    ) -> Result<(), X509Error> {
        self.note("visit_extension_basic_constraints", constraints)
    }

    fn visit_extension_certificate_policies(
        &mut self,
        policies: &CertificatePolicies<'_>,
    ) -> Result<(), X509Error> {
        self.note("visit_extension_certificate_policies", policies)
    }

    fn visit_extension_crl_distribution_points(
        &mut self,
        points: &CRLDistributionPoints<'_>,
    ) -> Result<(), X509Error> {
        self.note("visit_extension_crl_distribution_points", points)
    }

    fn visit_extension_extended_key_usage(
        &mut self,
        usage: &ExtendedKeyUsage<'_>,
    ) -> Result<(), X509Error> {
        self.note("visit_extension_extended_key_usage", usage)
    }

    fn visit_extension_inhibit_anypolicy(
        &mut self,
        policy: &InhibitAnyPolicy,
    ) -> Result<(), X509Error> {
        self.note("visit_extension_inhibit_anypolicy", policy)
    }

    fn visit_extension_issuer_alternative_name(
        &mut self,
        names: &IssuerAlternativeName<'_>,
    ) -> Result<(), X509Error> {
        self.note("visit_extension_issuer_alternative_name", names)
    }

    fn visit_extension_key_usage(&mut self, usage: &KeyUsage) -> Result<(), X509Error> {
        self.note("visit_extension_key_usage", usage)
    }

    fn visit_extension_nscert_type(&mut self, kind: &NSCertType) -> Result<(), X509Error> {
        self.note("visit_extension_nscert_type", kind)
    }

    fn visit_extension_name_constraints(
        &mut self,
        constraints: &NameConstraints<'_>,
    ) -> Result<(), X509Error> {
        self.note("visit_extension_name_constraints", constraints)
    }

    fn visit_extension_nscert_comment(&mut self, comment: &str) -> Result<(), X509Error> {
        self.note_bytes("visit_extension_nscert_comment", comment.as_bytes())
    }

    fn visit_extension_policy_constraints(
        &mut self,
        constraints: &PolicyConstraints,
    ) -> Result<(), X509Error> {
        self.note("visit_extension_policy_constraints", constraints)
    }

    fn visit_extension_policy_mappings(
        &mut self,
        mappings: &PolicyMappings<'_>,
    ) -> Result<(), X509Error> {
        self.note("visit_extension_policy_mappings", mappings)
    }

    fn visit_extension_sct(
        &mut self,
        timestamps: &[SignedCertificateTimestamp<'_>],
    ) -> Result<(), X509Error> {
        self.note_all("visit_extension_sct", timestamps)
    }

    fn visit_extension_subject_alternative_name(
        &mut self,
        names: &SubjectAlternativeName<'_>,
    ) -> Result<(), X509Error> {
        self.note("visit_extension_subject_alternative_name", names)
    }

    fn visit_extension_ski(&mut self, identifier: &KeyIdentifier<'_>) -> Result<(), X509Error> {
        self.note("visit_extension_ski", identifier)
    }

    fn visit_extension_parse_error(
        &mut self,
        extension: &X509Extension<'_>,
        error: &Err<BerError>,
    ) -> Result<(), X509Error> {
        self.note_error("visit_extension_parse_error", extension, error)
    }

    fn visit_extension_unknown(&mut self, extension: &X509Extension<'_>) -> Result<(), X509Error> {
        self.note("visit_extension_unknown", extension)
    }

    fn post_visit_extensions(&mut self, extensions: &[X509Extension<'_>]) -> Result<(), X509Error> {
        self.note_ids("post_visit_extensions", extensions)
    }
}
