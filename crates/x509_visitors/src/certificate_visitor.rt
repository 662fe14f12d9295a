//! Visitors with a method for each part.

ghost use Rattle.x509_fields.specs.Visits.{StepsOrSkips};
ghost use Rattle.x509_visitors.specs.CertificateEvents.{of_extensions};
ghost use Rattle.x509_visitors.specs.ExtensionVisits.{event_of};

use crate::certificate_visit::{CertificateVisit, CertificateVisits};
use crate::certificate_walk::WalkCertificate;
use crate::extension_visit::ExtensionVisit;
use x509_certs::{TbsCertificate, UniqueIdentifier, Validity, X509Certificate};
use x509_der::{BerError, BitString, Err};
use x509_extensions::X509Extension;
use x509_fields::{AlgorithmIdentifier, X509Error, X509Version};
use x509_general_names::{
    AuthorityInfoAccess, AuthorityKeyIdentifier, CRLDistributionPoints, IssuerAlternativeName,
    KeyIdentifier, NameConstraints, SubjectAlternativeName,
};
use x509_keys::SubjectPublicKeyInfo;
use x509_names::X509Name;
use x509_values::{
    BasicConstraints, CertificatePolicies, ExtendedKeyUsage, InhibitAnyPolicy, KeyUsage,
    NSCertType, PolicyConstraints, PolicyMappings, SignedCertificateTimestamp,
};

/// Takes those visits of a walk over a certificate that it has a method for; the others change nothing and are accepted.
///
/// An extension is visited twice: as an extension, and then by what its value says. Two extensions of one identifier are both
/// visited. The first visit that answers an `Err` ends the walk.
///
/// A method may be left out, so what a walk promises allows each visit to change nothing. A visitor that promises exactly what each visit
/// does implements [`CertificateVisits`].
pub trait X509CertificateVisitor {
    ghost use Rattle.std.specs.Prelude.{map, option_copied};
    ghost use Rattle.x509_der.specs.Primitives.{bit_string};
    ghost use Rattle.x509_der.specs.Promises.{option_view};
    ghost use Rattle.x509_fields.specs.Algorithm.{algorithm_of};
    ghost use Rattle.x509_names.specs.Names.{name_of};
    ghost use Rattle.x509_keys.specs.KeyInfo.{key_info_of};
    ghost use Rattle.x509_values.specs.BasicConstraints.{basic_constraints_of};
    ghost use Rattle.x509_values.specs.ExtendedKeyUsage.{usages_of};
    ghost use Rattle.x509_values.specs.KeyUsage.{key_usage_of};
    ghost use Rattle.x509_values.specs.NsCertType.{ns_cert_type_of};
    ghost use Rattle.x509_values.specs.Policies.{policy_of};
    ghost use Rattle.x509_values.specs.PolicyConstraints.{policy_constraints_of};
    ghost use Rattle.x509_values.specs.PolicyMapping.{policy_mappings_of};
    ghost use Rattle.x509_general_names.specs.AlternativeNames.{subject_names_of, issuer_names_of};
    ghost use Rattle.x509_general_names.specs.NameConstraints.{constraints_of};
    ghost use Rattle.x509_general_names.specs.AuthorityKeyIdentifier.{authority_key_identifier_of};
    ghost use Rattle.x509_general_names.specs.DistributionPoints.{points_of};
    ghost use Rattle.x509_general_names.specs.InformationAccess.{authority_accesses_of};
    ghost use Rattle.x509_general_names.specs.KeyIdentifier.{key_identifier_of};
    ghost use Rattle.x509_values.specs.Timestamp.{timestamp_of};
    ghost use Rattle.x509_extensions.specs.Extension.{extension_of};
    ghost use Rattle.x509_certs.specs.Certificate.{certificate_of};
    ghost use Rattle.x509_certs.specs.TbsCertificate.{tbs_of};
    ghost use Rattle.x509_certs.specs.UniqueIdentifier.{bits_of_uid};
    ghost use Rattle.x509_certs.specs.Validity.{period_of};
    ghost use Rattle.x509_fields.specs.Visits.{Visited, StepsOrSkips, Walks};
    ghost use Rattle.x509_visitors.specs.CertificateEvents as events;
    ghost use Rattle.x509_visitors.specs.ExtensionEvents as extension_event;

    // what the visits that are written do
    ghost step: { Self → events.Event → Visited → Self → Type 0 } = { λ _ _ _ _. ⊥ };

    /// Leads the visitor over the certificate, in the order of its parts.
    ///
    /// # Errors
    ///
    /// The first that a visit answers.
    final fn walk(&mut self, certificate: &X509Certificate<'_>) -> Result<(), X509Error>
    where
        Self: Sized,
        ensures { Walks (λ s x r t. StepsOrSkips step s x r t) self.old (events.events (certificate_of certificate.now)) result self.new }
    {
        certificate.walk(self)
    }

    /// The part that is signed, before its fields.
    fn visit_tbs_certificate(&mut self, tbs: &TbsCertificate<'_>) -> Result<(), X509Error>
        ensures { StepsOrSkips step self.old (events.tbs_certificate (tbs_of tbs.now)) result self.new }
    {
        let _ = tbs;
        Ok(())
    }

    /// The algorithm of the signature, behind the signed part (RFC 5280, section 4.1.1.2).
    fn visit_signature_algorithm(
        &mut self,
        algorithm: &AlgorithmIdentifier<'_>,
    ) -> Result<(), X509Error>
        ensures { StepsOrSkips step self.old (events.signature_algorithm (algorithm_of algorithm.now)) result self.new }
    {
        let _ = algorithm;
        Ok(())
    }

    /// The bits of the signature (RFC 5280, section 4.1.1.3).
    fn visit_signature_value(&mut self, signature: &BitString<'_>) -> Result<(), X509Error>
        ensures { StepsOrSkips step self.old (events.signature_value (bit_string signature.now)) result self.new }
    {
        let _ = signature;
        Ok(())
    }

    /// The version (RFC 5280, section 4.1.2.1).
    fn visit_version(&mut self, version: &X509Version) -> Result<(), X509Error>
        ensures { StepsOrSkips step self.old (events.version (version.now.0)) result self.new }
    {
        let _ = version;
        Ok(())
    }

    /// The contents octets of the serial, as they stand (RFC 5280, section 4.1.2.2).
    fn visit_serial_number(&mut self, serial: &[u8]) -> Result<(), X509Error>
        ensures { StepsOrSkips step self.old (events.serial_number serial.now) result self.new }
    {
        let _ = serial;
        Ok(())
    }

    /// The algorithm of the signature, as the signed part names it (RFC 5280, section 4.1.2.3).
    fn visit_tbs_signature_algorithm(
        &mut self,
        algorithm: &AlgorithmIdentifier<'_>,
    ) -> Result<(), X509Error>
        ensures { StepsOrSkips step self.old (events.tbs_signature_algorithm (algorithm_of algorithm.now)) result self.new }
    {
        let _ = algorithm;
        Ok(())
    }

    /// Who signed the certificate (RFC 5280, section 4.1.2.4).
    fn visit_issuer(&mut self, name: &X509Name<'_>) -> Result<(), X509Error>
        ensures { StepsOrSkips step self.old (events.issuer (name_of name.now)) result self.new }
    {
        let _ = name;
        Ok(())
    }

    /// When the certificate is valid (RFC 5280, section 4.1.2.5).
    fn visit_validity(&mut self, validity: &Validity) -> Result<(), X509Error>
        ensures { StepsOrSkips step self.old (events.validity (period_of validity.now)) result self.new }
    {
        let _ = validity;
        Ok(())
    }

    /// Whom the certificate is about (RFC 5280, section 4.1.2.6).
    fn visit_subject(&mut self, name: &X509Name<'_>) -> Result<(), X509Error>
        ensures { StepsOrSkips step self.old (events.subject (name_of name.now)) result self.new }
    {
        let _ = name;
        Ok(())
    }

    /// The key of the subject, and its algorithm (RFC 5280, section 4.1.2.7).
    fn visit_subject_public_key_info(
        &mut self,
        key: &SubjectPublicKeyInfo<'_>,
    ) -> Result<(), X509Error>
        ensures { StepsOrSkips step self.old (events.subject_public_key_info (key_info_of key.now)) result self.new }
    {
        let _ = key;
        Ok(())
    }

    /// What tells issuers of one name apart, or that it is absent (RFC 5280, section 4.1.2.8).
    fn visit_issuer_unique_id(&mut self, id: Option<&UniqueIdentifier<'_>>) -> Result<(), X509Error>
        ensures { StepsOrSkips step self.old (events.issuer_unique_id (option_view bits_of_uid (option_copied id.entry))) result self.new }
    {
        let _ = id;
        Ok(())
    }

    /// What tells subjects of one name apart, or that it is absent (RFC 5280, section 4.1.2.8).
    fn visit_subject_unique_id(
        &mut self,
        id: Option<&UniqueIdentifier<'_>>,
    ) -> Result<(), X509Error>
        ensures { StepsOrSkips step self.old (events.subject_unique_id (option_view bits_of_uid (option_copied id.entry))) result self.new }
    {
        let _ = id;
        Ok(())
    }

    /// All extensions, before each of them (RFC 5280, section 4.1.2.9).
    fn pre_visit_extensions(&mut self, extensions: &[X509Extension<'_>]) -> Result<(), X509Error>
        ensures { StepsOrSkips step self.old (events.of_extensions (extension_event.pre_extensions (map extension_of extensions.now))) result self.new }
    {
        let _ = extensions;
        Ok(())
    }

    /// Each extension, before what its value says (RFC 5280, section 4.2).
    fn visit_extension(&mut self, extension: &X509Extension<'_>) -> Result<(), X509Error>
        ensures { StepsOrSkips step self.old (events.of_extensions (extension_event.extension (extension_of extension.now))) result self.new }
    {
        let _ = extension;
        Ok(())
    }

    /// Where more about the issuer is found (RFC 5280, section 4.2.2.1).
    fn visit_extension_authority_information_access(
        &mut self,
        access: &AuthorityInfoAccess<'_>,
    ) -> Result<(), X509Error>
        ensures { StepsOrSkips step self.old (events.of_extensions (extension_event.authority_information_access (authority_accesses_of access.now)))
            result self.new }
    {
        let _ = access;
        Ok(())
    }

    /// Which key of the issuer signed (RFC 5280, section 4.2.1.1).
    fn visit_extension_aki(
        &mut self,
        identifier: &AuthorityKeyIdentifier<'_>,
    ) -> Result<(), X509Error>
        ensures { StepsOrSkips step self.old (events.of_extensions (extension_event.authority_key_identifier (authority_key_identifier_of identifier.now)))
            result self.new }
    {
        let _ = identifier;
        Ok(())
    }

    /// Whether the subject is a certification authority (RFC 5280, section 4.2.1.9).
    fn visit_extension_basic_constraints(
        &mut self,
        constraints: &BasicConstraints,
    ) -> Result<(), X509Error>
        ensures { StepsOrSkips step self.old (events.of_extensions (extension_event.basic_constraints (basic_constraints_of constraints.now))) result self.new }
    {
        let _ = constraints;
        Ok(())
    }

    /// The policies that the certificate was issued under (RFC 5280, section 4.2.1.4).
    fn visit_extension_certificate_policies(
        &mut self,
        policies: &CertificatePolicies<'_>,
    ) -> Result<(), X509Error>
        ensures { StepsOrSkips step self.old (events.of_extensions (extension_event.certificate_policies (map policy_of policies.now))) result self.new }
    {
        let _ = policies;
        Ok(())
    }

    /// Where lists of revoked certificates are found (RFC 5280, section 4.2.1.13).
    fn visit_extension_crl_distribution_points(
        &mut self,
        points: &CRLDistributionPoints<'_>,
    ) -> Result<(), X509Error>
        ensures { StepsOrSkips step self.old (events.of_extensions (extension_event.crl_distribution_points (points_of points.now))) result self.new }
    {
        let _ = points;
        Ok(())
    }

    /// For which purposes the key may be used (RFC 5280, section 4.2.1.12).
    fn visit_extension_extended_key_usage(
        &mut self,
        usage: &ExtendedKeyUsage<'_>,
    ) -> Result<(), X509Error>
        ensures { StepsOrSkips step self.old (events.of_extensions (extension_event.extended_key_usage (usages_of usage.now))) result self.new }
    {
        let _ = usage;
        Ok(())
    }

    /// How long any policy stands for others (RFC 5280, section 4.2.1.14).
    fn visit_extension_inhibit_anypolicy(
        &mut self,
        policy: &InhibitAnyPolicy,
    ) -> Result<(), X509Error>
        ensures { StepsOrSkips step self.old (events.of_extensions (extension_event.inhibit_any_policy (policy.now.skip_certs))) result self.new }
    {
        let _ = policy;
        Ok(())
    }

    /// Other names of the issuer (RFC 5280, section 4.2.1.7).
    fn visit_extension_issuer_alternative_name(
        &mut self,
        names: &IssuerAlternativeName<'_>,
    ) -> Result<(), X509Error>
        ensures { StepsOrSkips step self.old (events.of_extensions (extension_event.issuer_alternative_name (issuer_names_of names.now))) result self.new }
    {
        let _ = names;
        Ok(())
    }

    /// What the key may be used for (RFC 5280, section 4.2.1.3).
    fn visit_extension_key_usage(&mut self, usage: &KeyUsage) -> Result<(), X509Error>
        ensures { StepsOrSkips step self.old (events.of_extensions (extension_event.key_usage (key_usage_of usage.now))) result self.new }
    {
        let _ = usage;
        Ok(())
    }

    /// What the certificate may be used for, in the words of Netscape.
    fn visit_extension_nscert_type(&mut self, kind: &NSCertType) -> Result<(), X509Error>
        ensures { StepsOrSkips step self.old (events.of_extensions (extension_event.ns_cert_type (ns_cert_type_of kind.now))) result self.new }
    {
        let _ = kind;
        Ok(())
    }

    /// Which names a certification authority may certify (RFC 5280, section 4.2.1.10).
    fn visit_extension_name_constraints(
        &mut self,
        constraints: &NameConstraints<'_>,
    ) -> Result<(), X509Error>
        ensures { StepsOrSkips step self.old (events.of_extensions (extension_event.name_constraints (constraints_of constraints.now))) result self.new }
    {
        let _ = constraints;
        Ok(())
    }

    /// A comment for readers, of Netscape.
    fn visit_extension_nscert_comment(&mut self, comment: &str) -> Result<(), X509Error>
        ensures { StepsOrSkips step self.old (events.of_extensions (extension_event.ns_comment comment.now)) result self.new }
    {
        let _ = comment;
        Ok(())
    }

    /// What is required of policies on a path (RFC 5280, section 4.2.1.11).
    fn visit_extension_policy_constraints(
        &mut self,
        constraints: &PolicyConstraints,
    ) -> Result<(), X509Error>
        ensures { StepsOrSkips step self.old (events.of_extensions (extension_event.policy_constraints (policy_constraints_of constraints.now)))
            result self.new }
    {
        let _ = constraints;
        Ok(())
    }

    /// Which policies of the issuer and of the subject are equivalent (RFC 5280, section 4.2.1.5).
    fn visit_extension_policy_mappings(
        &mut self,
        mappings: &PolicyMappings<'_>,
    ) -> Result<(), X509Error>
        ensures { StepsOrSkips step self.old (events.of_extensions (extension_event.policy_mappings (policy_mappings_of mappings.now))) result self.new }
    {
        let _ = mappings;
        Ok(())
    }

    /// The promises of transparency logs to publish the certificate (RFC 6962, section 3.3).
    fn visit_extension_sct(
        &mut self,
        timestamps: &[SignedCertificateTimestamp<'_>],
    ) -> Result<(), X509Error>
        ensures { StepsOrSkips step self.old (events.of_extensions (extension_event.timestamps (map timestamp_of timestamps.now))) result self.new }
    {
        let _ = timestamps;
        Ok(())
    }

    /// Other names of the subject (RFC 5280, section 4.2.1.6).
    fn visit_extension_subject_alternative_name(
        &mut self,
        names: &SubjectAlternativeName<'_>,
    ) -> Result<(), X509Error>
        ensures { StepsOrSkips step self.old (events.of_extensions (extension_event.subject_alternative_name (subject_names_of names.now))) result self.new }
    {
        let _ = names;
        Ok(())
    }

    /// The identifier of the subject's key (RFC 5280, section 4.2.1.2).
    fn visit_extension_ski(&mut self, identifier: &KeyIdentifier<'_>) -> Result<(), X509Error>
        ensures { StepsOrSkips step self.old (events.of_extensions (extension_event.subject_key_identifier (key_identifier_of identifier.now)))
            result self.new }
    {
        let _ = identifier;
        Ok(())
    }

    /// An extension whose value can't be read, and why.
    fn visit_extension_parse_error(
        &mut self,
        extension: &X509Extension<'_>,
        error: &Err<BerError>,
    ) -> Result<(), X509Error>
        ensures { StepsOrSkips step self.old (events.of_extensions (extension_event.parse_error (extension_of extension.now) error.now)) result self.new }
    {
        let _ = extension;
        let _ = error;
        Ok(())
    }

    /// An extension that no reader is known for, that wasn't looked at, or that has no place in a certificate.
    fn visit_extension_unknown(&mut self, extension: &X509Extension<'_>) -> Result<(), X509Error>
        ensures { StepsOrSkips step self.old (events.of_extensions (extension_event.unknown (extension_of extension.now))) result self.new }
    {
        let _ = extension;
        Ok(())
    }

    /// All extensions, after each of them.
    fn post_visit_extensions(&mut self, extensions: &[X509Extension<'_>]) -> Result<(), X509Error>
        ensures { StepsOrSkips step self.old (events.of_extensions (extension_event.post_extensions (map extension_of extensions.now))) result self.new }
    {
        let _ = extensions;
        Ok(())
    }
}

impl<V: X509CertificateVisitor> CertificateVisits for V {
    ghost use Rattle.x509_fields.specs.Visits.{StepsOrSkips};

    ghost visit_step = { λ s x r t. StepsOrSkips V.step s x r t };

    #[tactic(auto, unfolding(crate::specs::CertificateVisits::event_of))]
    fn visit(&mut self, visit: CertificateVisit<'_, '_>) -> Result<(), X509Error> {
        match visit {
            CertificateVisit::TbsCertificate(tbs) => self.visit_tbs_certificate(tbs),
            CertificateVisit::SignatureAlgorithm(algorithm) => {
                self.visit_signature_algorithm(algorithm)
            }
            CertificateVisit::SignatureValue(signature) => self.visit_signature_value(signature),
            CertificateVisit::Version(version) => self.visit_version(version),
            CertificateVisit::SerialNumber(serial) => self.visit_serial_number(serial),
            CertificateVisit::TbsSignatureAlgorithm(algorithm) => {
                self.visit_tbs_signature_algorithm(algorithm)
            }
            CertificateVisit::Issuer(name) => self.visit_issuer(name),
            CertificateVisit::Validity(validity) => self.visit_validity(validity),
            CertificateVisit::Subject(name) => self.visit_subject(name),
            CertificateVisit::SubjectPublicKeyInfo(key) => self.visit_subject_public_key_info(key),
            CertificateVisit::IssuerUniqueId(id) => self.visit_issuer_unique_id(id),
            CertificateVisit::SubjectUniqueId(id) => self.visit_subject_unique_id(id),
            CertificateVisit::Extensions(visit) => visit_extensions(self, visit),
        }
    }
}

// A visit of the extensions of a certificate; of a value that has no place in one there is none.
#[tactic(auto, unfolding(crate::specs::ExtensionVisits::event_of))]
fn visit_extensions<V: X509CertificateVisitor>(
    visitor: &mut V,
    visit: ExtensionVisit<'_, '_>,
) -> Result<(), X509Error>
    ensures { StepsOrSkips V.step visitor.old (of_extensions (event_of visit.entry)) result visitor.new }
{
    match visit {
        ExtensionVisit::PreExtensions(extensions) => visitor.pre_visit_extensions(extensions),
        ExtensionVisit::Extension(extension) => visitor.visit_extension(extension),
        ExtensionVisit::AuthorityInformationAccess(access) => {
            visitor.visit_extension_authority_information_access(access)
        }
        ExtensionVisit::AuthorityKeyIdentifier(identifier) => {
            visitor.visit_extension_aki(identifier)
        }
        ExtensionVisit::BasicConstraints(constraints) => {
            visitor.visit_extension_basic_constraints(constraints)
        }
        ExtensionVisit::CertificatePolicies(policies) => {
            visitor.visit_extension_certificate_policies(policies)
        }
        ExtensionVisit::CrlDistributionPoints(points) => {
            visitor.visit_extension_crl_distribution_points(points)
        }
        ExtensionVisit::ExtendedKeyUsage(usage) => {
            visitor.visit_extension_extended_key_usage(usage)
        }
        ExtensionVisit::InhibitAnyPolicy(policy) => {
            visitor.visit_extension_inhibit_anypolicy(policy)
        }
        ExtensionVisit::IssuerAlternativeName(names) => {
            visitor.visit_extension_issuer_alternative_name(names)
        }
        ExtensionVisit::KeyUsage(usage) => visitor.visit_extension_key_usage(usage),
        ExtensionVisit::NsCertType(kind) => visitor.visit_extension_nscert_type(kind),
        ExtensionVisit::NameConstraints(constraints) => {
            visitor.visit_extension_name_constraints(constraints)
        }
        ExtensionVisit::NsComment(comment) => visitor.visit_extension_nscert_comment(comment),
        ExtensionVisit::PolicyConstraints(constraints) => {
            visitor.visit_extension_policy_constraints(constraints)
        }
        ExtensionVisit::PolicyMappings(mappings) => {
            visitor.visit_extension_policy_mappings(mappings)
        }
        ExtensionVisit::Timestamps(timestamps) => visitor.visit_extension_sct(timestamps),
        ExtensionVisit::SubjectAlternativeName(names) => {
            visitor.visit_extension_subject_alternative_name(names)
        }
        ExtensionVisit::SubjectKeyIdentifier(identifier) => {
            visitor.visit_extension_ski(identifier)
        }
        ExtensionVisit::ParseError(extension, error) => {
            visitor.visit_extension_parse_error(extension, error)
        }
        ExtensionVisit::Unknown(extension) => visitor.visit_extension_unknown(extension),
        ExtensionVisit::PostExtensions(extensions) => visitor.post_visit_extensions(extensions),
        _ => Ok(()),
    }
}
