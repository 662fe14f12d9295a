//! Visitors with a method for each part.

ghost use Rattle.x509_fields.specs.Visits.{StepsOrSkips};
ghost use Rattle.x509_visitors.specs.ListEvents.{of_extensions};
ghost use Rattle.x509_visitors.specs.ExtensionVisits.{event_of};

use crate::extension_visit::ExtensionVisit;
use crate::list_visit::{ListVisit, ListVisits};
use crate::list_walk::WalkRevocationList;
use x509_der::{BerError, BitString, Err, UnsignedBytes};
use x509_extensions::X509Extension;
use x509_fields::{ASN1Time, AlgorithmIdentifier, ReasonCode, X509Error, X509Version};
use x509_general_names::{
    AuthorityInfoAccess, AuthorityKeyIdentifier, IssuerAlternativeName, IssuingDistributionPoint,
};
use x509_lists::{CertificateRevocationList, RevokedCertificate, TbsCertList};
use x509_names::X509Name;
use x509_values::SignedCertificateTimestamp;

/// Takes those visits of a walk over a list of revoked certificates that it has a method for; the others change nothing and are
/// accepted.
///
/// An extension of the list is visited twice: as an extension, and then by what its value says. The extensions of its entries aren't
/// visited. The first visit that answers an `Err` ends the walk.
///
/// A method may be left out, so what a walk promises allows each visit to change nothing. A visitor that promises exactly what each visit
/// does implements [`ListVisits`].
pub trait CertificateRevocationListVisitor {
    ghost use Rattle.std.specs.Prelude.{map, option_copied};
    ghost use Rattle.x509_der.specs.Primitives.{bit_string};
    ghost use Rattle.x509_der.specs.Promises.{option_view};
    ghost use Rattle.x509_der.specs.Unsigned.{unsigned_bytes};
    ghost use Rattle.x509_fields.specs.Algorithm.{algorithm_of};
    ghost use Rattle.x509_names.specs.Names.{name_of};
    ghost use Rattle.x509_fields.specs.Times.{time_of};
    ghost use Rattle.x509_general_names.specs.AlternativeNames.{issuer_names_of};
    ghost use Rattle.x509_general_names.specs.AuthorityKeyIdentifier.{authority_key_identifier_of};
    ghost use Rattle.x509_general_names.specs.InformationAccess.{authority_accesses_of};
    ghost use Rattle.x509_general_names.specs.IssuingDistributionPoint.{issuing_point_of};
    ghost use Rattle.x509_values.specs.Timestamp.{timestamp_of};
    ghost use Rattle.x509_extensions.specs.Extension.{extension_of};
    ghost use Rattle.x509_lists.specs.CertificateList.{list_of};
    ghost use Rattle.x509_lists.specs.RevokedCertificate.{revoked_of};
    ghost use Rattle.x509_lists.specs.TbsCertList.{tbs_list_of};
    ghost use Rattle.x509_fields.specs.Visits.{Visited, StepsOrSkips, Walks};
    ghost use Rattle.x509_visitors.specs.ListEvents as events;
    ghost use Rattle.x509_visitors.specs.ExtensionEvents as extension_event;

    // what the visits that are written do
    ghost step: { Self → events.Event → Visited → Self → Type 0 } = { λ _ _ _ _. ⊥ };

    /// Leads the visitor over the list, in the order of its parts.
    ///
    /// # Errors
    ///
    /// The first that a visit answers.
    final fn walk(&mut self, list: &CertificateRevocationList<'_>) -> Result<(), X509Error>
    where
        Self: Sized,
        ensures { Walks (λ s x r t. StepsOrSkips step s x r t) self.old (events.events (list_of list.now)) result self.new }
    {
        list.walk(self)
    }

    /// The part that is signed, before its fields.
    fn visit_tbs_cert_list(&mut self, tbs: &TbsCertList<'_>) -> Result<(), X509Error>
        ensures { StepsOrSkips step self.old (events.tbs_cert_list (tbs_list_of tbs.now)) result self.new }
    {
        let _ = tbs;
        Ok(())
    }

    /// The algorithm of the signature, behind the signed part (RFC 5280, section 5.1.1.2).
    fn visit_signature_algorithm(
        &mut self,
        algorithm: &AlgorithmIdentifier<'_>,
    ) -> Result<(), X509Error>
        ensures { StepsOrSkips step self.old (events.signature_algorithm (algorithm_of algorithm.now)) result self.new }
    {
        let _ = algorithm;
        Ok(())
    }

    /// The bits of the signature (RFC 5280, section 5.1.1.3).
    fn visit_signature_value(&mut self, signature: &BitString<'_>) -> Result<(), X509Error>
        ensures { StepsOrSkips step self.old (events.signature_value (bit_string signature.now)) result self.new }
    {
        let _ = signature;
        Ok(())
    }

    /// The version, or that none is written that can be read (RFC 5280, section 5.1.2.1).
    fn visit_version(&mut self, version: Option<&X509Version>) -> Result<(), X509Error>
        ensures { StepsOrSkips step self.old (events.version (option_view (λ v. v.0) (option_copied version.entry))) result self.new }
    {
        let _ = version;
        Ok(())
    }

    /// The algorithm of the signature, as the signed part names it (RFC 5280, section 5.1.2.2).
    fn visit_tbs_signature_algorithm(
        &mut self,
        algorithm: &AlgorithmIdentifier<'_>,
    ) -> Result<(), X509Error>
        ensures { StepsOrSkips step self.old (events.tbs_signature_algorithm (algorithm_of algorithm.now)) result self.new }
    {
        let _ = algorithm;
        Ok(())
    }

    /// Who signed the list (RFC 5280, section 5.1.2.3).
    fn visit_issuer(&mut self, name: &X509Name<'_>) -> Result<(), X509Error>
        ensures { StepsOrSkips step self.old (events.issuer (name_of name.now)) result self.new }
    {
        let _ = name;
        Ok(())
    }

    /// When the list was made (RFC 5280, section 5.1.2.4).
    fn visit_this_update(&mut self, time: &ASN1Time) -> Result<(), X509Error>
        ensures { StepsOrSkips step self.old (events.this_update (time_of time.now)) result self.new }
    {
        let _ = time;
        Ok(())
    }

    /// When the next list comes at the latest, or that it isn't said (RFC 5280, section 5.1.2.5).
    fn visit_next_update(&mut self, time: Option<&ASN1Time>) -> Result<(), X509Error>
        ensures { StepsOrSkips step self.old (events.next_update (option_view time_of (option_copied time.entry))) result self.new }
    {
        let _ = time;
        Ok(())
    }

    /// All certificates that were revoked, before each of them (RFC 5280, section 5.1.2.6).
    fn visit_revoked_certificates(
        &mut self,
        certificates: &[RevokedCertificate<'_>],
    ) -> Result<(), X509Error>
        ensures { StepsOrSkips step self.old (events.revoked_certificates (map revoked_of certificates.now)) result self.new }
    {
        let _ = certificates;
        Ok(())
    }

    /// Each certificate that was revoked; the extensions of its entry aren't visited.
    fn visit_revoked_certificate(
        &mut self,
        certificate: &RevokedCertificate<'_>,
    ) -> Result<(), X509Error>
        ensures { StepsOrSkips step self.old (events.revoked_certificate (revoked_of certificate.now)) result self.new }
    {
        let _ = certificate;
        Ok(())
    }

    /// All extensions, before each of them (RFC 5280, section 5.1.2.7).
    fn pre_visit_extensions(&mut self, extensions: &[X509Extension<'_>]) -> Result<(), X509Error>
        ensures { StepsOrSkips step self.old (events.of_extensions (extension_event.pre_extensions (map extension_of extensions.now))) result self.new }
    {
        let _ = extensions;
        Ok(())
    }

    /// Each extension, before what its value says (RFC 5280, section 5.2).
    fn visit_extension(&mut self, extension: &X509Extension<'_>) -> Result<(), X509Error>
        ensures { StepsOrSkips step self.old (events.of_extensions (extension_event.extension (extension_of extension.now))) result self.new }
    {
        let _ = extension;
        Ok(())
    }

    /// Where more about the issuer is found (RFC 5280, section 5.2.7).
    fn visit_extension_authority_information_access(
        &mut self,
        access: &AuthorityInfoAccess<'_>,
    ) -> Result<(), X509Error>
        ensures { StepsOrSkips step self.old (events.of_extensions (extension_event.authority_information_access (authority_accesses_of access.now)))
            result self.new }
    {
        let _ = access;
        Ok(())
    }

    /// Which key of the issuer signed (RFC 5280, section 5.2.1).
    fn visit_extension_aki(
        &mut self,
        identifier: &AuthorityKeyIdentifier<'_>,
    ) -> Result<(), X509Error>
        ensures { StepsOrSkips step self.old (events.of_extensions (extension_event.authority_key_identifier (authority_key_identifier_of identifier.now)))
            result self.new }
    {
        let _ = identifier;
        Ok(())
    }

    /// Other names of the issuer (RFC 5280, section 5.2.2).
    fn visit_extension_issuer_alternative_name(
        &mut self,
        names: &IssuerAlternativeName<'_>,
    ) -> Result<(), X509Error>
        ensures { StepsOrSkips step self.old (events.of_extensions (extension_event.issuer_alternative_name (issuer_names_of names.now))) result self.new }
    {
        let _ = names;
        Ok(())
    }

    /// The promises of transparency logs (RFC 6962, section 3.3).
    fn visit_extension_sct(
        &mut self,
        timestamps: &[SignedCertificateTimestamp<'_>],
    ) -> Result<(), X509Error>
        ensures { StepsOrSkips step self.old (events.of_extensions (extension_event.timestamps (map timestamp_of timestamps.now))) result self.new }
    {
        let _ = timestamps;
        Ok(())
    }

    /// The number of the list (RFC 5280, section 5.2.3).
    fn visit_extension_crl_number(&mut self, number: &UnsignedBytes<'_>) -> Result<(), X509Error>
        ensures { StepsOrSkips step self.old (events.of_extensions (extension_event.crl_number (unsigned_bytes number.now))) result self.new }
    {
        let _ = number;
        Ok(())
    }

    /// Since when a certificate is held to be invalid (RFC 5280, section 5.3.2).
    fn visit_extension_invalidity_date(&mut self, date: &ASN1Time) -> Result<(), X509Error>
        ensures { StepsOrSkips step self.old (events.of_extensions (extension_event.invalidity_date (time_of date.now))) result self.new }
    {
        let _ = date;
        Ok(())
    }

    /// What the list covers (RFC 5280, section 5.2.5).
    fn visit_extension_issuing_distribution_point(
        &mut self,
        point: &IssuingDistributionPoint<'_>,
    ) -> Result<(), X509Error>
        ensures { StepsOrSkips step self.old (events.of_extensions (extension_event.issuing_distribution_point (issuing_point_of point.now))) result self.new }
    {
        let _ = point;
        Ok(())
    }

    /// Why a certificate was revoked (RFC 5280, section 5.3.1).
    fn visit_extension_reason_code(&mut self, reason: &ReasonCode) -> Result<(), X509Error>
        ensures { StepsOrSkips step self.old (events.of_extensions (extension_event.reason_code (reason.now.0))) result self.new }
    {
        let _ = reason;
        Ok(())
    }

    /// An extension whose value can't be read, and why.
    fn visit_extension_parse_error(
        &mut self,
        extension: &X509Extension<'_>,
        error: &Err<BerError>,
    ) -> Result<(), X509Error>
        ensures { StepsOrSkips step self.old (events.of_extensions (extension_event.parse_error (extension_of extension.now) error.now)) result self.new }
    {
        let _ = extension;
        let _ = error;
        Ok(())
    }

    /// An extension that no reader is known for, that wasn't looked at, or that has no place in a list.
    fn visit_extension_unknown(&mut self, extension: &X509Extension<'_>) -> Result<(), X509Error>
        ensures { StepsOrSkips step self.old (events.of_extensions (extension_event.unknown (extension_of extension.now))) result self.new }
    {
        let _ = extension;
        Ok(())
    }

    /// All extensions, after each of them.
    fn post_visit_extensions(&mut self, extensions: &[X509Extension<'_>]) -> Result<(), X509Error>
        ensures { StepsOrSkips step self.old (events.of_extensions (extension_event.post_extensions (map extension_of extensions.now))) result self.new }
    {
        let _ = extensions;
        Ok(())
    }
}

impl<V: CertificateRevocationListVisitor> ListVisits for V {
    ghost use Rattle.x509_fields.specs.Visits.{StepsOrSkips};

    ghost visit_step = { λ s x r t. StepsOrSkips V.step s x r t };

    #[tactic(auto, unfolding(crate::specs::ListVisits::event_of))]
    fn visit(&mut self, visit: ListVisit<'_, '_>) -> Result<(), X509Error> {
        match visit {
            ListVisit::TbsCertList(tbs) => self.visit_tbs_cert_list(tbs),
            ListVisit::SignatureAlgorithm(algorithm) => self.visit_signature_algorithm(algorithm),
            ListVisit::SignatureValue(signature) => self.visit_signature_value(signature),
            ListVisit::Version(version) => self.visit_version(version),
            ListVisit::TbsSignatureAlgorithm(algorithm) => {
                self.visit_tbs_signature_algorithm(algorithm)
            }
            ListVisit::Issuer(name) => self.visit_issuer(name),
            ListVisit::ThisUpdate(time) => self.visit_this_update(time),
            ListVisit::NextUpdate(time) => self.visit_next_update(time),
            ListVisit::RevokedCertificates(certificates) => {
                self.visit_revoked_certificates(certificates)
            }
            ListVisit::RevokedCertificate(certificate) => {
                self.visit_revoked_certificate(certificate)
            }
            ListVisit::Extensions(visit) => visit_extensions(self, visit),
        }
    }
}

// A visit of the extensions of a list; of a value that has no place in one there is none.
#[tactic(auto, unfolding(crate::specs::ExtensionVisits::event_of))]
fn visit_extensions<V: CertificateRevocationListVisitor>(
    visitor: &mut V,
    visit: ExtensionVisit<'_, '_>,
) -> Result<(), X509Error>
    ensures { StepsOrSkips V.step visitor.old (of_extensions (event_of visit.entry)) result visitor.new }
{
    match visit {
        ExtensionVisit::PreExtensions(extensions) => visitor.pre_visit_extensions(extensions),
        ExtensionVisit::Extension(extension) => visitor.visit_extension(extension),
        ExtensionVisit::AuthorityInformationAccess(access) => {
            visitor.visit_extension_authority_information_access(access)
        }
        ExtensionVisit::AuthorityKeyIdentifier(identifier) => visitor.visit_extension_aki(
            identifier,
        ),
        ExtensionVisit::IssuerAlternativeName(names) => {
            visitor.visit_extension_issuer_alternative_name(names)
        }
        ExtensionVisit::Timestamps(timestamps) => visitor.visit_extension_sct(timestamps),
        ExtensionVisit::CrlNumber(number) => visitor.visit_extension_crl_number(number),
        ExtensionVisit::InvalidityDate(date) => visitor.visit_extension_invalidity_date(date),
        ExtensionVisit::IssuingDistributionPoint(point) => {
            visitor.visit_extension_issuing_distribution_point(point)
        }
        ExtensionVisit::ReasonCode(reason) => visitor.visit_extension_reason_code(reason),
        ExtensionVisit::ParseError(extension, error) => {
            visitor.visit_extension_parse_error(extension, error)
        }
        ExtensionVisit::Unknown(extension) => visitor.visit_extension_unknown(extension),
        ExtensionVisit::PostExtensions(extensions) => visitor.post_visit_extensions(extensions),
        _ => Ok(()),
    }
}
