//! One visit.

use crate::extension_visit::ExtensionVisit;
use crate::extension_walk::ExtensionVisits;
use x509_certs::{TbsCertificate, UniqueIdentifier, Validity};
use x509_der::BitString;
use x509_fields::{AlgorithmIdentifier, X509Error, X509Version};
use x509_keys::SubjectPublicKeyInfo;
use x509_names::X509Name;

/// One visit of a walk over a certificate, with what it is passed.
#[derive(Clone, Copy, Debug)]
pub enum CertificateVisit<'v, 'a> {
    /// The part that is signed, before its fields.
    TbsCertificate(&'v TbsCertificate<'a>),
    /// The algorithm of the signature.
    SignatureAlgorithm(&'v AlgorithmIdentifier<'a>),
    /// The bits of the signature.
    SignatureValue(&'v BitString<'a>),
    /// The version.
    Version(&'v X509Version),
    /// The contents octets of the serial, as they stand.
    SerialNumber(&'a [u8]),
    /// The algorithm of the signature, as the signed part names it.
    TbsSignatureAlgorithm(&'v AlgorithmIdentifier<'a>),
    /// Who signed it.
    Issuer(&'v X509Name<'a>),
    /// When it is valid.
    Validity(&'v Validity),
    /// Whom the certificate is about.
    Subject(&'v X509Name<'a>),
    /// The key of the subject.
    SubjectPublicKeyInfo(&'v SubjectPublicKeyInfo<'a>),
    /// What tells issuers of one name apart, where it stands.
    IssuerUniqueId(Option<&'v UniqueIdentifier<'a>>),
    /// What tells subjects of one name apart, where it stands.
    SubjectUniqueId(Option<&'v UniqueIdentifier<'a>>),
    /// A visit of the extensions.
    Extensions(ExtensionVisit<'v, 'a>),
}

/// Takes every visit of a walk over a certificate, and says of each exactly what it does.
pub trait CertificateVisits {
    ghost use Rattle.x509_fields.specs.Visits.{Visited};
    ghost use Rattle.x509_visitors.specs.CertificateEvents.{Event};
    ghost use Rattle.x509_visitors.specs.CertificateVisits.{event_of};

    // a visit with this value may take the first state to the second, with this answer
    ghost visit_step: { Self → Event → Visited → Self → Type 0 };

    /// Takes one visit.
    ///
    /// # Errors
    ///
    /// Any: the walk ends with it.
    fn visit(&mut self, visit: CertificateVisit<'_, '_>) -> Result<(), X509Error>
        ensures { visit_step self.old (event_of visit.entry) result self.new };
}

// What stands in a certificate.
pub(crate) struct InCertificate;

impl<V: CertificateVisits> ExtensionVisits<InCertificate> for V {
    ghost use Rattle.x509_visitors.specs.CertificateEvents.{of_extensions};
    ghost use Rattle.x509_visitors.specs.ExtensionEvents.{in_certificate};

    ghost has_visit = { in_certificate };

    ghost extension_step = { λ s x r t. V.visit_step s (of_extensions x) r t };

    fn has_visit(visit: &ExtensionVisit<'_, '_>) -> bool {
        visit.is_in_certificate()
    }

    #[tactic(auto, unfolding(crate::specs::CertificateVisits::event_of))]
    fn visit_extensions(&mut self, visit: ExtensionVisit<'_, '_>) -> Result<(), X509Error> {
        self.visit(CertificateVisit::Extensions(visit))
    }
}
