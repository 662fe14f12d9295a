//! One visit.

use crate::extension_visit::ExtensionVisit;
use crate::extension_walk::ExtensionVisits;
use x509_der::BitString;
use x509_fields::{ASN1Time, AlgorithmIdentifier, X509Error, X509Version};
use x509_lists::{RevokedCertificate, TbsCertList};
use x509_names::X509Name;

/// One visit of a walk over a list of revoked certificates, with what it is passed.
#[derive(Clone, Copy, Debug)]
pub enum ListVisit<'v, 'a> {
    /// The part that is signed, before its fields.
    TbsCertList(&'v TbsCertList<'a>),
    /// The algorithm of the signature.
    SignatureAlgorithm(&'v AlgorithmIdentifier<'a>),
    /// The bits of the signature.
    SignatureValue(&'v BitString<'a>),
    /// The version, where one is written that can be read.
    Version(Option<&'v X509Version>),
    /// The algorithm of the signature, as the signed part names it.
    TbsSignatureAlgorithm(&'v AlgorithmIdentifier<'a>),
    /// Who signed the list.
    Issuer(&'v X509Name<'a>),
    /// When the list was made.
    ThisUpdate(&'v ASN1Time),
    /// When the next one comes at the latest, where that is said.
    NextUpdate(Option<&'v ASN1Time>),
    /// All certificates that were revoked, before each of them.
    RevokedCertificates(&'v [RevokedCertificate<'a>]),
    /// A certificate that was revoked.
    RevokedCertificate(&'v RevokedCertificate<'a>),
    /// A visit of the extensions.
    Extensions(ExtensionVisit<'v, 'a>),
}

/// Takes every visit of a walk over a list of revoked certificates, and says of each exactly what it does.
pub trait ListVisits {
    ghost use Rattle.x509_fields.specs.Visits.{Visited};
    ghost use Rattle.x509_visitors.specs.ListEvents.{Event};
    ghost use Rattle.x509_visitors.specs.ListVisits.{event_of};

    // a visit with this value may take the first state to the second, with this answer
    ghost visit_step: { Self → Event → Visited → Self → Type 0 };

    /// Takes one visit.
    ///
    /// # Errors
    ///
    /// Any: the walk ends with it.
    fn visit(&mut self, visit: ListVisit<'_, '_>) -> Result<(), X509Error>
        ensures { visit_step self.old (event_of visit.entry) result self.new };
}

// What stands in a list.
pub(crate) struct InList;

impl<V: ListVisits> ExtensionVisits<InList> for V {
    ghost use Rattle.x509_visitors.specs.ListEvents.{of_extensions};
    ghost use Rattle.x509_visitors.specs.ExtensionEvents.{in_list};

    ghost has_visit = { in_list };

    ghost extension_step = { λ s x r t. V.visit_step s (of_extensions x) r t };

    fn has_visit(visit: &ExtensionVisit<'_, '_>) -> bool {
        visit.is_in_list()
    }

    #[tactic(auto, unfolding(crate::specs::ListVisits::event_of))]
    fn visit_extensions(&mut self, visit: ExtensionVisit<'_, '_>) -> Result<(), X509Error> {
        self.visit(ListVisit::Extensions(visit))
    }
}
