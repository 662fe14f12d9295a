//! The walks.

ghost use Rattle.std.specs.Prelude.{[], ◌∷◌, map};
ghost use Rattle.x509_extensions.specs.Extension.{extension_of};
ghost use Rattle.x509_certs.specs.Certificate.{certificate_of};
ghost use Rattle.x509_certs.specs.TbsCertificate.{tbs_of};
ghost use Rattle.x509_fields.specs.Visits.{Walks};
ghost use Rattle.x509_visitors.specs.CertificateEvents.{of_extensions, field_events, signature_events};
ghost use Rattle.x509_visitors.specs.CertificateVisits.{event_of};
ghost use Rattle.x509_visitors.specs.ExtensionEvents.{extensions_events, in_certificate};

use crate::certificate_visit::{CertificateVisit, CertificateVisits, InCertificate};
use crate::extension_walk::walk_extensions;
use x509_certs::{TbsCertificate, X509Certificate};
use x509_extensions::X509Extension;
use x509_fields::X509Error;

/// A value that a visitor of certificates is led over: a certificate, or its signed part alone.
pub trait WalkCertificate {
    ghost use Rattle.std.specs.Prelude.{List};
    ghost use Rattle.x509_fields.specs.Visits.{Walks};
    ghost use Rattle.x509_visitors.specs.CertificateEvents.{Event};

    // the visits of a value, in order
    ghost visits: { Self → List Event };

    /// Leads a visitor over the parts, in order, up to the first visit that is refused. Nothing is copied, and no memory is
    /// asked for.
    ///
    /// # Errors
    ///
    /// The first that a visit answers.
    fn walk<V: CertificateVisits>(&self, visitor: &mut V) -> Result<(), X509Error>
        ensures { Walks V.visit_step visitor.old (visits self.now) result visitor.new };
}

impl WalkCertificate for X509Certificate<'_> {
    ghost use Rattle.x509_certs.specs.Certificate.{certificate_of};
    ghost use Rattle.x509_visitors.specs.CertificateEvents.{events};

    ghost visits = { λ c. events (certificate_of c) };

    #[tactic(auto, using(x509_fields::proofs::Walking::walking), unfolding(crate::specs::CertificateEvents::events, crate::specs::CertificateVisits::event_of))]
    fn walk<V: CertificateVisits>(&self, visitor: &mut V) -> Result<(), X509Error> {
        visit_one(
            CertificateVisit::TbsCertificate(&self.tbs_certificate),
            visitor,
        )?;
        self.tbs_certificate.walk(visitor)?;
        walk_signature(self, visitor)
    }
}

impl WalkCertificate for TbsCertificate<'_> {
    ghost use Rattle.x509_certs.specs.TbsCertificate.{tbs_of};
    ghost use Rattle.x509_visitors.specs.CertificateEvents.{tbs_events};

    ghost visits = { λ t. tbs_events (tbs_of t) };

    #[tactic(auto, using(x509_fields::proofs::Walking::walking), unfolding(crate::specs::CertificateEvents::tbs_events))]
    fn walk<V: CertificateVisits>(&self, visitor: &mut V) -> Result<(), X509Error> {
        walk_fields(self, visitor)?;
        walk_own_extensions(self.extensions(), visitor)
    }
}

// Makes one visit.
#[tactic(auto, using(x509_fields::proofs::Walking::walking))]
fn visit_one<V: CertificateVisits>(
    visit: CertificateVisit<'_, '_>,
    visitor: &mut V,
) -> Result<(), X509Error>
    ensures { Walks V.visit_step visitor.old (event_of visit.entry ∷ []) result visitor.new }
{
    visitor.visit(visit)
}

// The fields before the extensions.
#[tactic(auto, using(x509_fields::proofs::Walking::walking), unfolding(crate::specs::CertificateEvents::field_events, crate::specs::CertificateVisits::event_of))]
fn walk_fields<V: CertificateVisits>(
    tbs: &TbsCertificate<'_>,
    visitor: &mut V,
) -> Result<(), X509Error>
    ensures { Walks V.visit_step visitor.old (field_events (tbs_of tbs.now)) result visitor.new }
{
    visit_one(CertificateVisit::Version(&tbs.version), visitor)?;
    visit_one(CertificateVisit::SerialNumber(tbs.raw_serial()), visitor)?;
    visit_one(
        CertificateVisit::TbsSignatureAlgorithm(&tbs.signature),
        visitor,
    )?;
    visit_one(CertificateVisit::Issuer(&tbs.issuer), visitor)?;
    visit_one(CertificateVisit::Validity(&tbs.validity), visitor)?;
    visit_one(CertificateVisit::Subject(&tbs.subject), visitor)?;
    visit_one(
        CertificateVisit::SubjectPublicKeyInfo(&tbs.subject_pki),
        visitor,
    )?;
    visit_one(
        CertificateVisit::IssuerUniqueId(tbs.issuer_uid.as_ref()),
        visitor,
    )?;
    visit_one(
        CertificateVisit::SubjectUniqueId(tbs.subject_uid.as_ref()),
        visitor,
    )
}

// The algorithm and the bits of the signature.
#[tactic(auto, using(x509_fields::proofs::Walking::walking), unfolding(crate::specs::CertificateEvents::signature_events, crate::specs::CertificateVisits::event_of))]
fn walk_signature<V: CertificateVisits>(
    certificate: &X509Certificate<'_>,
    visitor: &mut V,
) -> Result<(), X509Error>
    ensures { Walks V.visit_step visitor.old (signature_events (certificate_of certificate.now)) result visitor.new }
{
    visit_one(
        CertificateVisit::SignatureAlgorithm(&certificate.signature_algorithm),
        visitor,
    )?;
    visit_one(
        CertificateVisit::SignatureValue(&certificate.signature_value),
        visitor,
    )
}

// The extensions.
fn walk_own_extensions<V: CertificateVisits>(
    extensions: &[X509Extension<'_>],
    visitor: &mut V,
) -> Result<(), X509Error>
    ensures { Walks V.visit_step visitor.old (map of_extensions (extensions_events in_certificate (map extension_of extensions.now))) result visitor.new }
{
    walk_extensions::<InCertificate, V>(extensions, visitor)
}
