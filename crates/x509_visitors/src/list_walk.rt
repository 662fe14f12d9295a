//! The walks.

ghost use Rattle.std.specs.Prelude.{[], ◌∷◌, map};
ghost use Rattle.x509_extensions.specs.Extension.{extension_of};
ghost use Rattle.x509_lists.specs.CertificateList.{list_of};
ghost use Rattle.x509_lists.specs.RevokedCertificate.{revoked_of};
ghost use Rattle.x509_lists.specs.TbsCertList.{tbs_list_of};
ghost use Rattle.x509_fields.specs.Visits.{Walks};
ghost use Rattle.x509_visitors.specs.ListEvents.{of_extensions, revoked_certificate, revoked_events, field_events};
ghost use Rattle.x509_visitors.specs.ListEvents.{signature_events};
ghost use Rattle.x509_visitors.specs.ListVisits.{event_of};
ghost use Rattle.x509_visitors.specs.ExtensionEvents.{extensions_events, in_list};

use crate::extension_walk::walk_extensions;
use crate::list_visit::{InList, ListVisit, ListVisits};
use x509_extensions::X509Extension;
use x509_fields::X509Error;
use x509_lists::{CertificateRevocationList, RevokedCertificate, TbsCertList};

/// A value that a visitor of lists is led over: a list of revoked certificates, or its signed part alone.
pub trait WalkRevocationList {
    ghost use Rattle.std.specs.Prelude.{List};
    ghost use Rattle.x509_fields.specs.Visits.{Walks};
    ghost use Rattle.x509_visitors.specs.ListEvents.{Event};

    // the visits of a value, in order
    ghost visits: { Self → List Event };

    /// Leads a visitor over the parts, in order, up to the first visit that is refused. Nothing is copied, and no memory is
    /// asked for.
    ///
    /// # Errors
    ///
    /// The first that a visit answers.
    fn walk<V: ListVisits>(&self, visitor: &mut V) -> Result<(), X509Error>
        ensures { Walks V.visit_step visitor.old (visits self.now) result visitor.new };
}

impl WalkRevocationList for CertificateRevocationList<'_> {
    ghost use Rattle.x509_lists.specs.CertificateList.{list_of};
    ghost use Rattle.x509_visitors.specs.ListEvents.{events};

    ghost visits = { λ c. events (list_of c) };

    #[tactic(auto, using(x509_fields::proofs::Walking::walking), unfolding(crate::specs::ListEvents::events, crate::specs::ListVisits::event_of))]
    fn walk<V: ListVisits>(&self, visitor: &mut V) -> Result<(), X509Error> {
        visit_one(ListVisit::TbsCertList(&self.tbs_cert_list), visitor)?;
        self.tbs_cert_list.walk(visitor)?;
        walk_signature(self, visitor)
    }
}

impl WalkRevocationList for TbsCertList<'_> {
    ghost use Rattle.x509_lists.specs.TbsCertList.{tbs_list_of};
    ghost use Rattle.x509_visitors.specs.ListEvents.{tbs_events};

    ghost visits = { λ t. tbs_events (tbs_list_of t) };

    #[tactic(auto, using(x509_fields::proofs::Walking::walking), unfolding(crate::specs::ListEvents::tbs_events))]
    fn walk<V: ListVisits>(&self, visitor: &mut V) -> Result<(), X509Error> {
        walk_fields(self, visitor)?;
        walk_revoked(self.revoked_certificates.as_slice(), visitor)?;
        walk_own_extensions(self.extensions(), visitor)
    }
}

// Makes one visit.
#[tactic(auto, using(x509_fields::proofs::Walking::walking))]
fn visit_one<V: ListVisits>(visit: ListVisit<'_, '_>, visitor: &mut V) -> Result<(), X509Error>
    ensures { Walks V.visit_step visitor.old (event_of visit.entry ∷ []) result visitor.new }
{
    visitor.visit(visit)
}

// The fields before the entries.
#[tactic(auto, using(x509_fields::proofs::Walking::walking), unfolding(crate::specs::ListEvents::field_events, crate::specs::ListVisits::event_of))]
fn walk_fields<V: ListVisits>(tbs: &TbsCertList<'_>, visitor: &mut V) -> Result<(), X509Error>
    ensures { Walks V.visit_step visitor.old (field_events (tbs_list_of tbs.now)) result visitor.new }
{
    visit_one(ListVisit::Version(tbs.version.as_ref()), visitor)?;
    visit_one(ListVisit::TbsSignatureAlgorithm(&tbs.signature), visitor)?;
    visit_one(ListVisit::Issuer(&tbs.issuer), visitor)?;
    visit_one(ListVisit::ThisUpdate(&tbs.this_update), visitor)?;
    visit_one(ListVisit::NextUpdate(tbs.next_update.as_ref()), visitor)
}

// The entries together, and each of them.
#[tactic(auto, using(x509_fields::proofs::Walking::walking), unfolding(crate::specs::ListEvents::revoked_events, crate::specs::ListVisits::event_of))]
fn walk_revoked<V: ListVisits>(
    certificates: &[RevokedCertificate<'_>],
    visitor: &mut V,
) -> Result<(), X509Error>
    ensures { Walks V.visit_step visitor.old (revoked_events (map revoked_of certificates.now)) result visitor.new }
{
    visit_one(ListVisit::RevokedCertificates(certificates), visitor)?;
    walk_entries(certificates, visitor)
}

// Each entry, in order.
#[tactic(auto, using(x509_fields::proofs::Walking::walking), unfolding(crate::specs::ListVisits::event_of))]
fn walk_entries<V: ListVisits>(
    certificates: &[RevokedCertificate<'_>],
    visitor: &mut V,
) -> Result<(), X509Error>
    ensures { Walks V.visit_step visitor.old (map revoked_certificate (map revoked_of certificates.now)) result visitor.new }
{
    for certificate in certificates {
        visitor.visit(ListVisit::RevokedCertificate(certificate))?;
    }
    Ok(())
}

// The algorithm and the bits of the signature.
#[tactic(auto, using(x509_fields::proofs::Walking::walking), unfolding(crate::specs::ListEvents::signature_events, crate::specs::ListVisits::event_of))]
fn walk_signature<V: ListVisits>(
    list: &CertificateRevocationList<'_>,
    visitor: &mut V,
) -> Result<(), X509Error>
    ensures { Walks V.visit_step visitor.old (signature_events (list_of list.now)) result visitor.new }
{
    visit_one(
        ListVisit::SignatureAlgorithm(&list.signature_algorithm),
        visitor,
    )?;
    visit_one(ListVisit::SignatureValue(&list.signature_value), visitor)
}

// The extensions.
fn walk_own_extensions<V: ListVisits>(
    extensions: &[X509Extension<'_>],
    visitor: &mut V,
) -> Result<(), X509Error>
    ensures { Walks V.visit_step visitor.old (map of_extensions (extensions_events in_list (map extension_of extensions.now))) result visitor.new }
{
    walk_extensions::<InList, V>(extensions, visitor)
}
