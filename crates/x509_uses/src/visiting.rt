//! Visitors of certificates and of lists: one that keeps every default, and one that counts every visit.

ghost use Rattle.std.specs.Prelude.{◌≡◌, Ok};

use x509_parser::certificate::X509Certificate;
use x509_parser::error::X509Error;
use x509_parser::revocation_list::CertificateRevocationList;
use x509_parser::visitor::{
    CertificateRevocationListVisitor, CertificateVisit, CertificateVisits, ListVisit, ListVisits,
    WalkCertificate, WalkRevocationList, X509CertificateVisitor,
};

/// Keeps every default, whatever it is led over.
#[derive(Debug, Drop)]
pub struct Quiet {
    /// What no visit changes.
    pub state: u64,
}

impl X509CertificateVisitor for Quiet {}

impl CertificateRevocationListVisitor for Quiet {}

/// Leads it over a certificate: no visit is refused, and it stays as it was.
pub fn walk_quietly(certificate: &X509Certificate<'_>, quiet: &mut Quiet) -> Result<(), X509Error>
    ensures answer { result ≡ Ok tt }
    ensures same { quiet.new ≡ quiet.old }
{
    certificate.walk(quiet)
}

/// Leads it over a list, with the same promise.
pub fn walk_list_quietly(
    list: &CertificateRevocationList<'_>,
    quiet: &mut Quiet,
) -> Result<(), X509Error>
    ensures answer { result ≡ Ok tt }
    ensures same { quiet.new ≡ quiet.old }
{
    list.walk(quiet)
}

/// Counts every visit, whatever is visited.
#[derive(Debug, Drop)]
pub struct VisitCount {
    /// The visits so far, up to the greatest number of 64 bits.
    pub count: u64,
}

impl CertificateVisits for VisitCount {
    ghost use Rattle.x509_uses.specs.Visiting.{counts_each};

    ghost visit_step = { λ s x r t. counts_each s.count r t.count };

    fn visit(&mut self, visit: CertificateVisit<'_, '_>) -> Result<(), X509Error> {
        let _ = visit;
        self.count = self.count.saturating_add(1);
        Ok(())
    }
}

impl ListVisits for VisitCount {
    ghost use Rattle.x509_uses.specs.Visiting.{counts_each};

    ghost visit_step = { λ s x r t. counts_each s.count r t.count };

    fn visit(&mut self, visit: ListVisit<'_, '_>) -> Result<(), X509Error> {
        let _ = visit;
        self.count = self.count.saturating_add(1);
        Ok(())
    }
}

#[cfg(test)]
mod tests;
