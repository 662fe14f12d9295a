//! Visitors of certificates and of lists of revoked certificates: one visit for each part, in a fixed order. It may use both
//! structures, and knows no validators.
#![tactic(auto)]

mod certificate_visit;
mod certificate_visitor;
mod certificate_walk;
mod extension_visit;
mod extension_walk;
mod list_visit;
mod list_visitor;
mod list_walk;

pub use certificate_visit::{CertificateVisit, CertificateVisits};
pub use certificate_visitor::X509CertificateVisitor;
pub use certificate_walk::WalkCertificate;
pub use extension_visit::ExtensionVisit;
pub use list_visit::{ListVisit, ListVisits};
pub use list_visitor::CertificateRevocationListVisitor;
pub use list_walk::WalkRevocationList;
