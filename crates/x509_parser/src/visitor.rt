//! Visitors, which are led over the parts of a certificate or a list of revoked certificates.

pub use x509_visitors::{
    CertificateRevocationListVisitor, CertificateVisit, CertificateVisits, ExtensionVisit,
    ListVisit, ListVisits, WalkCertificate, WalkRevocationList, X509CertificateVisitor,
};
