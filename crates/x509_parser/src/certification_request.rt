//! Certification requests (RFC 2986).

pub use x509_requests::{RequestedIter, X509CertificationRequest, X509CertificationRequestInfo};
