//! Lists of revoked certificates (RFC 5280, section 5).

pub use x509_lists::{
    CertificateListEntries, CertificateListOf, CertificateRevocationList, Entries, EntriesIter,
    ExtensionIter, RevokedCertificate, RevokedEntries, RevokedIter, TbsCertList,
    TbsCertListEntries, TbsCertListOf,
};
