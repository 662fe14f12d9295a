//! Lists of revoked certificates (RFC 5280, section 5), whole. It may use extensions and names, and not the other signed structures.
#![tactic(auto)]

mod certificate_list;
mod entries_iter;
mod entries_run;
mod find_entries;
mod find_for;
mod find_revoked;
mod issue;
mod laws;
mod list_version;
mod look_ups;
mod next_update;
mod parsing;
mod revoked_certificate;
mod revoked_entries;
mod revoked_list;
mod tbs_cert_list;
mod tbs_parts;

pub use certificate_list::{CertificateListEntries, CertificateListOf, CertificateRevocationList};
pub use entries_iter::EntriesIter;
pub use laws::grammar_laws;
pub use parsing::{
    parse_crl_der, parse_x509_crl, parse_x509_crl_entries, parse_x509_crl_entries_located,
    parse_x509_crl_entries_strict, parse_x509_crl_located, parse_x509_crl_marked,
    parse_x509_crl_strict,
};
pub use revoked_certificate::{RevokedCertificate, RevokedIter};
pub use revoked_entries::RevokedEntries;
pub use tbs_cert_list::{TbsCertList, TbsCertListEntries, TbsCertListOf};
pub use tbs_parts::Entries;
pub use x509_extensions::ExtensionIter;
