//! Certification requests (RFC 2986) and their attributes (RFC 2985, section 5.4), whole. It may use
//! extensions, keys and names, and not the other signed structures.
#![tactic(auto)]

mod attribute_kind;
mod attribute_look_ups;
mod attribute_parts;
mod cri_attribute;
mod extension_request;
mod laws;
mod parsing;
mod password;
mod request;
mod request_attributes;
mod request_info;
mod requested_iter;

pub use cri_attribute::{CriAttributeIter, ParsedCriAttribute, X509CriAttribute};
pub use extension_request::ExtensionRequest;
pub use laws::grammar_laws;
pub use parsing::{
    parse_x509_csr, parse_x509_csr_located, parse_x509_csr_marked, parse_x509_csr_strict,
};
pub use password::ChallengePassword;
pub use request::X509CertificationRequest;
pub use request_info::X509CertificationRequestInfo;
pub use requested_iter::RequestedIter;
