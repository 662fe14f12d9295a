//! The values of extensions that hold no general names (RFC 5280, sections 4.2.1, 5.2.3 and 5.3; Netscape certificate extensions), and
//! signed certificate timestamps, the promises of transparency logs to publish a certificate (RFC 6962, sections 3.2 and 3.3). It may
//! use x509_fields.
//!
//! [`parse_ct_signed_certificate_timestamp_list`] reads the value of the extension that holds timestamps, and
//! [`parse_ct_signed_certificate_timestamp`] one of them; [`TimestampList`] is read like every other type, with its mark. No
//! signature is looked into. What the grammars of timestamps promise is stated by [`grammar_laws`].
#![tactic(auto)]

mod basic_constraints;
mod crl_number;
mod extended_key_usage;
mod inhibit_any_policy;
mod invalidity_date;
mod key_usage;
mod laws;
mod ns_cert_type;
mod ns_comment;
mod octets;
mod policies;
mod policy_constraints;
mod policy_mapping;
mod reason_code;
mod timestamp;
mod timestamp_list;

pub use basic_constraints::BasicConstraints;
pub use crl_number::CRLNumber;
pub use extended_key_usage::ExtendedKeyUsage;
pub use inhibit_any_policy::InhibitAnyPolicy;
pub use invalidity_date::InvalidityDate;
pub use key_usage::KeyUsage;
pub use laws::grammar_laws;
pub use ns_cert_type::NSCertType;
pub use ns_comment::read_ns_comment;
pub use policies::{CertificatePolicies, PolicyInformation, PolicyList, PolicyQualifierInfo};
pub use policy_constraints::PolicyConstraints;
pub use policy_mapping::{PolicyMapping, PolicyMappings};
pub use reason_code::ReasonCodeValue;
pub use timestamp::{
    CtExtensions, CtLogID, CtVersion, DigitallySigned, SignedCertificateTimestamp,
    parse_ct_signed_certificate_timestamp,
};
pub use timestamp_list::{TimestampList, parse_ct_signed_certificate_timestamp_list};
