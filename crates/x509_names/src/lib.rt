//! Identifiers and names: what the identifiers of certificates are called, registries, identifiers from dotted text (X.690, section 8.19;
//! RFC 4512, section 1.4); names, their attributes and their texts (RFC 5280, section 4.1.2.4). It may use x509_fields, and knows no
//! structure.
#![tactic(auto)]

mod full;
mod laws;
mod name;
mod name_iter;
mod name_text;
mod objects;
mod oid_buf;
mod oid_names;
mod parse;
mod parse_error;
mod registry;
mod value_text;

pub use full::registry_full;
pub use laws::dotted_laws;
pub use name::{AttributeTypeAndValue, RelativeDistinguishedName, X509Name};
pub use name_iter::{AttributeByOid, AttributeIter, RdnIter};
pub use objects::{
    OID_CT_LIST_SCT, OID_DOMAIN_COMPONENT, OID_GOST_R3410_2001, OID_HASH_SHA1, OID_KEY_TYPE_DSA,
    OID_KEY_TYPE_EC_PUBLIC_KEY, OID_KEY_TYPE_GOST_R3410_2012_256, OID_KEY_TYPE_GOST_R3410_2012_512,
    OID_PKCS1_RSAENCRYPTION, OID_PKCS1_RSASSAPSS, OID_PKCS1_SHA1WITHRSA, OID_PKCS1_SHA256WITHRSA,
    OID_PKCS9_CHALLENGE_PASSWORD, OID_PKCS9_EMAIL_ADDRESS, OID_PKCS9_EXTENSION_REQUEST,
    OID_PKIX_ACCESS_DESCRIPTOR_CA_ISSUERS, OID_PKIX_ACCESS_DESCRIPTOR_OCSP,
    OID_PKIX_AUTHORITY_INFO_ACCESS, OID_PKIX_SUBJECT_INFO_ACCESS, OID_SIG_ECDSA_WITH_SHA256,
    OID_SIG_ED25519, OID_X509_COMMON_NAME, OID_X509_COUNTRY_NAME,
    OID_X509_EXT_AUTHORITY_KEY_IDENTIFIER, OID_X509_EXT_BASIC_CONSTRAINTS,
    OID_X509_EXT_CERT_COMMENT, OID_X509_EXT_CERT_TYPE, OID_X509_EXT_CERTIFICATE_POLICIES,
    OID_X509_EXT_CRL_DISTRIBUTION_POINTS, OID_X509_EXT_CRL_NUMBER, OID_X509_EXT_EXTENDED_KEY_USAGE,
    OID_X509_EXT_INHIBIT_ANY_POLICY, OID_X509_EXT_INVALIDITY_DATE, OID_X509_EXT_ISSUER_ALT_NAME,
    OID_X509_EXT_ISSUER_DISTRIBUTION_POINT, OID_X509_EXT_KEY_USAGE, OID_X509_EXT_NAME_CONSTRAINTS,
    OID_X509_EXT_POLICY_CONSTRAINTS, OID_X509_EXT_POLICY_MAPPINGS, OID_X509_EXT_REASON_CODE,
    OID_X509_EXT_SUBJECT_ALT_NAME, OID_X509_EXT_SUBJECT_KEY_IDENTIFIER, OID_X509_LOCALITY_NAME,
    OID_X509_ORGANIZATION_NAME, OID_X509_ORGANIZATIONAL_UNIT, OID_X509_STATE_OR_PROVINCE_NAME,
    abbreviation, registered_name,
};
pub use oid_buf::OidBuf;
pub use oid_names::{oid2abbrev, oid2description, oid2sn};
pub use parse_error::ParseOidError;
pub use registry::{OidEntry, OidRegistry, oid_registry};
pub use value_text::{utf8_text, utf16_text};
