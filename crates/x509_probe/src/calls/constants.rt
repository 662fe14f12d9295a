//! The public constants, by their names.

use x509_der::Tag;
use x509_fields::{ReasonCode, X509Version};
use x509_names::{
    OID_CT_LIST_SCT, OID_DOMAIN_COMPONENT, OID_GOST_R3410_2001, OID_HASH_SHA1, OID_KEY_TYPE_DSA,
    OID_KEY_TYPE_EC_PUBLIC_KEY, OID_KEY_TYPE_GOST_R3410_2012_256, OID_KEY_TYPE_GOST_R3410_2012_512,
    OID_PKCS1_RSAENCRYPTION, OID_PKCS1_RSASSAPSS, OID_PKCS1_SHA1WITHRSA, OID_PKCS1_SHA256WITHRSA,
    OID_PKCS9_CHALLENGE_PASSWORD, OID_PKCS9_EMAIL_ADDRESS, OID_PKCS9_EXTENSION_REQUEST,
    OID_PKIX_ACCESS_DESCRIPTOR_CA_ISSUERS, OID_PKIX_ACCESS_DESCRIPTOR_OCSP,
    OID_PKIX_AUTHORITY_INFO_ACCESS, OID_PKIX_SUBJECT_INFO_ACCESS, OID_SIG_ECDSA_WITH_SHA256,
    OID_SIG_ED25519, OID_X509_COMMON_NAME, OID_X509_COUNTRY_NAME,
    OID_X509_EXT_AUTHORITY_KEY_IDENTIFIER, OID_X509_EXT_BASIC_CONSTRAINTS,
    OID_X509_EXT_CERT_COMMENT, OID_X509_EXT_CERT_TYPE, OID_X509_EXT_CERTIFICATE_POLICIES,
    OID_X509_EXT_CRL_DISTRIBUTION_POINTS, OID_X509_EXT_CRL_NUMBER, OID_X509_EXT_EXTENDED_KEY_USAGE,
    OID_X509_EXT_INHIBIT_ANY_POLICY, OID_X509_EXT_INVALIDITY_DATE, OID_X509_EXT_ISSUER_ALT_NAME,
    OID_X509_EXT_ISSUER_DISTRIBUTION_POINT, OID_X509_EXT_KEY_USAGE, OID_X509_EXT_NAME_CONSTRAINTS,
    OID_X509_EXT_POLICY_CONSTRAINTS, OID_X509_EXT_POLICY_MAPPINGS, OID_X509_EXT_REASON_CODE,
    OID_X509_EXT_SUBJECT_ALT_NAME, OID_X509_EXT_SUBJECT_KEY_IDENTIFIER, OID_X509_LOCALITY_NAME,
    OID_X509_ORGANIZATION_NAME, OID_X509_ORGANIZATIONAL_UNIT, OID_X509_STATE_OR_PROVINCE_NAME,
};
use x509_probe_answers::Answer;
use x509_values::CtVersion;

// The reasons of revocation.
const REASONS: [(&str, ReasonCode); 10] = [
    ("Unspecified", ReasonCode::Unspecified),
    ("KeyCompromise", ReasonCode::KeyCompromise),
    ("CACompromise", ReasonCode::CACompromise),
    ("AffiliationChanged", ReasonCode::AffiliationChanged),
    ("Superseded", ReasonCode::Superseded),
    ("CessationOfOperation", ReasonCode::CessationOfOperation),
    ("CertificateHold", ReasonCode::CertificateHold),
    ("RemoveFromCRL", ReasonCode::RemoveFromCRL),
    ("PrivilegeWithdrawn", ReasonCode::PrivilegeWithdrawn),
    ("AACompromise", ReasonCode::AACompromise),
];

// The numbers of tags that are no strings.
const TAGS: [(&str, Tag); 12] = [
    ("Boolean", Tag::Boolean),
    ("Integer", Tag::Integer),
    ("BitString", Tag::BitString),
    ("OctetString", Tag::OctetString),
    ("Null", Tag::Null),
    ("Oid", Tag::Oid),
    ("ObjectDescriptor", Tag::ObjectDescriptor),
    ("Enumerated", Tag::Enumerated),
    ("Sequence", Tag::Sequence),
    ("Set", Tag::Set),
    ("UtcTime", Tag::UtcTime),
    ("GeneralizedTime", Tag::GeneralizedTime),
];

// The numbers of those that are strings.
const STRING_TAGS: [(&str, Tag); 11] = [
    ("Utf8String", Tag::Utf8String),
    ("NumericString", Tag::NumericString),
    ("PrintableString", Tag::PrintableString),
    ("T61String", Tag::T61String),
    ("VideotexString", Tag::VideotexString),
    ("Ia5String", Tag::Ia5String),
    ("GraphicString", Tag::GraphicString),
    ("VisibleString", Tag::VisibleString),
    ("GeneralString", Tag::GeneralString),
    ("UniversalString", Tag::UniversalString),
    ("BmpString", Tag::BmpString),
];

// The types of attributes.
const ATTRIBUTES: [(&str, &[u8]); 10] = [
    ("OID_DOMAIN_COMPONENT", OID_DOMAIN_COMPONENT),
    ("OID_PKCS9_CHALLENGE_PASSWORD", OID_PKCS9_CHALLENGE_PASSWORD),
    ("OID_PKCS9_EMAIL_ADDRESS", OID_PKCS9_EMAIL_ADDRESS),
    ("OID_PKCS9_EXTENSION_REQUEST", OID_PKCS9_EXTENSION_REQUEST),
    ("OID_X509_COMMON_NAME", OID_X509_COMMON_NAME),
    ("OID_X509_COUNTRY_NAME", OID_X509_COUNTRY_NAME),
    ("OID_X509_LOCALITY_NAME", OID_X509_LOCALITY_NAME),
    ("OID_X509_ORGANIZATION_NAME", OID_X509_ORGANIZATION_NAME),
    ("OID_X509_ORGANIZATIONAL_UNIT", OID_X509_ORGANIZATIONAL_UNIT),
    (
        "OID_X509_STATE_OR_PROVINCE_NAME",
        OID_X509_STATE_OR_PROVINCE_NAME,
    ),
];

// The algorithms, digests and kinds of keys.
const ALGORITHMS: [(&str, &[u8]); 12] = [
    ("OID_GOST_R3410_2001", OID_GOST_R3410_2001),
    ("OID_HASH_SHA1", OID_HASH_SHA1),
    ("OID_KEY_TYPE_DSA", OID_KEY_TYPE_DSA),
    ("OID_KEY_TYPE_EC_PUBLIC_KEY", OID_KEY_TYPE_EC_PUBLIC_KEY),
    (
        "OID_KEY_TYPE_GOST_R3410_2012_256",
        OID_KEY_TYPE_GOST_R3410_2012_256,
    ),
    (
        "OID_KEY_TYPE_GOST_R3410_2012_512",
        OID_KEY_TYPE_GOST_R3410_2012_512,
    ),
    ("OID_PKCS1_RSAENCRYPTION", OID_PKCS1_RSAENCRYPTION),
    ("OID_PKCS1_RSASSAPSS", OID_PKCS1_RSASSAPSS),
    ("OID_PKCS1_SHA1WITHRSA", OID_PKCS1_SHA1WITHRSA),
    ("OID_PKCS1_SHA256WITHRSA", OID_PKCS1_SHA256WITHRSA),
    ("OID_SIG_ECDSA_WITH_SHA256", OID_SIG_ECDSA_WITH_SHA256),
    ("OID_SIG_ED25519", OID_SIG_ED25519),
];

// The extensions of RFC 5280 and Netscape, the first half.
const EXTENSIONS: [(&str, &[u8]); 9] = [
    (
        "OID_X509_EXT_AUTHORITY_KEY_IDENTIFIER",
        OID_X509_EXT_AUTHORITY_KEY_IDENTIFIER,
    ),
    (
        "OID_X509_EXT_BASIC_CONSTRAINTS",
        OID_X509_EXT_BASIC_CONSTRAINTS,
    ),
    ("OID_X509_EXT_CERT_COMMENT", OID_X509_EXT_CERT_COMMENT),
    ("OID_X509_EXT_CERT_TYPE", OID_X509_EXT_CERT_TYPE),
    (
        "OID_X509_EXT_CERTIFICATE_POLICIES",
        OID_X509_EXT_CERTIFICATE_POLICIES,
    ),
    (
        "OID_X509_EXT_CRL_DISTRIBUTION_POINTS",
        OID_X509_EXT_CRL_DISTRIBUTION_POINTS,
    ),
    ("OID_X509_EXT_CRL_NUMBER", OID_X509_EXT_CRL_NUMBER),
    (
        "OID_X509_EXT_EXTENDED_KEY_USAGE",
        OID_X509_EXT_EXTENDED_KEY_USAGE,
    ),
    (
        "OID_X509_EXT_INHIBIT_ANY_POLICY",
        OID_X509_EXT_INHIBIT_ANY_POLICY,
    ),
];

// The other half.
const OTHER_EXTENSIONS: [(&str, &[u8]); 10] = [
    ("OID_X509_EXT_INVALIDITY_DATE", OID_X509_EXT_INVALIDITY_DATE),
    ("OID_X509_EXT_ISSUER_ALT_NAME", OID_X509_EXT_ISSUER_ALT_NAME),
    (
        "OID_X509_EXT_ISSUER_DISTRIBUTION_POINT",
        OID_X509_EXT_ISSUER_DISTRIBUTION_POINT,
    ),
    ("OID_X509_EXT_KEY_USAGE", OID_X509_EXT_KEY_USAGE),
    (
        "OID_X509_EXT_NAME_CONSTRAINTS",
        OID_X509_EXT_NAME_CONSTRAINTS,
    ),
    (
        "OID_X509_EXT_POLICY_CONSTRAINTS",
        OID_X509_EXT_POLICY_CONSTRAINTS,
    ),
    ("OID_X509_EXT_POLICY_MAPPINGS", OID_X509_EXT_POLICY_MAPPINGS),
    ("OID_X509_EXT_REASON_CODE", OID_X509_EXT_REASON_CODE),
    (
        "OID_X509_EXT_SUBJECT_ALT_NAME",
        OID_X509_EXT_SUBJECT_ALT_NAME,
    ),
    (
        "OID_X509_EXT_SUBJECT_KEY_IDENTIFIER",
        OID_X509_EXT_SUBJECT_KEY_IDENTIFIER,
    ),
];

// The accesses, and extensions of other documents.
const ACCESSES: [(&str, &[u8]); 5] = [
    ("OID_CT_LIST_SCT", OID_CT_LIST_SCT),
    (
        "OID_PKIX_ACCESS_DESCRIPTOR_CA_ISSUERS",
        OID_PKIX_ACCESS_DESCRIPTOR_CA_ISSUERS,
    ),
    (
        "OID_PKIX_ACCESS_DESCRIPTOR_OCSP",
        OID_PKIX_ACCESS_DESCRIPTOR_OCSP,
    ),
    (
        "OID_PKIX_AUTHORITY_INFO_ACCESS",
        OID_PKIX_AUTHORITY_INFO_ACCESS,
    ),
    ("OID_PKIX_SUBJECT_INFO_ACCESS", OID_PKIX_SUBJECT_INFO_ACCESS),
];

// A name, and a number.
fn put_number(out: &mut Answer, name: &str, number: u32) {
    out.add(" ");
    out.add(name);
    out.add("=");
    out.display(&number);
}

// Names, and octets.
fn put_octets(out: &mut Answer, rows: &[(&str, &[u8])]) {
    for (name, octets) in rows {
        out.add(" ");
        out.add(name);
        out.add("=");
        out.hex(octets);
    }
}

// Names, and numbers of tags.
fn put_tags(out: &mut Answer, rows: &[(&str, Tag)]) {
    for (name, tag) in rows {
        put_number(out, name, tag.0);
    }
}

// The versions.
fn put_versions(out: &mut Answer) {
    put_number(out, "V1", X509Version::V1.0);
    put_number(out, "V2", X509Version::V2.0);
    put_number(out, "V3", X509Version::V3.0);
    put_number(out, "CtVersion::V1", u32::from(CtVersion::V1.0));
}

// The reasons of revocation.
fn put_reasons(out: &mut Answer) {
    for (name, reason) in &REASONS {
        put_number(out, name, u32::from(reason.0));
    }
}

/// Adds the constants of a group, by its number; false where the word is another.
pub fn answer(word: &str, group: &[u8], out: &mut Answer) -> bool {
    if word != "constants" {
        return false;
    }
    match group {
        [0] => put_versions(out),
        [1] => put_reasons(out),
        [2] => put_tags(out, &TAGS),
        [3] => put_tags(out, &STRING_TAGS),
        [4] => put_octets(out, &ATTRIBUTES),
        [5] => put_octets(out, &ALGORITHMS),
        [6] => put_octets(out, &EXTENSIONS),
        [7] => put_octets(out, &OTHER_EXTENSIONS),
        [8] => put_octets(out, &ACCESSES),
        _ => out.add("no group"),
    }
    true
}
