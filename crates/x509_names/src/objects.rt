//! Object identifiers, and what they are called.

ghost use Rattle.std.specs.Prelude.{◌≡◌, map};
ghost use Rattle.std.specs.Option.{option_copied};
ghost use Rattle.x509_names.specs.Objects.{name_in, abbreviation, short_name, described, registered_name};

/// commonName, 2.5.4.3 (X.520): the contents of the identifier.
pub const OID_X509_COMMON_NAME: &[u8] = &[0x55, 0x04, 0x03];

/// countryName, 2.5.4.6 (X.520): the contents of the identifier.
pub const OID_X509_COUNTRY_NAME: &[u8] = &[0x55, 0x04, 0x06];

/// localityName, 2.5.4.7 (X.520): the contents of the identifier.
pub const OID_X509_LOCALITY_NAME: &[u8] = &[0x55, 0x04, 0x07];

/// stateOrProvinceName, 2.5.4.8 (X.520): the contents of the identifier.
pub const OID_X509_STATE_OR_PROVINCE_NAME: &[u8] = &[0x55, 0x04, 0x08];

/// organizationName, 2.5.4.10 (X.520): the contents of the identifier.
pub const OID_X509_ORGANIZATION_NAME: &[u8] = &[0x55, 0x04, 0x0a];

/// organizationalUnit, 2.5.4.11 (X.520): the contents of the identifier.
pub const OID_X509_ORGANIZATIONAL_UNIT: &[u8] = &[0x55, 0x04, 0x0b];

/// domainComponent, 0.9.2342.19200300.100.1.25 (RFC 4519): the contents of the identifier.
pub const OID_DOMAIN_COMPONENT: &[u8] = &[
    0x09, 0x92, 0x26, 0x89, 0x93, 0xf2, 0x2c, 0x64, 0x01, 0x19,
];

/// emailAddress, 1.2.840.113549.1.9.1 (RFC 2985): the contents of the identifier.
pub const OID_PKCS9_EMAIL_ADDRESS: &[u8] = &[0x2a, 0x86, 0x48, 0x86, 0xf7, 0x0d, 0x01, 0x09, 0x01];

/// challengePassword, 1.2.840.113549.1.9.7 (RFC 2985): the contents of the identifier.
pub const OID_PKCS9_CHALLENGE_PASSWORD: &[u8] = &[
    0x2a, 0x86, 0x48, 0x86, 0xf7, 0x0d, 0x01, 0x09, 0x07,
];

/// extensionRequest, 1.2.840.113549.1.9.14 (RFC 2985): the contents of the identifier.
pub const OID_PKCS9_EXTENSION_REQUEST: &[u8] = &[
    0x2a, 0x86, 0x48, 0x86, 0xf7, 0x0d, 0x01, 0x09, 0x0e,
];

/// rsaEncryption, 1.2.840.113549.1.1.1 (RFC 8017): the contents of the identifier.
pub const OID_PKCS1_RSAENCRYPTION: &[u8] = &[0x2a, 0x86, 0x48, 0x86, 0xf7, 0x0d, 0x01, 0x01, 0x01];

/// sha1WithRSA, 1.2.840.113549.1.1.5 (RFC 8017): the contents of the identifier.
pub const OID_PKCS1_SHA1WITHRSA: &[u8] = &[0x2a, 0x86, 0x48, 0x86, 0xf7, 0x0d, 0x01, 0x01, 0x05];

/// id-RSASSA-PSS, 1.2.840.113549.1.1.10 (RFC 8017): the contents of the identifier.
pub const OID_PKCS1_RSASSAPSS: &[u8] = &[0x2a, 0x86, 0x48, 0x86, 0xf7, 0x0d, 0x01, 0x01, 0x0a];

/// sha256WithRSA, 1.2.840.113549.1.1.11 (RFC 8017): the contents of the identifier.
pub const OID_PKCS1_SHA256WITHRSA: &[u8] = &[0x2a, 0x86, 0x48, 0x86, 0xf7, 0x0d, 0x01, 0x01, 0x0b];

/// id-ecPublicKey, 1.2.840.10045.2.1 (RFC 5480): the contents of the identifier.
pub const OID_KEY_TYPE_EC_PUBLIC_KEY: &[u8] = &[0x2a, 0x86, 0x48, 0xce, 0x3d, 0x02, 0x01];

/// ecdsaWithSHA256, 1.2.840.10045.4.3.2 (RFC 5758): the contents of the identifier.
pub const OID_SIG_ECDSA_WITH_SHA256: &[u8] = &[0x2a, 0x86, 0x48, 0xce, 0x3d, 0x04, 0x03, 0x02];

/// id-dsa, 1.2.840.10040.4.1 (RFC 3279): the contents of the identifier.
pub const OID_KEY_TYPE_DSA: &[u8] = &[0x2a, 0x86, 0x48, 0xce, 0x38, 0x04, 0x01];

/// gostR3410-2001, 1.2.643.2.2.19 (RFC 4491): the contents of the identifier.
pub const OID_GOST_R3410_2001: &[u8] = &[0x2a, 0x85, 0x03, 0x02, 0x02, 0x13];

/// gostR3410-2012-256, 1.2.643.7.1.1.1.1 (RFC 9215): the contents of the identifier.
pub const OID_KEY_TYPE_GOST_R3410_2012_256: &[u8] = &[
    0x2a, 0x85, 0x03, 0x07, 0x01, 0x01, 0x01, 0x01,
];

/// gostR3410-2012-512, 1.2.643.7.1.1.1.2 (RFC 9215): the contents of the identifier.
pub const OID_KEY_TYPE_GOST_R3410_2012_512: &[u8] = &[
    0x2a, 0x85, 0x03, 0x07, 0x01, 0x01, 0x01, 0x02,
];

/// ed25519, 1.3.101.112 (RFC 8410): the contents of the identifier.
pub const OID_SIG_ED25519: &[u8] = &[0x2b, 0x65, 0x70];

/// sha1, 1.3.14.3.2.26 (RFC 3279): the contents of the identifier.
pub const OID_HASH_SHA1: &[u8] = &[0x2b, 0x0e, 0x03, 0x02, 0x1a];

/// ocsp, 1.3.6.1.5.5.7.48.1 (RFC 5280, 4.2.2.1): the contents of the identifier.
pub const OID_PKIX_ACCESS_DESCRIPTOR_OCSP: &[u8] = &[
    0x2b, 0x06, 0x01, 0x05, 0x05, 0x07, 0x30, 0x01,
];

/// caIssuers, 1.3.6.1.5.5.7.48.2 (RFC 5280, 4.2.2.1): the contents of the identifier.
pub const OID_PKIX_ACCESS_DESCRIPTOR_CA_ISSUERS: &[u8] = &[
    0x2b, 0x06, 0x01, 0x05, 0x05, 0x07, 0x30, 0x02,
];

/// subjectKeyIdentifier, 2.5.29.14 (RFC 5280, 4.2.1.2): the contents of the identifier.
pub const OID_X509_EXT_SUBJECT_KEY_IDENTIFIER: &[u8] = &[0x55, 0x1d, 0x0e];

/// keyUsage, 2.5.29.15 (RFC 5280, 4.2.1.3): the contents of the identifier.
pub const OID_X509_EXT_KEY_USAGE: &[u8] = &[0x55, 0x1d, 0x0f];

/// subjectAltName, 2.5.29.17 (RFC 5280, 4.2.1.6): the contents of the identifier.
pub const OID_X509_EXT_SUBJECT_ALT_NAME: &[u8] = &[0x55, 0x1d, 0x11];

/// issuerAltName, 2.5.29.18 (RFC 5280, 4.2.1.7): the contents of the identifier.
pub const OID_X509_EXT_ISSUER_ALT_NAME: &[u8] = &[0x55, 0x1d, 0x12];

/// basicConstraints, 2.5.29.19 (RFC 5280, 4.2.1.9): the contents of the identifier.
pub const OID_X509_EXT_BASIC_CONSTRAINTS: &[u8] = &[0x55, 0x1d, 0x13];

/// cRLNumber, 2.5.29.20 (RFC 5280, 5.2.3): the contents of the identifier.
pub const OID_X509_EXT_CRL_NUMBER: &[u8] = &[0x55, 0x1d, 0x14];

/// reasonCode, 2.5.29.21 (RFC 5280, 5.3.1): the contents of the identifier.
pub const OID_X509_EXT_REASON_CODE: &[u8] = &[0x55, 0x1d, 0x15];

/// invalidityDate, 2.5.29.24 (RFC 5280, 5.3.2): the contents of the identifier.
pub const OID_X509_EXT_INVALIDITY_DATE: &[u8] = &[0x55, 0x1d, 0x18];

/// issuingDistributionPoint, 2.5.29.28 (RFC 5280, 5.2.5): the contents of the identifier.
pub const OID_X509_EXT_ISSUER_DISTRIBUTION_POINT: &[u8] = &[0x55, 0x1d, 0x1c];

/// nameConstraints, 2.5.29.30 (RFC 5280, 4.2.1.10): the contents of the identifier.
pub const OID_X509_EXT_NAME_CONSTRAINTS: &[u8] = &[0x55, 0x1d, 0x1e];

/// cRLDistributionPoints, 2.5.29.31 (RFC 5280, 4.2.1.13): the contents of the identifier.
pub const OID_X509_EXT_CRL_DISTRIBUTION_POINTS: &[u8] = &[0x55, 0x1d, 0x1f];

/// certificatePolicies, 2.5.29.32 (RFC 5280, 4.2.1.4): the contents of the identifier.
pub const OID_X509_EXT_CERTIFICATE_POLICIES: &[u8] = &[0x55, 0x1d, 0x20];

/// policyMappings, 2.5.29.33 (RFC 5280, 4.2.1.5): the contents of the identifier.
pub const OID_X509_EXT_POLICY_MAPPINGS: &[u8] = &[0x55, 0x1d, 0x21];

/// authorityKeyIdentifier, 2.5.29.35 (RFC 5280, 4.2.1.1): the contents of the identifier.
pub const OID_X509_EXT_AUTHORITY_KEY_IDENTIFIER: &[u8] = &[0x55, 0x1d, 0x23];

/// policyConstraints, 2.5.29.36 (RFC 5280, 4.2.1.11): the contents of the identifier.
pub const OID_X509_EXT_POLICY_CONSTRAINTS: &[u8] = &[0x55, 0x1d, 0x24];

/// extendedKeyUsage, 2.5.29.37 (RFC 5280, 4.2.1.12): the contents of the identifier.
pub const OID_X509_EXT_EXTENDED_KEY_USAGE: &[u8] = &[0x55, 0x1d, 0x25];

/// inhibitAnyPolicy, 2.5.29.54 (RFC 5280, 4.2.1.14): the contents of the identifier.
pub const OID_X509_EXT_INHIBIT_ANY_POLICY: &[u8] = &[0x55, 0x1d, 0x36];

/// authorityInfoAccess, 1.3.6.1.5.5.7.1.1 (RFC 5280, 4.2.2.1): the contents of the identifier.
pub const OID_PKIX_AUTHORITY_INFO_ACCESS: &[u8] = &[0x2b, 0x06, 0x01, 0x05, 0x05, 0x07, 0x01, 0x01];

/// subjectInfoAccess, 1.3.6.1.5.5.7.1.11 (RFC 5280, 4.2.2.2): the contents of the identifier.
pub const OID_PKIX_SUBJECT_INFO_ACCESS: &[u8] = &[0x2b, 0x06, 0x01, 0x05, 0x05, 0x07, 0x01, 0x0b];

/// ctSCTList, 1.3.6.1.4.1.11129.2.4.2 (RFC 6962, 3.3): the contents of the identifier.
pub const OID_CT_LIST_SCT: &[u8] = &[0x2b, 0x06, 0x01, 0x04, 0x01, 0xd6, 0x79, 0x02, 0x04, 0x02];

/// nsCertType, 2.16.840.1.113730.1.1 (Netscape Certificate Extensions): the contents of the identifier.
pub const OID_X509_EXT_CERT_TYPE: &[u8] = &[0x60, 0x86, 0x48, 0x01, 0x86, 0xf8, 0x42, 0x01, 0x01];

/// nsComment, 2.16.840.1.113730.1.13 (Netscape Certificate Extensions): the contents of the identifier.
pub const OID_X509_EXT_CERT_COMMENT: &[u8] = &[
    0x60, 0x86, 0x48, 0x01, 0x86, 0xf8, 0x42, 0x01, 0x0d,
];

/// id-mgf1, 1.2.840.113549.1.1.8 (RFC 8017, B.2.1): the contents of the identifier.
const MASK_GENERATOR: &[u8] = &[0x2a, 0x86, 0x48, 0x86, 0xf7, 0x0d, 0x01, 0x01, 0x08];

/// The contents of an identifier, and one of its names.
pub(crate) type Row = (&'static [u8], &'static str);

const ABBREVIATIONS: [Row; 8] = [
    (OID_X509_COMMON_NAME, "CN"),
    (OID_X509_COUNTRY_NAME, "C"),
    (OID_X509_LOCALITY_NAME, "L"),
    (OID_X509_STATE_OR_PROVINCE_NAME, "ST"),
    (OID_X509_ORGANIZATION_NAME, "O"),
    (OID_X509_ORGANIZATIONAL_UNIT, "OU"),
    (OID_DOMAIN_COMPONENT, "DC"),
    (OID_PKCS9_EMAIL_ADDRESS, "Email"),
];

pub(crate) const SHORT_NAMES: [Row; 49] = [
    (OID_X509_COMMON_NAME, "commonName"),
    (OID_X509_COUNTRY_NAME, "countryName"),
    (OID_X509_LOCALITY_NAME, "localityName"),
    (OID_X509_STATE_OR_PROVINCE_NAME, "stateOrProvinceName"),
    (OID_X509_ORGANIZATION_NAME, "organizationName"),
    (OID_X509_ORGANIZATIONAL_UNIT, "organizationalUnit"),
    (OID_DOMAIN_COMPONENT, "domainComponent"),
    (OID_PKCS9_EMAIL_ADDRESS, "emailAddress"),
    (OID_PKCS9_CHALLENGE_PASSWORD, "challengePassword"),
    (OID_PKCS9_EXTENSION_REQUEST, "extensionRequest"),
    (OID_PKCS1_RSAENCRYPTION, "rsaEncryption"),
    (OID_PKCS1_SHA1WITHRSA, "sha1WithRSA"),
    (
        &[0x2a, 0x86, 0x48, 0x86, 0xf7, 0x0d, 0x01, 0x01, 0x07],
        "id-RSAES-OAEP",
    ),
    (MASK_GENERATOR, "id-mgf1"),
    (
        &[0x2a, 0x86, 0x48, 0x86, 0xf7, 0x0d, 0x01, 0x01, 0x09],
        "id-pSpecified",
    ),
    (OID_PKCS1_RSASSAPSS, "id-RSASSA-PSS"),
    (OID_PKCS1_SHA256WITHRSA, "sha256WithRSA"),
    (OID_KEY_TYPE_EC_PUBLIC_KEY, "id-ecPublicKey"),
    (OID_SIG_ECDSA_WITH_SHA256, "ecdsaWithSHA256"),
    (OID_KEY_TYPE_DSA, "id-dsa"),
    (OID_GOST_R3410_2001, "gostR3410-2001"),
    (OID_KEY_TYPE_GOST_R3410_2012_256, "gostR3410-2012-256"),
    (OID_KEY_TYPE_GOST_R3410_2012_512, "gostR3410-2012-512"),
    (OID_SIG_ED25519, "ed25519"),
    (OID_HASH_SHA1, "sha1"),
    (OID_PKIX_ACCESS_DESCRIPTOR_OCSP, "ocsp"),
    (OID_PKIX_ACCESS_DESCRIPTOR_CA_ISSUERS, "caIssuers"),
    (OID_X509_EXT_SUBJECT_KEY_IDENTIFIER, "subjectKeyIdentifier"),
    (OID_X509_EXT_KEY_USAGE, "keyUsage"),
    (OID_X509_EXT_SUBJECT_ALT_NAME, "subjectAltName"),
    (OID_X509_EXT_ISSUER_ALT_NAME, "issuerAltName"),
    (OID_X509_EXT_BASIC_CONSTRAINTS, "basicConstraints"),
    (OID_X509_EXT_CRL_NUMBER, "cRLNumber"),
    (OID_X509_EXT_REASON_CODE, "reasonCode"),
    (OID_X509_EXT_INVALIDITY_DATE, "invalidityDate"),
    (
        OID_X509_EXT_ISSUER_DISTRIBUTION_POINT,
        "issuingDistributionPoint",
    ),
    (OID_X509_EXT_NAME_CONSTRAINTS, "nameConstraints"),
    (
        OID_X509_EXT_CRL_DISTRIBUTION_POINTS,
        "cRLDistributionPoints",
    ),
    (OID_X509_EXT_CERTIFICATE_POLICIES, "certificatePolicies"),
    (OID_X509_EXT_POLICY_MAPPINGS, "policyMappings"),
    (
        OID_X509_EXT_AUTHORITY_KEY_IDENTIFIER,
        "authorityKeyIdentifier",
    ),
    (OID_X509_EXT_POLICY_CONSTRAINTS, "policyConstraints"),
    (OID_X509_EXT_EXTENDED_KEY_USAGE, "extendedKeyUsage"),
    (OID_X509_EXT_INHIBIT_ANY_POLICY, "inhibitAnyPolicy"),
    (OID_PKIX_AUTHORITY_INFO_ACCESS, "authorityInfoAccess"),
    (OID_PKIX_SUBJECT_INFO_ACCESS, "subjectInfoAccess"),
    (OID_CT_LIST_SCT, "ctSCTList"),
    (OID_X509_EXT_CERT_TYPE, "nsCertType"),
    (OID_X509_EXT_CERT_COMMENT, "nsComment"),
];

/// The abbreviation of an identifier with these contents, as `CN`. Few have one.
#[tactic(auto, unfolding(crate::specs::Objects::abbreviation))]
pub fn abbreviation(octets: &[u8]) -> Option<&'static str>
    ensures { option_copied result ≡ abbreviation octets.now }
{
    find_name(&ABBREVIATIONS, octets)
}

/// The short name of an identifier with these contents, as `commonName`.
#[tactic(auto, unfolding(crate::specs::Objects::short_name))]
fn short_name(octets: &[u8]) -> Option<&'static str>
    ensures { option_copied result ≡ short_name octets.now }
{
    find_name(&SHORT_NAMES, octets)
}

/// The description of an identifier with these contents and this short name.
pub(crate) fn described(octets: &[u8], name: &'static str) -> &'static str
    ensures { result.now ≡ described octets.now name.now }
{
    if octets == MASK_GENERATOR {
        "Mask Generator Function 1 (MGF1)"
    } else {
        name
    }
}

/// The abbreviation of an identifier with these contents, else its short name.
pub fn registered_name(octets: &[u8]) -> Option<&'static str>
    ensures { option_copied result ≡ registered_name octets.now }
{
    match abbreviation(octets) {
        Some(name) => Some(name),
        None => short_name(octets),
    }
}

fn find_name(rows: &[(&'static [u8], &'static str)], octets: &[u8]) -> Option<&'static str>
    ensures { option_copied result ≡ name_in (map (λ r. (r.0.now, r.1.now)) rows.now) octets.now }
{
    for (row_octets, name) in rows {
        if *row_octets == octets {
            return Some(*name);
        }
    }
    None
}
