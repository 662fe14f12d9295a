//! The values of extensions.

ghost use Rattle.std.specs.Prelude.{◌≡◌, [], ◌∷◌, length, map};
ghost use Rattle.x509_elements.specs.Fields.{field};
ghost use Rattle.x509_elements.specs.Parts.{value_field};
ghost use Rattle.x509_elements.specs.Told.{value_of};

use crate::field::{Field, Stands};
use crate::part::Part;

/// Which value an extension holds.
#[derive(Clone, Copy, Debug, PartialEq, Eq)]
pub enum ExtensionValue {
    /// SubjectKeyIdentifier (RFC 5280, section 4.2.1.2).
    SubjectKeyIdentifier,
    /// KeyUsage (RFC 5280, section 4.2.1.3).
    KeyUsage,
    /// SubjectAltName (RFC 5280, section 4.2.1.6).
    SubjectAltName,
    /// IssuerAltName (RFC 5280, section 4.2.1.7).
    IssuerAltName,
    /// BasicConstraints (RFC 5280, section 4.2.1.9).
    BasicConstraints,
    /// CRLNumber (RFC 5280, section 5.2.3).
    CrlNumber,
    /// CRLReason (RFC 5280, section 5.3.1).
    ReasonCode,
    /// InvalidityDate (RFC 5280, section 5.3.2).
    InvalidityDate,
    /// IssuingDistributionPoint (RFC 5280, section 5.2.5).
    IssuingDistributionPoint,
    /// NameConstraints (RFC 5280, section 4.2.1.10).
    NameConstraints,
    /// CRLDistributionPoints (RFC 5280, section 4.2.1.13).
    CrlDistributionPoints,
    /// CertificatePolicies (RFC 5280, section 4.2.1.4).
    CertificatePolicies,
    /// PolicyMappings (RFC 5280, section 4.2.1.5).
    PolicyMappings,
    /// AuthorityKeyIdentifier (RFC 5280, section 4.2.1.1).
    AuthorityKeyIdentifier,
    /// PolicyConstraints (RFC 5280, section 4.2.1.11).
    PolicyConstraints,
    /// ExtKeyUsageSyntax (RFC 5280, section 4.2.1.12).
    ExtKeyUsage,
    /// InhibitAnyPolicy (RFC 5280, section 4.2.1.14).
    InhibitAnyPolicy,
    /// AuthorityInfoAccessSyntax (RFC 5280, section 4.2.2.1).
    AuthorityInfoAccess,
    /// SubjectInfoAccessSyntax (RFC 5280, section 4.2.2.2).
    SubjectInfoAccess,
    /// SignedCertificateTimestampList (RFC 6962, section 3.3).
    TimestampList,
    /// The type of a certificate (Netscape certificate extensions).
    NsCertType,
    /// The comment of a certificate (Netscape certificate extensions).
    NsComment,
}

const SUBJECT_KEY_IDENTIFIER: [Field; 1] = [("subjectKeyIdentifier", Stands::Always, Part::Whole)];

const KEY_USAGE: [Field; 1] = [("keyUsage", Stands::Always, Part::Whole)];

const SUBJECT_ALT_NAME: [Field; 1] = [("subjectAltName", Stands::Always, Part::GeneralNames)];

const ISSUER_ALT_NAME: [Field; 1] = [("issuerAltName", Stands::Always, Part::GeneralNames)];

const BASIC_CONSTRAINTS: [Field; 1] = [(
    "basicConstraints",
    Stands::Always,
    Part::BasicConstraints,
)];

const CRL_NUMBER: [Field; 1] = [("cRLNumber", Stands::Always, Part::Whole)];

const REASON_CODE: [Field; 1] = [("reasonCode", Stands::Always, Part::Whole)];

const INVALIDITY_DATE: [Field; 1] = [("invalidityDate", Stands::Always, Part::Whole)];

const ISSUING_DISTRIBUTION_POINT: [Field; 1] = [(
    "issuingDistributionPoint",
    Stands::Always,
    Part::IssuingDistributionPoint,
)];

const NAME_CONSTRAINTS: [Field; 1] = [("nameConstraints", Stands::Always, Part::NameConstraints)];

const CRL_DISTRIBUTION_POINTS: [Field; 1] = [(
    "cRLDistributionPoints",
    Stands::Always,
    Part::DistributionPoints,
)];

const CERTIFICATE_POLICIES: [Field; 1] = [("certificatePolicies", Stands::Always, Part::Policies)];

const POLICY_MAPPINGS: [Field; 1] = [("policyMappings", Stands::Always, Part::PolicyMappings)];

const AUTHORITY_KEY_IDENTIFIER: [Field; 1] = [(
    "authorityKeyIdentifier",
    Stands::Always,
    Part::AuthorityKeyIdentifier,
)];

const POLICY_CONSTRAINTS: [Field; 1] = [(
    "policyConstraints",
    Stands::Always,
    Part::PolicyConstraints,
)];

const EXT_KEY_USAGE: [Field; 1] = [("extKeyUsage", Stands::Always, Part::Purposes)];

const INHIBIT_ANY_POLICY: [Field; 1] = [("inhibitAnyPolicy", Stands::Always, Part::Whole)];

const AUTHORITY_INFO_ACCESS: [Field; 1] = [("authorityInfoAccess", Stands::Always, Part::Accesses)];

const SUBJECT_INFO_ACCESS: [Field; 1] = [("subjectInfoAccess", Stands::Always, Part::Accesses)];

const TIMESTAMP_LIST: [Field; 1] = [(
    "signedCertificateTimestampList",
    Stands::Always,
    Part::Whole,
)];

const NS_CERT_TYPE: [Field; 1] = [("nsCertType", Stands::Always, Part::Whole)];

const NS_COMMENT: [Field; 1] = [("nsComment", Stands::Always, Part::Whole)];

/// The one member of the value: under the value's name, what it is.
pub(crate) fn value_fields(value: ExtensionValue) -> &'static [Field]
    ensures { map (λ f. field f.0.now f.1 f.2) result.now ≡ value_field value ∷ [] }
{
    match value {
        ExtensionValue::SubjectKeyIdentifier => &SUBJECT_KEY_IDENTIFIER,
        ExtensionValue::KeyUsage => &KEY_USAGE,
        ExtensionValue::SubjectAltName => &SUBJECT_ALT_NAME,
        ExtensionValue::IssuerAltName => &ISSUER_ALT_NAME,
        ExtensionValue::BasicConstraints => &BASIC_CONSTRAINTS,
        ExtensionValue::CrlNumber => &CRL_NUMBER,
        ExtensionValue::ReasonCode => &REASON_CODE,
        ExtensionValue::InvalidityDate => &INVALIDITY_DATE,
        ExtensionValue::IssuingDistributionPoint => &ISSUING_DISTRIBUTION_POINT,
        ExtensionValue::NameConstraints => &NAME_CONSTRAINTS,
        ExtensionValue::CrlDistributionPoints => &CRL_DISTRIBUTION_POINTS,
        ExtensionValue::CertificatePolicies => &CERTIFICATE_POLICIES,
        ExtensionValue::PolicyMappings => &POLICY_MAPPINGS,
        ExtensionValue::AuthorityKeyIdentifier => &AUTHORITY_KEY_IDENTIFIER,
        ExtensionValue::PolicyConstraints => &POLICY_CONSTRAINTS,
        ExtensionValue::ExtKeyUsage => &EXT_KEY_USAGE,
        ExtensionValue::InhibitAnyPolicy => &INHIBIT_ANY_POLICY,
        ExtensionValue::AuthorityInfoAccess => &AUTHORITY_INFO_ACCESS,
        ExtensionValue::SubjectInfoAccess => &SUBJECT_INFO_ACCESS,
        ExtensionValue::TimestampList => &TIMESTAMP_LIST,
        ExtensionValue::NsCertType => &NS_CERT_TYPE,
        ExtensionValue::NsComment => &NS_COMMENT,
    }
}

/// id-pe-authorityInfoAccess, 1.3.6.1.5.5.7.1.1 (RFC 5280, section 4.2.2.1).
const AUTHORITY_INFO_ACCESS_ID: &[u8] = &[0x2b, 0x06, 0x01, 0x05, 0x05, 0x07, 0x01, 0x01];

/// id-pe-subjectInfoAccess, 1.3.6.1.5.5.7.1.11 (RFC 5280, section 4.2.2.2).
const SUBJECT_INFO_ACCESS_ID: &[u8] = &[0x2b, 0x06, 0x01, 0x05, 0x05, 0x07, 0x01, 0x0b];

/// 1.3.6.1.4.1.11129.2.4.2 (RFC 6962, section 3.3).
const TIMESTAMP_LIST_ID: &[u8] = &[0x2b, 0x06, 0x01, 0x04, 0x01, 0xd6, 0x79, 0x02, 0x04, 0x02];

/// netscape-cert-type, 2.16.840.1.113730.1.1 (Netscape certificate extensions).
const NS_CERT_TYPE_ID: &[u8] = &[0x60, 0x86, 0x48, 0x01, 0x86, 0xf8, 0x42, 0x01, 0x01];

/// netscape-comment, 2.16.840.1.113730.1.13 (Netscape certificate extensions).
const NS_COMMENT_ID: &[u8] = &[0x60, 0x86, 0x48, 0x01, 0x86, 0xf8, 0x42, 0x01, 0x0d];

impl ExtensionValue {
    /// The value of an extension with this identifier; none where it isn't known.
    #[tactic(auto, unfolding(crate::specs::Told::value_of))]
    pub(crate) fn of(identifier: &[u8]) -> Option<ExtensionValue>
        ensures { result ≡ value_of identifier.now }
    {
        match identifier {
            // 2.5.29
            [0x55, 0x1d, arc] => match arc {
                14 => Some(ExtensionValue::SubjectKeyIdentifier),
                15 => Some(ExtensionValue::KeyUsage),
                17 => Some(ExtensionValue::SubjectAltName),
                18 => Some(ExtensionValue::IssuerAltName),
                19 => Some(ExtensionValue::BasicConstraints),
                20 => Some(ExtensionValue::CrlNumber),
                21 => Some(ExtensionValue::ReasonCode),
                24 => Some(ExtensionValue::InvalidityDate),
                28 => Some(ExtensionValue::IssuingDistributionPoint),
                30 => Some(ExtensionValue::NameConstraints),
                31 => Some(ExtensionValue::CrlDistributionPoints),
                32 => Some(ExtensionValue::CertificatePolicies),
                33 => Some(ExtensionValue::PolicyMappings),
                35 => Some(ExtensionValue::AuthorityKeyIdentifier),
                36 => Some(ExtensionValue::PolicyConstraints),
                37 => Some(ExtensionValue::ExtKeyUsage),
                54 => Some(ExtensionValue::InhibitAnyPolicy),
                _ => None,
            },
            [_, _, _] => None,
            _ => ExtensionValue::of_another(identifier),
        }
    }

    // The same of an identifier that isn't three octets long.
    #[tactic(auto, unfolding(crate::specs::Told::value_of))]
    fn of_another(identifier: &[u8]) -> Option<ExtensionValue>
        ensures { (3 ≡ length identifier.now → ⊥) → result ≡ value_of identifier.now }
    {
        if identifier == AUTHORITY_INFO_ACCESS_ID {
            Some(ExtensionValue::AuthorityInfoAccess)
        } else if identifier == TIMESTAMP_LIST_ID {
            Some(ExtensionValue::TimestampList)
        } else if identifier == SUBJECT_INFO_ACCESS_ID {
            Some(ExtensionValue::SubjectInfoAccess)
        } else if identifier == NS_CERT_TYPE_ID {
            Some(ExtensionValue::NsCertType)
        } else if identifier == NS_COMMENT_ID {
            Some(ExtensionValue::NsComment)
        } else {
            None
        }
    }
}
