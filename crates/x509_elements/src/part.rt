//! What elements are, and the fields of each.

ghost use Rattle.std.specs.Prelude.{◌≡◌, map};
ghost use Rattle.x509_elements.specs.Fields.{field};
ghost use Rattle.x509_elements.specs.Parts.{fields_of};

use crate::field::{Field, Stands};
use crate::value::{ExtensionValue, value_fields};

/// What an element is, in the words of RFC 5280 and RFC 2986, and of those that they name.
#[derive(Clone, Copy, Debug, PartialEq, Eq)]
pub enum Part {
    /// Certificate (RFC 5280, section 4.1).
    Certificate,
    /// TBSCertificate (RFC 5280, section 4.1).
    TbsCertificate,
    /// An element in its explicit tag, as a version (RFC 5280, section 4.1.2.1).
    Tagged,
    /// AlgorithmIdentifier (RFC 5280, section 4.1.1.2).
    Algorithm,
    /// Name (RFC 5280, section 4.1.2.4).
    Name,
    /// RelativeDistinguishedName (RFC 5280, section 4.1.2.4).
    RelativeName,
    /// AttributeTypeAndValue (RFC 5280, section 4.1.2.4).
    NameAttribute,
    /// Validity (RFC 5280, section 4.1.2.5).
    Validity,
    /// SubjectPublicKeyInfo (RFC 5280, section 4.1.2.7).
    KeyInfo,
    /// The AlgorithmIdentifier of a key, which tells what the key is (RFC 5280, section 4.1.2.7).
    KeyAlgorithm,
    /// The bits of a key that are an RSAPublicKey (RFC 3279, section 2.3.1).
    RsaKeyBits,
    /// RSAPublicKey (RFC 8017, section A.1.1).
    RsaKey,
    /// Extensions in their explicit tag (RFC 5280, sections 4.1.2.9 and 5.2).
    TaggedExtensions,
    /// Extensions (RFC 5280, section 4.1.2.9).
    Extensions,
    /// Extension (RFC 5280, section 4.1.2.9).
    Extension,
    /// A serial number (RFC 5280, sections 4.1.2.2 and 5.1.2.6).
    Serial,
    /// Whether an extension is critical (RFC 5280, section 4.2).
    Critical,
    /// The identifier of an extension, which tells what its value is.
    ExtensionId,
    /// The value of an extension in its OCTET STRING.
    Value(ExtensionValue),
    /// CertificateList (RFC 5280, section 5.1).
    List,
    /// TBSCertList (RFC 5280, section 5.1).
    TbsList,
    /// The revoked certificates of a list (RFC 5280, section 5.1.2.6).
    Revoked,
    /// One of them.
    Entry,
    /// CertificationRequest (RFC 2986, section 4.2).
    Request,
    /// CertificationRequestInfo (RFC 2986, section 4.1).
    RequestInfo,
    /// The attributes of a request (RFC 2986, section 4.1).
    Attributes,
    /// Attribute (RFC 2986, section 4.1).
    Attribute,
    /// The type of an attribute, which tells what its values are.
    AttributeType,
    /// The values of an attribute (RFC 2986, section 4.1).
    Values,
    /// The values of an extensionRequest (RFC 2985, section 5.4.2).
    RequestedExtensions,
    /// The values of a challengePassword (RFC 2985, section 5.4.1).
    Passwords,
    /// GeneralNames (RFC 5280, section 4.2.1.6).
    GeneralNames,
    /// GeneralName, a choice by the number of the tag (RFC 5280, section 4.2.1.6).
    GeneralName,
    /// AnotherName (RFC 5280, section 4.2.1.6).
    OtherName,
    /// Name in an explicit tag (RFC 5280, section 4.2.1.6).
    TaggedName,
    /// EDIPartyName (RFC 5280, section 4.2.1.6).
    EdiPartyName,
    /// AuthorityKeyIdentifier (RFC 5280, section 4.2.1.1).
    AuthorityKeyIdentifier,
    /// CertificatePolicies (RFC 5280, section 4.2.1.4).
    Policies,
    /// PolicyInformation (RFC 5280, section 4.2.1.4).
    Policy,
    /// The qualifiers of a policy (RFC 5280, section 4.2.1.4).
    Qualifiers,
    /// PolicyQualifierInfo (RFC 5280, section 4.2.1.4).
    Qualifier,
    /// PolicyQualifierId, which tells what the qualifier is (RFC 5280, section 4.2.1.4).
    QualifierId,
    /// UserNotice (RFC 5280, section 4.2.1.4).
    UserNotice,
    /// NoticeReference (RFC 5280, section 4.2.1.4).
    NoticeReference,
    /// The numbers of a NoticeReference (RFC 5280, section 4.2.1.4).
    NoticeNumbers,
    /// PolicyMappings (RFC 5280, section 4.2.1.5).
    PolicyMappings,
    /// One of them.
    PolicyMapping,
    /// BasicConstraints (RFC 5280, section 4.2.1.9).
    BasicConstraints,
    /// NameConstraints (RFC 5280, section 4.2.1.10).
    NameConstraints,
    /// GeneralSubtrees (RFC 5280, section 4.2.1.10).
    Subtrees,
    /// GeneralSubtree (RFC 5280, section 4.2.1.10).
    Subtree,
    /// PolicyConstraints (RFC 5280, section 4.2.1.11).
    PolicyConstraints,
    /// ExtKeyUsageSyntax (RFC 5280, section 4.2.1.12).
    Purposes,
    /// CRLDistributionPoints (RFC 5280, section 4.2.1.13).
    DistributionPoints,
    /// DistributionPoint (RFC 5280, section 4.2.1.13).
    DistributionPoint,
    /// DistributionPointName in its explicit tag (RFC 5280, section 4.2.1.13).
    DistributionPointName,
    /// The full name of a distribution point, GeneralNames (RFC 5280, section 4.2.1.13).
    FullName,
    /// The name of a distribution point relative to its issuer's, a RelativeDistinguishedName (RFC 5280, section 4.2.1.13).
    RelativeToIssuer,
    /// IssuingDistributionPoint (RFC 5280, section 5.2.5).
    IssuingDistributionPoint,
    /// AuthorityInfoAccessSyntax and SubjectInfoAccessSyntax (RFC 5280, sections 4.2.2.1 and 4.2.2.2).
    Accesses,
    /// AccessDescription (RFC 5280, section 4.2.2.1).
    Access,
    /// What an identifier that stands before it tells.
    Told,
    /// A field that is not taken apart here.
    Whole,
    /// A field of the standard that no reader here reads.
    Unread,
    /// No field.
    Unknown,
}

const CERTIFICATE: [Field; 3] = [
    ("tbsCertificate", Stands::Always, Part::TbsCertificate),
    ("signatureAlgorithm", Stands::Always, Part::Algorithm),
    ("signatureValue", Stands::Always, Part::Whole),
];

const TBS_CERTIFICATE: [Field; 10] = [
    ("version", Stands::Context(0), Part::Tagged),
    ("serialNumber", Stands::Always, Part::Serial),
    ("signature", Stands::Always, Part::Algorithm),
    ("issuer", Stands::Always, Part::Name),
    ("validity", Stands::Always, Part::Validity),
    ("subject", Stands::Always, Part::Name),
    ("subjectPublicKeyInfo", Stands::Always, Part::KeyInfo),
    ("issuerUniqueID", Stands::Context(1), Part::Whole),
    ("subjectUniqueID", Stands::Context(2), Part::Whole),
    ("extensions", Stands::Number(3), Part::TaggedExtensions),
];

const TAGGED: [Field; 1] = [("", Stands::Always, Part::Whole)];

const ALGORITHM: [Field; 2] = [
    ("algorithm", Stands::Always, Part::Whole),
    ("parameters", Stands::Always, Part::Whole),
];

const NAME: [Field; 1] = [("", Stands::Each, Part::RelativeName)];

const RELATIVE_NAME: [Field; 1] = [("", Stands::Each, Part::NameAttribute)];

const NAME_ATTRIBUTE: [Field; 2] = [
    ("type", Stands::Always, Part::Whole),
    ("value", Stands::Always, Part::Whole),
];

const VALIDITY: [Field; 2] = [
    ("notBefore", Stands::Always, Part::Whole),
    ("notAfter", Stands::Always, Part::Whole),
];

const KEY_INFO: [Field; 2] = [
    ("algorithm", Stands::Always, Part::KeyAlgorithm),
    ("subjectPublicKey", Stands::Always, Part::Told),
];

const RSA_KEY_BITS: [Field; 1] = [("", Stands::Always, Part::RsaKey)];

const RSA_KEY: [Field; 2] = [
    ("modulus", Stands::Always, Part::Whole),
    ("publicExponent", Stands::Always, Part::Whole),
];

const TAGGED_EXTENSIONS: [Field; 1] = [("", Stands::Always, Part::Extensions)];

const EXTENSIONS: [Field; 1] = [("", Stands::Each, Part::Extension)];

const EXTENSION: [Field; 3] = [
    ("extnID", Stands::Always, Part::ExtensionId),
    ("critical", Stands::Universal(1), Part::Critical),
    ("extnValue", Stands::Always, Part::Told),
];

const LIST: [Field; 3] = [
    ("tbsCertList", Stands::Always, Part::TbsList),
    ("signatureAlgorithm", Stands::Always, Part::Algorithm),
    ("signatureValue", Stands::Always, Part::Whole),
];

const TBS_LIST: [Field; 7] = [
    ("version", Stands::Universal(2), Part::Whole),
    ("signature", Stands::Always, Part::Algorithm),
    ("issuer", Stands::Always, Part::Name),
    ("thisUpdate", Stands::Always, Part::Whole),
    ("nextUpdate", Stands::Time, Part::Whole),
    ("revokedCertificates", Stands::Universal(16), Part::Revoked),
    ("crlExtensions", Stands::Number(0), Part::TaggedExtensions),
];

const REVOKED: [Field; 1] = [("", Stands::Each, Part::Entry)];

const ENTRY: [Field; 3] = [
    ("userCertificate", Stands::Always, Part::Serial),
    ("revocationDate", Stands::Always, Part::Whole),
    (
        "crlEntryExtensions",
        Stands::Universal(16),
        Part::Extensions,
    ),
];

const REQUEST: [Field; 3] = [
    (
        "certificationRequestInfo",
        Stands::Always,
        Part::RequestInfo,
    ),
    ("signatureAlgorithm", Stands::Always, Part::Algorithm),
    ("signature", Stands::Always, Part::Whole),
];

const REQUEST_INFO: [Field; 4] = [
    ("version", Stands::Always, Part::Whole),
    ("subject", Stands::Always, Part::Name),
    ("subjectPKInfo", Stands::Always, Part::KeyInfo),
    ("attributes", Stands::Context(0), Part::Attributes),
];

const ATTRIBUTES: [Field; 1] = [("", Stands::Each, Part::Attribute)];

const ATTRIBUTE: [Field; 2] = [
    ("type", Stands::Always, Part::AttributeType),
    ("values", Stands::Always, Part::Told),
];

const VALUES: [Field; 1] = [("", Stands::Each, Part::Whole)];

const REQUESTED_EXTENSIONS: [Field; 1] = [("", Stands::Each, Part::Extensions)];

const GENERAL_NAMES: [Field; 1] = [("", Stands::Each, Part::GeneralName)];

const OTHER_NAME: [Field; 2] = [
    ("type-id", Stands::Always, Part::Whole),
    ("value", Stands::Context(0), Part::Tagged),
];

const TAGGED_NAME: [Field; 1] = [("", Stands::Always, Part::Name)];

const EDI_PARTY_NAME: [Field; 2] = [
    ("nameAssigner", Stands::Context(0), Part::Tagged),
    ("partyName", Stands::Context(1), Part::Tagged),
];

const AUTHORITY_KEY_IDENTIFIER: [Field; 3] = [
    ("keyIdentifier", Stands::Context(0), Part::Whole),
    (
        "authorityCertIssuer",
        Stands::Context(1),
        Part::GeneralNames,
    ),
    ("authorityCertSerialNumber", Stands::Context(2), Part::Whole),
];

const POLICIES: [Field; 1] = [("", Stands::Each, Part::Policy)];

const POLICY: [Field; 2] = [
    ("policyIdentifier", Stands::Always, Part::Whole),
    ("policyQualifiers", Stands::Universal(16), Part::Qualifiers),
];

const QUALIFIERS: [Field; 1] = [("", Stands::Each, Part::Qualifier)];

const QUALIFIER: [Field; 2] = [
    ("policyQualifierId", Stands::Always, Part::QualifierId),
    ("qualifier", Stands::Always, Part::Told),
];

const USER_NOTICE: [Field; 2] = [
    ("noticeRef", Stands::Universal(16), Part::NoticeReference),
    ("explicitText", Stands::Always, Part::Whole),
];

const NOTICE_REFERENCE: [Field; 2] = [
    ("organization", Stands::Always, Part::Whole),
    ("noticeNumbers", Stands::Always, Part::NoticeNumbers),
];

const NOTICE_NUMBERS: [Field; 1] = [("", Stands::Each, Part::Whole)];

const POLICY_MAPPINGS: [Field; 1] = [("", Stands::Each, Part::PolicyMapping)];

const POLICY_MAPPING: [Field; 2] = [
    ("issuerDomainPolicy", Stands::Always, Part::Whole),
    ("subjectDomainPolicy", Stands::Always, Part::Whole),
];

const BASIC_CONSTRAINTS: [Field; 2] = [
    ("cA", Stands::Universal(1), Part::Whole),
    ("pathLenConstraint", Stands::Universal(2), Part::Whole),
];

const NAME_CONSTRAINTS: [Field; 2] = [
    ("permittedSubtrees", Stands::Context(0), Part::Subtrees),
    ("excludedSubtrees", Stands::Context(1), Part::Subtrees),
];

const SUBTREES: [Field; 1] = [("", Stands::Each, Part::Subtree)];

const SUBTREE: [Field; 3] = [
    ("base", Stands::Always, Part::GeneralName),
    ("minimum", Stands::Context(0), Part::Unread),
    ("maximum", Stands::Context(1), Part::Unread),
];

const POLICY_CONSTRAINTS: [Field; 2] = [
    ("requireExplicitPolicy", Stands::Context(0), Part::Whole),
    ("inhibitPolicyMapping", Stands::Context(1), Part::Whole),
];

const PURPOSES: [Field; 1] = [("", Stands::Each, Part::Whole)];

const DISTRIBUTION_POINTS: [Field; 1] = [("", Stands::Each, Part::DistributionPoint)];

const DISTRIBUTION_POINT: [Field; 3] = [
    (
        "distributionPoint",
        Stands::Context(0),
        Part::DistributionPointName,
    ),
    ("reasons", Stands::Context(1), Part::Whole),
    ("cRLIssuer", Stands::Context(2), Part::GeneralNames),
];

const DISTRIBUTION_POINT_NAME: [Field; 2] = [
    ("fullName", Stands::Number(0), Part::FullName),
    (
        "nameRelativeToCRLIssuer",
        Stands::Number(1),
        Part::RelativeToIssuer,
    ),
];

const RELATIVE_TO_ISSUER: [Field; 2] = [
    ("", Stands::Universal(17), Part::RelativeName),
    ("", Stands::Each, Part::NameAttribute),
];

const ISSUING_DISTRIBUTION_POINT: [Field; 6] = [
    (
        "distributionPoint",
        Stands::Context(0),
        Part::DistributionPointName,
    ),
    ("onlyContainsUserCerts", Stands::Context(1), Part::Whole),
    ("onlyContainsCACerts", Stands::Context(2), Part::Whole),
    ("onlySomeReasons", Stands::Context(3), Part::Whole),
    ("indirectCRL", Stands::Context(4), Part::Whole),
    (
        "onlyContainsAttributeCerts",
        Stands::Context(5),
        Part::Whole,
    ),
];

const ACCESSES: [Field; 1] = [("", Stands::Each, Part::Access)];

const ACCESS: [Field; 2] = [
    ("accessMethod", Stands::Always, Part::Whole),
    ("accessLocation", Stands::Always, Part::GeneralName),
];

/// The fields of a part, in their order; none where it is not taken apart.
pub(crate) fn fields(part: Part) -> &'static [Field]
    ensures { map (λ f. field f.0.now f.1 f.2) result.now ≡ fields_of part }
{
    match part {
        Part::Certificate => &CERTIFICATE,
        Part::TbsCertificate => &TBS_CERTIFICATE,
        Part::Tagged => &TAGGED,
        Part::Algorithm => &ALGORITHM,
        Part::Name => &NAME,
        Part::RelativeName => &RELATIVE_NAME,
        Part::NameAttribute => &NAME_ATTRIBUTE,
        Part::Validity => &VALIDITY,
        Part::KeyInfo => &KEY_INFO,
        Part::KeyAlgorithm => &ALGORITHM,
        Part::RsaKeyBits => &RSA_KEY_BITS,
        Part::RsaKey => &RSA_KEY,
        Part::TaggedExtensions => &TAGGED_EXTENSIONS,
        Part::Extensions => &EXTENSIONS,
        Part::Extension => &EXTENSION,
        Part::Value(value) => value_fields(value),
        Part::List => &LIST,
        Part::TbsList => &TBS_LIST,
        Part::Revoked => &REVOKED,
        Part::Entry => &ENTRY,
        Part::Request => &REQUEST,
        Part::RequestInfo => &REQUEST_INFO,
        Part::Attributes => &ATTRIBUTES,
        Part::Attribute => &ATTRIBUTE,
        Part::Values | Part::Passwords => &VALUES,
        Part::RequestedExtensions => &REQUESTED_EXTENSIONS,
        Part::GeneralNames | Part::FullName => &GENERAL_NAMES,
        Part::OtherName => &OTHER_NAME,
        Part::TaggedName => &TAGGED_NAME,
        Part::EdiPartyName => &EDI_PARTY_NAME,
        Part::AuthorityKeyIdentifier => &AUTHORITY_KEY_IDENTIFIER,
        Part::Policies => &POLICIES,
        Part::Policy => &POLICY,
        Part::Qualifiers => &QUALIFIERS,
        Part::Qualifier => &QUALIFIER,
        Part::UserNotice => &USER_NOTICE,
        Part::NoticeReference => &NOTICE_REFERENCE,
        Part::NoticeNumbers => &NOTICE_NUMBERS,
        Part::PolicyMappings => &POLICY_MAPPINGS,
        Part::PolicyMapping => &POLICY_MAPPING,
        Part::BasicConstraints => &BASIC_CONSTRAINTS,
        Part::NameConstraints => &NAME_CONSTRAINTS,
        Part::Subtrees => &SUBTREES,
        Part::Subtree => &SUBTREE,
        Part::PolicyConstraints => &POLICY_CONSTRAINTS,
        Part::Purposes => &PURPOSES,
        Part::DistributionPoints => &DISTRIBUTION_POINTS,
        Part::DistributionPoint => &DISTRIBUTION_POINT,
        Part::DistributionPointName => &DISTRIBUTION_POINT_NAME,
        Part::RelativeToIssuer => &RELATIVE_TO_ISSUER,
        Part::IssuingDistributionPoint => &ISSUING_DISTRIBUTION_POINT,
        Part::Accesses => &ACCESSES,
        Part::Access => &ACCESS,
        Part::Serial
        | Part::Critical
        | Part::ExtensionId
        | Part::AttributeType
        | Part::GeneralName
        | Part::QualifierId
        | Part::Told
        | Part::Whole
        | Part::Unread
        | Part::Unknown => &[],
    }
}
