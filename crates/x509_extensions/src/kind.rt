//! Which value an extension holds.

ghost use Rattle.std.specs.Prelude.{◌≡◌, length};
ghost use Rattle.x509_extensions.specs.Kinds.{kind_of};

use x509_names::{
    OID_CT_LIST_SCT, OID_PKIX_AUTHORITY_INFO_ACCESS, OID_PKIX_SUBJECT_INFO_ACCESS,
    OID_X509_EXT_CERT_COMMENT, OID_X509_EXT_CERT_TYPE,
};

/// The values that are read, by the extension's identifier.
#[derive(Clone, Copy, Debug)]
pub(crate) enum Kind {
    SubjectKeyIdentifier,
    KeyUsage,
    SubjectAlternativeName,
    IssuerAlternativeName,
    BasicConstraints,
    CRLNumber,
    ReasonCode,
    InvalidityDate,
    IssuingDistributionPoint,
    NameConstraints,
    CRLDistributionPoints,
    CertificatePolicies,
    PolicyMappings,
    AuthorityKeyIdentifier,
    PolicyConstraints,
    ExtendedKeyUsage,
    InhibitAnyPolicy,
    AuthorityInfoAccess,
    SubjectInfoAccess,
    SCT,
    NSCertType,
    NsCertComment,
}

impl Kind {
    /// The value that an extension with this identifier holds; none where it isn't known.
    #[tactic(auto, unfolding(crate::specs::Kinds::kind_of))]
    pub(crate) fn of(octets: &[u8]) -> Option<Kind>
        ensures { result ≡ kind_of octets.now }
    {
        match octets {
            // 2.5.29
            [0x55, 0x1d, arc] => match arc {
                14 => Some(Kind::SubjectKeyIdentifier),
                15 => Some(Kind::KeyUsage),
                17 => Some(Kind::SubjectAlternativeName),
                18 => Some(Kind::IssuerAlternativeName),
                19 => Some(Kind::BasicConstraints),
                20 => Some(Kind::CRLNumber),
                21 => Some(Kind::ReasonCode),
                24 => Some(Kind::InvalidityDate),
                28 => Some(Kind::IssuingDistributionPoint),
                30 => Some(Kind::NameConstraints),
                31 => Some(Kind::CRLDistributionPoints),
                32 => Some(Kind::CertificatePolicies),
                33 => Some(Kind::PolicyMappings),
                35 => Some(Kind::AuthorityKeyIdentifier),
                36 => Some(Kind::PolicyConstraints),
                37 => Some(Kind::ExtendedKeyUsage),
                54 => Some(Kind::InhibitAnyPolicy),
                _ => None,
            },
            [_, _, _] => None,
            _ => Kind::of_another(octets),
        }
    }

    // The same of an identifier that isn't three octets long.
    #[tactic(auto, unfolding(crate::specs::Kinds::kind_of))]
    fn of_another(octets: &[u8]) -> Option<Kind>
        ensures { (3 ≡ length octets.now → ⊥) → result ≡ kind_of octets.now }
    {
        if octets == OID_PKIX_AUTHORITY_INFO_ACCESS {
            Some(Kind::AuthorityInfoAccess)
        } else if octets == OID_CT_LIST_SCT {
            Some(Kind::SCT)
        } else if octets == OID_PKIX_SUBJECT_INFO_ACCESS {
            Some(Kind::SubjectInfoAccess)
        } else if octets == OID_X509_EXT_CERT_TYPE {
            Some(Kind::NSCertType)
        } else if octets == OID_X509_EXT_CERT_COMMENT {
            Some(Kind::NsCertComment)
        } else {
            None
        }
    }
}
