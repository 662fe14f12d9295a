//! One visit of extensions.

ghost use Rattle.std.specs.Prelude.{◌≡◌};
ghost use Rattle.x509_extensions.specs.Extension.{extension_of};
ghost use Rattle.x509_visitors.specs.ExtensionEvents.{value_event, in_certificate, in_list};
ghost use Rattle.x509_visitors.specs.ExtensionVisits.{event_of};

use x509_der::{BerError, Err, UnsignedBytes};
use x509_extensions::{ParsedExtension, X509Extension};
use x509_fields::{ASN1Time, ReasonCode};
use x509_general_names::{
    AuthorityInfoAccess, AuthorityKeyIdentifier, CRLDistributionPoints, IssuerAlternativeName,
    IssuingDistributionPoint, KeyIdentifier, NameConstraints, SubjectAlternativeName,
};
use x509_values::{
    BasicConstraints, CertificatePolicies, ExtendedKeyUsage, InhibitAnyPolicy, KeyUsage,
    NSCertType, PolicyConstraints, PolicyMappings, SignedCertificateTimestamp,
};

/// One visit of the extensions of a certificate or of a list, with what it is passed.
#[derive(Clone, Copy, Debug)]
pub enum ExtensionVisit<'v, 'a> {
    /// All extensions, before each of them.
    PreExtensions(&'v [X509Extension<'a>]),
    /// An extension, before what its value says.
    Extension(&'v X509Extension<'a>),
    /// Where more about the issuer is found.
    AuthorityInformationAccess(&'v AuthorityInfoAccess<'a>),
    /// Which key of the issuer signed.
    AuthorityKeyIdentifier(&'v AuthorityKeyIdentifier<'a>),
    /// Whether the subject is a certification authority.
    BasicConstraints(&'v BasicConstraints),
    /// The policies that the certificate was issued under.
    CertificatePolicies(&'v CertificatePolicies<'a>),
    /// Where lists of revoked certificates are found.
    CrlDistributionPoints(&'v CRLDistributionPoints<'a>),
    /// The number of the list.
    CrlNumber(&'v UnsignedBytes<'a>),
    /// For which purposes the key may be used.
    ExtendedKeyUsage(&'v ExtendedKeyUsage<'a>),
    /// How long any policy stands for others.
    InhibitAnyPolicy(&'v InhibitAnyPolicy),
    /// Since when a certificate is held to be invalid.
    InvalidityDate(&'v ASN1Time),
    /// Other names of the issuer.
    IssuerAlternativeName(&'v IssuerAlternativeName<'a>),
    /// What the list covers.
    IssuingDistributionPoint(&'v IssuingDistributionPoint<'a>),
    /// What the key may be used for.
    KeyUsage(&'v KeyUsage),
    /// What the certificate may be used for, in the words of Netscape.
    NsCertType(&'v NSCertType),
    /// Which names a certification authority may certify.
    NameConstraints(&'v NameConstraints<'a>),
    /// A comment for readers.
    NsComment(&'v str),
    /// What is required of policies on a path.
    PolicyConstraints(&'v PolicyConstraints),
    /// Which policies of the issuer and of the subject are equivalent.
    PolicyMappings(&'v PolicyMappings<'a>),
    /// Why a certificate was revoked.
    ReasonCode(&'v ReasonCode),
    /// The promises of transparency logs to publish the certificate.
    Timestamps(&'v [SignedCertificateTimestamp<'a>]),
    /// Other names of the subject.
    SubjectAlternativeName(&'v SubjectAlternativeName<'a>),
    /// The identifier of the subject's key.
    SubjectKeyIdentifier(&'v KeyIdentifier<'a>),
    /// An extension whose value can't be read, and why.
    ParseError(&'v X509Extension<'a>, &'v Err<BerError>),
    /// Any other extension.
    Unknown(&'v X509Extension<'a>),
    /// All extensions, after each of them.
    PostExtensions(&'v [X509Extension<'a>]),
}

impl<'v, 'a> ExtensionVisit<'v, 'a> {
    // The visit of what the extension's value says.
    #[tactic(auto, unfolding(crate::specs::ExtensionEvents::value_event, crate::specs::ExtensionVisits::event_of))]
    pub(crate) fn of_value(extension: &'v X509Extension<'a>) -> ExtensionVisit<'v, 'a>
        ensures { event_of result ≡ value_event (extension_of extension.now) (extension_of extension.now).parsed }
    {
        match extension.parsed_extension() {
            ParsedExtension::AuthorityInfoAccess(access) => {
                ExtensionVisit::AuthorityInformationAccess(access)
            }
            ParsedExtension::AuthorityKeyIdentifier(identifier) => {
                ExtensionVisit::AuthorityKeyIdentifier(identifier)
            }
            ParsedExtension::BasicConstraints(constraints) => {
                ExtensionVisit::BasicConstraints(constraints)
            }
            ParsedExtension::CertificatePolicies(policies) => {
                ExtensionVisit::CertificatePolicies(policies)
            }
            ParsedExtension::CRLDistributionPoints(points) => {
                ExtensionVisit::CrlDistributionPoints(points)
            }
            ParsedExtension::CRLNumber(number) => ExtensionVisit::CrlNumber(number),
            ParsedExtension::ExtendedKeyUsage(usage) => ExtensionVisit::ExtendedKeyUsage(usage),
            ParsedExtension::InhibitAnyPolicy(policy) => ExtensionVisit::InhibitAnyPolicy(policy),
            ParsedExtension::InvalidityDate(date) => ExtensionVisit::InvalidityDate(date),
            ParsedExtension::IssuerAlternativeName(names) => {
                ExtensionVisit::IssuerAlternativeName(names)
            }
            ParsedExtension::IssuingDistributionPoint(point) => {
                ExtensionVisit::IssuingDistributionPoint(point)
            }
            ParsedExtension::KeyUsage(usage) => ExtensionVisit::KeyUsage(usage),
            ParsedExtension::NSCertType(kind) => ExtensionVisit::NsCertType(kind),
            ParsedExtension::NameConstraints(constraints) => {
                ExtensionVisit::NameConstraints(constraints)
            }
            ParsedExtension::NsCertComment(comment) => ExtensionVisit::NsComment(comment),
            ParsedExtension::PolicyConstraints(constraints) => {
                ExtensionVisit::PolicyConstraints(constraints)
            }
            ParsedExtension::PolicyMappings(mappings) => ExtensionVisit::PolicyMappings(mappings),
            ParsedExtension::ReasonCode(reason) => ExtensionVisit::ReasonCode(reason),
            ParsedExtension::SCT(timestamps) => ExtensionVisit::Timestamps(timestamps.as_slice()),
            ParsedExtension::SubjectAlternativeName(names) => {
                ExtensionVisit::SubjectAlternativeName(names)
            }
            ParsedExtension::SubjectKeyIdentifier(identifier) => {
                ExtensionVisit::SubjectKeyIdentifier(identifier)
            }
            ParsedExtension::ParseError { error } => ExtensionVisit::ParseError(extension, error),
            _ => ExtensionVisit::Unknown(extension),
        }
    }

    // Whether a walk over a certificate makes such a visit.
    #[tactic(auto, unfolding(crate::specs::ExtensionEvents::in_certificate, crate::specs::ExtensionVisits::event_of))]
    pub(crate) const fn is_in_certificate(&self) -> bool
        ensures { result ≡ in_certificate (event_of self.now) }
    {
        !matches!(
            self,
            ExtensionVisit::CrlNumber(_)
                | ExtensionVisit::InvalidityDate(_)
                | ExtensionVisit::IssuingDistributionPoint(_)
                | ExtensionVisit::ReasonCode(_)
        )
    }

    // Whether a walk over a list makes such a visit.
    #[tactic(auto, unfolding(crate::specs::ExtensionEvents::in_list, crate::specs::ExtensionVisits::event_of))]
    pub(crate) const fn is_in_list(&self) -> bool
        ensures { result ≡ in_list (event_of self.now) }
    {
        matches!(
            self,
            ExtensionVisit::PreExtensions(_)
                | ExtensionVisit::Extension(_)
                | ExtensionVisit::AuthorityInformationAccess(_)
                | ExtensionVisit::AuthorityKeyIdentifier(_)
                | ExtensionVisit::CrlNumber(_)
                | ExtensionVisit::InvalidityDate(_)
                | ExtensionVisit::IssuerAlternativeName(_)
                | ExtensionVisit::IssuingDistributionPoint(_)
                | ExtensionVisit::ReasonCode(_)
                | ExtensionVisit::Timestamps(_)
                | ExtensionVisit::ParseError(..)
                | ExtensionVisit::Unknown(_)
                | ExtensionVisit::PostExtensions(_)
        )
    }
}
