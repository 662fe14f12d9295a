//! The part of a certificate that is signed.

ghost use Rattle.std.specs.Prelude.{◌≡◌, MatchResult, codes, string_bytes, true};
ghost use Rattle.x509_der.specs.Grammar.{allocates, in_sequence};
ghost use Rattle.x509_der.specs.Hex.{hex_text};
ghost use Rattle.x509_der.specs.Iterating.{Iterates};
ghost use Rattle.x509_fields.specs.declared.error.X509Error.TheVariants.{OutOfMemory};
ghost use Rattle.x509_certs.specs.TbsCertificate.{Tbs, tbs_of, tbs_heads, tbs, tbs_laws};

use crate::tbs_parser::TbsCertificateParser;
use crate::unique_identifier::UniqueIdentifier;
use crate::validity::Validity;
use std::alloc::Global;
use x509_der::{FromDer, Outside, Place, Reader, Refused, Sequence, Tries, UnsignedBytes};
use x509_extensions::{ExtensionIter, X509Extension};
use x509_fields::{AlgorithmIdentifier, TryClone, X509Error, X509Version, format_serial};
use x509_keys::SubjectPublicKeyInfo;
use x509_names::X509Name;

/// The part of a certificate that is signed (RFC 5280, section 4.1.2).
///
/// ```text
/// TBSCertificate  ::=  SEQUENCE  {
///     version          [0]  EXPLICIT Version DEFAULT v1,
///     serialNumber          CertificateSerialNumber,
///     signature             AlgorithmIdentifier,
///     issuer                Name,
///     validity              Validity,
///     subject               Name,
///     subjectPublicKeyInfo  SubjectPublicKeyInfo,
///     issuerUniqueID   [1]  IMPLICIT UniqueIdentifier OPTIONAL,
///     subjectUniqueID  [2]  IMPLICIT UniqueIdentifier OPTIONAL,
///     extensions       [3]  EXPLICIT Extensions OPTIONAL  }
/// ```
#[derive(Debug, Drop, PartialEq)]
pub struct TbsCertificate<'a> {
    /// The first version where none is written.
    pub version: X509Version,
    /// The serial as an unsigned number, whatever its sign.
    pub serial: UnsignedBytes<'a>,
    /// The algorithm that the signature is made with, as the signed part names it.
    pub signature: AlgorithmIdentifier<'a>,
    /// Who signed it.
    pub issuer: X509Name<'a>,
    /// When it is valid.
    pub validity: Validity,
    /// Whom the certificate is about.
    pub subject: X509Name<'a>,
    /// The key of the subject, and its algorithm.
    pub subject_pki: SubjectPublicKeyInfo<'a>,
    /// What tells issuers of one name apart, where it stands.
    pub issuer_uid: Option<UniqueIdentifier<'a>>,
    /// What tells subjects of one name apart, where it stands.
    pub subject_uid: Option<UniqueIdentifier<'a>>,
    pub(crate) extensions: Sequence<X509Extension<'a>>,
    pub(crate) raw: &'a [u8],
    pub(crate) raw_serial: &'a [u8],
}

impl<'a> TbsCertificate<'a> {
    /// The version.
    pub fn version(&self) -> X509Version
        ensures { result ≡ self.now.version }
    {
        self.version
    }

    /// Whom the certificate is about.
    pub fn subject(&self) -> &X509Name<'a>
        ensures { result.now ≡ self.now.subject }
    {
        &self.subject
    }

    /// Who signed it.
    pub fn issuer(&self) -> &X509Name<'a>
        ensures { result.now ≡ self.now.issuer }
    {
        &self.issuer
    }

    /// When it is valid.
    pub fn validity(&self) -> &Validity
        ensures { result.now ≡ self.now.validity }
    {
        &self.validity
    }

    /// The key of the subject.
    pub fn public_key(&self) -> &SubjectPublicKeyInfo<'a>
        ensures { result.now ≡ self.now.subject_pki }
    {
        &self.subject_pki
    }

    /// The extensions, in order; two may have one identifier.
    pub fn extensions(&self) -> &[X509Extension<'a>]
        ensures { result.now ≡ self.now.extensions }
    {
        self.extensions.as_slice()
    }

    /// Iterates over the extensions, in order.
    pub fn iter_extensions(&self) -> ExtensionIter<'_, 'a>
        ensures { Iterates result self.now.extensions }
    {
        self.extensions.iter()
    }

    /// The contents octets of the serial, as they stand.
    pub fn raw_serial(&self) -> &'a [u8]
        ensures { result.now ≡ (tbs_of self.now).raw_serial }
    {
        self.raw_serial
    }

    /// The contents octets of the serial in lower-case hex with colons between them, as `01:02:ff`.
    ///
    /// # Errors
    ///
    /// `OutOfMemory`.
    pub fn raw_serial_as_string(&self, alloc: Global) -> Result<String, X509Error>
        ensures { MatchResult result (λ s. string_bytes s ≡ hex_text (codes ":") (tbs_of self.now).raw_serial) (λ e. e ≡ OutOfMemory) }
    {
        format_serial(alloc, self.raw_serial)
    }

    /// The bytes that are signed: the whole element, with its header.
    pub fn as_ref(&self) -> &'a [u8]
        ensures { result.now ≡ (tbs_of self.now).raw }
    {
        self.raw
    }
}

/// The signed part alone, its extensions with what their values say.
impl<'a> FromDer<'a, X509Error> for TbsCertificate<'a> {
    ghost Value = { Tbs };

    ghost view = { tbs_of };

    ghost grammar = { in_sequence (tbs true) (tbs_laws true) tbs_heads allocates };

    fn read_at<L: Outside>(
        alloc: Global,
        tries: &mut Tries,
        place: &Place<'a, L>,
    ) -> Result<(Self, bool), Refused<X509Error, L>> {
        TbsCertificateParser::new().read_at(alloc, tries, place)
    }

    ghost never_memory = { (tbs_laws true).laws.never_memory };
}

impl TryClone for TbsCertificate<'_> {
    fn try_clone(&self) -> Result<Self, X509Error> {
        let issuer = self.issuer.try_clone()?;
        let subject = self.subject.try_clone()?;
        let extensions = self.extensions.try_clone()?;
        Ok(TbsCertificate {
            version: self.version,
            serial: self.serial,
            signature: self.signature,
            issuer,
            validity: self.validity,
            subject,
            subject_pki: self.subject_pki,
            issuer_uid: self.issuer_uid,
            subject_uid: self.subject_uid,
            extensions,
            raw: self.raw,
            raw_serial: self.raw_serial,
        })
    }
}
