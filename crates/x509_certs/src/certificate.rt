//! Certificates.

ghost use Rattle.std.specs.Prelude.{◌≡◌, MatchResult, codes, string_bytes, true};
ghost use Rattle.x509_der.specs.Grammar.{allocates, in_sequence};
ghost use Rattle.x509_der.specs.Hex.{hex_text};
ghost use Rattle.x509_der.specs.Iterating.{Iterates};
ghost use Rattle.x509_fields.specs.declared.error.X509Error.TheVariants.{OutOfMemory};
ghost use Rattle.x509_certs.specs.Certificate.{Certificate, certificate_of, certificate_heads, certificate, certificate_laws};

use crate::certificate_parser::X509CertificateParser;
use crate::tbs_certificate::TbsCertificate;
use crate::validity::Validity;
use std::alloc::Global;
use x509_der::{BitString, FromDer, Outside, Place, Reader, Refused, Tries};
use x509_extensions::{ExtensionIter, X509Extension};
use x509_fields::{AlgorithmIdentifier, TryClone, X509Error, X509Version};
use x509_keys::SubjectPublicKeyInfo;
use x509_names::X509Name;

/// A certificate (RFC 5280, section 4.1.1). Its signature is not looked into.
///
/// ```text
/// Certificate  ::=  SEQUENCE  {
///     tbsCertificate      TBSCertificate,
///     signatureAlgorithm  AlgorithmIdentifier,
///     signatureValue      BIT STRING  }
/// ```
#[derive(Debug, Drop, PartialEq)]
pub struct X509Certificate<'a> {
    /// The part that is signed.
    pub tbs_certificate: TbsCertificate<'a>,
    /// The algorithm of the signature.
    pub signature_algorithm: AlgorithmIdentifier<'a>,
    /// The bits of the signature.
    pub signature_value: BitString<'a>,
    pub(crate) raw: &'a [u8],
}

impl<'a> X509Certificate<'a> {
    /// The version.
    pub fn version(&self) -> X509Version
        ensures { result ≡ self.now.tbs_certificate.version }
    {
        self.tbs_certificate.version()
    }

    /// Whom the certificate is about.
    pub fn subject(&self) -> &X509Name<'a>
        ensures { result.now ≡ self.now.tbs_certificate.subject }
    {
        self.tbs_certificate.subject()
    }

    /// Who signed it.
    pub fn issuer(&self) -> &X509Name<'a>
        ensures { result.now ≡ self.now.tbs_certificate.issuer }
    {
        self.tbs_certificate.issuer()
    }

    /// When it is valid.
    pub fn validity(&self) -> &Validity
        ensures { result.now ≡ self.now.tbs_certificate.validity }
    {
        self.tbs_certificate.validity()
    }

    /// The key of the subject.
    pub fn public_key(&self) -> &SubjectPublicKeyInfo<'a>
        ensures { result.now ≡ self.now.tbs_certificate.subject_pki }
    {
        self.tbs_certificate.public_key()
    }

    /// The extensions, in order; two may have one identifier.
    pub fn extensions(&self) -> &[X509Extension<'a>]
        ensures { result.now ≡ self.now.tbs_certificate.extensions }
    {
        self.tbs_certificate.extensions()
    }

    /// Iterates over the extensions, in order.
    pub fn iter_extensions(&self) -> ExtensionIter<'_, 'a>
        ensures { Iterates result self.now.tbs_certificate.extensions }
    {
        self.tbs_certificate.iter_extensions()
    }

    /// The contents octets of the serial, as they stand.
    pub fn raw_serial(&self) -> &'a [u8]
        ensures { result.now ≡ (certificate_of self.now).tbs.raw_serial }
    {
        self.tbs_certificate.raw_serial()
    }

    /// The contents octets of the serial in lower-case hex with colons between them, as `01:02:ff`.
    ///
    /// # Errors
    ///
    /// `OutOfMemory`.
    pub fn raw_serial_as_string(&self, alloc: Global) -> Result<String, X509Error>
        ensures { MatchResult result (λ s. string_bytes s ≡ hex_text (codes ":") (certificate_of self.now).tbs.raw_serial) (λ e. e ≡ OutOfMemory) }
    {
        self.tbs_certificate.raw_serial_as_string(alloc)
    }

    /// The bytes of the certificate: the whole element, with its header.
    pub fn as_raw(&self) -> &'a [u8]
        ensures { result.now ≡ (certificate_of self.now).raw }
    {
        self.raw
    }

    /// The same as [`X509Certificate::as_raw`].
    pub fn as_ref(&self) -> &'a [u8]
        ensures { result.now ≡ (certificate_of self.now).raw }
    {
        self.as_raw()
    }
}

/// The certificate, its extensions with what their values say.
impl<'a> FromDer<'a, X509Error> for X509Certificate<'a> {
    ghost Value = { Certificate };

    ghost view = { certificate_of };

    ghost grammar = { in_sequence (certificate true) (certificate_laws true) certificate_heads allocates };

    fn read_at<L: Outside>(
        alloc: Global,
        tries: &mut Tries,
        place: &Place<'a, L>,
    ) -> Result<(Self, bool), Refused<X509Error, L>> {
        X509CertificateParser::new().read_at(alloc, tries, place)
    }

    ghost never_memory = { (certificate_laws true).laws.never_memory };
}

impl TryClone for X509Certificate<'_> {
    fn try_clone(&self) -> Result<Self, X509Error> {
        let tbs_certificate = self.tbs_certificate.try_clone()?;
        Ok(X509Certificate {
            tbs_certificate,
            signature_algorithm: self.signature_algorithm,
            signature_value: self.signature_value,
            raw: self.raw,
        })
    }
}
