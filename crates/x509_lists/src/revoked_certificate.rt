//! A certificate on a list of revoked ones.

ghost use Rattle.std.specs.Prelude.{◌≡◌, MatchResult, codes, string_bytes};
ghost use Rattle.x509_der.specs.Grammar.{allocates, in_sequence};
ghost use Rattle.x509_der.specs.Hex.{hex_text};
ghost use Rattle.x509_der.specs.Iterating.{Iterates};
ghost use Rattle.x509_fields.specs.declared.error.X509Error.TheVariants.{OutOfMemory};
ghost use Rattle.x509_lists.specs.RevokedCertificate.{Revoked, revoked_of, revoked, revoked_heads, revoked_laws};

use std::alloc::Global;
use std::slice;
use x509_der::{Fields, FromDer, Outside, Place, Refused, Sequence, Tries, UnsignedBytes, ok};
use x509_extensions::{ExtensionIter, ExtensionSequence, X509Extension};
use x509_fields::{ASN1Time, TryClone, X509Error, format_serial, read_serial, sequence_at};

/// A certificate that was revoked (RFC 5280, section 5.1.2.6).
///
/// ```text
/// SEQUENCE  {
///     userCertificate     CertificateSerialNumber,
///     revocationDate      Time,
///     crlEntryExtensions  Extensions OPTIONAL  }
/// ```
///
/// Extensions that can't be read are as good as none.
#[derive(Debug, Drop, PartialEq)]
pub struct RevokedCertificate<'a> {
    /// The serial of the certificate as an unsigned number, whatever its sign.
    pub user_certificate: UnsignedBytes<'a>,
    /// When it was revoked.
    pub revocation_date: ASN1Time,
    pub(crate) extensions: Sequence<X509Extension<'a>>,
    pub(crate) raw_serial: &'a [u8],
}

/// Certificates that were revoked, in order.
pub type RevokedIter<'v, 'a> = slice::Iter<'v, RevokedCertificate<'a>>;

impl<'a> RevokedCertificate<'a> {
    /// The serial of the certificate as an unsigned number, whatever its sign.
    pub fn serial(&self) -> &UnsignedBytes<'a>
        ensures { result.now ≡ self.now.user_certificate }
    {
        &self.user_certificate
    }

    /// The extensions, in order; two may have one identifier.
    pub fn extensions(&self) -> &[X509Extension<'a>]
        ensures { result.now ≡ self.now.extensions }
    {
        self.extensions.as_slice()
    }

    /// Iterates over the extensions, in order.
    pub fn iter_extensions(&self) -> ExtensionIter<'_, 'a>
        ensures { Iterates result self.now.extensions }
    {
        self.extensions.iter()
    }

    /// The contents octets of the serial, as they stand.
    pub fn raw_serial(&self) -> &'a [u8]
        ensures { result.now ≡ (revoked_of self.now).raw_serial }
    {
        self.raw_serial
    }

    /// The contents octets of the serial in lower-case hex with colons between them, as `01:02:ff`.
    ///
    /// # Errors
    ///
    /// `OutOfMemory`.
    pub fn raw_serial_as_string(&self, alloc: Global) -> Result<String, X509Error>
        ensures { MatchResult result (λ s. string_bytes s ≡ hex_text (codes ":") (revoked_of self.now).raw_serial) (λ e. e ≡ OutOfMemory) }
    {
        format_serial(alloc, self.raw_serial)
    }
}

/// The extensions are read with what their values say.
impl<'a> FromDer<'a, X509Error> for RevokedCertificate<'a> {
    ghost Value = { Revoked };

    ghost view = { revoked_of };

    ghost grammar = { in_sequence revoked revoked_laws revoked_heads allocates };

    #[inline(always)]
    #[tactic(auto, unfolding(crate::specs::RevokedCertificate::revoked), using(x509_der::proofs::Marking::marks_of_readers))]
    fn read_at<L: Outside>(
        alloc: Global,
        tries: &mut Tries,
        place: &Place<'a, L>,
    ) -> Result<(Self, bool), Refused<X509Error, L>> {
        let contents = sequence_at(place)?;
        let fields = Fields::of(tries, &contents);
        let (fields, raw_serial) = read_serial(tries, &fields)?;
        let (fields, revocation_date) = ok!(fields.field(alloc, tries));
        let (fields, sequence) = fields.soft(alloc, tries)?;
        let extensions = match sequence {
            Some(ExtensionSequence { list }) => list,
            None => Sequence::new(alloc),
        };
        let revoked = RevokedCertificate {
            user_certificate: UnsignedBytes::new(raw_serial),
            revocation_date,
            extensions,
            raw_serial,
        };
        Ok((revoked, fields.are_plain()))
    }

    ghost never_memory = { revoked_laws.laws.never_memory };
}

impl TryClone for RevokedCertificate<'_> {
    fn try_clone(&self) -> Result<Self, X509Error> {
        let extensions = self.extensions.try_clone()?;
        Ok(RevokedCertificate {
            user_certificate: self.user_certificate,
            revocation_date: self.revocation_date,
            extensions,
            raw_serial: self.raw_serial,
        })
    }
}
