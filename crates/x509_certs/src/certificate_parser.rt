//! Readers of certificates.

ghost use Rattle.std.specs.Prelude.{◌≡◌, ◌≤◌, ◌+◌, ◌*◌, true, false, IfOk, length};
ghost use Rattle.x509_der.specs.Grammar.{allocates, in_sequence};
ghost use Rattle.x509_der.specs.Looks.{behind};
ghost use Rattle.x509_der.specs.Place.{at, outside_of};
ghost use Rattle.x509_der.specs.Primitives.{is_constructed};
ghost use Rattle.x509_der.specs.Promises.{ReadsAt};
ghost use Rattle.x509_der.specs.Reading.{strict};
ghost use Rattle.x509_fields.specs.Errors.{is_x509_memory};
ghost use Rattle.x509_extensions.specs.Extension.{value_bytes};
ghost use Rattle.x509_certs.specs.Certificate.{Certificate, CertificateStands, is_deep, is_strict, certificate_of, certificate_heads, certificate};
ghost use Rattle.x509_certs.specs.Certificate.{certificate_by, certificate_by_laws};
ghost use Rattle.x509_certs.specs.Standing.{certificate_by_stands, certificate_refused};
ghost use Rattle.x509_certs.specs.TbsCertificate.{RefusedAtAnyDepth};

use crate::certificate::X509Certificate;
use crate::tbs_reader::TbsReader;
use std::alloc::Global;
use x509_der::{Err, Outside, Place, Reader, Refused, Tries, ok};
use x509_extensions::X509ExtensionParser;
use x509_fields::{Signed, X509Error, read_signed};

/// Reads certificates, with or without what the values of extensions say.
///
/// A new one is deep: a value whose identifier is known is read, and a value that can't be read is said to be so. A shallow
/// one leaves values alone and tries no header inside them.
#[derive(Clone, Copy, Debug)]
pub struct X509CertificateParser {
    reader: TbsReader,
    strict: bool,
}

impl Default for X509CertificateParser {
    ghost is_default = { λ p. (is_deep p ≡ true) × (is_strict p ≡ false) };

    fn default() -> X509CertificateParser {
        X509CertificateParser::new()
    }
}

impl X509CertificateParser {
    /// A reader that looks at the values of extensions.
    pub const fn new() -> X509CertificateParser
        ensures deep { is_deep result ≡ true }
        ensures loose { is_strict result ≡ false }
    {
        X509CertificateParser {
            reader: TbsReader {
                extensions: X509ExtensionParser::new(),
            },
            strict: false,
        }
    }

    /// The reader that looks at the values of extensions, or doesn't.
    pub const fn with_deep_parse_extensions(
        self,
        deep_parse_extensions: bool,
    ) -> X509CertificateParser
        ensures deep { is_deep result ≡ deep_parse_extensions }
        ensures same { is_strict result ≡ is_strict self }
    {
        let extensions = self
            .reader
            .extensions
            .with_deep_parse_extensions(deep_parse_extensions);
        X509CertificateParser {
            reader: TbsReader { extensions },
            strict: self.strict,
        }
    }

    /// The reader that refuses what doesn't stand plainly, as `Error(Generic)`, or takes it.
    pub const fn with_strict(self, strict: bool) -> X509CertificateParser
        ensures strict { is_strict result ≡ strict }
        ensures same { is_deep result ≡ is_deep self }
    {
        X509CertificateParser {
            reader: self.reader,
            strict,
        }
    }

    // The certificate at a place that was looked at, whether or not it stands plainly.
    #[inline(always)]
    #[tactic(auto, unfolding(crate::specs::Certificate::certificate))]
    fn loosely_at<'a, L: Outside>(
        &self,
        alloc: Global,
        tries: &mut Tries,
        place: &Place<'a, L>,
    ) -> Result<(X509Certificate<'a>, bool), Refused<X509Error, L>>
        ensures reads { ReadsAt is_x509_memory true strict (is_constructed 16) certificate_heads certificate_of (certificate (is_deep self.now)) L.adds
            (at place.now) (outside_of place.now) tries.old tries.new result }
        ensures shallow { is_deep self.now ≡ false
            → IfOk result
            (λ x. tries.new + 9 + 8 * value_bytes ((certificate_of x.0).tbs.extensions) + 8 * length (behind (at place.now))
            ≤ tries.old + 8 * length (at place.now)) }
    {
        let (
            Signed {
                tbs,
                signature_algorithm,
                signature_value,
                raw,
            },
            plain,
        ) = ok!(read_signed(&self.reader, alloc, tries, place));
        let certificate = X509Certificate {
            tbs_certificate: tbs,
            signature_algorithm,
            signature_value,
            raw,
        };
        Ok((certificate, plain))
    }
}

/// A shallow reader tries no header inside the values of extensions.
impl<'a> Reader<'a, X509Error, X509Certificate<'a>> for X509CertificateParser {
    ghost Value = { Certificate };

    ghost view = { certificate_of };

    ghost grammar = { λ p. in_sequence (certificate_by (is_deep p) (is_strict p)) (certificate_by_laws (is_deep p) (is_strict p)) certificate_heads allocates };

    ghost is_deep = { is_deep };

    ghost unread = { λ v. value_bytes v.tbs.extensions };

    ghost stands = { λ p bytes v rest. CertificateStands (is_deep p) bytes v rest };

    ghost tells_refusals = { λ p. is_strict p ≡ false };

    // What is refused at one depth is refused at the other.
    ghost refused = { λ _ bytes why. RefusedAtAnyDepth certificate bytes why };

    ghost stands_where = { λ p. certificate_by_stands (is_deep p) (is_strict p) };

    ghost refused_where = { λ p. certificate_refused (is_deep p) (is_strict p) };

    fn read_at<L: Outside>(
        &self,
        alloc: Global,
        tries: &mut Tries,
        place: &Place<'a, L>,
    ) -> Result<(X509Certificate<'a>, bool), Refused<X509Error, L>> {
        match self.loosely_at(alloc, tries, place) {
            Ok(read) => {
                if self.strict && !read.1 {
                    return Err(place.refuse(Err::Error(X509Error::Generic)));
                }
                Ok(read)
            }
            Err(e) => Err(e),
        }
    }

    ghost never_memory = { λ p. (certificate_by_laws (is_deep p) (is_strict p)).laws.never_memory };
}
