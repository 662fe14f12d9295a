//! Readers of the signed part.

ghost use Rattle.std.specs.Prelude.{◌≡◌, true, false};
ghost use Rattle.x509_der.specs.Grammar.{allocates, in_sequence};
ghost use Rattle.x509_der.specs.Reading.{strict};
ghost use Rattle.x509_extensions.specs.Extension.{value_bytes};
ghost use Rattle.x509_certs.specs.Standing.{tbs_by_stands, tbs_refused};
ghost use Rattle.x509_certs.specs.TbsCertificate.{RefusedAtAnyDepth, SignedPartStands, Tbs, looks_at_values, takes_plain_alone, tbs_of, tbs_heads, tbs, tbs_by};
ghost use Rattle.x509_certs.specs.TbsCertificate.{tbs_by_laws};

use crate::tbs_certificate::TbsCertificate;
use crate::tbs_reader::TbsReader;
use std::alloc::Global;
use x509_der::{Err, Outside, Place, Reader, Refused, Tries};
use x509_extensions::X509ExtensionParser;
use x509_fields::X509Error;

/// Reads the signed parts of certificates, with or without what the values of extensions say.
///
/// A new one is deep: a value whose identifier is known is read, and a value that can't be read is said to be so. A shallow
/// one leaves values alone and tries no header inside them.
#[derive(Clone, Copy, Debug)]
pub struct TbsCertificateParser {
    reader: TbsReader,
    strict: bool,
}

impl Default for TbsCertificateParser {
    ghost is_default = { λ p. (looks_at_values p ≡ true) × (takes_plain_alone p ≡ false) };

    fn default() -> TbsCertificateParser {
        TbsCertificateParser::new()
    }
}

impl TbsCertificateParser {
    /// A reader that looks at the values of extensions.
    pub const fn new() -> TbsCertificateParser
        ensures deep { looks_at_values result ≡ true }
        ensures loose { takes_plain_alone result ≡ false }
    {
        TbsCertificateParser {
            reader: TbsReader {
                extensions: X509ExtensionParser::new(),
            },
            strict: false,
        }
    }

    /// The reader that looks at the values of extensions, or doesn't.
    pub const fn with_deep_parse_extensions(
        self,
        deep_parse_extensions: bool,
    ) -> TbsCertificateParser
        ensures deep { looks_at_values result ≡ deep_parse_extensions }
        ensures same { takes_plain_alone result ≡ takes_plain_alone self }
    {
        let extensions = self
            .reader
            .extensions
            .with_deep_parse_extensions(deep_parse_extensions);
        TbsCertificateParser {
            reader: TbsReader { extensions },
            strict: self.strict,
        }
    }

    /// The reader that refuses what doesn't stand plainly, as `Error(Generic)`, or takes it.
    pub const fn with_strict(self, strict: bool) -> TbsCertificateParser
        ensures strict { takes_plain_alone result ≡ strict }
        ensures same { looks_at_values result ≡ looks_at_values self }
    {
        TbsCertificateParser {
            reader: self.reader,
            strict,
        }
    }
}

/// A shallow reader tries no header inside the values of extensions.
impl<'a> Reader<'a, X509Error, TbsCertificate<'a>> for TbsCertificateParser {
    ghost Value = { Tbs };

    ghost view = { tbs_of };

    ghost grammar = { λ p. in_sequence (tbs_by (looks_at_values p) (takes_plain_alone p)) (tbs_by_laws (looks_at_values p) (takes_plain_alone p))
        tbs_heads allocates };

    ghost is_deep = { looks_at_values };

    ghost unread = { λ v. value_bytes v.extensions };

    ghost stands = { λ p bytes v rest. SignedPartStands (looks_at_values p) bytes v rest };

    ghost tells_refusals = { λ p. takes_plain_alone p ≡ false };

    // What is refused at one depth is refused at the other.
    ghost refused = { λ _ bytes why. RefusedAtAnyDepth tbs bytes why };

    ghost stands_where = { λ p. tbs_by_stands (looks_at_values p) (takes_plain_alone p) };

    ghost refused_where = { λ p. tbs_refused (looks_at_values p) (takes_plain_alone p) };

    fn read_at<L: Outside>(
        &self,
        alloc: Global,
        tries: &mut Tries,
        place: &Place<'a, L>,
    ) -> Result<(TbsCertificate<'a>, bool), Refused<X509Error, L>> {
        match self.reader.read_at(alloc, tries, place) {
            Ok((value, plain)) => {
                if self.strict && !plain {
                    return Err(place.refuse(Err::Error(X509Error::Generic)));
                }
                Ok((value, plain))
            }
            Err(e) => Err(e),
        }
    }

    ghost never_memory = { λ p. (tbs_by_laws (looks_at_values p) (takes_plain_alone p)).laws.never_memory };
}
