//! Reading whole certificates.

ghost use Rattle.std.specs.Prelude.{◌≡◌, true, false, [], IfOk, IfErr};
ghost use Rattle.x509_der.specs.Promises.{Answers, IsFront, ReadsExactly, ReadsWhere, is_excused};
ghost use Rattle.x509_fields.specs.Errors.{is_x509_memory};
ghost use Rattle.x509_certs.specs.Certificate.{certificate_of, CertificateStands, certificate, certificate_by};
ghost use Rattle.x509_certs.specs.TbsCertificate.{RefusedAtAnyDepth, tbs_by};

use crate::certificate::X509Certificate;
use crate::certificate_parser::X509CertificateParser;
use std::alloc::Global;
use x509_der::{Err, FromDer, Located, Reader, Tries};
use x509_fields::{X509Error, X509Result};

/// Reads the certificate at the front of the bytes, with what the values of its extensions say, and gives what stands
/// behind it (RFC 5280, section 4.1). A value that can't be read hides nothing else.
///
/// # Errors
///
/// Those of the first field in reading order that can't be read, and `Failure(OutOfMemory)`.
pub fn parse_x509_certificate<'a>(alloc: Global, i: &'a [u8]) -> X509Result<'a, X509Certificate<'a>>
    ensures exact { ReadsExactly is_x509_memory true (λ x. (x.0.now, certificate_of x.1)) (certificate true) i.now result }
    ensures stands { IfOk result (λ x. CertificateStands true i.now (certificate_of x.1) x.0.now) }
    ensures refused_at_any_depth { IfErr result (λ e. is_excused is_x509_memory true e ≡ false → RefusedAtAnyDepth certificate i.now e) }
{
    X509CertificateParser::new().parse(alloc, i)
}

/// The same as [`parse_x509_certificate`]; a refusal has the offset, in octets from the front, of the place at which the grammar
/// refuses the bytes.
///
/// # Errors
///
/// Those of [`parse_x509_certificate`], with their offset; want of memory has none.
pub fn parse_x509_certificate_located<'a>(
    alloc: Global,
    i: &'a [u8],
) -> Result<(&'a [u8], X509Certificate<'a>), Located<X509Error>>
    ensures exact { ReadsWhere is_x509_memory true (λ x. (x.0.now, certificate_of x.1)) (certificate true) i.now result }
    ensures stands { IfOk result (λ x. CertificateStands true i.now (certificate_of x.1) x.0.now) }
{
    X509CertificateParser::new().parse_located(alloc, i)
}

/// Reads the certificate at the front of the bytes, with what the values of its extensions say, and gives what stands
/// behind it (RFC 5280, section 4.1), where it stands plainly: one that doesn't is `Error(Generic)`.
///
/// # Errors
///
/// Those of the first field in reading order that can't be read, and `Failure(OutOfMemory)`.
pub fn parse_x509_certificate_strict<'a>(
    alloc: Global,
    i: &'a [u8],
) -> X509Result<'a, X509Certificate<'a>>
    ensures exact { ReadsExactly is_x509_memory true (λ x. (x.0.now, certificate_of x.1)) (certificate_by true true) i.now result }
    ensures stands { IfOk result (λ x. CertificateStands true i.now (certificate_of x.1) x.0.now) }
    // Its signed part's window is taken back by a strict reader of signed parts.
    ensures strict_part { IfOk result (λ x. IsFront (tbs_by true true) (certificate_of x.1).tbs.raw (certificate_of x.1).tbs []) }
{
    X509CertificateParser::new()
        .with_strict(true)
        .parse(alloc, i)
}

/// The same as [`parse_x509_certificate`], by its older name.
pub fn parse_x509_der<'a>(alloc: Global, i: &'a [u8]) -> X509Result<'a, X509Certificate<'a>>
    ensures exact { ReadsExactly is_x509_memory true (λ x. (x.0.now, certificate_of x.1)) (certificate true) i.now result }
    ensures stands { IfOk result (λ x. CertificateStands true i.now (certificate_of x.1) x.0.now) }
    ensures refused_at_any_depth { IfErr result (λ e. is_excused is_x509_memory true e ≡ false → RefusedAtAnyDepth certificate i.now e) }
{
    parse_x509_certificate(alloc, i)
}

/// The same as [`parse_x509_certificate`], and whether the certificate stands plainly: whether [`parse_x509_certificate_strict`]
/// would take it too. The bytes are read once.
///
/// # Errors
///
/// Those of [`parse_x509_certificate`].
pub fn parse_x509_certificate_marked<'a>(
    alloc: Global,
    i: &'a [u8],
) -> Result<(&'a [u8], X509Certificate<'a>, bool), Err<X509Error>>
    ensures reads { Answers is_x509_memory true (λ x. (x.0.now, certificate_of x.1)) result ((certificate true).read i.now) }
    ensures marks { IfOk result (λ x. x.2 ≡ (certificate true).marks i.now) }
{
    X509Certificate::read_marked(alloc, &mut Tries::new(), i)
}
