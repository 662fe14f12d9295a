//! Certificates.

ghost use Rattle.std.specs.Prelude.{◌≡◌, true, Err as Refused};
ghost use Rattle.x509_der.specs.Promises.{ReadsWhere};
ghost use Rattle.x509_fields.specs.Errors.{is_x509_memory};
ghost use Rattle.x509_certs.specs.Certificate.{certificate_of, certificate_by, is_deep, is_strict};
ghost use Rattle.x509_c.specs.Certificates.{IsCertificateRow, ShowsCertificate, read_of};
ghost use Rattle.x509_c.specs.Tells.{Tells, Done};

use crate::extensions::ExtensionRow;
use crate::keys::key_size;
use crate::row_writer::put_rows;
use crate::status::{OK, refused};
use crate::times::seconds;
use std::alloc::Global;
use x509_certs::{X509Certificate, X509CertificateParser};
use x509_der::{Err, Located, Reader};
use x509_fields::X509Error;

/// What a certificate says: `rtv_certificate` of rushtrivet.h.
#[repr(C)]
#[derive(Clone, Copy)]
pub struct CertificateRow<'a> {
    /// The certificate, with its header.
    pub whole: &'a [u8],
    /// What stands behind it in the buffer.
    pub rest: &'a [u8],
    /// The octets that are signed, with their header.
    pub signed_part: &'a [u8],
    /// The contents of the serial.
    pub serial: &'a [u8],
    /// The name of who signed it, with its header.
    pub issuer: &'a [u8],
    /// The name of whom it is about, with its header.
    pub subject: &'a [u8],
    /// The key and its algorithm, with their header.
    pub key_info: &'a [u8],
    /// The contents of the identifier of the key's algorithm.
    pub key_algorithm: &'a [u8],
    /// The octets of the key's bits.
    pub key_bits: &'a [u8],
    /// The contents of the identifier of the signature's algorithm, which stands outside of the signed part.
    pub signature_algorithm: &'a [u8],
    /// The octets of the signature's bits.
    pub signature: &'a [u8],
    /// From when on it is valid, in seconds since 1970.
    pub not_before: i64,
    /// Until when it is valid, in seconds since 1970.
    pub not_after: i64,
    /// The size of the key in bits; 0 where it isn't known.
    pub key_size: usize,
    /// How many extensions there are.
    pub extension_count: usize,
    /// The number of the version: 0 is the first.
    pub version: u32,
}

fn certificate_row<'a>(certificate: &X509Certificate<'a>, rest: &'a [u8]) -> CertificateRow<'a>
    ensures { IsCertificateRow result (certificate_of certificate.now) rest.now }
{
    let part = &certificate.tbs_certificate;
    CertificateRow {
        whole: certificate.as_raw(),
        rest,
        signed_part: part.as_ref(),
        serial: part.raw_serial(),
        issuer: part.issuer.as_raw(),
        subject: part.subject.as_raw(),
        key_info: part.subject_pki.raw,
        key_algorithm: part.subject_pki.algorithm.algorithm.as_bytes(),
        key_bits: part.subject_pki.subject_public_key.bytes,
        signature_algorithm: certificate.signature_algorithm.algorithm.as_bytes(),
        signature: certificate.signature_value.bytes,
        not_before: seconds(&part.validity.not_before),
        not_after: seconds(&part.validity.not_after),
        key_size: key_size(&part.subject_pki),
        extension_count: part.extensions().len(),
        version: part.version.0,
    }
}

/// The reader by these settings.
fn parser(deep: bool, strict: bool) -> X509CertificateParser
    ensures deep { is_deep result ≡ deep }
    ensures strict { is_strict result ≡ strict }
{
    X509CertificateParser::new()
        .with_deep_parse_extensions(deep)
        .with_strict(strict)
}

/// Why a certificate is refused, with the octet of its place, which a second reading finds; of want of memory there is none.
///
/// Whatever is told of a refusal is read as where its place is asked for. So what takes a certificate is a reader with one caller in this
/// library, and LLVM writes all of it into that.
#[inline(never)]
fn located(
    alloc: Global,
    parser: X509CertificateParser,
    der: &[u8],
    why: Err<X509Error>,
) -> Located<X509Error>
    ensures { ReadsWhere is_x509_memory true read_of (certificate_by (is_deep parser) (is_strict parser)) der.now (Refused result) }
{
    if !why.is_out_of_memory() {
        if let Err(refusal) = parser.parse_located(alloc, der) {
            return refusal;
        }
    }
    Located {
        why: Err::Failure(X509Error::OutOfMemory),
        at: 0,
    }
}

/// Reads the certificate at the front of the buffer. The extensions are written in order, as many as there are rows; the certificate
/// says how many there are. A deep reading looks at the values of extensions too, which makes a difference to a strict one alone: it
/// refuses what stands by a lenient rule, as 3.
#[unsafe(no_mangle)]
pub extern "C" fn rtv_read_certificate<'a>(
    alloc: Global,
    der: &'a [u8],
    deep: bool,
    strict: bool,
    certificate: &mut CertificateRow<'a>,
    extensions: &mut [ExtensionRow<'a>],
    at: &mut usize,
) -> u32
    ensures { Tells (certificate_by deep strict) der.now
        (λ c rest. Done (ShowsCertificate certificate.new extensions.new c rest))
        ((certificate.new ≡ certificate.old) × (extensions.new ≡ extensions.old))
        at.old at.new result }
{
    let parser = parser(deep, strict);
    match parser.parse(alloc, der) {
        Ok((rest, read)) => {
            *certificate = certificate_row(&read, rest);
            put_rows(extensions, read.extensions());
            OK
        }
        Err(why) => refused(located(alloc, parser, der, why), at),
    }
}
