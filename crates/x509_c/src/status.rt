//! Statuses: refusals as numbers, and their words.

ghost use Rattle.std.specs.Prelude.{◌≡◌, length};
ghost use Rattle.x509_der.specs.declared.error.Err.{Err as Refusal};
ghost use Rattle.x509_der.specs.Words.{refusal_word};
ghost use Rattle.x509_fields.specs.declared.error.X509Error.{X509Error};
ghost use Rattle.x509_fields.specs.Errors.{x509_word};
ghost use Rattle.x509_c.specs.Status.{status_of, kind_status, ber_status, x509_status, word_of_status, lifted_refusal, placed};
ghost use Rattle.x509_c.specs.Text.{HoldsText};

use crate::text::put_text;
use x509_der::{BerError, Err, ErrorKind, Located};
use x509_fields::X509Error;

/// What was asked for was read.
pub(crate) const OK: u32 = 0;

/// A request for memory was refused.
pub(crate) const OUT_OF_MEMORY: u32 = 2;

/// What was looked up isn't there.
pub(crate) const NOT_FOUND: u32 = 50;

/// The number of a refusal of a list.
fn kind_status(kind: ErrorKind) -> u32
    ensures { result ≡ kind_status kind }
{
    match kind {
        ErrorKind::Complete => 40,
        ErrorKind::Eof => 41,
        ErrorKind::Many1 => 42,
        ErrorKind::MapRes => 43,
    }
}

/// The number of a refusal of an element.
fn ber_status(kind: BerError) -> u32
    ensures { result ≡ ber_status kind }
{
    match kind {
        BerError::Incomplete => 1,
        BerError::OutOfMemory => 2,
        BerError::InvalidTag => 32,
        BerError::InvalidLength => 33,
        BerError::BerTypeError => 34,
        BerError::BerValueError => 35,
        BerError::DerConstraintFailed => 36,
        BerError::NomError(kind) => kind_status(kind),
    }
}

/// The number of an error.
fn x509_status(error: X509Error) -> u32
    ensures { result ≡ x509_status error }
{
    match error {
        X509Error::OutOfMemory => 2,
        X509Error::Generic => 3,
        X509Error::InvalidVersion => 4,
        X509Error::InvalidSerial => 5,
        X509Error::InvalidAlgorithmIdentifier => 6,
        X509Error::InvalidX509Name => 7,
        X509Error::InvalidDate => 8,
        X509Error::InvalidSPKI => 9,
        X509Error::InvalidSubjectUID => 10,
        X509Error::InvalidIssuerUID => 11,
        X509Error::InvalidExtensions => 12,
        X509Error::InvalidAttributes => 13,
        X509Error::DuplicateExtensions => 14,
        X509Error::DuplicateAttributes => 15,
        X509Error::InvalidSignatureValue => 16,
        X509Error::InvalidTbsCertificate => 17,
        X509Error::InvalidUserCertificate => 18,
        X509Error::InvalidCertificate => 19,
        X509Error::SignatureVerificationError => 20,
        X509Error::SignatureUnsupportedAlgorithm => 21,
        X509Error::InvalidNumber => 22,
        X509Error::Der(kind) => ber_status(kind),
        X509Error::NomError(kind) => kind_status(kind),
    }
}

/// The number of a refusal.
pub(crate) fn status_of(refusal: Err<X509Error>) -> u32
    ensures { result ≡ status_of refusal }
{
    match refusal {
        Err::Incomplete => 1,
        Err::Error(error) | Err::Failure(error) => x509_status(error),
    }
}

/// The number of a refusal; the octet at which it stands is written, but of want of memory, which has none.
pub(crate) fn refused(refusal: Located<X509Error>, at: &mut usize) -> u32
    ensures status { result ≡ status_of refusal.why }
    ensures at { at.new ≡ placed refusal at.old }
{
    let status = status_of(refusal.why);
    if status != OUT_OF_MEMORY {
        *at = refusal.at;
    }
    status
}

/// A refusal of an element under the readers' own errors.
pub(crate) fn lifted(refusal: Located<BerError>) -> Located<X509Error>
    ensures { result ≡ lifted_refusal refusal }
{
    let why = match refusal.why {
        Err::Incomplete => Err::Incomplete,
        Err::Error(error) => Err::Error(X509Error::from(error)),
        Err::Failure(error) => Err::Failure(X509Error::from(error)),
    };
    Located {
        why,
        at: refusal.at,
    }
}

/// The words of a status.
#[tactic(auto, using(crate::proofs::Words::status_words))]
fn word(status: u32) -> &'static str
    ensures is { result.now ≡ word_of_status status }
    ensures same { (e : Refusal X509Error) → status_of e ≡ status → result.now ≡ refusal_word x509_word e }
{
    match status {
        0 => "ok",
        1 => "incomplete",
        2 => "out of memory",
        3 => "generic error",
        4 => "invalid version",
        5 => "invalid serial",
        6 => "invalid algorithm identifier",
        7 => "invalid X.509 name",
        8 => "invalid date",
        9 => "invalid X.509 Subject Public Key Info",
        10 => "invalid X.509 Subject Unique ID",
        11 => "invalid X.509 Issuer Unique ID",
        12 => "invalid extensions",
        13 => "invalid attributes",
        14 => "duplicate extensions",
        15 => "duplicate attributes",
        16 => "invalid Signature DER Value",
        17 => "invalid TBS certificate",
        18 => "invalid User certificate",
        19 => "invalid certificate",
        20 => "signature verification error",
        21 => "signature unsupported algorithm",
        22 => "invalid number",
        32 => "invalid tag",
        33 => "invalid length",
        34 => "invalid type",
        35 => "invalid value",
        36 => "DER constraint failed",
        40 => "cut short",
        41 => "trailing data",
        42 => "empty list",
        43 => "invalid mapping",
        50 => "not found",
        _ => "unknown",
    }
}

/// The words of a status, as a text of C in memory of the caller: as much as has room. Gives the length of the whole.
#[unsafe(no_mangle)]
pub extern "C" fn rtv_word(status: u32, text: &mut [u8]) -> usize
    ensures length { result ≡ length (word_of_status status) }
    ensures text { HoldsText text.new (word_of_status status) }
    ensures same { (e : Refusal X509Error) → status_of e ≡ status → HoldsText text.new (refusal_word x509_word e) }
{
    put_text(word(status).as_bytes(), text)
}
