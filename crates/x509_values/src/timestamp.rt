//! A signed certificate timestamp.

ghost use Rattle.std.specs.Prelude.{◌≡◌, IfOk, IfErr};
ghost use Rattle.x509_der.specs.declared.error.Err.TheVariants as err;
ghost use Rattle.x509_der.specs.Reading.{Gives};
ghost use Rattle.x509_values.specs.Sentence.{ReadsFront};
ghost use Rattle.x509_values.specs.Timestamp.{signed_of, timestamp_of, digitally_signed, timestamp_fields, timestamp};

use crate::octets::{read_array, read_sized, read_u8, read_u64};
use x509_der::{BerError, Err};

/// The version of the protocol that a timestamp belongs to (RFC 6962, section 3.2). A reader keeps any.
#[derive(Clone, Copy, Debug, PartialEq, Eq)]
pub struct CtVersion(pub u8);

impl CtVersion {
    /// Version 1, the one that RFC 6962 describes.
    pub const V1: CtVersion = CtVersion(0);
}

/// The log that signed: the SHA-256 hash of its public key (RFC 6962, section 3.2).
#[derive(Clone, Copy, Debug, PartialEq, Eq)]
pub struct CtLogID<'a> {
    pub key_id: &'a [u8; 32],
}

/// Extensions of the protocol, of which RFC 6962 defines none (section 3.2); at most 65,535 bytes.
#[derive(Clone, Copy, Debug, PartialEq, Eq)]
pub struct CtExtensions<'a>(pub &'a [u8]);

/// A signature and its algorithms, by their numbers in TLS (RFC 5246, sections 4.7 and 7.4.1.4.1).
#[derive(Clone, Copy, Debug, PartialEq, Eq)]
pub struct DigitallySigned<'a> {
    /// The hash algorithm: 4 for SHA-256.
    pub hash_alg_id: u8,
    /// The signature algorithm: 1 for RSA, 3 for ECDSA.
    pub sign_alg_id: u8,
    /// The signature, at most 65,535 bytes.
    pub bytes: &'a [u8],
}

/// A log's promise to publish a certificate (RFC 6962, section 3.2).
///
/// ```text
/// struct {
///     Version sct_version;
///     LogID id;
///     uint64 timestamp;
///     CtExtensions extensions;
///     digitally-signed struct { .. };
/// } SignedCertificateTimestamp;
/// ```
#[derive(Clone, Copy, Debug, PartialEq, Eq)]
pub struct SignedCertificateTimestamp<'a> {
    pub version: CtVersion,
    pub id: CtLogID<'a>,
    /// When it was signed, in milliseconds since 1970 in UTC, leap seconds left out.
    pub timestamp: u64,
    pub extensions: CtExtensions<'a>,
    pub signature: DigitallySigned<'a>,
}

#[inline(always)]
#[tactic(auto, unfolding(crate::specs::Timestamp::digitally_signed))]
fn read_digitally_signed(i: &[u8]) -> Result<(&[u8], DigitallySigned<'_>), Err<BerError>>
    ensures { Gives (λ x. (x.0.now, signed_of x.1)) result (digitally_signed.read i.now) }
{
    let (rest, hash_alg_id) = read_u8(i)?;
    let (rest, sign_alg_id) = read_u8(rest)?;
    let (rest, bytes) = read_sized(rest)?;
    let signature = DigitallySigned {
        hash_alg_id,
        sign_alg_id,
        bytes,
    };
    Ok((rest, signature))
}

#[inline(always)]
#[tactic(auto, unfolding(crate::specs::Timestamp::timestamp_fields))]
fn read_fields(i: &[u8]) -> Result<(&[u8], SignedCertificateTimestamp<'_>), Err<BerError>>
    ensures { Gives (λ x. (x.0.now, timestamp_of x.1)) result (timestamp_fields.read i.now) }
{
    let (rest, version) = read_u8(i)?;
    let (rest, key_id) = read_array(rest)?;
    let (rest, timestamp) = read_u64(rest)?;
    let (rest, extensions) = read_sized(rest)?;
    let (rest, signature) = read_digitally_signed(rest)?;
    let fields = SignedCertificateTimestamp {
        version: CtVersion(version),
        id: CtLogID { key_id },
        timestamp,
        extensions: CtExtensions(extensions),
        signature,
    };
    Ok((rest, fields))
}

/// The timestamp at the front, and whether no bytes stand behind its fields.
#[inline(always)]
#[tactic(auto, unfolding(crate::specs::Timestamp::timestamp), using(crate::proofs::Plain::plain_words))]
pub(crate) fn read_timestamp<'a>(
    i: &'a [u8],
) -> Result<(&'a [u8], SignedCertificateTimestamp<'a>, bool), Err<BerError>>
    ensures reading { Gives (λ x. (x.0.now, timestamp_of x.1)) result (timestamp.read i.now) }
    ensures marks { IfOk result (λ x. x.2 ≡ timestamp.marks i.now) }
{
    let (rest, contents) = read_sized(i)?;
    let (tail, timestamp) = read_fields(contents)?;
    Ok((rest, timestamp, tail.is_empty()))
}

/// Reads one timestamp at the front of the bytes: its length in two octets, and so many octets, in which bytes behind the
/// signature are skipped (RFC 6962, sections 3.2 and 3.3). What stands behind them is the first part of the answer.
///
/// Any version is kept. Numbers are big-endian, and lengths are in bytes. `Err::Incomplete` where the bytes end too early, or
/// those that the length tells are too few for the fields; there is no other refusal. Takes no memory.
pub fn parse_ct_signed_certificate_timestamp<'a>(
    i: &'a [u8],
) -> Result<(&'a [u8], SignedCertificateTimestamp<'a>), Err<BerError>>
    ensures reading { Gives (λ x. (x.0.now, timestamp_of x.1)) result (timestamp.read i.now) }
    ensures exact { ReadsFront (λ x. (x.0.now, timestamp_of x.1)) timestamp i.now result }
    ensures incomplete { IfErr result (λ e. e ≡ err.Incomplete) }
{
    match read_timestamp(i) {
        Ok((rest, timestamp, _)) => Ok((rest, timestamp)),
        Err(e) => Err(e),
    }
}
