//! Public keys with their algorithms.

ghost use Rattle.std.specs.Prelude.{◌≡◌, Result};
ghost use Rattle.x509_der.specs.Grammar.{borrows, in_sequence};
ghost use Rattle.x509_der.specs.Primitives.{is_primitive};
ghost use Rattle.x509_der.specs.Reading.{Gives, element_of};
ghost use Rattle.x509_keys.specs.KeyInfo.{KeyInfo, key_info_of, key_info, key_info_heads};
ghost use Rattle.x509_keys.specs.KeySizes.{algorithm_in, curve_in, size_in, size_of_key};
ghost use Rattle.x509_keys.specs.Laws.{key_info_laws};
ghost use Rattle.x509_keys.specs.PublicKey.{Key, ParsesKeyIn, key_in, public_key_of};

use crate::key_algorithm::{KeyAlgorithm, NamedCurve};
use crate::key_kind::KeyKind;
use crate::public_key::{PublicKey, parse_key, read_key};
use std::alloc::Global;
use x509_der::{Any, BitString, Class, FromDer, Outside, Place, Refused, Tries};
use x509_fields::{AlgorithmIdentifier, X509Error};

/// A public key and its algorithm (RFC 5280, section 4.1.2.7).
///
/// ```text
/// SubjectPublicKeyInfo  ::=  SEQUENCE  {
///     algorithm         AlgorithmIdentifier,
///     subjectPublicKey  BIT STRING  }
/// ```
#[derive(Clone, Copy, Debug, PartialEq)]
pub struct SubjectPublicKeyInfo<'a> {
    pub algorithm: AlgorithmIdentifier<'a>,
    pub subject_public_key: BitString<'a>,
    /// The bytes from the header to the end of the key. With bytes behind the key in the SEQUENCE, which are skipped, they
    /// are no whole element.
    pub raw: &'a [u8],
}

impl<'a> SubjectPublicKeyInfo<'a> {
    /// The key that the key bits hold, by the algorithm's identifier: an RSA key, the INTEGER of a DSA key or the OCTET STRING
    /// of a GOST key that stands first in them, or all of them, as a point for id-ecPublicKey and as they stand for every other
    /// algorithm. Bytes behind the key are skipped, and the count of unused bits isn't looked at. Takes no memory.
    ///
    /// # Errors
    ///
    /// `InvalidSPKI` where the key bits hold no such key.
    pub fn parsed(&self) -> Result<PublicKey<'a>, X509Error>
        ensures reads { Gives public_key_of result (key_in (key_info_of self.now)) }
        ensures exact { ParsesKeyIn (key_info_of self.now) result }
    {
        parse_key(
            self.algorithm.algorithm.as_bytes(),
            self.subject_public_key.bytes,
        )
    }

    /// What the key is for, by the algorithm's identifier.
    pub fn key_algorithm(&self) -> KeyAlgorithm
        ensures { result ≡ algorithm_in (key_info_of self.now) }
    {
        KeyAlgorithm::of(self.algorithm.algorithm.as_bytes())
    }

    /// The curve that the parameters of the algorithm name (RFC 5480, section 2.1.1); None where they name none, or one that isn't
    /// known here.
    pub fn named_curve(&self) -> Option<NamedCurve>
        ensures { result ≡ curve_in (key_info_of self.now) }
    {
        match self.algorithm.parameters {
            Some(parameters) if is_identifier(&parameters) => NamedCurve::of(parameters.as_bytes()),
            _ => None,
        }
    }

    /// The size in bits: of an RSA key, also one for RSASSA-PSS, that of its modulus ([`RSAPublicKey::key_size`](crate::RSAPublicKey));
    /// on a curve that is known, that of a coordinate, else that which the point's octets have; of the keys of RFC 8410 that of their
    /// octets, 256, 448 (X448) or 456 (Ed448); of a GOST R 34.10-2012 key 256 or 512; of others that of [`PublicKey::key_size`].
    ///
    /// None for algorithms that aren't known, and where the key bits hold no key that has to be read for it.
    pub fn key_size(&self) -> Option<usize>
        ensures { result ≡ size_in (key_info_of self.now) }
    {
        match self.key_algorithm() {
            KeyAlgorithm::Rsa | KeyAlgorithm::Dsa | KeyAlgorithm::GostR3410 => size_of(
                self.parsed(),
            ),
            KeyAlgorithm::RsaPss => size_of(read_key(KeyKind::RSA, self.subject_public_key.bytes)),
            KeyAlgorithm::Ec => match self.named_curve() {
                Some(curve) => Some(curve.field_bits()),
                None => size_of(self.parsed()),
            },
            KeyAlgorithm::X25519 | KeyAlgorithm::Ed25519 | KeyAlgorithm::GostR3410_2012_256 => Some(
                256,
            ),
            KeyAlgorithm::X448 => Some(448),
            KeyAlgorithm::Ed448 => Some(456),
            KeyAlgorithm::GostR3410_2012_512 => Some(512),
            KeyAlgorithm::Unknown => None,
        }
    }
}

/// The size of a key that was read.
fn size_of(read: Result<PublicKey<'_>, X509Error>) -> Option<usize>
    ensures { (outcome : Result Key X509Error) → Gives public_key_of read.entry outcome → result ≡ size_of_key outcome }
{
    match read {
        Ok(key) => Some(key.key_size()),
        Err(_) => None,
    }
}

/// Whether it is an OBJECT IDENTIFIER.
fn is_identifier(any: &Any<'_>) -> bool
    ensures { result ≡ is_primitive 6 (element_of any.now).header }
{
    let header = any.header();
    matches!(header.class, Class::Universal) && !header.constructed && header.tag.0 == 6
}

/// The key info at a place, and whether it stands plainly; a refusal ends the function. For the reader of certificates, in which it stands in place. It names
/// calls of x509_der and x509_fields, which the crate that uses it needs too.
#[macro_export]
macro_rules! key_info_at {
    ($alloc:ident, $tries:ident, $place:expr) => {{
        let place = $place;
        let contents = x509_fields::sequence_at(place)?;
        let fields = x509_der::Fields::of($tries, &contents);
        let (fields, algorithm) = x509_der::ok!(fields.field($alloc, $tries));
        let bits = fields.place.bits();
        let subject_public_key = x509_der::named!(bits, x509_fields::X509Error::InvalidSPKI);
        let bytes = place.bytes();
        let behind = fields.place.rest().len() + place.rest().len();
        let info = $crate::SubjectPublicKeyInfo {
            algorithm,
            subject_public_key,
            raw: &bytes[..bytes.len() - behind],
        };
        (info, fields.ends_here())
    }};
}

/// A key that cannot be read is `InvalidSPKI`; the SEQUENCE and the algorithm have their own refusals.
impl<'a> FromDer<'a, X509Error> for SubjectPublicKeyInfo<'a> {
    ghost Value = { KeyInfo };

    ghost view = { key_info_of };

    ghost grammar = { in_sequence key_info key_info_laws key_info_heads borrows };

    #[inline(always)]
    #[tactic(auto, unfolding(crate::specs::KeyInfo::key_info), using(x509_der::proofs::Marking::marks_of_readers))]
    fn read_at<L: Outside>(
        alloc: Global,
        tries: &mut Tries,
        place: &Place<'a, L>,
    ) -> Result<(Self, bool), Refused<X509Error, L>> {
        Ok(key_info_at!(alloc, tries, place))
    }

    ghost never_memory = { key_info_laws.laws.never_memory };
}
