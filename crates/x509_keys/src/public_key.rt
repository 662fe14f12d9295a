//! Public keys.

ghost use Rattle.std.specs.Prelude.{◌≡◌};
ghost use Rattle.x509_der.specs.Place.{at};
ghost use Rattle.x509_der.specs.Reading.{Gives};
ghost use Rattle.x509_keys.specs.PublicKey.{ParsesKey, key_of_kind, key_or_invalid, parsed_key, public_key_of, public_key_size};

use crate::ec_point::ECPoint;
use crate::key_kind::KeyKind;
use crate::rsa_public_key::{RSAPublicKey, rsa_key_at};
use crate::sizes::bits_in;
use x509_der::{Nowhere, Place, Tries};
use x509_fields::X509Error;

/// A public key, by its algorithm (RFC 5280, section 4.1.2.7).
#[derive(Debug, Drop, PartialEq, Eq)]
pub enum PublicKey<'a> {
    /// rsaEncryption (RFC 8017, A.1.1).
    RSA(RSAPublicKey<'a>),
    /// id-ecPublicKey (RFC 5480, section 2.2): all of the key bits.
    EC(ECPoint<'a>),
    /// id-dsa, `DSAPublicKey ::= INTEGER` (RFC 3279, section 2.3.2): the contents, as they stand.
    DSA(&'a [u8]),
    /// gostR3410-2001, `GostR3410-2001-PublicKey ::= OCTET STRING` (RFC 4491, section 2.3.2): the contents.
    GostR3410(&'a [u8]),
    /// gostR3410-2012-256 and gostR3410-2012-512, an OCTET STRING (RFC 9215, section 4): the contents.
    GostR3410_2012(&'a [u8]),
    /// Another algorithm: all of the key bits.
    Unknown(&'a [u8]),
}

impl PublicKey<'_> {
    /// The size in bits: that of the RSA modulus ([`RSAPublicKey::key_size`]), of a coordinate of the point
    /// ([`ECPoint::key_size`]), or of all bytes of a DSA or GOST R 34.10-2001 key, at most `usize::MAX`. 0 for other keys.
    pub fn key_size(&self) -> usize
        ensures { result ≡ public_key_size (public_key_of self.now) }
    {
        match self {
            PublicKey::RSA(key) => key.key_size(),
            PublicKey::EC(point) => point.key_size(),
            PublicKey::DSA(y) | PublicKey::GostR3410(y) => bits_in(y.len()),
            PublicKey::GostR3410_2012(_) | PublicKey::Unknown(_) => 0,
        }
    }
}

/// The key that stands first in the key bits of the algorithm with this identifier, or all of them.
pub(crate) fn parse_key<'a>(algorithm: &[u8], bits: &'a [u8]) -> Result<PublicKey<'a>, X509Error>
    ensures reads { Gives public_key_of result (parsed_key algorithm.now bits.now) }
    ensures exact { ParsesKey algorithm.now bits.now result }
{
    read_key(KeyKind::of(algorithm), bits)
}

/// The same of a key of this kind.
#[tactic(auto, unfolding(crate::specs::PublicKey::key_of_kind))]
pub(crate) fn read_key<'a>(kind: KeyKind, bits: &'a [u8]) -> Result<PublicKey<'a>, X509Error>
    ensures { Gives public_key_of result (key_or_invalid ((key_of_kind kind).read bits.now)) }
{
    match kind {
        KeyKind::RSA => match rsa_key_at(&mut Tries::new(), &first_place(bits)) {
            Ok((key, _)) => Ok(PublicKey::RSA(key)),
            Err(_) => Err(X509Error::InvalidSPKI),
        },
        KeyKind::EC => Ok(PublicKey::EC(ECPoint::from(bits))),
        KeyKind::DSA => match first_place(bits).integer() {
            Ok(y) => Ok(PublicKey::DSA(y.as_bytes())),
            Err(_) => Err(X509Error::InvalidSPKI),
        },
        KeyKind::GostR3410 => match first_place(bits).octets() {
            Ok(y) => Ok(PublicKey::GostR3410(y)),
            Err(_) => Err(X509Error::InvalidSPKI),
        },
        KeyKind::GostR3410_2012 => match first_place(bits).octets() {
            Ok(y) => Ok(PublicKey::GostR3410_2012(y)),
            Err(_) => Err(X509Error::InvalidSPKI),
        },
        KeyKind::Unknown => Ok(PublicKey::Unknown(bits)),
    }
}

/// The place where the bytes begin.
#[inline(always)]
pub(crate) fn first_place(bytes: &[u8]) -> Place<'_, Nowhere>
    ensures { at result ≡ bytes.now }
{
    Place::look(&mut Tries::new(), bytes)
}
