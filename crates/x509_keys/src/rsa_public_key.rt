//! RSA public keys.

ghost use Rattle.std.specs.Prelude.{◌≡◌, ◌≤◌, false, length};
ghost use Rattle.std.specs.Int.Digits.{number_from_digits};
ghost use Rattle.x509_der.specs.Grammar.{borrows, in_sequence};
ghost use Rattle.x509_der.specs.Primitives.{is_constructed};
ghost use Rattle.x509_der.specs.Place.{at, outside_of};
ghost use Rattle.x509_der.specs.Promises.{ReadsAt};
ghost use Rattle.x509_der.specs.Reading.{strict};
ghost use Rattle.x509_fields.specs.Errors.{is_x509_memory};
ghost use Rattle.x509_keys.specs.RsaPublicKey.{RsaKey, rsa_key_of, rsa_public_key, rsa_key_heads, rsa_public_key_laws, exponent_number, modulus_size};

use crate::sizes::bits_in;
use std::alloc::Global;
use x509_der::{Fields, FromDer, Outside, Place, Refused, Tries, named};
use x509_fields::X509Error;

/// An RSA public key (RFC 8017, A.1.1).
///
/// ```text
/// RSAPublicKey ::= SEQUENCE {
///     modulus         INTEGER,
///     publicExponent  INTEGER }
/// ```
///
/// Bytes behind the second number are skipped. Every refusal is `InvalidSPKI`, also where the bytes end too early.
#[derive(Debug, Drop, PartialEq, Eq)]
pub struct RSAPublicKey<'a> {
    /// The contents of the INTEGER, as they stand. Where the number's top bit is set, an octet 0 stands before it.
    pub modulus: &'a [u8],
    /// The contents of the INTEGER, as they stand. Where the number's top bit is set, an octet 0 stands before it.
    pub exponent: &'a [u8],
}

impl RSAPublicKey<'_> {
    /// The public exponent.
    ///
    /// # Errors
    ///
    /// `InvalidNumber` where the contents are empty, below zero (the first octet's top bit is set), or more than eight bytes,
    /// leading zeros included.
    pub fn try_exponent(&self) -> Result<u64, X509Error>
        ensures { result ≡ exponent_number self.now.exponent.now }
    {
        match self.exponent {
            [] | [0x80..=0xff, ..] => Err(X509Error::InvalidNumber),
            octets if octets.len() > 8 => Err(X509Error::InvalidNumber),
            octets => Ok(number_of(octets)),
        }
    }

    /// The size of the modulus in bits: those of its bytes behind the first one, which holds the sign. 0 where the modulus is
    /// empty, or below zero (the first byte's top bit is set).
    ///
    /// A first byte that isn't 0 counts none either. The size is at most `usize::MAX`.
    pub fn key_size(&self) -> usize
        ensures { result ≡ modulus_size self.now.modulus.now }
    {
        match self.modulus {
            [0..0x80, octets @ ..] => bits_in(octets.len()),
            _ => 0,
        }
    }
}

/// The number with these digits of base 256, the most significant first.
fn number_of(octets: &[u8]) -> u64
    requires { length octets.now ≤ 8 }
    ensures { result ≡ number_from_digits 256 octets.now }
{
    let mut number = 0u64;
    for octet in octets {
        number = number * 256 + u64::from(*octet);
    }
    number
}

/// Reads the key at a place that was looked at, and tells whether it stands plainly.
#[inline(always)]
#[tactic(auto, unfolding(crate::specs::RsaPublicKey::rsa_public_key, crate::specs::RsaPublicKey::two_numbers), using(x509_der::proofs::Marking::marks_of_readers))]
pub(crate) fn rsa_key_at<'a, L: Outside>(
    tries: &mut Tries,
    place: &Place<'a, L>,
) -> Result<(RSAPublicKey<'a>, bool), Refused<X509Error, L>>
    ensures { ReadsAt is_x509_memory false strict (is_constructed 16) rsa_key_heads rsa_key_of rsa_public_key L.adds (at place.now) (outside_of place.now)
        tries.old tries.new result }
{
    let contents = named!(place.sequence(), X509Error::InvalidSPKI);
    let fields = Fields::of(tries, &contents);
    let (fields, modulus) = named!(fields.integer(tries), X509Error::InvalidSPKI);
    let exponent = named!(fields.place.integer(), X509Error::InvalidSPKI);
    let key = RSAPublicKey {
        modulus: modulus.as_bytes(),
        exponent: exponent.as_bytes(),
    };
    Ok((key, fields.ends_here()))
}

impl<'a> FromDer<'a, X509Error> for RSAPublicKey<'a> {
    ghost Value = { RsaKey };

    ghost view = { rsa_key_of };

    ghost grammar = { in_sequence rsa_public_key rsa_public_key_laws rsa_key_heads borrows };

    fn read_at<L: Outside>(
        _alloc: Global,
        tries: &mut Tries,
        place: &Place<'a, L>,
    ) -> Result<(Self, bool), Refused<X509Error, L>> {
        rsa_key_at(tries, place)
    }

    ghost never_memory = { rsa_public_key_laws.laws.never_memory };
}
