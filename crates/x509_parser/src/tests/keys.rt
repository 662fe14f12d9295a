//! Keys, their parameters and kinds of signatures.

use super::fixtures::{Ends, made, whole};
use crate::prelude::*;
use crate::public_key::{ECPoint, RSAPublicKey};
use crate::signature_algorithm::{RsaSsaPssParams, SignatureAlgorithm};
use std::alloc::Global;
use x509_der::{Any, BerError, Oid, Tries, read_any};

fn any<'a>(rt: &impl Ends, bytes: &'a [u8]) -> Any<'a> {
    let (_, any) = read_any(&mut Tries::new(), bytes).expect(rt, "an element");
    any
}

#[test]
fn rsa_keys(rt: HostRuntime) {
    let bytes: &[u8] = b"\x30\x08\x02\x03\x00\xC5\x01\x02\x01\x03";
    let key = whole(&rt, RSAPublicKey::from_der(rt.alloc(), bytes));
    assert!(rt; key.modulus == b"\x00\xC5\x01".as_slice());
    assert!(rt; key.try_exponent() == Ok(3));
    assert!(rt; key.key_size() == 16);
    // exponents, and what they are as numbers
    for (exponent, number) in [
        (b"\x01\x00\x01".as_slice(), Ok(65_537)),
        (b"\x80", Err(X509Error::InvalidNumber)),
        (b"", Err(X509Error::InvalidNumber)),
    ] {
        let modulus: &[u8] = b"\x05";
        let found = RSAPublicKey { modulus, exponent }.try_exponent();
        assert!(rt; found == number);
    }
    // moduli without a size
    for modulus in [b"\x80".as_slice(), b""] {
        let exponent: &[u8] = b"\x03";
        let size = RSAPublicKey { modulus, exponent }.key_size();
        assert!(rt; size == 0);
    }
    // a point: 04 and two coordinates
    let mut bytes = [0x11; 65];
    bytes[0] = 0x04;
    let size = ECPoint::from(bytes.as_slice()).key_size();
    assert!(rt; size == 256);
}

/// Parameters of RSASSA-PSS, and the length of the salt.
const PARAMETERS: [(&[u8], u32); 2] = [(b"\x30\x00", 20), (b"\x30\x05\xA2\x03\x02\x01\x1E", 30)];

/// Bytes that are none, and the refusal.
const NO_PARAMETERS: [(&[u8], BerError); 3] = [
    (b"\x31\x00", BerError::InvalidTag),
    (b"\x30\x05\x82\x03\x02\x01\x1E", BerError::InvalidTag),
    (b"\x30\x02\xA2\x05", BerError::Incomplete),
];

#[test]
fn pss_parameters(rt: HostRuntime) {
    for (bytes, salt) in PARAMETERS {
        let found = made(&rt, RsaSsaPssParams::try_from(any(&rt, bytes)));
        assert!(rt; found.salt_length() == salt);
        assert!(rt; found.trailer_field() == 1);
        assert!(rt; found.hash_algorithm_oid().as_bytes() == OID_HASH_SHA1);
        let mask = made(&rt, found.mask_gen_algorithm());
        assert!(rt; mask.mgf == Oid::new(b"\x2A\x86\x48\x86\xF7\x0D\x01\x01\x08"));
        assert!(rt; mask.hash.as_bytes() == OID_HASH_SHA1);
    }
    for (bytes, error) in NO_PARAMETERS {
        let read = RsaSsaPssParams::try_from(any(&rt, bytes));
        assert!(rt; read.err() == Some(X509Error::Der(error)), "at {bytes:?}");
    }
}

// The kind of a signature, in a word.
fn kind(alloc: Global, octets: &[u8], parameters: Option<Any<'_>>) -> &'static str {
    let algorithm = AlgorithmIdentifier::new(Oid::new(octets), parameters);
    match SignatureAlgorithm::try_from(alloc, &algorithm) {
        Ok(SignatureAlgorithm::RSA) => "RSA",
        Ok(SignatureAlgorithm::RSAAES_OAEP(_)) => "RSAES-OAEP",
        Ok(_) => "another",
        Err(X509Error::InvalidSignatureValue) => "invalid",
        Err(_) => "another refusal",
    }
}

#[test]
fn kinds_of_signatures(rt: HostRuntime) {
    let oaep = b"\x2A\x86\x48\x86\xF7\x0D\x01\x01\x07";
    let none = Some(any(&rt, b"\x30\x00"));
    assert!(rt; kind(rt.alloc(), oaep, none) == "RSAES-OAEP");
    assert!(rt; kind(rt.alloc(), oaep, None) == "invalid");
    assert!(rt; kind(rt.alloc(), OID_PKCS1_SHA256WITHRSA, None) == "RSA");
    assert!(rt; kind(rt.alloc(), b"\x2A\x03", None) == "invalid");
}
