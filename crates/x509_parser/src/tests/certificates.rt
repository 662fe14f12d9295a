//! Certificates by one call.

use super::fixtures::{
    BITS, EXTENDED_BYTES, PLAIN_BYTES, SERIAL, certificate_at, certificate_in, joined, kept,
    replaced, strict_certificate_at, whole,
};
use crate::prelude::*;
use std::process::Abort;
use x509_der::{Err, Oid, Tries};

#[test]
fn nothing(rt: HostRuntime) {
    let refusal = Some(Err::Incomplete);
    assert!(rt; parse_x509_certificate(rt.alloc(), b"").err() == refusal);
    assert!(rt; parse_x509_der(rt.alloc(), b"").err() == refusal);
    let mut tries = Tries::new();
    let read = X509Certificate::read(rt.alloc(), &mut tries, b"");
    assert!(rt; read.err() == refusal);
    assert!(rt; tries.count() == 0);
}

// That this is the plain certificate. What is looked at stands first among the parameters (docs/WORKING.md, "What a proof costs").
fn expect_plain(certificate: &X509Certificate<'_>, rt: &impl Abort) {
    let bytes: &[u8] = PLAIN_BYTES;
    assert!(rt; certificate.version() == X509Version::V1);
    assert!(rt; certificate.tbs_certificate.serial.is_u32(1));
    assert!(rt; certificate.tbs_certificate.as_ref() == &bytes[2..58]);
    assert!(rt; certificate.as_raw() == bytes);
    assert!(rt; certificate.as_ref() == bytes);
}

#[test]
fn windows(rt: HostRuntime) {
    let certificate = whole(&rt, parse_x509_der(rt.alloc(), PLAIN_BYTES));
    expect_plain(certificate, &rt);
    let longer = joined(&rt, &[PLAIN_BYTES, b"\x05\x00"]);
    let (rest, certificate) = certificate_at(&rt, longer);
    assert!(rt; matches!(*rest, [5, 0]));
    expect_plain(certificate, &rt);
}

/// The wrapper of extensions, as it stands; and without a length, of another one, primitive, universal.
const WRAPPERS: [[u8; 2]; 5] = [
    [0xa3, 0x21],
    [0xa3, 0],
    [0xa3, 0x7f],
    [0x83, 0x21],
    [0x23, 0x21],
];

// That these are its octets, and that it has the key's identifier.
fn expect_extended(certificate: &X509Certificate<'_>, bytes: &[u8; 106], rt: &impl Abort) {
    let bytes: &[u8] = bytes;
    assert!(rt; certificate.version() == X509Version::V3);
    assert!(rt; certificate.as_raw() == bytes);
    assert!(rt; certificate.tbs_certificate.as_ref() == &bytes[2..98]);
    assert!(rt;
        matches!(certificate.extensions(), [e]
            if e.oid.as_bytes() == b"\x55\x1D\x0E".as_slice() && !e.critical && e.value == &bytes[76..98])
    );
}

/// It is known by its number alone.
#[test]
fn key_identifier(rt: HostRuntime) {
    for [identifier, length] in WRAPPERS {
        let mut bytes = *EXTENDED_BYTES;
        bytes[63] = identifier;
        bytes[64] = length;
        let bytes = kept(&rt, bytes);
        expect_extended(certificate_in(&rt, bytes), bytes, &rt);
    }
}

const SERIALS: [(&[u8], u32, &[u8]); 4] = [
    (b"\x02\x01\x01", 1, &[1]),
    // a length in more octets than needed; another class; no octets
    (b"\x02\x81\x01\x05", 5, &[5]),
    (b"\x82\x01\x05", 5, &[5]),
    (b"\x02\x00", 0, &[]),
];

#[test]
fn serials(rt: HostRuntime) {
    for (bytes, serial, contents) in SERIALS {
        let bytes = replaced(&rt, PLAIN_BYTES, SERIAL, bytes);
        let certificate = certificate_in(&rt, bytes);
        assert!(rt; certificate.tbs_certificate.serial.is_u32(serial));
        assert!(rt; certificate.raw_serial() == contents);
    }
}

/// The signature, and what is skipped behind it.
const TAILS: [&[u8]; 4] = [
    b"\x03\x01\x00\x05\x00",
    b"\x03\x01\x00\x05\x7F",
    b"\x03\x01\x00\x1F\x1E",
    b"\x03\x01\x00\x05\x00\x05\x00\x05\x00\x05\x00\x05\x00\x05\x00\x05\x00\x05\x00\x05\x00\x05\x00\x05\x00\x05\x00\x05\x00",
];

// That these are its octets, and those of the plain certificate's signed part its own.
fn expect_skipped(certificate: &X509Certificate<'_>, bytes: &[u8], rt: &impl Abort) {
    assert!(rt; certificate.as_raw() == bytes);
    assert!(rt; certificate.tbs_certificate.as_ref().len() == 56);
    assert!(rt; certificate.signature_value.bytes.is_empty());
}

#[test]
fn bytes_behind_the_signature(rt: HostRuntime) {
    for bits in TAILS {
        let bytes = replaced(&rt, PLAIN_BYTES, BITS, bits);
        let certificate = certificate_in(&rt, bytes);
        expect_skipped(certificate, bytes, &rt);
    }
}

// That it has the extension twice, with the same value.
fn expect_repeated(certificate: &X509Certificate<'_>, rt: &impl Abort) {
    let one: &[u8] = EXTENDED_BYTES;
    let value = &one[76..98];
    let oid = Oid::new(OID_X509_EXT_SUBJECT_KEY_IDENTIFIER);
    assert!(rt;
        matches!(certificate.extensions(), [a, b] if a == b && a.oid == oid && a.value == value)
    );
    assert!(rt; certificate.find_extension(&oid).is_some());
    let unique = certificate.get_extension_unique(&oid);
    assert!(rt; matches!(unique, Err(X509Error::DuplicateExtensions)));
}

#[test]
fn repeated_extension(rt: HostRuntime) {
    let one: &[u8] = EXTENDED_BYTES;
    let (front, list): (&[u8], &[u8]) = (b"\x30\x81\x87\x30\x7D", b"\xA3\x40\x30\x3E");
    let parts = [front, &one[4..63], list, &one[67..98], &one[67..106]];
    let bytes = &*joined(&rt, &parts);
    let certificate = certificate_in(&rt, bytes);
    expect_repeated(certificate, &rt);
    let (rest, strict) = strict_certificate_at(&rt, bytes);
    assert!(rt; rest.is_empty() && strict == certificate);
}
