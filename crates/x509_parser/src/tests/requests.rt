//! Certification requests.

use super::fixtures::{EXTENDED_BYTES, Ends, PLAIN_BYTES, joined, kept, sequence, whole};
use crate::prelude::*;
use std::process::Abort;
use x509_der::{Err, Oid};

/// A request without attributes: 29 bytes.
pub const PLAIN_REQUEST: &[u8; 29] =
    b"\x30\x1B\x30\x11\x02\x01\x00\x30\x00\x30\x08\x30\x03\x06\x01\x2A\x03\x01\x00\xA0\x00\x30\x03\x06\x01\x2A\x03\x01\x00";

// That this is the plain request.
fn expect_plain(request: &X509CertificationRequest<'_>, rt: &impl Abort) {
    let bytes: &[u8] = PLAIN_REQUEST;
    assert!(rt; request.as_raw() == bytes);
    let info = &request.certification_request_info;
    assert!(rt; info.version == X509Version::V1);
    assert!(rt; info.raw == &bytes[2..21]);
    assert!(rt; info.attributes().is_empty());
}

// The request in these bytes.
fn request_in(rt: &impl Ends, bytes: &'static [u8]) -> &'static X509CertificationRequest<'static> {
    whole(rt, X509CertificationRequest::from_der(rt.alloc(), bytes))
}

#[test]
fn no_attributes(rt: HostRuntime) {
    expect_plain(request_in(&rt, PLAIN_REQUEST), &rt);
    let strict = parse_x509_csr_strict(rt.alloc(), PLAIN_REQUEST);
    expect_plain(whole(&rt, strict), &rt);
}

// That it has a password, and asks for no extensions.
fn expect_password(request: &X509CertificationRequest<'_>, rt: &impl Abort) {
    let info = &request.certification_request_info;
    assert!(rt; info.raw.len() == 37);
    let attribute = info.find_attribute(&Oid::new(OID_PKCS9_CHALLENGE_PASSWORD));
    assert!(rt; matches!(attribute, Some(a) if a.value == b"\x31\x03\x0C\x01a".as_slice()));
    assert!(rt; request.requested_extensions().is_none());
}

/// The same with a password, whose wrapper's length is right, and then another one.
#[test]
fn a_password(rt: HostRuntime) {
    for (length, refusal) in [(0x12, None), (0x00, Some(Err::Error(X509Error::Generic)))] {
        let mut bytes =
            *b"\x30\x2D\x30\x23\x02\x01\x00\x30\x00\x30\x08\x30\x03\x06\x01\x2A\x03\x01\x00\xA0\x12\x30\x10\x06\x09\x2A\x86\x48\x86\xF7\x0D\x01\x09\
              \x07\x31\x03\x0C\x01a\x30\x03\x06\x01\x2A\x03\x01\x00";
        bytes[20] = length;
        let bytes = kept(&rt, bytes);
        expect_password(request_in(&rt, bytes), &rt);
        let strict = parse_x509_csr_strict(rt.alloc(), bytes);
        assert!(rt; strict.err() == refusal);
    }
}

/// Passwords in their SET, whose text is "a".
const PASSWORDS: [&[u8]; 3] = [
    b"\x31\x03\x0C\x01a",
    b"\x31\x04\x1E\x02\x00a",
    b"\x31\x06\x1C\x04\x00\x00\x00a",
];

const NO_PASSWORDS: [&[u8]; 2] = [b"\x31\x03\x1E\x01\x00", b"\x31\x7F\x0C\x01a"];

// The attribute in these bytes.
fn attribute_in(rt: &impl Ends, bytes: &'static [u8]) -> &'static X509CriAttribute<'static> {
    whole(rt, X509CriAttribute::from_der(rt.alloc(), bytes))
}

#[test]
fn passwords(rt: HostRuntime) {
    let id: &[u8] = b"\x06\x09\x2A\x86\x48\x86\xF7\x0D\x01\x09\x07";
    for set in PASSWORDS {
        let attribute = attribute_in(&rt, sequence(&rt, &[id, set]));
        let password = attribute.parsed_attribute();
        assert!(rt;
            matches!(password, ParsedCriAttribute::ChallengePassword(p) if p.0.as_str() == "a")
        );
    }
    for set in NO_PASSWORDS {
        let bytes = sequence(&rt, &[id, set]);
        let read = X509CriAttribute::from_der(rt.alloc(), bytes);
        assert!(rt; read.err() == Some(Err::Error(X509Error::InvalidAttributes)));
    }
}

// Whether it asks for one extension, with this value.
fn asks_for(request: &ExtensionRequest<'_>, value: &[u8]) -> bool {
    matches!(request.extensions.as_slice(), [e] if e.value == value)
}

#[test]
fn requested_extensions(rt: HostRuntime) {
    let certificate: &[u8] = EXTENDED_BYTES;
    let extensions = &certificate[65..98];
    let wanted = ExtensionRequest::from_der(rt.alloc(), extensions);
    let wanted = whole(&rt, wanted);
    let front: &[u8] = b"\x30\x2E\x06\x09\x2A\x86\x48\x86\xF7\x0D\x01\x09\x0E\x31\x21";
    let bytes = joined(&rt, &[front, extensions]);
    let attribute = attribute_in(&rt, bytes);
    let ParsedCriAttribute::ExtensionRequest(read) = attribute.parsed_attribute() else {
        panic!(rt; "no extensions");
    };
    let value = &certificate[76..98];
    assert!(rt; asks_for(wanted, value));
    assert!(rt; asks_for(read, value));
}

#[test]
fn no_requests(rt: HostRuntime) {
    for bytes in [PLAIN_BYTES.as_slice(), b"", b"\x30"] {
        let read = X509CertificationRequest::from_der(rt.alloc(), bytes);
        assert!(rt; read.err() == Some(Err::Incomplete), "at {bytes:?}");
    }
}
