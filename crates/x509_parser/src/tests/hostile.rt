//! Bytes that are no certificates, certificates that stand plainly and others, and how many headers are looked at.

use super::fixtures::{
    ALGORITHM, BITS, EXTENDED_BYTES, EXTENSIONS, KEY, PLAIN_BYTES, Place, SERIAL, VERSION,
    certificate_at, joined, refusals, replaced, strict_certificate_at,
};
use super::lists::PLAIN_LIST;
use super::requests::PLAIN_REQUEST;
use crate::prelude::*;
use std::alloc::Global;
use x509_der::{BerError, Err, ErrorKind, Tries};

const TAG: X509Error = X509Error::Der(BerError::InvalidTag);

const LENGTH: X509Error = X509Error::Der(BerError::InvalidLength);

#[test]
fn fronts(rt: HostRuntime) {
    for whole in [PLAIN_BYTES.as_slice(), EXTENDED_BYTES] {
        for length in 0..whole.len() {
            let front = whole.get(..length).unwrap_or_default();
            let wanted = [Some(Err::Incomplete); 2];
            assert!(rt; refusals(rt.alloc(), front) == wanted, "at {length}");
        }
    }
}

const FIRST_HEADERS: [(&[u8], Err<X509Error>); 8] = [
    (b"\x30", Err::Incomplete),
    (b"\x30\x84\xFF\xFF\xFF\xFF", Err::Incomplete),
    (b"\x30\x85\x01\x00\x00\x00\x00", Err::Error(LENGTH)),
    (b"\x30\x80", Err::Error(LENGTH)),
    (b"\x30\x81\x00", Err::Error(LENGTH)),
    (b"\x31\x00", Err::Error(TAG)),
    (b"\x10\x00", Err::Error(TAG)),
    (b"\x1F\x1E", Err::Error(TAG)),
];

#[test]
fn first_headers(rt: HostRuntime) {
    for (bytes, refusal) in FIRST_HEADERS {
        let wanted = [Some(refusal); 2];
        assert!(rt; refusals(rt.alloc(), bytes) == wanted, "at {bytes:?}");
    }
}

#[test]
fn wrong_lengths(rt: HostRuntime) {
    // one byte too long: it takes the first byte of the algorithm; one too short: its key is cut short
    let too_long = Err::Error(X509Error::InvalidIssuerUID);
    for (length, refusal) in [(0x37, too_long), (0x35, Err::Incomplete)] {
        let mut bytes = *PLAIN_BYTES;
        bytes[3] = length;
        let read = parse_x509_certificate(rt.alloc(), &bytes);
        assert!(rt; read.err() == Some(refusal), "at {length}");
    }
    // an extension longer than its list
    let mut bytes = *EXTENDED_BYTES;
    bytes[68] = 0x1e;
    let read = parse_x509_certificate(rt.alloc(), &bytes);
    let refusal = Err::Error(X509Error::NomError(ErrorKind::Eof));
    assert!(rt; read.err() == Some(refusal));
}

const UNREADABLE: [(Place, &[u8], X509Error); 7] = [
    (VERSION, b"\xA0\x03\x02\x01\xFF", X509Error::InvalidVersion),
    // the look for the version comes first
    (SERIAL, b"\x02\x80", LENGTH),
    (SERIAL, b"\x1F\x1E", TAG),
    (SERIAL, b"\x04\x01\x05", X509Error::InvalidSerial),
    (KEY, b"\x30\x81\x08", LENGTH),
    (ALGORITHM, b"\x30\x81\x03\x06\x01\x2A", LENGTH),
    (BITS, b"\x23\x01\x00", X509Error::InvalidSignatureValue),
];

#[test]
fn unreadable_fields(rt: HostRuntime) {
    for (place, bytes, error) in UNREADABLE {
        let whole = replaced(&rt, PLAIN_BYTES, place, bytes);
        let wanted = [Some(Err::Error(error)); 2];
        assert!(rt; refusals(rt.alloc(), whole) == wanted, "at {bytes:?}");
    }
}

const CRITICAL: &[u8] = b"\xA3\x10\x30\x0E\x30\x0C\x06\x03\x55\x1D\x13\x01\x01\xFF\x04\x02\x30\x00";

const UNREADABLE_VALUE: &[u8] = b"\xA3\x0E\x30\x0C\x30\x0A\x06\x03\x55\x1D\x0F\x04\x03\x04\x01\x00";

const PLAINLY: [(&[u8], Place, &[u8]); 6] = [
    (PLAIN_BYTES, VERSION, b""),
    (EXTENDED_BYTES, VERSION, b""),
    // a negative serial; a version with a zero in front
    (PLAIN_BYTES, SERIAL, b"\x02\x01\xFF"),
    (PLAIN_BYTES, VERSION, b"\xA0\x04\x02\x02\x00\x02"),
    // a critical extension; a value that can't be read, which refuses nothing
    (EXTENDED_BYTES, EXTENSIONS, CRITICAL),
    (EXTENDED_BYTES, EXTENSIONS, UNREADABLE_VALUE),
];

#[test]
fn plain(rt: HostRuntime) {
    for (sample, place, bytes) in PLAINLY {
        let whole = replaced(&rt, sample, place, bytes);
        // bytes behind the certificate are none of its own
        for tail in [b"".as_slice(), b"\x05\x00"] {
            let longer = &*joined(&rt, &[whole, tail]);
            let loose = certificate_at(&rt, longer);
            let strict = strict_certificate_at(&rt, longer);
            assert!(rt; strict.1 == loose.1 && strict.0 == loose.0, "at {bytes:?}");
            assert!(rt; strict.0 == tail);
        }
    }
}

const BY_BASIC_RULES: &[u8] =
    b"\xA3\x10\x30\x0E\x30\x0C\x06\x03\x55\x1D\x13\x01\x01\x01\x04\x02\x30\x00";

const BEHIND_A_VALUE: &[u8] = b"\xA3\x0E\x30\x0C\x30\x0A\x06\x03\x55\x1D\x0E\x04\x03\x04\x00\x00";

const BAD_NAME: &[u8] = b"\xA3\x10\x30\x0E\x30\x0C\x06\x03\x55\x1D\x11\x04\x05\x30\x03\x82\x01\xFF";

const LOOSELY: [(&[u8], Place, &[u8]); 10] = [
    // bytes behind the signature
    (PLAIN_BYTES, BITS, b"\x03\x01\x00\x05\x00"),
    // serials: a length in two octets, none, of context class, with a zero too many
    (PLAIN_BYTES, SERIAL, b"\x02\x81\x01\x05"),
    (PLAIN_BYTES, SERIAL, b"\x02\x00"),
    (PLAIN_BYTES, SERIAL, b"\x82\x01\x02"),
    (PLAIN_BYTES, SERIAL, b"\x02\x02\x00\x05"),
    // parameters cut short
    (PLAIN_BYTES, ALGORITHM, b"\x30\x05\x06\x01\x2A\x05\x7F"),
    // critical by the basic rules
    (EXTENDED_BYTES, EXTENSIONS, BY_BASIC_RULES),
    // bytes behind a key identifier; a general name that can't be read
    (EXTENDED_BYTES, EXTENSIONS, BEHIND_A_VALUE),
    (EXTENDED_BYTES, EXTENSIONS, BAD_NAME),
    // another length of the wrapper
    (EXTENDED_BYTES, (64, 65), b"\x00"),
];

#[test]
fn loose(rt: HostRuntime) {
    for (sample, place, bytes) in LOOSELY {
        let whole = replaced(&rt, sample, place, bytes);
        let wanted = [None, Some(Err::Error(X509Error::Generic))];
        assert!(rt; refusals(rt.alloc(), whole) == wanted, "at {bytes:?}");
    }
}

// How many headers a reader looks at, whatever it answers.
fn looks<'a, T: FromDer<'a, X509Error> + Drop>(alloc: Global, bytes: &'a [u8]) -> u128 {
    let mut tries = Tries::new();
    let _ = T::read(alloc, &mut tries, bytes);
    tries.count()
}

/// As many as there are elements, and at most eight a byte.
#[test]
fn headers(rt: HostRuntime) {
    let certificate = looks::<X509Certificate<'_>>(rt.alloc(), PLAIN_BYTES);
    assert!(rt; certificate >= 17 && certificate <= 528);
    let mut shallow = Tries::new();
    let parser = X509CertificateParser::new().with_deep_parse_extensions(false);
    let read = parser.read(rt.alloc(), &mut shallow, EXTENDED_BYTES);
    assert!(rt; read.err() == None);
    assert!(rt; shallow.count() >= 24 && shallow.count() <= 672);
    let list = looks::<CertificateRevocationList<'_>>(rt.alloc(), PLAIN_LIST);
    assert!(rt; list >= 9 && list <= 272);
    let request = looks::<X509CertificationRequest<'_>>(rt.alloc(), PLAIN_REQUEST);
    assert!(rt; request >= 12 && request <= 232);
}

/// Each soft field's header is looked at once: a descent that tries each field anew makes three looks.
#[test]
fn soft_fields(rt: HostRuntime) {
    let policies = looks::<PolicyConstraints>(rt.alloc(), b"\x30\x03\x81\x01\x05");
    assert!(rt; policies == 2);
    let basic = looks::<BasicConstraints>(rt.alloc(), b"\x30\x03\x02\x01\x05");
    assert!(rt; basic == 2);
}
