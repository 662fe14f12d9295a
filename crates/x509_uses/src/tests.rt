//! One use of each.

use super::*;
use std::fmt::Debug;
use std::process::Abort;
use x509_parser::parse_x509_crl;
use x509_parser::revocation_list::CertificateRevocationList;

mod accesses;
mod elements;
mod fields;
mod forms;
mod places;
mod unsigned;

/// A certificate that is empty wherever it may be, from 1970 to the end of 2049.
const CERTIFICATE: &[u8] =
    b"\x30\x40\x30\x36\x02\x01\x01\x30\x03\x06\x01\x2A\x30\x00\x30\x1E\x17\x0D700101000000Z\x17\x0D491231235959Z\x30\x00\x30\x08\x30\x03\x06\x01\x2A\
      \x03\x01\x00\x30\x03\x06\x01\x2A\x03\x01\x00";

/// What a test is given: memory, and that it ends where something isn't as it should be.
pub(crate) trait Ends: Abort + AllocGlobal {}

impl<R: Abort + AllocGlobal> Ends for R {}

/// The value, which is never let go, so that a test owns nothing: whatever it owns at an assertion has to be proved to be
/// dropped there.
pub(crate) fn kept<'e, T: Drop + 'e>(rt: &impl Ends, value: T) -> &'e T {
    Box::leak(Box::new(rt.alloc(), value).expect(rt, "memory"))
}

/// What was made, or the end of the test.
pub(crate) fn made<'e, T: Drop + 'e, E: Debug + Drop>(rt: &impl Ends, made: Result<T, E>) -> &'e T {
    kept(rt, made.expect(rt, "a value"))
}

/// The list in the bytes, with nothing behind it.
pub(crate) fn list_in<'a>(rt: &impl Ends, bytes: &'a [u8]) -> &'a CertificateRevocationList<'a> {
    let (rest, list) = made(rt, parse_x509_crl(rt.alloc(), bytes));
    assert!(rt; rest.is_empty());
    list
}

/// The certificate, and behind it one with the serial 2 and two more bytes.
fn chain(rt: &impl Ends) -> &'static [u8] {
    let mut bytes = Vec::new(rt.alloc());
    for part in [
        CERTIFICATE,
        &CERTIFICATE[..6],
        b"\x02",
        &CERTIFICATE[7..],
        b"\x05\x00",
    ] {
        bytes.extend_from_slice(part).expect(rt, "memory");
    }
    bytes.leak()
}

#[test]
fn windows(rt: HostRuntime) {
    let bytes = chain(&rt);
    let (rest, signed) = made(&rt, signed_bytes(rt.alloc(), bytes));
    assert!(rt; *signed == &CERTIFICATE[2..58]);
    assert!(rt; rest.len() == 68);
    let (rest, (own, issuer)) = made(&rt, read_two(rt.alloc(), bytes));
    assert!(rt; own.as_raw() == CERTIFICATE);
    assert!(rt; issuer.raw_serial() == b"\x02".as_slice());
    assert!(rt; *rest == b"\x05\x00".as_slice());
}

#[test]
fn admitted_and_bounded(rt: HostRuntime) {
    let (rest, certificate) = made(&rt, admit(rt.alloc(), CERTIFICATE));
    assert!(rt; rest.is_empty());
    assert!(rt; certificate.extensions().is_empty());
    assert!(rt; admit(rt.alloc(), &CERTIFICATE[..65]).err().is_some());
    let mut tries = Tries::new();
    let read = kept(&rt, read_within(rt.alloc(), 65, &mut tries, CERTIFICATE));
    assert!(rt; read.is_none());
    assert!(rt; tries.count() == 0);
    let read = kept(&rt, read_within(rt.alloc(), 66, &mut tries, CERTIFICATE));
    assert!(rt; matches!(read, Some(Ok(_))));
    assert!(rt; tries.count() <= 528);
}

#[test]
fn both_ends(rt: HostRuntime) {
    let bytes = chain(&rt);
    let (_, (own, issuer)) = read_two(rt.alloc(), bytes).expect(&rt, "two certificates");
    let chain = kept(&rt, [own, issuer]);
    for (seconds, valid) in [
        (-1, false),
        (0, true),
        (2_524_607_999, true),
        (2_524_608_000, false),
    ] {
        let time = ASN1Time::from_timestamp(seconds).expect(&rt, "a time");
        assert!(rt; is_chain_valid_at(chain, time) == valid);
    }
}
