//! The forms that users write, each once.

use super::{Ends, list_in, made};
use crate::{
    Next, count_revoked, days_left, days_valid, entry_in_octets, entry_of, fault_in,
    field_at_fault, first_identifier, has_strong_key, hosts, is_another_structure, is_known,
    is_modest, next_after, outline, strict_fault_in,
};
use x509_parser::certificate::X509Certificate;
use x509_parser::certification_request::X509CertificationRequest;
use x509_parser::der::{Err, FromDer, Stop, Tag, UnsignedBytes};
use x509_parser::error::X509Error;
use x509_parser::leniencies::{Leniency, StrictRefusal};
use x509_parser::objects::oid_registry;
use x509_parser::parse_x509_certificate;
use x509_parser::revocation_list::CertificateRevocationList;

/// A certificate of two hosts and an address, with a point on a curve of 256 bits, from 1970 to the end of 2049.
const HOSTS: &[u8] = b"\
    \x30\x81\xB8\x30\x81\xAD\xA0\x03\x02\x01\x02\x02\x01\x01\x30\x03\x06\x01\x2A\x30\x00\x30\x1E\x17\x0D\x37\x30\x30\x31\x30\x31\x30\
    \x30\x30\x30\x30\x30\x5A\x17\x0D\x34\x39\x31\x32\x33\x31\x32\x33\x35\x39\x35\x39\x5A\x30\x00\x30\x4F\x30\x09\x06\x07\x2A\x86\x48\
    \xCE\x3D\x02\x01\x03\x42\x00\x04\x00\x00\x00\x00\x00\x00\x00\x00\x00\x00\x00\x00\x00\x00\x00\x00\x00\x00\x00\x00\x00\x00\x00\x00\
    \x00\x00\x00\x00\x00\x00\x00\x00\x00\x00\x00\x00\x00\x00\x00\x00\x00\x00\x00\x00\x00\x00\x00\x00\x00\x00\x00\x00\x00\x00\x00\x00\
    \x00\x00\x00\x00\x00\x00\x00\x00\xA3\x29\x30\x27\x30\x25\x06\x03\x55\x1D\x11\x04\x1E\x30\x1C\x82\x09\x61\x2E\x65\x78\x61\x6D\x70\
    \x6C\x65\x87\x04\xC0\x00\x02\x01\x82\x09\x62\x2E\x65\x78\x61\x6D\x70\x6C\x65\x30\x03\x06\x01\x2A\x03\x01\x00";

/// A certificate that is empty wherever it may be, its serial `82 01 01`.
const LENIENT: &[u8] = b"\
    \x30\x40\x30\x36\x82\x01\x01\x30\x03\x06\x01\x2A\x30\x00\x30\x1E\x17\x0D\x37\x30\x30\x31\x30\x31\x30\x30\x30\x30\x30\x30\x5A\
    \x17\x0D\x34\x39\x31\x32\x33\x31\x32\x33\x35\x39\x35\x39\x5A\x30\x00\x30\x08\x30\x03\x06\x01\x2A\x03\x01\x00\x30\x03\x06\x01\x2A\
    \x03\x01\x00";

/// A list with the serials 7, 161 and 7.
const LIST: &[u8] = b"\
    \x30\x62\x30\x58\x02\x01\x01\x30\x03\x06\x01\x2A\x30\x00\x17\x0D\x37\x30\x30\x31\x30\x31\x30\x30\x30\x30\x30\x30\x5A\x30\x3D\x30\
    \x12\x02\x01\x07\x17\x0D\x37\x30\x30\x31\x30\x31\x30\x30\x30\x30\x30\x30\x5A\x30\x13\x02\x02\x00\xA1\x17\x0D\x37\x30\x30\x31\x30\
    \x31\x30\x30\x30\x30\x30\x30\x5A\x30\x12\x02\x01\x07\x17\x0D\x37\x30\x30\x31\x30\x31\x30\x30\x30\x30\x30\x30\x5A\x30\x03\x06\x01\
    \x2A\x03\x01\x00";

/// A request for the alternative names of that certificate.
const ASKS: &[u8] = b"\
    \x30\x53\x30\x49\x02\x01\x00\x30\x00\x30\x08\x30\x03\x06\x01\x2A\x03\x01\x00\xA0\x38\x30\x36\x06\x09\x2A\x86\x48\x86\xF7\x0D\x01\
    \x09\x0E\x31\x29\x30\x27\x30\x25\x06\x03\x55\x1D\x11\x04\x1E\x30\x1C\x82\x09\x61\x2E\x65\x78\x61\x6D\x70\x6C\x65\x87\x04\xC0\x00\
    \x02\x01\x82\x09\x62\x2E\x65\x78\x61\x6D\x70\x6C\x65\x30\x03\x06\x01\x2A\x03\x01\x00";

/// The same, with a password.
const ASKS_WITH_PASSWORD: &[u8] = b"\
    \x30\x65\x30\x5B\x02\x01\x00\x30\x00\x30\x08\x30\x03\x06\x01\x2A\x03\x01\x00\xA0\x4A\x30\x36\x06\x09\x2A\x86\x48\x86\xF7\x0D\x01\
    \x09\x0E\x31\x29\x30\x27\x30\x25\x06\x03\x55\x1D\x11\x04\x1E\x30\x1C\x82\x09\x61\x2E\x65\x78\x61\x6D\x70\x6C\x65\x87\x04\xC0\x00\
    \x02\x01\x82\x09\x62\x2E\x65\x78\x61\x6D\x70\x6C\x65\x30\x10\x06\x09\x2A\x86\x48\x86\xF7\x0D\x01\x09\x07\x31\x03\x0C\x01\x61\x30\
    \x03\x06\x01\x2A\x03\x01\x00";

/// That the certificate is for both hosts, for 80 years. What is looked at stands first among the parameters (docs/WORKING.md, "What a proof costs").
fn expect_hosts(certificate: &X509Certificate<'_>, rt: &impl Ends) {
    let hosts = made(rt, hosts(rt.alloc(), certificate));
    let [first, second] = hosts.as_slice() else {
        panic!(rt; "not two hosts");
    };
    assert!(rt; *first == "a.example");
    assert!(rt; *second == "b.example");
    assert!(rt; has_strong_key(certificate));
    assert!(rt; days_valid(certificate) == Some(29_219));
    assert!(rt; days_left(certificate, 2_524_607_999 - 86_400) == Some(1));
    assert!(rt; days_left(certificate, 2_524_607_999) == Some(0));
    assert!(rt; days_left(certificate, 2_524_608_000) == Some(-1));
    assert!(rt; days_left(certificate, 2_524_607_999 + 2 * 86_400) == Some(-2));
    assert!(rt; days_left(certificate, i64::MIN) == None);
}

#[test]
fn of_a_certificate(rt: HostRuntime) {
    let (_, certificate) = made(&rt, parse_x509_certificate(rt.alloc(), HOSTS));
    expect_hosts(certificate, &rt);
}

/// That the list has an entry of the first serial, and none of the second.
fn expect_entries(list: &CertificateRevocationList<'_>, rt: &impl Ends) {
    let (there, away) = (UnsignedBytes::new(b"\xA1"), UnsignedBytes::new(b"\x08"));
    assert!(rt;
        matches!(entry_of(list, &there), Some(entry) if entry.raw_serial() == b"\x00\xA1".as_slice())
    );
    assert!(rt; entry_of(list, &away).is_none());
    assert!(rt; count_revoked(list, &[there, away, UnsignedBytes::new(b"\x07")]) == Ok(2));
}

#[test]
fn of_a_list(rt: HostRuntime) {
    expect_entries(list_in(&rt, LIST), &rt);
    let there = UnsignedBytes::new(b"\xA1");
    let found = made(&rt, entry_in_octets(rt.alloc(), LIST, &there));
    assert!(rt; matches!(found, Some((1, entry)) if entry.raw_serial() == b"\x00\xA1".as_slice()));
}

#[test]
fn of_requests(rt: HostRuntime) {
    let (_, asks) = made(&rt, X509CertificationRequest::from_der(rt.alloc(), ASKS));
    assert!(rt; is_modest(asks));
    let asks = X509CertificationRequest::from_der(rt.alloc(), ASKS_WITH_PASSWORD);
    let (_, with_password) = made(&rt, asks);
    assert!(rt; !is_modest(with_password));
}

#[test]
fn of_refusals(rt: HostRuntime) {
    let read = parse_x509_certificate(rt.alloc(), &HOSTS[..186]);
    let cut = read.err().expect(&rt, "a certificate cut short");
    assert!(rt; matches!(next_after(&cut), Next::AwaitMore));
    assert!(rt; !is_another_structure(&cut));
    let another = parse_x509_certificate(rt.alloc(), LIST)
        .err()
        .expect(&rt, "a list");
    assert!(rt; matches!(next_after(&another), Next::Refuse));
    assert!(rt; is_another_structure(&another));
}

// Where a list has its thisUpdate, a certificate has its validity.
#[test]
fn of_a_fault(rt: HostRuntime) {
    assert!(rt; fault_in(rt.alloc(), LIST) == Ok(Some((14, "invalid tag"))));
    assert!(rt; fault_in(rt.alloc(), HOSTS) == Ok(None));
    let path = made(&rt, field_at_fault(rt.alloc(), LIST));
    assert!(rt; matches!(path, Some(path) if path.as_str() == "tbsCertificate.validity"));
}

// A serial of context class, whose element begins at octet 4.
#[test]
fn of_a_rule(rt: HostRuntime) {
    let wanted = StrictRefusal {
        why: Err::Error(X509Error::Generic),
        at: 4,
        rule: Some(Leniency::AnySerial),
    };
    assert!(rt; strict_fault_in(rt.alloc(), LENIENT) == Ok(Some(wanted)));
    assert!(rt; strict_fault_in(rt.alloc(), HOSTS) == Ok(None));
    let Ok(Some(refusal)) = strict_fault_in(rt.alloc(), LIST) else {
        panic!(rt; "a list is no certificate");
    };
    assert!(rt; refusal.rule.is_none());
}

#[test]
fn of_an_element(rt: HostRuntime) {
    let (rest, id) = made(&rt, first_identifier(b"\x30\x05\x06\x01\x2A\x05\x00\x01"));
    assert!(rt; *rest == b"\x01".as_slice());
    assert!(rt; id.as_bytes() == b"\x2A".as_slice());
    assert!(rt; first_identifier(b"\x30\x00").is_err());
    let (headers, stop) = made(
        &rt,
        outline(rt.alloc(), b"\x05\x00\x02\x01\x07\x30\x02\x05"),
    );
    let [null, number] = headers.as_slice() else {
        panic!(rt; "not two members");
    };
    assert!(rt; (null.tag, number.tag) == (Tag::Null, Tag::Integer));
    assert!(rt; matches!(stop, Stop::Short { .. }));
}

#[test]
fn of_octets_that_live_shorter(rt: HostRuntime) {
    let registry = made(&rt, oid_registry(rt.alloc()));
    let octets = [0x55u8, 0x04, 0x03];
    assert!(rt; is_known(registry, octets.as_slice()));
    assert!(rt; !is_known(registry, &octets[..2]));
}
