//! Indexes of lists, beside the plain scan.

use crate::tests::{Ends, list_in, made};
use x509_parser::der::UnsignedBytes;
use x509_parser::error::X509Error;
use x509_parser::parse_x509_crl;
use x509_parser::revocation_list::CertificateRevocationList;
use x509_revoked::RevocationIndex;

/// The list that revokes serial 42: 56 bytes.
const ONE: &[u8; 56] =
    b"\x30\x36\x30\x2C\x30\x03\x06\x01\x2A\x30\x00\x17\x0D700101000000Z\x30\x14\x30\x12\x02\x01\x2A\x17\x0D700101000000Z\x30\x03\x06\x01\x2A\x03\x01\x00";

/// The list that revokes nothing: 34 bytes.
const NONE: &[u8; 34] =
    b"\x30\x20\x30\x16\x30\x03\x06\x01\x2A\x30\x00\x17\x0D700101000000Z\x30\x03\x06\x01\x2A\x03\x01\x00";

/// The octets of all, one behind the other.
fn joined(rt: &impl Ends, parts: &[&[u8]]) -> &'static [u8] {
    let mut bytes = Vec::new(rt.alloc());
    for part in parts {
        bytes.extend_from_slice(*part).expect(rt, "memory");
    }
    bytes.leak()
}

/// The element with this identifier octet and these contents, fewer than 128.
fn element(rt: &impl Ends, identifier: u8, contents: &[&[u8]]) -> &'static [u8] {
    let contents = joined(rt, contents);
    let length = u8::try_from(contents.len()).expect(rt, "a short length");
    joined(rt, &[&[identifier, length], contents])
}

/// The octets of a list with entries of these serials.
fn octets_of(rt: &impl Ends, serials: &[&[u8]]) -> &'static [u8] {
    let mut entries: &[u8] = b"";
    for serial in serials {
        let serial = element(rt, 0x02, &[*serial]);
        let entry = element(rt, 0x30, &[serial, b"\x17\x0D700101000000Z"]);
        entries = joined(rt, &[entries, entry]);
    }
    let front: &[u8] = b"\x30\x03\x06\x01\x2A\x30\x00\x17\x0D700101000000Z";
    let signed = element(rt, 0x30, &[front, element(rt, 0x30, &[entries])]);
    element(rt, 0x30, &[signed, b"\x30\x03\x06\x01\x2A\x03\x01\x00"])
}

/// The list with entries of these serials.
fn list_of(rt: &impl Ends, serials: &[&[u8]]) -> &'static CertificateRevocationList<'static> {
    list_in(rt, octets_of(rt, serials))
}

/// Its index.
fn index_of<'a>(list: &CertificateRevocationList<'a>, rt: &impl Ends) -> &'a RevocationIndex<'a> {
    made(rt, RevocationIndex::build(&list.tbs_cert_list))
}

#[test]
fn found(rt: HostRuntime) {
    let serials: [&[u8]; 4] = [b"\x2A", b"\x07", b"\x00\x2A", b"\x00"];
    let list = list_of(&rt, &serials);
    let index = index_of(list, &rt);
    assert!(rt; index.len() == 4);
    let asked: [(&[u8], Option<usize>); 6] = [
        (b"\x2A", Some(0)),
        (b"\x00\x2A", Some(0)),
        (b"\x07", Some(1)),
        (b"", Some(3)),
        (b"\x09", None),
        (b"\x01\x00", None),
    ];
    for (serial, position) in asked {
        let serial = UnsignedBytes::new(serial);
        let (answer, compared) = index.find_counted(&serial);
        assert!(rt; answer == position);
        assert!(rt; (1..=4).contains(&compared), "{compared} comparisons");
        assert!(rt; index.find(&serial) == position);
        assert!(rt; list.tbs_cert_list.find_revoked(&serial) == position);
    }
}

#[test]
fn the_first_of_equal_serials(rt: HostRuntime) {
    // 255, whatever the sign
    let list = list_of(&rt, &[b"\xFF", b"\x00\xFF"]);
    let serial = UnsignedBytes::new(b"\xFF");
    assert!(rt; index_of(list, &rt).find(&serial) == Some(0));
    assert!(rt; list.tbs_cert_list.find_revoked(&serial) == Some(0));
}

#[test]
fn of_one_and_of_none(rt: HostRuntime) {
    let index = index_of(list_in(&rt, ONE), &rt);
    assert!(rt; index.find(&UnsignedBytes::new(b"\x2A")) == Some(0));
    assert!(rt; index.find(&UnsignedBytes::new(b"\x2B")).is_none());
    let index = index_of(list_in(&rt, NONE), &rt);
    assert!(rt; index.is_empty());
    let (answer, compared) = index.find_counted(&UnsignedBytes::new(b"\x01"));
    assert!(rt; answer.is_none() && compared <= 1);
}

/// That there is an index of the list, which revokes serial 42, or that memory is wanting.
fn expect_index_or_want(list: &CertificateRevocationList<'_>, rt: &impl Ends) {
    match RevocationIndex::build(&list.tbs_cert_list) {
        Ok(index) => assert!(rt; index.find(&UnsignedBytes::new(b"\x2A")) == Some(0)),
        Err(e) => assert!(rt; e == X509Error::OutOfMemory),
    }
}

/// Whatever request for memory is refused, `build` answers the index or that memory is wanting.
#[test]
fn memory_refused(rt: HostRuntime) {
    match parse_x509_crl(rt.alloc(), ONE.as_slice()) {
        Ok((_, list)) => expect_index_or_want(&list, &rt),
        Err(e) => assert!(rt; e.is_out_of_memory()),
    }
}
