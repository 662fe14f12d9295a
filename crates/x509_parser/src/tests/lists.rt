//! Lists of revoked certificates.

use super::fixtures::{PLAIN_BYTES, list_in, whole};
use crate::prelude::*;
use std::process::Abort;
use x509_der::{Err, UnsignedBytes};

/// A list that is empty wherever it may be: 34 bytes.
pub const PLAIN_LIST: &[u8; 34] =
    b"\x30\x20\x30\x16\x30\x03\x06\x01\x2A\x30\x00\x17\x0D700101000000Z\x30\x03\x06\x01\x2A\x03\x01\x00";

/// One with the serial 42.
const ONE: &[u8; 56] =
    b"\x30\x36\x30\x2C\x30\x03\x06\x01\x2A\x30\x00\x17\x0D700101000000Z\x30\x14\x30\x12\x02\x01\x2A\x17\x0D700101000000Z\x30\x03\x06\x01\x2A\x03\x01\x00";

// That this is the plain list.
fn expect_plain(list: &CertificateRevocationList<'_>, rt: &impl Abort) {
    let bytes: &[u8] = PLAIN_LIST;
    assert!(rt; list.version().is_none() && list.next_update().is_none());
    assert!(rt; list.last_update().timestamp() == 0);
    assert!(rt; list.iter_revoked_certificates().next().is_none());
    assert!(rt; list.extensions().is_empty());
    assert!(rt; list.as_raw() == bytes);
    assert!(rt; list.tbs_cert_list.as_ref() == &bytes[2..26]);
}

#[test]
fn nothing_revoked(rt: HostRuntime) {
    expect_plain(list_in(&rt, PLAIN_LIST), &rt);
    expect_plain(whole(&rt, parse_crl_der(rt.alloc(), PLAIN_LIST)), &rt);
    let strict = parse_x509_crl_strict(rt.alloc(), PLAIN_LIST);
    expect_plain(whole(&rt, strict), &rt);
}

// That the serial 42 alone is revoked.
fn expect_one(list: &CertificateRevocationList<'_>, rt: &impl Abort) {
    let mut revoked = list.iter_revoked_certificates();
    assert!(rt;
        matches!(revoked.next(), Some(entry)
            if entry.serial().is_u32(42) && entry.revocation_date.timestamp() == 0)
    );
    assert!(rt; revoked.next().is_none());
    let tbs = &list.tbs_cert_list;
    assert!(rt; tbs.find_revoked(&UnsignedBytes::new(&[42])) == Some(0));
    assert!(rt; tbs.find_revoked(&UnsignedBytes::new(&[41])) == None);
}

#[test]
fn one_revoked(rt: HostRuntime) {
    expect_one(list_in(&rt, ONE), &rt);
}

#[test]
fn no_lists(rt: HostRuntime) {
    let broken_entry: &[u8] =
        b"\x30\x24\x30\x1A\x30\x03\x06\x01\x2A\x30\x00\x17\x0D700101000000Z\x30\x02\x05\x00\x30\x03\x06\x01\x2A\x03\x01\x00";
    for (bytes, refusal) in [
        (broken_entry, Err::Error(X509Error::InvalidExtensions)),
        (PLAIN_BYTES, Err::Error(X509Error::InvalidDate)),
        (b"", Err::Incomplete),
    ] {
        let read = parse_x509_crl(rt.alloc(), bytes);
        assert!(rt; read.err() == Some(refusal), "at {bytes:?}");
    }
}
