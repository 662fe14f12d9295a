//! Names, identifiers and the registry.

use super::fixtures::{Ends, made, shows, whole};
use crate::prelude::*;
use std::alloc::{AllocError, Global};
use x509_der::{Any, Oid, Tag};

const COMMON: &[u8] = b"\x30\x0D\x31\x0B\x30\x09\x06\x03\x55\x04\x03\x0C\x02ab";

const OTHER: &[u8] = b"\x30\x0C\x31\x0A\x30\x08\x06\x02\x2A\x03\x02\x02\x01\xFF";

/// A name, its text and the length of its window.
const NAMES: [(&[u8], &str, usize); 4] = [
    (COMMON, "CN=ab", 15),
    (OTHER, "OID(1.2.3)=01FF", 14),
    // it ends before the first element that is no relative name: a set of none isn't one
    (b"\x30\x02\x31\x00", "", 2),
    (b"\x30\x04\x31\x00\x05\x00", "", 2),
];

// Whether the name is shown so, with the registry of all identifiers too.
fn is_shown(name: &X509Name<'static>, text: &str, rt: &impl Ends) -> bool {
    let registry = made(rt, oid_registry(rt.alloc()));
    let registered = name
        .to_string_with_registry(rt.alloc(), registry)
        .expect(rt, "a text");
    registered.as_str() == text && shows(rt, name, text)
}

#[test]
fn names_as_text(rt: HostRuntime) {
    for (bytes, text, window) in NAMES {
        let name = whole(&rt, X509Name::from_der(rt.alloc(), bytes));
        assert!(rt; bytes.starts_with(name.as_raw()));
        assert!(rt; name.as_raw().len() == window);
        assert!(rt; is_shown(name, text, &rt), "at {text}");
    }
}

// A name of a country, a state, a company and two common names.
fn built(alloc: Global) -> Result<X509Name<'static>, AllocError> {
    let mut names = Vec::new(alloc);
    for (oid, text) in [
        (OID_X509_COUNTRY_NAME, b"FR".as_slice()),
        (OID_X509_STATE_OR_PROVINCE_NAME, b"Some-State"),
        (OID_X509_ORGANIZATION_NAME, b"Internet Widgits Pty Ltd"),
    ] {
        let value = Any::from_tag_and_data(Tag::Utf8String, text);
        let one = vec![in alloc; AttributeTypeAndValue::new(Oid::new(oid), value)]?;
        names.push(RelativeDistinguishedName::new(one))?;
    }
    let common = Oid::new(OID_X509_COMMON_NAME);
    let first = Any::from_tag_and_data(Tag::PrintableString, b"Test1");
    let second = Any::from_tag_and_data(Tag::PrintableString, b"Test2");
    let both = vec![in alloc;
        AttributeTypeAndValue::new(common, first),
        AttributeTypeAndValue::new(common, second),
    ]?;
    names.push(RelativeDistinguishedName::new(both))?;
    Ok(X509Name::from_list(names))
}

#[test]
fn a_name_that_is_built(rt: HostRuntime) {
    let name = made(&rt, built(rt.alloc()));
    let wanted = "C=FR, ST=Some-State, O=Internet Widgits Pty Ltd, CN=Test1 + CN=Test2";
    assert!(rt; is_shown(name, wanted, &rt));
}

const WIDEST: &[u8] = b"\x2A\x81\xFF\xFF\xFF\xFF\xFF\xFF\xFF\xFF\x7F";

const WIDER: &[u8] = b"\x2A\x82\x80\x80\x80\x80\x80\x80\x80\x80\x00";

/// The octets of an identifier, and its text.
const IDENTIFIERS: [(&[u8], &str); 9] = [
    (b"\x2A\x86\x48\x86\xF7\x0D", "1.2.840.113549"),
    (b"\x88\x37", "2.999"),
    (b"\x4F", "1.39"),
    (b"\x50", "2.0"),
    (b"\x2A\x86", "2a 86"),
    (b"\x2A\x80\x01", "2a 80 01"),
    (b"", ""),
    (WIDEST, "1.2.18446744073709551615"),
    (WIDER, "2a 82 80 80 80 80 80 80 80 80 00"),
];

#[test]
fn identifiers_as_text(rt: HostRuntime) {
    for (octets, text) in IDENTIFIERS {
        assert!(rt; shows(&rt, &Oid::new(octets), text), "at {text}");
    }
}

#[test]
fn words_of_identifiers(rt: HostRuntime) {
    let registry = made(&rt, oid_registry(rt.alloc()));
    let common = Oid::new(b"\x55\x04\x03");
    assert!(rt; oid2sn(&common, registry) == Ok("commonName"));
    assert!(rt; oid2abbrev(&common, registry) == Ok("CN"));
    let usage = Oid::new(b"\x55\x1D\x0F");
    assert!(rt; oid2abbrev(&usage, registry) == Ok("keyUsage"));
    let mask = Oid::new(b"\x2A\x86\x48\x86\xF7\x0D\x01\x01\x08");
    assert!(rt; oid2sn(&mask, registry) == Ok("id-mgf1"));
    let words = oid2description(&mask, registry);
    assert!(rt; words == Ok("Mask Generator Function 1 (MGF1)"));
    let unknown = Oid::new(b"\x2A\x03");
    assert!(rt; oid2abbrev(&unknown, registry) == Err(NidError));
}

/// Key information whose length stands in more octets than it needs (X.690, 10.1); versions as text; serials as text.
#[test]
fn fields(rt: HostRuntime) {
    let bytes = b"\x30\x81\x08\x30\x03\x06\x01\x2A\x03\x01\x00";
    let read = SubjectPublicKeyInfo::from_der(rt.alloc(), bytes);
    assert!(rt; matches!(read.err(), Some(e) if e.word() == "invalid length"));
    for (version, text) in [(2, "V3"), (5, "X509Version(5 / 0x5)")] {
        let shown = shows(&rt, &X509Version(version), text);
        assert!(rt; shown, "at {text}");
    }
    let serial = made(&rt, format_serial(rt.alloc(), b"\x01\x02\x03\x04\xFF"));
    assert!(rt; serial.as_str() == "01:02:03:04:ff");
}
