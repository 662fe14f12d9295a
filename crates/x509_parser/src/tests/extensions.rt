//! Extensions and look-ups by identifier.

use super::fixtures::{EXTENDED_BYTES, Ends, certificate_in, repeated, sequence, shows, whole};
use crate::prelude::*;
use std::process::Abort;
use x509_der::{Oid, Tries};
use x509_extensions::get_extension_unique;

// The extension in these bytes.
fn extension_in(rt: &impl Ends, bytes: &'static [u8]) -> &'static X509Extension<'static> {
    whole(rt, X509Extension::from_der(rt.alloc(), bytes))
}

#[test]
fn depths(rt: HostRuntime) {
    let certificate: &[u8] = EXTENDED_BYTES;
    let bytes = &certificate[67..98];
    let deep = extension_in(&rt, bytes);
    assert!(rt; !deep.critical);
    assert!(rt;
        matches!(deep.parsed_extension(), ParsedExtension::SubjectKeyIdentifier(id) if id.0 == &bytes[11..])
    );
    let shallow = X509ExtensionParser::new().with_deep_parse_extensions(false);
    let envelope = whole(&rt, shallow.parse(rt.alloc(), bytes));
    assert!(rt; matches!(envelope.parsed_extension(), ParsedExtension::Unparsed));
}

const USAGE: &[u8] = b"\x06\x03\x55\x1D\x0F";

const REASON: &[u8] = b"\x06\x03\x55\x1D\x15";

const DATE: &[u8] = b"\x06\x03\x55\x1D\x18";

const COMMENT: &[u8] = b"\x06\x09\x60\x86\x48\x01\x86\xF8\x42\x01\x0D";

const SUBJECT: &[u8] = b"\x06\x03\x55\x1D\x11";

const NAMES: &[u8] =
    b"\x04\x13\x30\x11\xA4\x0F\x30\x0D\x31\x0B\x30\x09\x06\x03\x55\x04\x03\x0C\x02ab";

/// Identifiers and values in their octet string, and what they are.
const VALUES: [(&[u8], &[u8], &str); 10] = [
    (SUBJECT, NAMES, "DirectoryName(CN=ab)"),
    // a key usage of another type refuses nothing
    (USAGE, b"\x04\x03\x04\x01\x00", "Error(InvalidTag)"),
    (REASON, b"\x04\x03\x0A\x01\x03", "AffiliationChanged"),
    (REASON, b"\x04\x03\x0A\x01\x07", "ReasonCode(7 / 0x7)"),
    (REASON, b"\x04\x03\x0A\x01\x0B", "Error(BerValueError)"),
    (DATE, b"\x04\x11\x18\x0F20130218102200Z", "1361182920"),
    (b"\x06\x03\x55\x1D\x14", b"\x04\x03\x02\x01\x03", "3"),
    (COMMENT, b"\x04\x04\x16\x02hi", "hi"),
    (COMMENT, b"\x04\x02hi", "hi"),
    (COMMENT, b"\x04\x02\x80\xFF", "Error(InvalidLength)"),
];

// Whether an extension's value is this, in a text.
fn is_value(value: &ParsedExtension<'_>, text: &str, rt: &impl Ends) -> bool {
    match value {
        ParsedExtension::ParseError { error } => shows(rt, &format_args!("{error:?}"), text),
        ParsedExtension::ReasonCode(code) => shows(rt, code, text),
        ParsedExtension::InvalidityDate(time) => shows(rt, &time.timestamp(), text),
        ParsedExtension::CRLNumber(number) => number.is_u32(3) && text == "3",
        ParsedExtension::NsCertComment(comment) => *comment == text,
        ParsedExtension::SubjectAlternativeName(names) => match names.general_names.as_slice() {
            [name] => shows(rt, name, text),
            _ => false,
        },
        _ => false,
    }
}

#[test]
fn values(rt: HostRuntime) {
    for (id, value, wanted) in VALUES {
        let extension = extension_in(&rt, sequence(&rt, &[id, value]));
        let same = is_value(extension.parsed_extension(), wanted, &rt);
        assert!(rt; same, "at {wanted}");
    }
}

/// An issuing distribution point whose bytes are no fields of its own: in at least four looks at headers and at most eight.
#[test]
fn issuing_distribution_point(rt: HostRuntime) {
    let bytes = b"\x30\x0A\x06\x03\x55\x1D\x1C\x04\x03\x30\x01\x05";
    let mut tries = Tries::new();
    let read = X509Extension::read(rt.alloc(), &mut tries, bytes);
    let extension = whole(&rt, read);
    assert!(rt; tries.count() >= 4 && tries.count() <= 8);
    let ParsedExtension::IssuingDistributionPoint(point) = extension.parsed_extension() else {
        panic!(rt; "another value");
    };
    assert!(rt; point.distribution_point.is_none() && point.only_some_reasons.is_none());
    assert!(rt;
        !(point.only_contains_user_certs
            || point.only_contains_ca_certs
            || point.indirect_crl
            || point.only_contains_attribute_certs)
    );
}

// That there are no constraints and no usages, but the key's identifier.
fn expect_identifier(certificate: &X509Certificate<'_>, rt: &impl Abort) {
    assert!(rt; matches!(certificate.basic_constraints(), Ok(None)));
    assert!(rt; matches!(certificate.key_usage(), Ok(None)));
    let oid = Oid::new(OID_X509_EXT_SUBJECT_KEY_IDENTIFIER);
    assert!(rt; matches!(certificate.get_extension_unique(&oid), Ok(Some(_))));
    assert!(rt; !certificate.is_ca());
}

#[test]
fn look_ups(rt: HostRuntime) {
    let extensions = repeated(&rt).extensions();
    let twice = Err(X509Error::DuplicateExtensions);
    for (octets, found) in [
        (b"\x2B", Ok(true)),
        (b"\x2D", Ok(false)),
        (b"\x2A", twice),
        (b"\x2C", twice),
    ] {
        let looked_up = get_extension_unique(extensions, &Oid::new(octets));
        assert!(rt; looked_up.map(|e| e.is_some()) == found);
    }
    expect_identifier(certificate_in(&rt, EXTENDED_BYTES), &rt);
}
