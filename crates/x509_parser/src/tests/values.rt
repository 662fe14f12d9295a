//! Values of extensions.

use super::fixtures::{Ends, joined, read_in, shows, whole};
use crate::prelude::*;
use x509_der::{BerError, Err, ErrorKind, Oid};

const TRAILING: X509Error = X509Error::Der(BerError::NomError(ErrorKind::Eof));

const TAG: X509Error = X509Error::Der(BerError::InvalidTag);

const BASIC: [(&[u8], bool, Option<u32>); 3] = [
    (b"\x30\x06\x01\x01\xFF\x02\x01\x00", true, Some(0)),
    (b"\x30\x03\x02\x01\x05", false, Some(5)),
    (b"\x30\x00", false, None),
];

#[test]
fn constraints(rt: HostRuntime) {
    let bytes = b"\x30\x06\x80\x01\x00\x81\x01\x05";
    let both: &PolicyConstraints = read_in(&rt, bytes);
    assert!(rt; both.require_explicit_policy == Some(0));
    assert!(rt; both.inhibit_policy_mapping == Some(5));
    // in another order
    let read = PolicyConstraints::from_der(rt.alloc(), b"\x30\x06\x81\x01\x00\x80\x01\x00");
    assert!(rt; read.err() == Some(Err::Error(TRAILING)));
    for (bytes, ca, length) in BASIC {
        let read: &BasicConstraints = read_in(&rt, bytes);
        assert!(rt; (read.ca, read.path_len_constraint) == (ca, length));
    }
    let read = BasicConstraints::from_der(rt.alloc(), b"\x30\x03\x01\x01\x01");
    let value = X509Error::Der(BerError::BerValueError);
    assert!(rt; read.err() == Some(Err::Error(value)));
}

const USAGES: [(&[u8], u16, &str); 3] = [
    (
        b"\x03\x02\x05\xA0",
        5,
        "Digital Signature, Key Encipherment",
    ),
    (b"\x03\x03\x07\x00\x80", 256, "Decipher Only"),
    (b"\x03\x04\x00\x80\x00\xFF", 1, "Digital Signature"),
];

#[test]
fn flags(rt: HostRuntime) {
    for (bytes, flags, text) in USAGES {
        let usage: &KeyUsage = read_in(&rt, bytes);
        assert!(rt; usage.flags == flags);
        assert!(rt; shows(&rt, usage, text), "at {text}");
    }
    let usage = KeyUsage { flags: 98 };
    assert!(rt; usage.non_repudiation() && usage.key_cert_sign() && usage.crl_sign());
    assert!(rt;
        !(usage.digital_signature()
            || usage.key_encipherment()
            || usage.data_encipherment()
            || usage.key_agreement()
            || usage.encipher_only()
            || usage.decipher_only())
    );
    let kind: &NSCertType = read_in(&rt, b"\x03\x02\x05\xA0");
    assert!(rt; shows(&rt, kind, "SSL CLient, S/MIME"));
    assert!(rt; kind.ssl_client() && kind.smime() && !kind.ssl_server() && !kind.ssl_ca());
}

#[test]
fn purposes(rt: HostRuntime) {
    let twice =
        b"\x30\x14\x06\x08\x2B\x06\x01\x05\x05\x07\x03\x01\x06\x08\x2B\x06\x01\x05\x05\x07\x03\x01";
    let usage: &ExtendedKeyUsage<'_> = read_in(&rt, twice);
    assert!(rt; usage.server_auth && !usage.client_auth && !usage.any && usage.other.is_empty());
    let usage: &ExtendedKeyUsage<'_> = read_in(&rt, b"\x30\x03\x06\x01\x2A");
    assert!(rt; !usage.server_auth);
    assert!(rt; matches!(usage.other.as_slice(), [id] if id.as_bytes() == b"\x2A".as_slice()));
}

#[test]
fn policies(rt: HostRuntime) {
    let one = b"\x30\x08\x06\x02\x2A\x03\x06\x02\x2A\x04";
    let mapping = *whole(&rt, PolicyMapping::from_der(rt.alloc(), one));
    assert!(rt; mapping.issuer_domain_policy == Oid::new(b"\x2A\x03"));
    assert!(rt; mapping.subject_domain_policy == Oid::new(b"\x2A\x04"));
    let list = b"\x30\x0A\x30\x08\x06\x02\x2A\x03\x06\x02\x2A\x04";
    let mappings: &PolicyMappings<'_> = read_in(&rt, list);
    assert!(rt; matches!(mappings.mappings.as_slice(), [only] if *only == mapping));
    let inhibit: &InhibitAnyPolicy = read_in(&rt, b"\x02\x01\x02");
    assert!(rt; inhibit.skip_certs == 2);
}

#[test]
fn name_constraints(rt: HostRuntime) {
    let bytes = b"\x30\x0A\xA1\x08\x30\x06\x82\x04a.bc";
    let read: &NameConstraints<'_> = read_in(&rt, bytes);
    assert!(rt; read.permitted_subtrees.is_none());
    assert!(rt;
        matches!(&read.excluded_subtrees, Some(list)
            if matches!(list.as_slice(), [one] if matches!(one.base, GeneralName::DNSName("a.bc"))))
    );
    let read: &NameConstraints<'_> = read_in(&rt, b"\x30\x02\xA0\x00");
    assert!(rt; read.permitted_subtrees.is_none() && read.excluded_subtrees.is_none());
}

#[test]
fn alternative_names(rt: HostRuntime) {
    for (bytes, text) in [
        (b"\x82\x01\xFF".as_slice(), "Invalid(tag=2, data=ff)"),
        (b"\x87\x04\x7F\x00\x00\x01", "IPAddress(7f:00:00:01)"),
    ] {
        let name: &GeneralName<'_> = read_in(&rt, bytes);
        assert!(rt; shows(&rt, name, text), "at {text}");
    }
    let read = GeneralName::from_der(rt.alloc(), b"\x02\x01\x00");
    assert!(rt; read.err() == Some(Err::Error(TAG)));
    let read = SubjectAlternativeName::from_der(rt.alloc(), b"\x30\x02\x02\x00");
    assert!(rt; read.err() == Some(Err::Failure(TAG)));
    let read = SubjectAlternativeName::from_der(rt.alloc(), b"\x30\x02\x82\x05");
    assert!(rt; read.err() == Some(Err::Error(TRAILING)));
}

// The one distribution point in these bytes.
fn point_in(rt: &impl Ends, bytes: &'static [u8]) -> &'static CRLDistributionPoint<'static> {
    let points: &CRLDistributionPoints<'_> = read_in(rt, bytes);
    let [point] = points.points.as_slice() else {
        panic!(rt; "not one point");
    };
    point
}

#[test]
fn distribution_points(rt: HostRuntime) {
    // the inner header's length isn't looked at
    for bytes in [
        b"\x30\x0C\x30\x0A\xA0\x08\xA0\x06\x86\x04h://",
        b"\x30\x0C\x30\x0A\xA0\x08\xA0\x00\x86\x04h://",
    ] {
        let point = point_in(&rt, bytes);
        assert!(rt;
            matches!(&point.distribution_point, Some(DistributionPointName::FullName(names))
                if matches!(names.as_slice(), [GeneralName::URI("h://")]))
        );
    }
    let point = point_in(&rt, b"\x30\x07\x30\x05\x81\x03\x07\x60\x80");
    let reasons = point.reasons.as_ref().expect(&rt, "reasons");
    assert!(rt; point.distribution_point.is_none());
    assert!(rt; reasons.flags == 262);
    assert!(rt; reasons.key_compromise() && reasons.ca_compromise() && reasons.aa_compromise());
    let words = "Key Compromise, CA Compromise, AA Compromise";
    assert!(rt; shows(&rt, reasons, words));
}

// Whether these are the locations "aa" and "bb" of one method.
fn are_both(list: &[AccessDescription<'_>]) -> bool {
    matches!(list, [a, b]
        if matches!(a.access_location, GeneralName::URI("aa"))
            && matches!(b.access_location, GeneralName::URI("bb"))
            && a.access_method == b.access_method)
}

#[test]
fn authorities(rt: HostRuntime) {
    let key: &AuthorityKeyIdentifier<'_> = read_in(&rt, b"\x30\x03\x80\x01\xAA");
    assert!(rt; matches!(&key.key_identifier, Some(id) if id.0 == b"\xAA".as_slice()));
    assert!(rt; key.authority_cert_issuer.is_none() && key.authority_cert_serial.is_none());
    let bytes = b"\x30\x12\x30\x07\x06\x01\x2A\x86\x02aa\x30\x07\x06\x01\x2A\x86\x02bb";
    let access: &AuthorityInfoAccess<'_> = read_in(&rt, bytes);
    let other: &SubjectInfoAccess<'_> = read_in(&rt, bytes);
    assert!(rt; are_both(access.accessdescs.as_slice()));
    assert!(rt; are_both(other.accessdescs.as_slice()));
}

/// An entry of a list of timestamps: 49 bytes (RFC 6962, 3.2).
const ENTRY: &[u8; 49] =
    b"\x00\x2F\x00\x11\x11\x11\x11\x11\x11\x11\x11\x11\x11\x11\x11\x11\x11\x11\x11\x11\x11\x11\x11\x11\x11\x11\x11\x11\x11\x11\x11\x11\x11\x11\x11\x00\
      \x00\x00\x00\x00\x00\x00\x00\x00\x00\x04\x03\x00\x00";

#[test]
fn timestamps(rt: HostRuntime) {
    // alone; and before an entry that is cut short, which ends the list
    for (front, behind) in [
        (b"\x04\x33\x00\x31".as_slice(), b"".as_slice()),
        (b"\x04\x36\x00\x34", b"\x00\x01\x00"),
    ] {
        let bytes = joined(&rt, &[front, ENTRY, behind]);
        let read = parse_ct_signed_certificate_timestamp_list(rt.alloc(), bytes);
        let list = whole(&rt, read);
        assert!(rt;
            matches!(list.as_slice(), [one]
                if one.timestamp == 0
                    && one.id.key_id == &[0x11; 32]
                    && one.signature.hash_alg_id == 4
                    && one.signature.sign_alg_id == 3)
        );
    }
}
