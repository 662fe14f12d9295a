use super::{Quiet, VisitCount, walk_list_quietly, walk_quietly};
use crate::tests::{list_in, made};
use x509_parser::parse_x509_certificate;
use x509_parser::visitor::{WalkCertificate, WalkRevocationList};

/// A certificate of the third version with a subject key identifier (RFC 5280, section 4.2.1.2).
const CERTIFICATE: &[u8] =
    b"\x30\x68\x30\x5E\xA0\x03\x02\x01\x02\x02\x01\x01\x30\x03\x06\x01\x2A\x30\x00\x30\x1E\x17\x0D700101000000Z\x17\x0D491231235959Z\x30\x00\x30\x08\
      \x30\x03\x06\x01\x2A\x03\x01\x00\xA3\x21\x30\x1F\x30\x1D\x06\x03\x55\x1D\x0E\x04\x16\x04\x14\xA3\x05\x2F\x18\x60\x50\xC2\x89\x0A\xDD\x2B\x21\x4F\
      \xFF\x8E\x4E\xA8\x30\x31\x36\x30\x03\x06\x01\x2A\x03\x01\x00";

/// A list of the second version that revokes serial 42 for a reason, and that has a next update and the number 3 (RFC 5280, sections
/// 5.3.1 and 5.2.3).
const LIST: &[u8] =
    b"\x30\x66\x30\x5C\x02\x01\x01\x30\x03\x06\x01\x2A\x30\x00\x17\x0D700101000000Z\x17\x0D700201000000Z\x30\x22\x30\x20\x02\x01\x2A\x17\x0D700101000000Z\
      \x30\x0C\x30\x0A\x06\x03\x55\x1D\x15\x04\x03\x0A\x01\x01\xA0\x0E\x30\x0C\x30\x0A\x06\x03\x55\x1D\x14\x04\x03\x02\x01\x03\x30\x03\x06\x01\x2A\x03\
      \x01\x00";

#[test]
fn over_a_certificate(rt: HostRuntime) {
    let (_, certificate) = made(&rt, parse_x509_certificate(rt.alloc(), CERTIFICATE));
    let mut quiet = Quiet { state: 7 };
    assert!(rt; walk_quietly(certificate, &mut quiet) == Ok(()));
    assert!(rt; quiet.state == 7);
    let mut visits = VisitCount { count: 0 };
    assert!(rt; certificate.walk(&mut visits) == Ok(()));
    assert!(rt; visits.count == 16);
    assert!(rt; certificate.tbs_certificate.walk(&mut visits) == Ok(()));
    assert!(rt; visits.count == 29);
}

#[test]
fn over_a_list(rt: HostRuntime) {
    let list = list_in(&rt, LIST);
    let mut quiet = Quiet { state: 7 };
    assert!(rt; walk_list_quietly(list, &mut quiet) == Ok(()));
    assert!(rt; quiet.state == 7);
    let mut visits = VisitCount { count: 0 };
    assert!(rt; list.walk(&mut visits) == Ok(()));
    assert!(rt; visits.count == 14);
    assert!(rt; list.tbs_cert_list.walk(&mut visits) == Ok(()));
    assert!(rt; visits.count == 25);
}
