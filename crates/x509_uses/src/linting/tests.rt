use super::{CriticalExtensions, SerialLength};
use crate::tests::{kept, made};
use std::test::Fail;
use x509_parser::parse_x509_certificate;
use x509_parser::validate::{
    Validator, VecLogger, X509CertificateValidator, X509StructureValidator, chain,
};
use x509_parser::visitor::WalkCertificate;

/// A certificate with a serial of 21 octets and one extension, which is critical: 129 bytes.
const LONG: &[u8] = b"\
    \x30\x7F\x30\x75\xA0\x03\x02\x01\x02\x02\x15\x01\x00\x00\x00\x00\x00\x00\x00\x00\x00\x00\x00\x00\x00\x00\x00\x00\x00\x00\x00\x00\
    \x30\x03\x06\x01\x2A\x30\x00\x30\x1E\x17\x0D700101000000Z\x17\x0D491231235959Z\x30\x00\x30\x08\x30\x03\x06\x01\x2A\x03\x01\x00\
    \xA3\x24\x30\x22\x30\x20\x06\x03\x55\x1D\x0E\x01\x01\xFF\x04\x16\x04\x14\xA3\x05\x2F\x18\x60\x50\xC2\x89\x0A\xDD\x2B\x21\x4F\xFF\
    \x8E\x4E\xA8\x30\x31\x36\x30\x03\x06\x01\x2A\x03\x01\x00";

#[test]
fn a_chain_and_a_walk(rt: HostRuntime) -> Result<(), Fail> {
    let (rest, certificate) = made(&rt, parse_x509_certificate(rt.alloc(), LONG));
    assert!(rt; rest.is_empty());
    let checks = chain(
        X509StructureValidator,
        chain(X509CertificateValidator, SerialLength),
    );
    let mut logger = VecLogger::new(rt.alloc());
    let sound = checks.validate(rt.alloc(), certificate, &mut logger)?;
    let logger = kept(&rt, logger);
    assert!(rt; sound && logger.errors().is_empty());
    let [key, serial] = logger.warnings() else {
        panic!(rt; "not two warnings");
    };
    assert!(rt; key.as_str() == "Unknown public key type");
    assert!(rt; serial.as_str() == "Serial of more than 20 octets");
    let mut critical = CriticalExtensions { count: 0 };
    assert!(rt; certificate.walk(&mut critical) == Ok(()));
    assert!(rt; critical.count == 1);
    Ok(())
}
