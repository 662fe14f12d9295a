//! Validators, loggers and walks over certificates and lists.

use super::fixtures::{self, EXTENDED_BYTES, Ends, PLAIN_BYTES, certificate_in, list_in};
use super::lists::PLAIN_LIST;
use crate::prelude::*;
use crate::visitor::{CertificateRevocationListVisitor, X509CertificateVisitor};
use std::alloc::Global;
use x509_validators::validate_to_vec;

const UNVERSIONED: &[u8; 101] =
    b"\x30\x63\x30\x59\x02\x01\x01\x30\x03\x06\x01\x2A\x30\x00\x30\x1E\x17\x0D700101000000Z\x17\x0D491231235959Z\x30\x00\x30\x08\x30\x03\x06\x01\x2A\
      \x03\x01\x00\xA3\x21\x30\x1F\x30\x1D\x06\x03\x55\x1D\x0E\x04\x16\x04\x14\xA3\x05\x2F\x18\x60\x50\xC2\x89\x0A\xDD\x2B\x21\x4F\xFF\x8E\x4E\xA8\x30\
      \x31\x36\x30\x03\x06\x01\x2A\x03\x01\x00";

const BAD: &[u8; 87] =
    b"\x30\x55\x30\x4B\xA0\x03\x02\x01\x02\x02\x01\x01\x30\x03\x06\x01\x2A\x30\x00\x30\x1E\x17\x0D700101000000Z\x17\x0D491231235959Z\x30\x00\x30\x08\
      \x30\x03\x06\x01\x2A\x03\x01\x00\xA3\x0E\x30\x0C\x30\x0A\x06\x03\x55\x1D\x0F\x04\x03\x04\x01\x00\x30\x03\x06\x01\x2A\x03\x01\x00";

/// Certificates, and the errors in them; each is warned of an unknown key.
const CERTIFICATES: [(&[u8], &[&str]); 4] = [
    (PLAIN_BYTES, &[]),
    (EXTENDED_BYTES, &[]),
    (UNVERSIONED, &["Extensions present but version is not 3"]),
    (BAD, &["Parse error in extension 2.5.29.15: invalid tag"]),
];

// Whether these are the texts.
fn are(found: &[String], texts: &[&str]) -> bool {
    found.len() == texts.len() && found.iter().zip(texts).all(|(a, b)| a.as_str() == *b)
}

/// The answer, the warnings and the errors.
type Report = (bool, Vec<String>, Vec<String>);

// Whether the report has this answer and these texts, in order.
fn says(report: Report, sound: bool, warnings: &[&str], errors: &[&str]) -> bool {
    let told = are(report.1.as_slice(), warnings) && are(report.2.as_slice(), errors);
    told && report.0 == sound
}

#[test]
fn certificates(rt: HostRuntime) {
    let warnings = ["Unknown public key type"];
    for (bytes, errors) in CERTIFICATES {
        let certificate = certificate_in(&rt, bytes);
        let report = certificate
            .validate_to_vec(rt.alloc())
            .expect(&rt, "memory");
        let told = says(report, errors.is_empty(), &warnings, errors);
        assert!(rt; told, "at {errors:?}");
    }
}

// What a validator of lists says of these members.
fn report_by<'a, T, V: Validator<'a, Item = &'a [T]>>(
    rt: &impl Ends,
    validator: &V,
    members: &'a [T],
) -> Report {
    validate_to_vec(rt.alloc(), validator, &members).expect(rt, "memory")
}

/// Both validators of a chain run, whatever the first one answers.
#[test]
fn repeated_extensions(rt: HostRuntime) {
    let extensions = fixtures::repeated(&rt).extensions();
    let (first, second) = ("Duplicate extension 1.2", "Duplicate extension 1.4");
    let report = report_by(&rt, &X509ExtensionsValidator, extensions);
    assert!(rt; says(report, false, &[], &[first, second]));
    let both = chain(X509ExtensionsValidator, X509ExtensionsValidator);
    let report = report_by(&rt, &both, extensions);
    assert!(rt; says(report, false, &[], &[first, second, first, second]));
}

/// A logger whose second error is refused: nothing is told behind it.
#[test]
fn a_refused_message(rt: HostRuntime) {
    let mut calls = 0u32;
    let mut logger = CallbackLogger::new(
        |_| Ok(()),
        |_| {
            calls = calls.saturating_add(1);
            if calls == 2 {
                Err(X509Error::Generic)
            } else {
                Ok(())
            }
        },
    );
    let answers = (logger.err("a is odd"), logger.err("b is even"));
    drop(logger);
    assert!(rt; answers == (Ok(()), Err(X509Error::Generic)));
    assert!(rt; calls == 2);
}

// A warning and an error, as lines.
fn write_two(bytes: &mut Vec<u8>) -> Result<(), X509Error> {
    let mut logger = StderrLogger::new(bytes);
    logger.warn("a is odd")?;
    logger.err("b is even")
}

#[test]
fn lines_of_a_writer(rt: HostRuntime) {
    let mut bytes = Vec::new(rt.alloc());
    write_two(&mut bytes).expect(&rt, "two lines");
    let lines: &[u8] = b"[W] a is odd\n[E] b is even\n";
    assert!(rt; bytes.as_slice() == lines);
}

/// Warns of numbers above ten.
#[derive(Drop)]
struct SmallNumbers;

impl<'a> Validator<'a> for SmallNumbers {
    ghost use Rattle.std.specs.Prelude.{true, codes, nat_lt};
    ghost use Rattle.x509_validators.specs.Message.{warning_if};

    type Item = u32;

    ghost messages = { λ _ a. warning_if (nat_lt 10 a) (codes "a is greater than 10") };

    ghost answer = { λ _ _. true };

    fn validate<L: Logger>(
        &self,
        alloc: Global,
        item: &u32,
        logger: &mut L,
    ) -> Result<bool, X509Error> {
        log_warning_if(alloc, logger, *item > 10, "a is greater than 10")?;
        Ok(true)
    }
}

// Whether the validator warns of the number so, tells no error and finds it sound.
fn warns<'a, V: Validator<'a, Item = u32>>(
    rt: &impl Ends,
    validator: &V,
    number: u32,
    warnings: &[&str],
) -> bool {
    let mut logger = VecLogger::new(rt.alloc());
    let sound = validator
        .validate(rt.alloc(), &number, &mut logger)
        .expect(rt, "an answer");
    sound && are(logger.warnings(), warnings) && logger.errors().is_empty()
}

#[test]
fn small_numbers(rt: HostRuntime) {
    let text = "a is greater than 10";
    let both = chain(SmallNumbers, SmallNumbers);
    for (number, once, twice) in [
        (1, [].as_slice(), [].as_slice()),
        (20, &[text], &[text, text]),
    ] {
        assert!(rt; warns(&rt, &SmallNumbers, number, once));
        assert!(rt; warns(&rt, &both, number, twice));
    }
}

/// Keeps the key's identifier, counts the extensions and the issuers, and may refuse an extension.
#[derive(Default, Drop)]
struct Keys {
    identifier: [u8; 20],
    extensions: u32,
    issuers: u32,
    refusing: bool,
}

impl X509CertificateVisitor for Keys {
    ghost use Rattle.std.specs.Prelude.{⊤};

    ghost step = { λ _ _ _ _. ⊤ };

    fn visit_issuer(&mut self, name: &X509Name<'_>) -> Result<(), X509Error> {
        let _ = name;
        self.issuers = self.issuers.saturating_add(1);
        Ok(())
    }

    fn visit_extension(&mut self, extension: &X509Extension<'_>) -> Result<(), X509Error> {
        let _ = extension;
        self.extensions = self.extensions.saturating_add(1);
        if self.refusing {
            Err(X509Error::Generic)
        } else {
            Ok(())
        }
    }

    fn visit_extension_ski(&mut self, identifier: &KeyIdentifier<'_>) -> Result<(), X509Error> {
        if let Some(octets) = identifier.0.first_chunk() {
            self.identifier = *octets;
        }
        Ok(())
    }
}

#[test]
fn walked_certificates(rt: HostRuntime) {
    let bytes: &[u8] = EXTENDED_BYTES;
    let certificate = certificate_in(&rt, bytes);
    let mut keys = Keys::default();
    keys.walk(certificate).expect(&rt, "an answer");
    assert!(rt; (keys.issuers, keys.extensions) == (1, 1));
    assert!(rt; keys.identifier.as_slice() == &bytes[78..98]);
    // a visit that is refused is the last one
    let mut refusing = Keys::default();
    refusing.refusing = true;
    assert!(rt; refusing.walk(certificate) == Err(X509Error::Generic));
    assert!(rt; (refusing.issuers, refusing.extensions) == (1, 1));
    assert!(rt; refusing.identifier == [0; 20]);
}

/// Counts the dates of a list.
#[derive(Drop)]
struct Dates(u32);

impl CertificateRevocationListVisitor for Dates {
    ghost use Rattle.std.specs.Prelude.{⊤};

    ghost step = { λ _ _ _ _. ⊤ };

    fn visit_this_update(&mut self, time: &ASN1Time) -> Result<(), X509Error> {
        let _ = time;
        self.0 = self.0.saturating_add(1);
        Ok(())
    }
}

#[test]
fn walked_lists(rt: HostRuntime) {
    let mut dates = Dates(0);
    let list = list_in(&rt, PLAIN_LIST);
    dates.walk(list).expect(&rt, "an answer");
    assert!(rt; dates.0 == 1);
}
