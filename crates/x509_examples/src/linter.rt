//! What is wrong with a certificate, by the validators of the library and by rules of one's own.

use crate::texts::Shown;
use std::alloc::Global;
use x509_parser::prelude::*;
use x509_parser::public_key::KeyAlgorithm;
use x509_parser::signature_algorithm::{HashAlgorithm, signature_hash};

/// How much it matters that a rule is broken.
#[derive(Clone, Copy)]
enum Level {
    /// The certificate is usable.
    Warning,
    /// The certificate isn't sound.
    Error,
}

/// A rule: how much it matters, whether a certificate breaks it, and what is told then.
type Rule = (Level, fn(&X509Certificate<'_>) -> bool, &'static str);

/// The rules, in the order in which they are told.
const RULES: [Rule; 5] = [
    (Level::Error, has_weak_hash, "Signature over a weak hash"),
    (Level::Error, has_short_key, "Key of too few bits"),
    (Level::Error, has_no_names, "No subject alternative name"),
    (Level::Warning, has_no_usage, "No key usage"),
    (Level::Warning, lives_long, "Valid for more than 398 days"),
];

fn has_weak_hash(certificate: &X509Certificate<'_>) -> bool {
    matches!(
        signature_hash(&certificate.signature_algorithm),
        Some(HashAlgorithm::Md2 | HashAlgorithm::Md5 | HashAlgorithm::Sha1)
    )
}

fn has_short_key(certificate: &X509Certificate<'_>) -> bool {
    let key = certificate.public_key();
    let least = match key.key_algorithm() {
        KeyAlgorithm::Rsa | KeyAlgorithm::RsaPss | KeyAlgorithm::Dsa => 2048,
        _ => 224,
    };
    key.key_size().is_some_and(|bits| bits < least)
}

fn has_no_names(certificate: &X509Certificate<'_>) -> bool {
    !certificate.is_ca() && matches!(certificate.subject_alternative_name(), Ok(None))
}

fn has_no_usage(certificate: &X509Certificate<'_>) -> bool {
    matches!(certificate.key_usage(), Ok(None))
}

fn lives_long(certificate: &X509Certificate<'_>) -> bool {
    let validity = certificate.validity();
    !certificate.is_ca() && validity.days_left(validity.not_before) > 398
}

/// Logs each rule that the certificate breaks, and answers whether it is sound, as a `Validator` does.
fn apply_rules(
    certificate: &X509Certificate<'_>,
    logger: &mut VecLogger,
) -> Result<bool, X509Error> {
    let mut sound = true;
    for (level, is_broken, text) in &RULES {
        if !is_broken(certificate) {
            continue;
        }
        match level {
            Level::Warning => logger.warn(*text)?,
            Level::Error => {
                logger.err(*text)?;
                sound = false;
            }
        }
    }
    Ok(sound)
}

/// Adds a line for each finding in the certificate, errors first, and one that says whether it is sound.
///
/// # Errors
///
/// The refusal of the certificate, and `OutOfMemory`.
pub fn lint(alloc: Global, bytes: &[u8], lines: &mut String) -> Result<(), X509Error> {
    let (_, certificate) = parse_x509_certificate(alloc, bytes)?;
    push_findings(alloc, &certificate, lines)
}

/// Adds the lines of the findings.
fn push_findings(
    alloc: Global,
    certificate: &X509Certificate<'_>,
    lines: &mut String,
) -> Result<(), X509Error> {
    let mut logger = VecLogger::new(alloc);
    let checks = chain(X509StructureValidator, X509CertificateValidator);
    let sound = checks.validate(alloc, certificate, &mut logger)?;
    let keeps_rules = apply_rules(certificate, &mut logger)?;
    push_texts("error", logger.errors(), lines)?;
    push_texts("warning", logger.warnings(), lines)?;
    writeln!(lines, "sound\t{}", sound && keeps_rules)?;
    Ok(())
}

/// Adds a line for each of the texts.
fn push_texts(level: &str, texts: &[String], lines: &mut String) -> Result<(), X509Error> {
    for text in texts {
        let text = Shown(text.as_str());
        writeln!(lines, "{level}\t{text}")?;
    }
    Ok(())
}
