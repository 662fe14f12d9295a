//! The structure of certificates.

ghost use Rattle.std.specs.Prelude.{◌≡◌, map};
ghost use Rattle.x509_certs.specs.TbsCertificate.{tbs_of};
ghost use Rattle.x509_extensions.specs.Extension.{extension_of};
ghost use Rattle.x509_validators.specs.Message.{Validates};
ghost use Rattle.x509_validators.specs.Rules.{row_of};
ghost use Rattle.x509_validators.specs.SignedPart.{are_fields_sound, are_numbers_sound, are_readable, extension_part_messages, field_messages};
ghost use Rattle.x509_validators.specs.SignedPart.{is_key_sound, is_signed_part_sound, number_rules, party_messages, period_rules, signed_part_messages};

use crate::alternative_names::check_names_in;
use crate::logger::Logger;
use crate::name::X509NameStructureValidator;
use crate::public_key::X509PublicKeyValidator;
use crate::readings::check_readings;
use crate::rule::{Rule, log_broken};
use crate::serial::{is_there, serial_rules};
use crate::times::{generalized_rule, utc_rule};
use crate::validator::Validator;
use crate::versions::{is_version, may_have, presence_rule, uid_rule, version_rule};
use std::alloc::Global;
use x509_certs::{TbsCertificate, X509Certificate};
use x509_extensions::X509Extension;
use x509_fields::X509Error;

/// Tells what is wrong with the structure of the part of a certificate that is signed (RFC 5280, section 4.1.2):
///
/// - a version that there is not,
/// - a serial that is empty or negative, or that has leading zeros,
/// - what [`X509NameStructureValidator`] tells of the subject and of the issuer, and [`X509PublicKeyValidator`] of the key,
/// - times whose form isn't that of their year,
/// - unique identifiers in the first version, and extensions in another than the third,
/// - extensions that no reader is known for, and those whose value can't be read,
/// - mail addresses and host names that aren't of ASCII among the other names of the subject.
///
/// It is sound where the version is one, the serial isn't empty, the key bits hold a key, there are extensions in the third
/// version alone, and every value that was looked at can be read.
#[derive(Debug, Default, Drop)]
pub struct TbsCertificateStructureValidator;

impl<'a> Validator<'a> for TbsCertificateStructureValidator {
    type Item = TbsCertificate<'a>;

    ghost messages = { λ _ tbs. signed_part_messages (tbs_of tbs) };

    ghost answer = { λ _ tbs. is_signed_part_sound (tbs_of tbs) };

    fn validate<L: Logger>(
        &self,
        alloc: Global,
        item: &TbsCertificate<'a>,
        logger: &mut L,
    ) -> Result<bool, X509Error> {
        check_signed_part(alloc, item, logger)
    }
}

/// The same of the signed part of a certificate.
#[derive(Debug, Default, Drop)]
pub struct X509StructureValidator;

impl<'a> Validator<'a> for X509StructureValidator {
    ghost use Rattle.x509_certs.specs.Certificate.{certificate_of};

    type Item = X509Certificate<'a>;

    ghost messages = { λ _ certificate. signed_part_messages (certificate_of certificate).tbs };

    ghost answer = { λ _ certificate. is_signed_part_sound (certificate_of certificate).tbs };

    fn validate<L: Logger>(
        &self,
        alloc: Global,
        item: &X509Certificate<'a>,
        logger: &mut L,
    ) -> Result<bool, X509Error> {
        check_signed_part(alloc, &item.tbs_certificate, logger)
    }
}

#[tactic(auto, using(crate::proofs::Logs::logging), unfolding(crate::specs::SignedPart::signed_part_messages, crate::specs::SignedPart::is_signed_part_sound))]
fn check_signed_part<L: Logger>(
    alloc: Global,
    tbs: &TbsCertificate<'_>,
    logger: &mut L,
) -> Result<bool, X509Error>
    requires { L.can_log logger.old }
    ensures { Validates L.can_log L.step logger.old (signed_part_messages (tbs_of tbs.now)) (is_signed_part_sound (tbs_of tbs.now)) result logger.new }
{
    let fields = check_fields(alloc, tbs, logger)?;
    let readable = check_extension_part(alloc, tbs.extensions(), logger)?;
    Ok(fields & readable)
}

// The fields, and what may be there by the version.
#[tactic(auto, using(crate::proofs::Logs::logging), unfolding(crate::specs::SignedPart::field_messages))]
fn check_fields<L: Logger>(
    alloc: Global,
    tbs: &TbsCertificate<'_>,
    logger: &mut L,
) -> Result<bool, X509Error>
    requires { L.can_log logger.old }
    ensures { Validates L.can_log L.step logger.old (field_messages (tbs_of tbs.now)) (are_fields_sound (tbs_of tbs.now)) result logger.new }
{
    log_broken(alloc, &number_rules(tbs), logger)?;
    let key = check_parties(alloc, tbs, logger)?;
    log_broken(alloc, &period_rules(tbs), logger)?;
    Ok(are_numbers_sound(tbs) & key)
}

// Version and serial.
fn number_rules(tbs: &TbsCertificate<'_>) -> [Rule<'static>; 4]
    ensures { map row_of result ≡ number_rules (tbs_of tbs.now) }
{
    let [absence, sign, zeros] = serial_rules(tbs.raw_serial());
    [version_rule(tbs.version), absence, sign, zeros]
}

// Validity, unique identifiers, and whether extensions may be there.
fn period_rules(tbs: &TbsCertificate<'_>) -> [Rule<'static>; 7]
    ensures { map row_of result ≡ period_rules (tbs_of tbs.now) }
{
    let validity = &tbs.validity;
    [
        utc_rule("notBefore", &validity.not_before),
        generalized_rule("notBefore", &validity.not_before),
        utc_rule("notAfter", &validity.not_after),
        generalized_rule("notAfter", &validity.not_after),
        uid_rule("issuerUniqueID", tbs.version, &tbs.issuer_uid),
        uid_rule("subjectUniqueID", tbs.version, &tbs.subject_uid),
        presence_rule(tbs.version, tbs.extensions()),
    ]
}

// There are such a version, a serial, and extensions in the third version alone.
fn are_numbers_sound(tbs: &TbsCertificate<'_>) -> bool
    ensures { result ≡ are_numbers_sound (tbs_of tbs.now) }
{
    is_version(tbs.version) && is_there(tbs.raw_serial()) && may_have(tbs.version, tbs.extensions())
}

// Subject, issuer and key.
#[tactic(auto, using(crate::proofs::Logs::logging), unfolding(crate::specs::SignedPart::party_messages))]
fn check_parties<L: Logger>(
    alloc: Global,
    tbs: &TbsCertificate<'_>,
    logger: &mut L,
) -> Result<bool, X509Error>
    requires { L.can_log logger.old }
    ensures { Validates L.can_log L.step logger.old (party_messages (tbs_of tbs.now)) (is_key_sound (tbs_of tbs.now)) result logger.new }
{
    X509NameStructureValidator.validate(alloc, &tbs.subject, logger)?;
    X509NameStructureValidator.validate(alloc, &tbs.issuer, logger)?;
    let key = X509PublicKeyValidator.validate(alloc, &tbs.subject_pki, logger)?;
    Ok(key)
}

// How each extension was read, and then the other names of the subject.
#[tactic(auto, using(crate::proofs::Logs::logging), unfolding(crate::specs::SignedPart::extension_part_messages))]
fn check_extension_part<L: Logger>(
    alloc: Global,
    extensions: &[X509Extension<'_>],
    logger: &mut L,
) -> Result<bool, X509Error>
    requires { L.can_log logger.old }
    ensures { Validates L.can_log L.step logger.old (extension_part_messages (map extension_of extensions.now))
        (are_readable (map extension_of extensions.now)) result logger.new }
{
    let readable = check_readings(alloc, extensions, logger)?;
    check_names_in(alloc, extensions, logger)?;
    Ok(readable)
}
