//! Extensions.

ghost use Rattle.std.specs.Prelude.{◌≡◌, map};
ghost use Rattle.std.specs.List.{flat_map, list_all};
ghost use Rattle.x509_general_names.specs.AuthorityKeyIdentifier.{authority_key_identifier_of};
ghost use Rattle.x509_der.specs.Oid.{oid_bytes};
ghost use Rattle.x509_extensions.specs.Extension.{extension_of};
ghost use Rattle.x509_extensions.specs.Parsed.{parsed_of};
ghost use Rattle.x509_validators.specs.Message.{Validates};
ghost use Rattle.x509_values.specs.KeyUsage.{key_usage_of};
ghost use Rattle.x509_values.specs.Policies.{policy_of};
ghost use Rattle.x509_validators.specs.Duplicates.{all_distinct};
ghost use Rattle.x509_validators.specs.Rules.{row_of};
ghost use Rattle.x509_validators.specs.Extensions.{has_one, key_identifier_rules, policy_ids, policy_errors};
ghost use Rattle.x509_validators.specs.Extensions.{usage_rules, value_messages, is_sound_value, extension_ids, extension_messages};
ghost use Rattle.x509_validators.specs.Extensions.{is_sound_extension, extension_errors, extensions_messages, are_sound};

use crate::alternative_names::check_names;
use crate::duplicates::{Identified, check_duplicates};
use crate::logger::Logger;
use crate::rule::{Rule, error_where, log_broken, warning_where};
use crate::validator::Validator;
use std::alloc::Global;
use x509_der::Oid;
use x509_extensions::{ParsedExtension, X509Extension};
use x509_fields::X509Error;
use x509_general_names::AuthorityKeyIdentifier;
use x509_values::{KeyUsage, PolicyInformation};

/// Tells of extensions that stand twice, and then of what is wrong with the value of each (RFC 5280, section 4.2):
///
/// - an authority key identifier that is critical, or that has one of issuer and serial alone (section 4.2.1.1),
/// - policies that stand twice (section 4.2.1.4),
/// - a key usage without a bit (section 4.2.1.3),
/// - mail addresses and host names that aren't of ASCII among the other names of the subject (section 4.2.1.6).
///
/// Extensions are sound where no extension and no policy stands twice. Each identifier is looked up among those before it, in an
/// ordered set, which takes memory where there are two extensions or more, or two policies; n of them take n log n time.
#[derive(Debug, Drop)]
pub struct X509ExtensionsValidator;

impl<'a> Validator<'a> for X509ExtensionsValidator {
    ghost use Rattle.x509_validators.specs.Extensions.{extensions_messages, are_sound};

    type Item = &'a [X509Extension<'a>];

    ghost messages = { λ _ extensions. extensions_messages (map extension_of extensions.now) };

    ghost answer = { λ _ extensions. are_sound (map extension_of extensions.now) };

    fn validate<L: Logger>(
        &self,
        alloc: Global,
        item: &&'a [X509Extension<'a>],
        logger: &mut L,
    ) -> Result<bool, X509Error> {
        check_extensions(alloc, members(item), logger)
    }
}

/// Logs what is wrong with extensions, and answers whether they are sound.
///
/// # Errors
///
/// `OutOfMemory` where there is none for a text or for a set of identifiers, and the logger's own errors.
#[tactic(auto, using(crate::proofs::Viewed::viewed), unfolding(crate::specs::Extensions::extensions_messages, crate::specs::Extensions::are_sound))]
pub(crate) fn check_extensions<L: Logger>(
    alloc: Global,
    extensions: &[X509Extension<'_>],
    logger: &mut L,
) -> Result<bool, X509Error>
    requires { L.can_log logger.old }
    ensures { Validates L.can_log L.step logger.old (extensions_messages (map extension_of extensions.now))
        (are_sound (map extension_of extensions.now)) result logger.new }
{
    let distinct = check_identifiers(alloc, extensions, logger)?;
    let sound = check_values(alloc, extensions, logger)?;
    Ok(distinct && sound)
}

#[tactic(auto, unfolding(crate::specs::Extensions::extension_errors))]
fn check_identifiers<L: Logger>(
    alloc: Global,
    extensions: &[X509Extension<'_>],
    logger: &mut L,
) -> Result<bool, X509Error>
    requires { L.can_log logger.old }
    ensures { Validates L.can_log L.step logger.old (extension_errors (map extension_of extensions.now))
        (all_distinct (extension_ids (map extension_of extensions.now))) result logger.new }
{
    check_duplicates(alloc, "Duplicate extension ", extensions, logger)
}

#[tactic(auto, using(crate::proofs::Viewed::viewed))]
fn check_values<L: Logger>(
    alloc: Global,
    extensions: &[X509Extension<'_>],
    logger: &mut L,
) -> Result<bool, X509Error>
    requires { L.can_log logger.old }
    ensures { Validates L.can_log L.step logger.old (flat_map extension_messages (map extension_of extensions.now))
        (list_all is_sound_extension (map extension_of extensions.now)) result logger.new }
{
    let mut sound = true;
    for extension in extensions {
        sound &= check_extension(alloc, extension, logger)?;
    }
    Ok(sound)
}

fn check_extension<L: Logger>(
    alloc: Global,
    extension: &X509Extension<'_>,
    logger: &mut L,
) -> Result<bool, X509Error>
    requires { L.can_log logger.old }
    ensures { Validates L.can_log L.step logger.old (extension_messages (extension_of extension.now))
        (is_sound_extension (extension_of extension.now)) result logger.new }
{
    let value = extension.parsed_extension();
    check_value(alloc, extension.critical, value, logger)
}

#[tactic(auto, using(crate::proofs::Logs::logging), unfolding(crate::specs::Extensions::value_messages, crate::specs::Extensions::is_sound_value))]
fn check_value<L: Logger>(
    alloc: Global,
    critical: bool,
    value: &ParsedExtension<'_>,
    logger: &mut L,
) -> Result<bool, X509Error>
    requires { L.can_log logger.old }
    ensures { Validates L.can_log L.step logger.old (value_messages critical (parsed_of value.now)) (is_sound_value (parsed_of value.now)) result logger.new }
{
    match value {
        ParsedExtension::AuthorityKeyIdentifier(id) => {
            log_broken(alloc, &key_identifier_rules(critical, id), logger)?;
            Ok(true)
        }
        ParsedExtension::CertificatePolicies(policies) => {
            check_policies(alloc, policies.as_slice(), logger)
        }
        ParsedExtension::KeyUsage(usage) => {
            log_broken(alloc, &usage_rules(usage), logger)?;
            Ok(true)
        }
        ParsedExtension::SubjectAlternativeName(names) => {
            check_names(alloc, names.general_names.as_slice(), logger)?;
            Ok(true)
        }
        _ => Ok(true),
    }
}

#[tactic(auto, unfolding(crate::specs::Extensions::policy_errors))]
fn check_policies<L: Logger>(
    alloc: Global,
    policies: &[PolicyInformation<'_>],
    logger: &mut L,
) -> Result<bool, X509Error>
    requires { L.can_log logger.old }
    ensures { Validates L.can_log L.step logger.old (policy_errors (map policy_of policies.now))
        (all_distinct (policy_ids (map policy_of policies.now))) result logger.new }
{
    let label = "Certificate Policies: duplicate policy ";
    check_duplicates(alloc, label, policies, logger)
}

// Of an authority key identifier.
fn key_identifier_rules(critical: bool, id: &AuthorityKeyIdentifier<'_>) -> [Rule<'static>; 2]
    ensures { map row_of result ≡ key_identifier_rules critical (authority_key_identifier_of id.now) }
{
    [
        error_where(critical, "Extension AKI MUST NOT be critical, but is"),
        warning_where(has_one(id), "AKI: only one of Issuer and Serial is present"),
    ]
}

// Of a key usage.
fn usage_rules(usage: &KeyUsage) -> [Rule<'static>; 1]
    ensures { map row_of result ≡ usage_rules (key_usage_of usage.now) }
{
    [error_where(usage.flags == 0, "KeyUsage: all flags are set to 0")]
}

// Whether one of issuer and serial is present, and the other isn't.
fn has_one(id: &AuthorityKeyIdentifier<'_>) -> bool
    ensures { result ≡ has_one (authority_key_identifier_of id.now) }
{
    id.authority_cert_issuer.is_some() != id.authority_cert_serial.is_some()
}

impl Identified for X509Extension<'_> {
    ghost id = { λ e. oid_bytes e.oid };

    fn oid(&self) -> &Oid<'_> {
        &self.oid
    }
}

impl Identified for PolicyInformation<'_> {
    ghost id = { λ p. oid_bytes p.policy_id };

    fn oid(&self) -> &Oid<'_> {
        &self.policy_id
    }
}

// The members of a list that is held by reference; of any type, since a list of extensions can't be read out of a
// reference in place.
fn members<'s, 'a, T>(item: &'s &'a [T]) -> &'s [T]
    ensures { result.now ≡ item.now.now }
{
    *item
}
