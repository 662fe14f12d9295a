//! Other names of a subject.

ghost use Rattle.std.specs.Prelude.{map};
ghost use Rattle.std.specs.List.{flat_map};
ghost use Rattle.x509_extensions.specs.Extension.{extension_of};
ghost use Rattle.x509_extensions.specs.Parsed.{parsed_of};
ghost use Rattle.x509_general_names.specs.GeneralName.{general_name_of};
ghost use Rattle.x509_validators.specs.Message.{Validates};
ghost use Rattle.x509_validators.specs.AlternativeNames.{text_warnings, general_name_warnings, names_warnings, alternative_name_warnings, names_in};

use crate::charset::are_ascii;
use crate::logger::{Logger, log_warning_if};
use std::alloc::Global;
use x509_extensions::{ParsedExtension, X509Extension};
use x509_fields::X509Error;
use x509_general_names::GeneralName;

/// Logs what is wrong with the value, where it is other names of a subject (RFC 5280, section 4.2.1.6).
///
/// # Errors
///
/// `OutOfMemory` where there is none for a text, and the logger's own errors.
#[tactic(auto, using(crate::proofs::Logs::logging), unfolding(crate::specs::AlternativeNames::alternative_name_warnings))]
fn check_alternative_names<L: Logger>(
    alloc: Global,
    value: &ParsedExtension<'_>,
    logger: &mut L,
) -> Result<(), X509Error>
    requires { L.can_log logger.old }
    ensures { Validates L.can_log L.step logger.old (alternative_name_warnings (parsed_of value.now)) tt result logger.new }
{
    match value {
        ParsedExtension::SubjectAlternativeName(names) => {
            check_names(alloc, names.general_names.as_slice(), logger)
        }
        _ => Ok(()),
    }
}

/// Logs each mail address and host name that isn't of ASCII.
///
/// # Errors
///
/// `OutOfMemory` where there is none for a text, and the logger's own errors.
#[tactic(auto, using(crate::proofs::Viewed::viewed))]
pub(crate) fn check_names<L: Logger>(
    alloc: Global,
    names: &[GeneralName<'_>],
    logger: &mut L,
) -> Result<(), X509Error>
    requires { L.can_log logger.old }
    ensures { Validates L.can_log L.step logger.old (names_warnings (map general_name_of names.now)) tt result logger.new }
{
    for name in names {
        check_name(alloc, name, logger)?;
    }
    Ok(())
}

#[tactic(auto, using(crate::proofs::Logs::logging), unfolding(crate::specs::AlternativeNames::general_name_warnings))]
fn check_name<L: Logger>(
    alloc: Global,
    name: &GeneralName<'_>,
    logger: &mut L,
) -> Result<(), X509Error>
    requires { L.can_log logger.old }
    ensures { Validates L.can_log L.step logger.old (general_name_warnings (general_name_of name.now)) tt result logger.new }
{
    match name {
        GeneralName::RFC822Name(text) | GeneralName::DNSName(text) => check_text(
            alloc, text, logger,
        ),
        _ => Ok(()),
    }
}

#[tactic(auto, unfolding(crate::specs::AlternativeNames::text_warnings))]
fn check_text<L: Logger>(alloc: Global, text: &str, logger: &mut L) -> Result<(), X509Error>
    requires { L.can_log logger.old }
    ensures { Validates L.can_log L.step logger.old (text_warnings text.now) tt result logger.new }
{
    let found = !are_ascii(text.as_bytes());
    log_warning_if(
        alloc,
        logger,
        found,
        format_args!("Invalid charset in 'SAN' entry '{text}'"),
    )
}

/// Logs what is wrong with other names of a subject in these extensions.
///
/// # Errors
///
/// `OutOfMemory` where there is none for a text, and the logger's own errors.
#[tactic(auto, using(crate::proofs::Viewed::viewed))]
pub(crate) fn check_names_in<L: Logger>(
    alloc: Global,
    extensions: &[X509Extension<'_>],
    logger: &mut L,
) -> Result<(), X509Error>
    requires { L.can_log logger.old }
    ensures { Validates L.can_log L.step logger.old (flat_map names_in (map extension_of extensions.now)) tt result logger.new }
{
    for extension in extensions {
        check_extension(alloc, extension, logger)?;
    }
    Ok(())
}

fn check_extension<L: Logger>(
    alloc: Global,
    extension: &X509Extension<'_>,
    logger: &mut L,
) -> Result<(), X509Error>
    requires { L.can_log logger.old }
    ensures { Validates L.can_log L.step logger.old (names_in (extension_of extension.now)) tt result logger.new }
{
    let value = extension.parsed_extension();
    check_alternative_names(alloc, value, logger)
}
