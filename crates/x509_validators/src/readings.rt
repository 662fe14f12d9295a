//! Whether the values of extensions could be read.

ghost use Rattle.std.specs.Prelude.{map, not};
ghost use Rattle.std.specs.List.{flat_map, list_all};
ghost use Rattle.std.specs.Option.{is_some};
ghost use Rattle.x509_der.specs.Oid.{oid_bytes};
ghost use Rattle.x509_extensions.specs.Extension.{extension_of};
ghost use Rattle.x509_extensions.specs.Parsed.{parsed_of, error_in};
ghost use Rattle.x509_validators.specs.Message.{Validates};
ghost use Rattle.x509_validators.specs.Readings.{unsupported_warnings, refusal_error, refusal_errors, reading_messages, is_readable};

use crate::logger::{Logger, log_error_if, log_warning_if};
use std::alloc::Global;
use x509_der::{BerError, Err, Oid};
use x509_extensions::{ParsedExtension, X509Extension};
use x509_fields::X509Error;

/// Warns of extensions that no reader is known for and logs those whose value can't be read, and answers whether there
/// are none of these.
///
/// # Errors
///
/// `OutOfMemory` where there is none for a text, and the logger's own errors.
#[tactic(auto, using(crate::proofs::Viewed::viewed))]
pub(crate) fn check_readings<L: Logger>(
    alloc: Global,
    extensions: &[X509Extension<'_>],
    logger: &mut L,
) -> Result<bool, X509Error>
    requires { L.can_log logger.old }
    ensures { Validates L.can_log L.step logger.old (flat_map reading_messages (map extension_of extensions.now))
        (list_all is_readable (map extension_of extensions.now)) result logger.new }
{
    let mut readable = true;
    for extension in extensions {
        readable &= check_reading(alloc, extension, logger)?;
    }
    Ok(readable)
}

#[tactic(auto, using(crate::proofs::Logs::logging), unfolding(crate::specs::Readings::reading_messages))]
fn check_reading<L: Logger>(
    alloc: Global,
    extension: &X509Extension<'_>,
    logger: &mut L,
) -> Result<bool, X509Error>
    requires { L.can_log logger.old }
    ensures { Validates L.can_log L.step logger.old (reading_messages (extension_of extension.now)) (is_readable (extension_of extension.now)) result logger.new }
{
    let value = extension.parsed_extension();
    check_known(alloc, &extension.oid, value, logger)?;
    let readable = check_refusal(alloc, &extension.oid, value, logger)?;
    Ok(readable)
}

#[tactic(auto, unfolding(crate::specs::Readings::unsupported_warnings))]
fn check_known<L: Logger>(
    alloc: Global,
    oid: &Oid<'_>,
    value: &ParsedExtension<'_>,
    logger: &mut L,
) -> Result<(), X509Error>
    requires { L.can_log logger.old }
    ensures { Validates L.can_log L.step logger.old (unsupported_warnings (oid_bytes oid.now) (parsed_of value.now)) tt result logger.new }
{
    let found = value.unsupported();
    log_warning_if(
        alloc,
        logger,
        found,
        format_args!("Unsupported extension {oid}"),
    )
}

#[tactic(auto, using(crate::proofs::Logs::logging), unfolding(crate::specs::Readings::refusal_errors))]
fn check_refusal<L: Logger>(
    alloc: Global,
    oid: &Oid<'_>,
    value: &ParsedExtension<'_>,
    logger: &mut L,
) -> Result<bool, X509Error>
    requires { L.can_log logger.old }
    ensures { Validates L.can_log L.step logger.old (refusal_errors (oid_bytes oid.now) (error_in (parsed_of value.now)))
        (not (is_some (error_in (parsed_of value.now)))) result logger.new }
{
    match value.error() {
        None => Ok(true),
        Some(refusal) => {
            report_refusal(alloc, oid, refusal, logger)?;
            Ok(false)
        }
    }
}

#[tactic(auto, unfolding(crate::specs::Readings::refusal_error, crate::specs::Message::error_if))]
fn report_refusal<L: Logger>(
    alloc: Global,
    oid: &Oid<'_>,
    refusal: &Err<BerError>,
    logger: &mut L,
) -> Result<(), X509Error>
    requires { L.can_log logger.old }
    ensures { Validates L.can_log L.step logger.old (refusal_error (oid_bytes oid.now) refusal.now) tt result logger.new }
{
    let word = refusal.word();
    log_error_if(
        alloc,
        logger,
        true,
        format_args!("Parse error in extension {oid}: {word}"),
    )
}
