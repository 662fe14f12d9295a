//! What is said of a serial.

ghost use Rattle.std.specs.Prelude.{◌≡◌, MatchResult, map, option_map, string_bytes};
ghost use Rattle.x509_extensions.specs.Extension.{extension_of};
ghost use Rattle.x509_fields.specs.Times.{time_of};
ghost use Rattle.x509_lists.specs.RevokedCertificate.{revoked_of};
ghost use Rattle.x509_revoked_cli.specs.Answers.{answer_line, date_text, is_revoked, reason_name, reason_of, reason_text, state_name};
ghost use Rattle.x509_revoked_cli.specs.declared.stop.Stop.TheVariants.{Memory};

use crate::stop::Stop;
use std::alloc::Global;
use x509_extensions::{ParsedExtension, X509Extension};
use x509_fields::{ASN1Time, ReasonCode, X509Error};
use x509_lists::RevokedCertificate;
use x509_names::OID_X509_EXT_REASON_CODE;

/// The reason in the words of the standard (RFC 5280, section 5.3.1), and `unknown` of every number that has none there.
fn reason_name(reason: ReasonCode) -> &'static str
    ensures { result.now ≡ reason_name reason.0 }
{
    match reason.0 {
        0 => "unspecified",
        1 => "keyCompromise",
        2 => "cACompromise",
        3 => "affiliationChanged",
        4 => "superseded",
        5 => "cessationOfOperation",
        6 => "certificateHold",
        8 => "removeFromCRL",
        9 => "privilegeWithdrawn",
        10 => "aACompromise",
        _ => "unknown",
    }
}

/// What the first extension reasonCode says; none where none stands, or where its value can't be read.
fn reason_of(extensions: &[X509Extension<'_>]) -> Option<ReasonCode>
    ensures { option_map (λ reason. reason.0) result ≡ reason_of (map extension_of extensions.now) }
{
    for extension in extensions {
        if extension.oid.as_bytes() == OID_X509_EXT_REASON_CODE {
            return match extension.parsed_extension() {
                ParsedExtension::ReasonCode(reason) => Some(*reason),
                _ => None,
            };
        }
    }
    None
}

/// The reason as a word; a dash where none is said.
fn reason_text(reason: Option<ReasonCode>) -> &'static str
    ensures { result.now ≡ reason_text (option_map (λ r. r.0) reason) }
{
    match reason {
        Some(reason) => reason_name(reason),
        None => "-",
    }
}

/// What an entry with this reason says of its certificate: that it is revoked, or on a delta list, that it is taken off.
fn state_name(reason: Option<ReasonCode>) -> &'static str
    ensures { result.now ≡ state_name (option_map (λ r. r.0) reason) }
{
    match reason {
        Some(ReasonCode(8)) => "removed",
        _ => "revoked",
    }
}

/// When, as internet protocols write it (RFC 3339); a dash where its year hasn't four digits.
fn date_text(alloc: Global, date: &ASN1Time) -> Result<String, Stop>
    ensures { MatchResult result (λ text. string_bytes text ≡ date_text (time_of date.now)) (λ stop. stop ≡ Memory) }
{
    match date.to_rfc3339(alloc) {
        Ok(text) => Ok(text),
        Err(X509Error::OutOfMemory) => Err(Stop::Memory),
        Err(_) => {
            let mut text = String::new(alloc);
            text.push('-')?;
            Ok(text)
        }
    }
}

/// The line of a serial whose entry this is, where it has one.
#[tactic(auto, unfolding(crate::specs::Answers::answer_line))]
pub fn answer_line(
    alloc: Global,
    serial: &str,
    entry: &Option<RevokedCertificate<'_>>,
) -> Result<String, Stop>
    ensures { MatchResult result (λ line. string_bytes line ≡ answer_line serial.now (option_map revoked_of entry.now)) (λ stop. stop ≡ Memory) }
{
    match entry {
        None => Ok(format!(in alloc; "{serial} not on the list\n")?),
        Some(entry) => {
            let reason = reason_of(entry.extensions());
            let state = state_name(reason);
            let date = date_text(alloc, &entry.revocation_date)?;
            let reason = reason_text(reason);
            Ok(format!(in alloc; "{serial} {state} {date} {reason}\n")?)
        }
    }
}

/// Whether a certificate with this entry is revoked.
pub fn is_revoked(entry: &Option<RevokedCertificate<'_>>) -> bool
    ensures { result ≡ is_revoked (option_map revoked_of entry.now) }
{
    match entry {
        None => false,
        Some(entry) => !matches!(reason_of(entry.extensions()), Some(ReasonCode(8))),
    }
}
