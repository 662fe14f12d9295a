//! What reports say of lists of revoked certificates and of their entries.

ghost use Rattle.std.specs.Prelude.{◌≡◌, length, map, option_map};
ghost use Rattle.x509_extensions.specs.Extension.{extension_of};
ghost use Rattle.x509_extensions.specs.Parsed.{parsed_of};
ghost use Rattle.x509_lists.specs.CertificateList.{list_of};
ghost use Rattle.x509_lists.specs.RevokedCertificate.{revoked_of};
ghost use Rattle.x509_lists.specs.TbsCertList.{tbs_list_of};
ghost use Rattle.x509_report_lines.specs.Says.{Says, SaysMembers, SaysUnder, SaysWhole, count, list_of as array_of};
ghost use Rattle.x509_names.specs.Objects as objects;
ghost use Rattle.x509_report_objects.specs.Attempts.{found_of};
ghost use Rattle.x509_report_objects.specs.Extensions.{extension_report};
ghost use Rattle.x509_report_objects.specs.Lists.{content_members, entry_members, entry_report, first_parsed, invalidity_in, list_head_members};
ghost use Rattle.x509_report_objects.specs.Lists.{list_members, list_tail_members, number_members, number_report, reason_in, update_members};

use crate::certificates::{say_serial, version_under};
use crate::extensions::extensions_under;
use crate::objects::{Found, say_place, size_under};
use crate::values::{count_under, hex_under, null_under, optional_under, value_under};
use std::alloc::AllocError;
use x509_extensions::{ParsedExtension, X509Extension};
use x509_lists::{CertificateRevocationList, RevokedCertificate, TbsCertList};
use x509_names::{OID_X509_EXT_CRL_NUMBER, OID_X509_EXT_INVALIDITY_DATE, OID_X509_EXT_REASON_CODE};
use x509_report_lines::Line;

/// What the first extension with this identifier says, whose contents octets these are; none where no extension has it.
pub fn first_parsed<'v, 'a>(
    id: &[u8],
    extensions: &'v [X509Extension<'a>],
) -> Option<&'v ParsedExtension<'a>>
    ensures { option_map (λ p. parsed_of p.now) result ≡ first_parsed id.now (map extension_of extensions.now) }
{
    for extension in extensions {
        if extension.oid.as_bytes() == id {
            return Some(extension.parsed_extension());
        }
    }
    None
}

/// The number of the list, under a key.
fn number_under(out: &mut Line, key: &str, parsed: Option<&ParsedExtension<'_>>)
    ensures { SaysUnder out.old out.new key.now (number_report (option_map (λ p. parsed_of p.now) parsed.entry)) }
{
    match parsed {
        Some(ParsedExtension::CRLNumber(number)) => hex_under(out, key, number.as_bytes()),
        _ => null_under(out, key),
    }
}

/// Why the certificate was revoked, under a key.
fn reason_under(out: &mut Line, key: &str, parsed: Option<&ParsedExtension<'_>>)
    ensures { SaysUnder out.old out.new key.now (reason_in (option_map (λ p. parsed_of p.now) parsed.entry)) }
{
    match parsed {
        Some(ParsedExtension::ReasonCode(reason)) => value_under(out, key, reason),
        _ => null_under(out, key),
    }
}

/// Since when the certificate is held to be invalid, under a key.
fn invalidity_under(out: &mut Line, key: &str, parsed: Option<&ParsedExtension<'_>>)
    ensures { SaysUnder out.old out.new key.now (invalidity_in (option_map (λ p. parsed_of p.now) parsed.entry)) }
{
    match parsed {
        Some(ParsedExtension::InvalidityDate(date)) => value_under(out, key, date),
        _ => null_under(out, key),
    }
}

fn say_head(out: &mut Line, list: &CertificateRevocationList<'_>)
    ensures { SaysMembers out.old out.new (list_head_members (list_of list.now)) }
{
    let tbs = &list.tbs_cert_list;
    match tbs.version {
        Some(version) => version_under(out, "version", version),
        None => null_under(out, "version"),
    }
    value_under(out, "signature_algorithm", &list.signature_algorithm);
    value_under(out, "tbs_signature_algorithm", &tbs.signature);
    value_under(out, "issuer", &tbs.issuer);
}

fn say_updates(out: &mut Line, tbs: &TbsCertList<'_>)
    ensures { SaysMembers out.old out.new (update_members (tbs_list_of tbs.now)) }
{
    value_under(out, "this_update", &tbs.this_update);
    optional_under(out, "next_update", &tbs.next_update);
}

/// How many entries there are, under a key.
#[tactic(auto, using(crate::proofs::Counts::length_map))]
fn entry_count_under(out: &mut Line, key: &str, tbs: &TbsCertList<'_>)
    ensures { SaysUnder out.old out.new key.now (count (length (tbs_list_of tbs.now).revoked_certificates)) }
{
    count_under(out, key, tbs.revoked_certificates.len() as u64);
}

/// The number of the list, under a key.
fn crl_number_under(out: &mut Line, key: &str, tbs: &TbsCertList<'_>)
    ensures { SaysUnder out.old out.new key.now (number_report (first_parsed objects.crl_number (tbs_list_of tbs.now).extensions)) }
{
    let number = first_parsed(OID_X509_EXT_CRL_NUMBER, tbs.extensions());
    number_under(out, key, number);
}

/// The extensions of the list, under a key.
fn crl_extensions_under(out: &mut Line, key: &str, tbs: &TbsCertList<'_>)
    ensures { SaysUnder out.old out.new key.now (array_of extension_report (tbs_list_of tbs.now).extensions) }
{
    extensions_under(out, key, tbs.extensions());
}

fn say_contents(out: &mut Line, tbs: &TbsCertList<'_>)
    ensures { SaysMembers out.old out.new (content_members (tbs_list_of tbs.now)) }
{
    entry_count_under(out, "entry_count", tbs);
    crl_number_under(out, "crl_number", tbs);
    crl_extensions_under(out, "extensions", tbs);
}

/// How many octets were signed, under a key.
fn signed_size_under(out: &mut Line, key: &str, tbs: &TbsCertList<'_>)
    ensures { SaysUnder out.old out.new key.now (count (length (tbs_list_of tbs.now).raw)) }
{
    size_under(out, key, tbs.as_ref());
}

fn say_tail(out: &mut Line, list: &CertificateRevocationList<'_>)
    ensures { SaysMembers out.old out.new (list_tail_members (list_of list.now)) }
{
    value_under(out, "signature", &list.signature_value);
    signed_size_under(out, "tbs_length", &list.tbs_cert_list);
}

/// The members of a list's report, one after another, without its entries.
#[tactic(auto, unfolding(crate::specs::Lists::list_members))]
pub fn list_members(out: &mut Line, list: &CertificateRevocationList<'_>)
    ensures { SaysMembers out.old out.new (list_members (list_of list.now)) }
{
    say_head(out, list);
    say_updates(out, &list.tbs_cert_list);
    say_contents(out, &list.tbs_cert_list);
    say_tail(out, list);
}

/// The members of an entry's report, one after another.
#[tactic(auto, unfolding(crate::specs::Lists::entry_members))]
fn entry_members(out: &mut Line, entry: &RevokedCertificate<'_>)
    ensures { SaysMembers out.old out.new (entry_members (revoked_of entry.now)) }
{
    let reason = first_parsed(OID_X509_EXT_REASON_CODE, entry.extensions());
    let invalidity = first_parsed(OID_X509_EXT_INVALIDITY_DATE, entry.extensions());
    out.key("serial");
    say_serial(out, entry.serial(), entry.raw_serial());
    value_under(out, "revocation_date", &entry.revocation_date);
    reason_under(out, "reason", reason);
    invalidity_under(out, "invalidity_date", invalidity);
    extensions_under(out, "extensions", entry.extensions());
}

/// The fingerprint of the list, and the number of the entry in it.
fn say_number(out: &mut Line, fingerprint: &Option<[u8; 32]>, number: u64)
    ensures { SaysMembers out.old out.new (number_members fingerprint.now number) }
{
    match fingerprint {
        Some(fingerprint) => hex_under(out, "sha256", fingerprint),
        None => null_under(out, "sha256"),
    }
    count_under(out, "entry", number);
}

/// The report of an entry.
#[tactic(auto, unfolding(crate::specs::Lists::entry_report), using(crate::proofs::Members::members_end))]
fn say_entry(
    out: &mut Line,
    place: &Found<'_>,
    fingerprint: &Option<[u8; 32]>,
    number: u64,
    entry: &RevokedCertificate<'_>,
)
    ensures { Says out.old out.new (entry_report (found_of place.now) fingerprint.now number (revoked_of entry.now)) }
{
    out.begin_object();
    say_place(out, "entry", place);
    say_number(out, fingerprint, number);
    entry_members(out, entry);
    out.end_object();
}

/// Writes the line of an entry of a list that was found there: with the list's fingerprint, where these are wanted, and the number of the
/// entry in the list, from 0.
///
/// # Errors
///
/// `AllocError`.
#[tactic(auto, using(x509_report_lines::proofs::Written::said_whole))]
pub fn entry_line(
    out: &mut Line,
    place: &Found<'_>,
    fingerprint: &Option<[u8; 32]>,
    number: u64,
    entry: &RevokedCertificate<'_>,
) -> Result<(), AllocError>
    ensures { SaysWhole result out.old out.new (entry_report (found_of place.now) fingerprint.now number (revoked_of entry.now)) }
{
    say_entry(out, place, fingerprint, number, entry);
    out.finish()
}
