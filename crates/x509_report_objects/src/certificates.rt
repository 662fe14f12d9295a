//! What reports say of certificates.

ghost use Rattle.std.specs.Prelude.{length, map};
ghost use Rattle.std.specs.String.{string_bytes};
ghost use Rattle.json.specs.Json as json;
ghost use Rattle.x509_certs.specs.Certificate.{certificate_of};
ghost use Rattle.x509_certs.specs.TbsCertificate.{tbs_of};
ghost use Rattle.x509_certs.specs.UniqueIdentifier.{bits_of_uid};
ghost use Rattle.x509_report_lines.specs.Says.{Says, SaysEach, SaysMembers, SaysUnder, count, optional};
ghost use Rattle.x509_report_objects.specs.Algorithms.{bits_report};
ghost use Rattle.x509_der.specs.Promises.{option_view};
ghost use Rattle.x509_der.specs.Unsigned.{unsigned_bytes};
ghost use Rattle.x509_report_objects.specs.Certificates.{certificate_members, head_members, key_members, name_members, serial_report, tail_members};
ghost use Rattle.x509_report_objects.specs.Certificates.{texts_report, validator_report, version_report};
ghost use Rattle.x509_validators.specs.SignedPart.{signed_part_messages, is_signed_part_sound};

use crate::extensions::extensions_under;
use crate::objects::size_under;
use crate::summary::say_summary;
use crate::values::{
    count_under, hex_under, null_under, say_key, shown_under, truth_under, value_under,
};
use x509_certs::{TbsCertificate, UniqueIdentifier, X509Certificate};
use x509_der::UnsignedBytes;
use x509_fields::X509Version;
use x509_report_lines::Line;
use x509_validators::Validate;

/// A version under a key, as the standard counts.
pub(crate) fn version_under(out: &mut Line, key: &str, version: X509Version)
    ensures { SaysUnder out.old out.new key.now (version_report version.0) }
{
    count_under(out, key, u64::from(version.0) + 1);
}

/// A serial: the number, as it is written, and in decimal.
#[tactic(auto, unfolding(crate::specs::Certificates::serial_report))]
pub(crate) fn say_serial(out: &mut Line, number: &UnsignedBytes<'_>, raw: &[u8])
    ensures { Says out.old out.new (serial_report (unsigned_bytes number.now) raw.now) }
{
    out.begin_object();
    hex_under(out, "hex", number.as_bytes());
    hex_under(out, "raw", raw);
    shown_under(out, "decimal", number);
    out.end_object();
}

fn say_texts(out: &mut Line, texts: &[String])
    ensures { SaysEach out.old out.new (λ s. json.string s) (map string_bytes texts.now) }
{
    for text in texts {
        out.string(text);
    }
}

/// Texts under a key.
#[tactic(auto, using(x509_report_lines::proofs::Written::list_written))]
fn texts_under(out: &mut Line, key: &str, texts: &[String])
    ensures { SaysUnder out.old out.new key.now (texts_report (map string_bytes texts.now)) }
{
    out.key(key);
    out.begin_array();
    say_texts(out, texts);
    out.end_array();
}

/// What the validator of the structure answers and tells.
#[tactic(auto, unfolding(crate::specs::Certificates::validator_report))]
fn say_validator(out: &mut Line, certificate: &X509Certificate<'_>)
    ensures { Says out.old out.new (validator_report (is_signed_part_sound (certificate_of certificate.now).tbs)
        (signed_part_messages (certificate_of certificate.now).tbs)) }
{
    match certificate.validate_to_vec(out.alloc()) {
        Ok((accepts, warnings, errors)) => {
            out.begin_object();
            truth_under(out, "accepts", accepts);
            texts_under(out, "warnings", &warnings);
            texts_under(out, "errors", &errors);
            out.end_object();
        }
        Err(_) => out.stop(),
    }
}

fn say_head(out: &mut Line, certificate: &X509Certificate<'_>)
    ensures { SaysMembers out.old out.new (head_members (certificate_of certificate.now)) }
{
    let tbs = &certificate.tbs_certificate;
    version_under(out, "version", tbs.version);
    out.key("serial");
    say_serial(out, &tbs.serial, tbs.raw_serial());
    value_under(out, "signature_algorithm", &certificate.signature_algorithm);
    value_under(out, "tbs_signature_algorithm", &tbs.signature);
}

fn say_names(out: &mut Line, tbs: &TbsCertificate<'_>)
    ensures { SaysMembers out.old out.new (name_members (tbs_of tbs.now)) }
{
    value_under(out, "issuer", &tbs.issuer);
    value_under(out, "not_before", &tbs.validity.not_before);
    value_under(out, "not_after", &tbs.validity.not_after);
    value_under(out, "subject", &tbs.subject);
}

/// What tells names apart, where it stands, under a key.
fn unique_id_under(out: &mut Line, key: &str, id: &Option<UniqueIdentifier<'_>>)
    ensures { SaysUnder out.old out.new key.now (optional bits_report (option_view bits_of_uid id.now)) }
{
    match id {
        Some(UniqueIdentifier(bits)) => value_under(out, key, bits),
        None => null_under(out, key),
    }
}

fn say_key_and_extensions(out: &mut Line, fingerprints: bool, tbs: &TbsCertificate<'_>)
    ensures { SaysMembers out.old out.new (key_members fingerprints (tbs_of tbs.now)) }
{
    out.key("key");
    say_key(out, fingerprints, &tbs.subject_pki);
    unique_id_under(out, "issuer_unique_id", &tbs.issuer_uid);
    unique_id_under(out, "subject_unique_id", &tbs.subject_uid);
    extensions_under(out, "extensions", tbs.extensions());
}

/// How many octets were signed, under a key.
fn signed_size_under(out: &mut Line, key: &str, tbs: &TbsCertificate<'_>)
    ensures { SaysUnder out.old out.new key.now (count (length (tbs_of tbs.now).raw)) }
{
    size_under(out, key, tbs.as_ref());
}

/// What the validator of the structure answers and tells, under a key.
fn validator_under(out: &mut Line, key: &str, certificate: &X509Certificate<'_>)
    ensures { SaysUnder out.old out.new key.now (validator_report (is_signed_part_sound (certificate_of certificate.now).tbs)
        (signed_part_messages (certificate_of certificate.now).tbs)) }
{
    out.key(key);
    say_validator(out, certificate);
}

fn say_tail(out: &mut Line, certificate: &X509Certificate<'_>)
    ensures { SaysMembers out.old out.new (tail_members (certificate_of certificate.now)) }
{
    value_under(out, "signature", &certificate.signature_value);
    signed_size_under(out, "tbs_length", &certificate.tbs_certificate);
    validator_under(out, "validator", certificate);
}

/// The members of a certificate's report, one after another; with fingerprints where these are wanted.
#[tactic(auto, unfolding(crate::specs::Certificates::certificate_members))]
pub fn certificate_members(out: &mut Line, fingerprints: bool, certificate: &X509Certificate<'_>)
    ensures { SaysMembers out.old out.new (certificate_members fingerprints (certificate_of certificate.now)) }
{
    let tbs = &certificate.tbs_certificate;
    say_head(out, certificate);
    say_names(out, tbs);
    say_key_and_extensions(out, fingerprints, tbs);
    say_tail(out, certificate);
    say_summary(out, tbs.extensions());
}
