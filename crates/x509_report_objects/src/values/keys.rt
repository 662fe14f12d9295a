//! What reports say of public keys.

ghost use Rattle.x509_keys.specs.KeyInfo.{key_info_of};
ghost use Rattle.x509_keys.specs.KeySizes.{algorithm_in, curve_in, size_in};
ghost use Rattle.x509_keys.specs.PublicKey.{key_in};
ghost use Rattle.x509_report_lines.specs.Says.{Says, SaysMembers, SaysUnder};
ghost use Rattle.x509_report_objects.specs.Algorithms.{algorithm_report};
ghost use Rattle.x509_report_objects.specs.Keys.{curve_report, kind_report, size_report, key_kind_members, key_size_members, key_numbers, key_report};

use crate::values::said::value_under;
use crate::values::under::{
    fingerprint_under, hex_under, null_under, optional_size_under, text_under,
};
use x509_keys::{PublicKey, SubjectPublicKeyInfo};
use x509_report_lines::Line;

/// The curve of a key, where it is known, under a key.
#[tactic(auto, unfolding(crate::specs::Keys::curve_report))]
fn curve_under(out: &mut Line, key: &str, info: &SubjectPublicKeyInfo<'_>)
    ensures { SaysUnder out.old out.new key.now (curve_report (curve_in (key_info_of info.now))) }
{
    match info.named_curve() {
        Some(curve) => text_under(out, key, curve.word()),
        None => null_under(out, key),
    }
}

/// What the key is for, under a key.
#[tactic(auto, unfolding(crate::specs::Keys::kind_report))]
fn kind_under(out: &mut Line, key: &str, info: &SubjectPublicKeyInfo<'_>)
    ensures { SaysUnder out.old out.new key.now (kind_report (algorithm_in (key_info_of info.now))) }
{
    text_under(out, key, info.key_algorithm().word());
}

/// Its size, under a key.
#[tactic(auto, unfolding(crate::specs::Keys::size_report))]
fn size_under(out: &mut Line, key: &str, info: &SubjectPublicKeyInfo<'_>)
    ensures { SaysUnder out.old out.new key.now (size_report (size_in (key_info_of info.now))) }
{
    optional_size_under(out, key, info.key_size());
}

/// The algorithm, under a key.
fn algorithm_under(out: &mut Line, key: &str, info: &SubjectPublicKeyInfo<'_>)
    ensures { SaysUnder out.old out.new key.now (algorithm_report (key_info_of info.now).algorithm) }
{
    value_under(out, key, &info.algorithm);
}

/// The algorithm, and what the key is for.
fn say_kind(out: &mut Line, info: &SubjectPublicKeyInfo<'_>)
    ensures { SaysMembers out.old out.new (key_kind_members (key_info_of info.now)) }
{
    algorithm_under(out, "algorithm", info);
    kind_under(out, "kind", info);
}

/// Its size and its curve.
fn say_size(out: &mut Line, info: &SubjectPublicKeyInfo<'_>)
    ensures { SaysMembers out.old out.new (key_size_members (key_info_of info.now)) }
{
    size_under(out, "size", info);
    curve_under(out, "curve", info);
}

/// The two numbers of an RSA key.
fn say_numbers(out: &mut Line, info: &SubjectPublicKeyInfo<'_>)
    ensures { SaysMembers out.old out.new (key_numbers (key_in (key_info_of info.now))) }
{
    match info.parsed() {
        Ok(PublicKey::RSA(key)) => {
            hex_under(out, "modulus", key.modulus);
            hex_under(out, "exponent", key.exponent);
        }
        _ => {
            null_under(out, "modulus");
            null_under(out, "exponent");
        }
    }
}

/// A key; with the fingerprint of its info where these are wanted.
#[tactic(auto, unfolding(crate::specs::Keys::key_report))]
pub fn say_key(out: &mut Line, fingerprints: bool, info: &SubjectPublicKeyInfo<'_>)
    ensures { Says out.old out.new (key_report fingerprints (key_info_of info.now)) }
{
    out.begin_object();
    say_kind(out, info);
    say_size(out, info);
    say_numbers(out, info);
    value_under(out, "bits", &info.subject_public_key);
    fingerprint_under(out, "sha256", fingerprints, info.raw);
    out.end_object();
}
