//! What programs ask of a certificate.

ghost use Rattle.std.specs.Int.{w64};
ghost use Rattle.std.specs.List.{filter_map};
ghost use Rattle.std.specs.Prelude.{◌≡◌, ◌⊎◌, FitsSigned, IfErr, IfOk, SomeIff, Ok as Told, Err as Refused};
ghost use Rattle.x509_fields.specs.declared.error.X509Error.TheVariants.{OutOfMemory};
ghost use Rattle.x509_keys.specs.KeyInfo.{key_info_of};
ghost use Rattle.x509_keys.specs.PublicKey.{key_in};
ghost use Rattle.x509_certs.specs.Expiration.{floor_days};
ghost use Rattle.x509_uses.specs.Certificates.{days_between, host_of, hosts_of, is_strong, seconds_left};

use std::alloc::{AllocError, Global};
use x509_parser::certificate::X509Certificate;
use x509_parser::error::X509Error;
use x509_parser::extensions::GeneralName;
use x509_parser::public_key::PublicKey;

/// The host that a general name is, where it is one.
fn host<'a>(name: &GeneralName<'a>) -> Option<&'a str>
    ensures { result ≡ host_of name.now }
{
    match name {
        GeneralName::DNSName(host) => Some(*host),
        _ => None,
    }
}

/// The hosts among names, in order.
fn hosts_among<'a>(alloc: Global, names: &[GeneralName<'a>]) -> Result<Vec<&'a str>, AllocError>
    ensures { IfOk result (λ hosts. hosts.items ≡ filter_map host_of names.now) }
{
    names.iter().filter_map(host).collect(alloc)
}

/// The host names that the certificate is for, in order (RFC 5280, section 4.2.1.6).
pub fn hosts<'a>(
    alloc: Global,
    certificate: &X509Certificate<'a>,
) -> Result<Vec<&'a str>, X509Error>
    ensures found { IfOk result (λ hosts. hosts_of certificate.now ≡ Told hosts.items) }
    ensures refused { IfErr result (λ e. (e ≡ OutOfMemory) ⊎ (hosts_of certificate.now ≡ Refused e)) }
{
    match certificate.subject_alternative_name()? {
        Some(names) => Ok(hosts_among(alloc, names.value.general_names.as_slice())?),
        None => Ok(Vec::new(alloc)),
    }
}

/// Whole days from a time, in seconds since 1970, to the end of the certificate, rounded down: below zero where it has ended.
pub fn days_left(certificate: &X509Certificate<'_>, now: i64) -> Option<i64>
    ensures { SomeIff result (FitsSigned w64 (seconds_left certificate.now.tbs_certificate.validity now))
        (floor_days (seconds_left certificate.now.tbs_certificate.validity now)) }
{
    let end = certificate.validity().not_after.timestamp();
    Some(end.checked_sub(now)?.div_euclid(86_400))
}

/// Whole days between the two ends of its validity; none where the last one doesn't come later.
pub fn days_valid(certificate: &X509Certificate<'_>) -> Option<i64>
    ensures { result ≡ days_between certificate.now.tbs_certificate.validity }
{
    let validity = certificate.validity();
    let length = (validity.not_after - validity.not_before)?;
    Some(length.as_secs() / 86_400)
}

/// Whether its key is an RSA key of at least 2,048 bits or a point of at least 256.
pub fn has_strong_key(certificate: &X509Certificate<'_>) -> bool
    ensures { result ≡ is_strong (key_in (key_info_of certificate.now.tbs_certificate.subject_pki)) }
{
    match certificate.public_key().parsed() {
        Ok(PublicKey::RSA(key)) => key.key_size() >= 2048,
        Ok(PublicKey::EC(point)) => point.key_size() >= 256,
        _ => false,
    }
}
