//! An inventory of certificates: a line each, with tabs between its columns.

use crate::texts::Shown;
use std::alloc::{AllocError, Global};
use std::fmt::Display;
use x509_parser::prelude::*;
use x509_parser::signature_algorithm::signature_hash;

/// Adds a line for each of the certificates that stand one behind another: its subject, its hosts, the kind and the bits of its key, the
/// hash that is signed, and when it ends, with the whole days that are left at this time.
///
/// # Errors
///
/// The refusal of the first certificate that can't be read, behind the lines of those before it.
pub fn take_inventory(
    alloc: Global,
    bytes: &[u8],
    now: &ASN1Time,
    lines: &mut String,
) -> Result<(), X509Error> {
    let mut rest = bytes;
    // each certificate takes a byte or more
    for _ in 0..bytes.len() {
        if rest.is_empty() {
            break;
        }
        rest = push_first(alloc, rest, now, lines)?;
    }
    Ok(())
}

/// Adds the line of the certificate at the front, and gives what stands behind it.
fn push_first<'a>(
    alloc: Global,
    bytes: &'a [u8],
    now: &ASN1Time,
    lines: &mut String,
) -> Result<&'a [u8], X509Error> {
    let (rest, certificate) = parse_x509_certificate(alloc, bytes)?;
    push_line(alloc, &certificate, now, lines).map(|()| rest)
}

/// Adds the line of a certificate.
fn push_line(
    alloc: Global,
    certificate: &X509Certificate<'_>,
    now: &ASN1Time,
    lines: &mut String,
) -> Result<(), X509Error> {
    let subject = certificate.subject().to_text_lossy(alloc)?;
    let hosts = hosts_of(alloc, certificate)?;
    let key = certificate.public_key();
    let (kind, bits) = (key.key_algorithm().word(), key.key_size().unwrap_or(0));
    let hash = signature_hash(&certificate.signature_algorithm).map_or("none", |hash| hash.word());
    let end = certificate.validity().not_after.to_rfc3339(alloc)?;
    let days = certificate.validity().days_left(*now);
    write!(lines, "{}\t{hosts}\t{kind} {bits}", Shown(subject.as_str()))?;
    writeln!(lines, "\t{hash}\t{end}\t{days}")?;
    Ok(())
}

/// The names and addresses of hosts that the certificate is for, with commas between them; none where they can't be read.
fn hosts_of(alloc: Global, certificate: &X509Certificate<'_>) -> Result<String, X509Error> {
    let mut hosts = String::new(alloc);
    let Ok(Some(names)) = certificate.subject_alternative_name() else {
        return Ok(hosts);
    };
    for name in names.value.general_names.iter() {
        if let GeneralName::DNSName(host) = name {
            push_host(&mut hosts, Shown(host))?;
        } else if let Some(address) = name.ip() {
            push_host(&mut hosts, address)?;
        }
    }
    Ok(hosts)
}

/// Adds a host, behind a comma where it isn't the first.
fn push_host<D: Display + Drop>(hosts: &mut String, host: D) -> Result<(), AllocError> {
    if !hosts.is_empty() {
        hosts.push(',')?;
    }
    write!(hosts, "{host}")
}
