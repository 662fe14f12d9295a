//! Serials looked up in a list of revoked certificates.

use hex::FromHexError;
use std::alloc::Global;
use x509_parser::der::UnsignedBytes;
use x509_parser::prelude::*;
use x509_revoked::RevocationIndex;

/// Adds a line for each of the serials, which are in hex with commas between them: since when the list has it and why, or that it
/// doesn't have it.
///
/// # Errors
///
/// The refusal of the list, and `OutOfMemory`.
pub fn look_up(
    alloc: Global,
    bytes: &[u8],
    serials: &str,
    lines: &mut String,
) -> Result<(), X509Error> {
    let (_, list) = parse_x509_crl(alloc, bytes)?;
    look_up_each(alloc, &list.tbs_cert_list, serials, lines)
}

/// Adds the lines of the serials. The index takes a few comparisons for each of them, however long the list is.
fn look_up_each(
    alloc: Global,
    list: &TbsCertList<'_>,
    serials: &str,
    lines: &mut String,
) -> Result<(), X509Error> {
    let index = RevocationIndex::build(list)?;
    for serial in serials.split(',') {
        let octets = match hex::decode(alloc, serial) {
            Ok(octets) => octets,
            Err(FromHexError::OutOfMemory) => return Err(X509Error::OutOfMemory),
            Err(_) => {
                writeln!(lines, "{serial}\tnot hex")?;
                continue;
            }
        };
        match index.find(&UnsignedBytes::new(&octets)) {
            Some(position) => {
                let entry = &list.revoked_certificates.as_slice()[position];
                push_entry(alloc, serial, entry, lines)?;
            }
            None => writeln!(lines, "{serial}\tnot revoked")?,
        }
    }
    Ok(())
}

/// Adds since when the certificate is revoked, and why.
fn push_entry(
    alloc: Global,
    serial: &str,
    entry: &RevokedCertificate<'_>,
    lines: &mut String,
) -> Result<(), X509Error> {
    let date = entry.revocation_date.to_rfc3339(alloc)?;
    let reason = entry
        .reason_code()
        .map_or("unspecified", |(_, reason)| reason.word());
    writeln!(lines, "{serial}\t{date}\t{reason}")?;
    Ok(())
}
