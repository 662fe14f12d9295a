//! The timestamps of transparency logs that are embedded in a certificate (RFC 6962, section 3.3).

use std::alloc::Global;
use x509_parser::der::Oid;
use x509_parser::prelude::*;

/// Adds a line for each timestamp: the log in hex, the time with its milliseconds, and the version.
///
/// # Errors
///
/// The refusal of the certificate, `DuplicateExtensions` where it has two extensions for timestamps, `InvalidExtensions` where the
/// timestamps can't be read, `InvalidDate` where one is of a year behind 9999, and `OutOfMemory`.
pub fn list_timestamps(alloc: Global, bytes: &[u8], lines: &mut String) -> Result<(), X509Error> {
    let (_, certificate) = parse_x509_certificate(alloc, bytes)?;
    push_timestamps(alloc, &certificate.tbs_certificate, lines)
}

/// Adds the lines of the timestamps.
fn push_timestamps(
    alloc: Global,
    signed: &TbsCertificate<'_>,
    lines: &mut String,
) -> Result<(), X509Error> {
    let Some(extension) = signed.get_extension_unique(&Oid::new(OID_CT_LIST_SCT))? else {
        return Ok(());
    };
    let ParsedExtension::SCT(timestamps) = extension.parsed_extension() else {
        return Err(X509Error::InvalidExtensions);
    };
    for timestamp in timestamps.iter() {
        push_timestamp(alloc, timestamp, lines)?;
    }
    Ok(())
}

/// Adds the line of a timestamp.
fn push_timestamp(
    alloc: Global,
    timestamp: &SignedCertificateTimestamp<'_>,
    lines: &mut String,
) -> Result<(), X509Error> {
    let log = hex::encode(alloc, timestamp.id.key_id.as_slice())?;
    let time = to_rfc3339_millis(alloc, timestamp.timestamp)?;
    // 0 stands for version 1
    let version = u16::from(timestamp.version.0) + 1;
    writeln!(lines, "{log}\t{time}\tv{version}")?;
    Ok(())
}

/// The time so many milliseconds behind the start of 1970, as `2016-11-17T01:56:25.396Z`.
fn to_rfc3339_millis(alloc: Global, millis: u64) -> Result<String, X509Error> {
    let second = ASN1Time::from_timestamp((millis / 1000) as i64)?.to_rfc3339(alloc)?;
    let second = second.as_str().trim_end_matches('Z');
    let fraction = millis % 1000;
    Ok(format!(in alloc; "{second}.{fraction:03}Z")?)
}
