//! Timestamps that logs signed.

ghost use Rattle.std.specs.Prelude.{◌≡◌};
ghost use Rattle.x509_fields.specs.Fields.{lifted};
ghost use Rattle.x509_values.specs.Timestamp.{TimestampValue, timestamp_of};
ghost use Rattle.x509_values.specs.TimestampList.{timestamps};
ghost use Rattle.x509_c.specs.Tells.{Tells, Done};
ghost use Rattle.x509_c.specs.Timestamps.{IsTimestampRow, ShowsTimestamps};

use crate::row_writer::{HasRow, put_rows};
use crate::status::{OK, lifted, refused};
use std::alloc::Global;
use x509_der::FromDer;
use x509_values::{SignedCertificateTimestamp, TimestampList};

/// One timestamp: `rtv_timestamp` of rushtrivet.h.
#[repr(C)]
#[derive(Clone, Copy)]
pub struct TimestampRow<'a> {
    /// The log that signed: 32 octets.
    pub log_id: &'a [u8],
    /// The extensions of the protocol.
    pub extensions: &'a [u8],
    /// The signature.
    pub signature: &'a [u8],
    /// When it was signed, in milliseconds since 1970.
    pub timestamp: u64,
    /// The version of the protocol: 0 is the first.
    pub version: u32,
    /// The number of the hash's algorithm: 4 for SHA-256.
    pub hash_algorithm: u32,
    /// The number of the signature's algorithm: 1 for RSA, 3 for ECDSA.
    pub signature_algorithm: u32,
}

impl<'a> HasRow for SignedCertificateTimestamp<'a> {
    type Row = TimestampRow<'a>;

    ghost Value = { TimestampValue };

    ghost view = { timestamp_of };

    ghost Shows = { IsTimestampRow };

    fn row(&self) -> TimestampRow<'a> {
        let key_id = self.id.key_id;
        TimestampRow {
            log_id: key_id,
            extensions: self.extensions.0,
            signature: self.signature.bytes,
            timestamp: self.timestamp,
            version: u32::from(self.version.0),
            hash_algorithm: u32::from(self.signature.hash_alg_id),
            signature_algorithm: u32::from(self.signature.sign_alg_id),
        }
    }
}

/// The timestamps of an extension (RFC 6962, section 3.3). They are written in order, as many as there are rows, and all of them are
/// counted.
#[unsafe(no_mangle)]
pub extern "C" fn rtv_read_timestamps<'a>(
    alloc: Global,
    value: &'a [u8],
    rows: &mut [TimestampRow<'a>],
    count: &mut usize,
    at: &mut usize,
) -> u32
    ensures { Tells (lifted timestamps) value.now
        (λ read _. Done (ShowsTimestamps rows.new count.new read))
        ((rows.new ≡ rows.old) × (count.new ≡ count.old))
        at.old at.new result }
{
    match TimestampList::from_der_located(alloc, value) {
        Ok((_, read)) => {
            let read = read.timestamps.as_slice();
            put_rows(rows, read);
            *count = read.len();
            OK
        }
        Err(refusal) => refused(lifted(refusal), at),
    }
}
