//! Times and validity.

use super::fixtures::{Ends, made, shows};
use crate::prelude::*;
use x509_der::Err;

/// The last second of 2049.
const END: i64 = 2_524_607_999;

/// Times, and their seconds since 1970.
const TIMES: [(&[u8], i64); 8] = [
    (b"\x17\x0D700101000000Z", 0),
    (b"\x17\x0D491231235959Z", END),
    (b"\x17\x0D500101000000Z", -631_152_000),
    (b"\x17\x11370116130016+0000", 2_115_723_616),
    (b"\x17\x11700101000000+0130", -5_400),
    (b"\x18\x0F99991231235959Z", 253_402_300_799),
    // without seconds; a leap day
    (b"\x17\x0B7001010000Z", 0),
    (b"\x17\x0D000229000000Z", 951_782_400),
];

/// The same, and their texts.
const TEXTS: [(&[u8], &str); 8] = [
    (b"\x17\x0D700101000000Z", "Jan  1 00:00:00 1970 +00:00"),
    (b"\x17\x0D491231235959Z", "Dec 31 23:59:59 2049 +00:00"),
    (b"\x17\x0D500101000000Z", "Jan  1 00:00:00 1950 +00:00"),
    (b"\x17\x11370116130016+0000", "Jan 16 13:00:16 2037 +00:00"),
    (b"\x17\x11700101000000+0130", "Jan  1 00:00:00 1970 +01:30"),
    (b"\x18\x0F99991231235959Z", "Dec 31 23:59:59 9999 +00:00"),
    (b"\x17\x0B7001010000Z", "Jan  1 00:00:00 1970 +00:00"),
    (b"\x17\x0D000229000000Z", "Feb 29 00:00:00 2000 +00:00"),
];

// The time that these bytes are.
fn time_of(rt: &impl Ends, bytes: &[u8]) -> ASN1Time {
    match ASN1Time::from_der(rt.alloc(), bytes) {
        Ok(([], time)) => time,
        Ok(_) => panic!(rt; "bytes behind the time"),
        Err(e) => panic!(rt; "refused: {e:?}"),
    }
}

#[test]
fn times(rt: HostRuntime) {
    for (bytes, seconds) in TIMES {
        assert!(rt; time_of(&rt, bytes).timestamp() == seconds);
    }
    for (bytes, text) in TEXTS {
        let time = time_of(&rt, bytes);
        assert!(rt; shows(&rt, &time, text), "at {text}");
    }
    let first = time_of(&rt, b"\x17\x0D700101000000Z");
    let message = made(&rt, first.to_rfc2822(rt.alloc()));
    assert!(rt; message.as_str() == "Thu, 1 Jan 1970 00:00:00 +0000");
}

const NO_TIMES: [&[u8]; 4] = [
    b"\x17\x0D700101000060Z",
    b"\x17\x0D010229000000Z",
    b"\x17\x11700101000000+2400",
    b"\x17\x11700101000000+0060",
];

#[test]
fn no_times(rt: HostRuntime) {
    for bytes in NO_TIMES {
        let read = ASN1Time::from_der(rt.alloc(), bytes);
        let refusal = Some(Err::Error(X509Error::InvalidDate));
        assert!(rt; read.err() == refusal, "at {bytes:?}");
    }
}

/// A clock that stands still.
#[derive(Clone, Copy)]
struct Stopped(i64);

impl Clock for Stopped {
    fn seconds(&mut self) -> i64 {
        self.0
    }
}

/// What a clock says, whether the validity from 1970 to 2049 has that moment, and the seconds that are left.
const MOMENTS: [(i64, bool, Option<i64>); 5] = [
    (0, true, Some(END)),
    (END - 1, true, Some(1)),
    (END, true, None),
    (-1, false, None),
    (253_402_300_800, false, None),
];

// The validity that these bytes are.
fn validity_of(rt: &impl Ends, bytes: &[u8]) -> Validity {
    match Validity::from_der(rt.alloc(), bytes) {
        Ok((_, validity)) => validity,
        Err(e) => panic!(rt; "refused: {e:?}"),
    }
}

#[test]
fn validity(rt: HostRuntime) {
    let bytes = b"\x30\x1E\x17\x0D700101000000Z\x17\x0D491231235959Z";
    let validity = validity_of(&rt, bytes);
    for (seconds, valid, left) in MOMENTS {
        let mut clock = Stopped(seconds);
        assert!(rt; validity.is_valid(&mut clock) == valid);
        let found = validity.time_to_expiration(&mut clock);
        assert!(rt; found.map(|left| left.as_secs()) == left);
    }
    // both ends, as a GeneralizedTime
    for bytes in [b"\x18\x0F19700101000000Z", b"\x18\x0F20491231235959Z"] {
        assert!(rt; validity.is_valid_at(time_of(&rt, bytes)));
    }
}
