//! Certificates, shown.

use super::{CERTIFICATE, expect_report};

pub const LINES: &str = "version: V1\nserial: 01\nsignature: 1.2\nissuer: \n\
    not before: Jan  1 00:00:00 1970 +00:00\nnot after: Dec 31 23:59:59 2049 +00:00\nsubject: \nkey: 1.2\n\
    tbs: 56\nrest: 0\n";

const LINES_BEFORE_TWO: &str = "version: V1\nserial: 01\nsignature: 1.2\nissuer: \n\
    not before: Jan  1 00:00:00 1970 +00:00\nnot after: Dec 31 23:59:59 2049 +00:00\nsubject: \nkey: 1.2\n\
    tbs: 56\nrest: 2\n";

const LINES_WITH_KEY_IDENTIFIER: &str = "version: V3\nserial: 01\nsignature: 1.2\nissuer: \n\
    not before: Jan  1 00:00:00 1970 +00:00\nnot after: Dec 31 23:59:59 2049 +00:00\nsubject: \nkey: 1.2\n\
    extension: 2.5.29.14 normal 22\ntbs: 96\nrest: 0\n";

const LINES_WITH_TWO: &str = "version: V3\nserial: 00:fe\nsignature: 1.2\nissuer: CN=a\n\
    not before: Jan  1 00:00:00 1970 +00:00\nnot after: Dec 31 23:59:59 2049 +00:00\nsubject: C=b\nkey: 1.3\n\
    extension: 2.5.29.14 critical 0\nextension: 2.5.29.15 normal 1\ntbs: 113\nrest: 0\n";

#[test]
fn certificates(rt: HostRuntime) {
    let rows: [(&[u8], u8, &str); 7] = [
        (CERTIFICATE, 0, LINES),
        // two bytes behind it
        (
            b"\x30\x40\x30\x36\x02\x01\x01\x30\x03\x06\x01\x2A\x30\x00\
            \x30\x1E\x17\x0D700101000000Z\x17\x0D491231235959Z\x30\x00\x30\x08\x30\x03\x06\x01\x2A\x03\x01\x00\
            \x30\x03\x06\x01\x2A\x03\x01\x00\x05\x00",
            0,
            LINES_BEFORE_TWO,
        ),
        // a key identifier
        (
            b"\x30\x68\x30\x5E\xA0\x03\x02\x01\x02\x02\x01\x01\x30\x03\x06\x01\x2A\x30\x00\
            \x30\x1E\x17\x0D700101000000Z\x17\x0D491231235959Z\x30\x00\x30\x08\x30\x03\x06\x01\x2A\x03\x01\x00\
            \xA3\x21\x30\x1F\x30\x1D\x06\x03\x55\x1D\x0E\x04\x16\x04\x14\
            \xA3\x05\x2F\x18\x60\x50\xC2\x89\x0A\xDD\x2B\x21\x4F\xFF\x8E\x4E\xA8\x30\x31\x36\
            \x30\x03\x06\x01\x2A\x03\x01\x00",
            0,
            LINES_WITH_KEY_IDENTIFIER,
        ),
        // the length of the wrapper of extensions says nothing
        (
            b"\x30\x68\x30\x5E\xA0\x03\x02\x01\x02\x02\x01\x01\x30\x03\x06\x01\x2A\x30\x00\
            \x30\x1E\x17\x0D700101000000Z\x17\x0D491231235959Z\x30\x00\x30\x08\x30\x03\x06\x01\x2A\x03\x01\x00\
            \xA3\x00\x30\x1F\x30\x1D\x06\x03\x55\x1D\x0E\x04\x16\x04\x14\
            \xA3\x05\x2F\x18\x60\x50\xC2\x89\x0A\xDD\x2B\x21\x4F\xFF\x8E\x4E\xA8\x30\x31\x36\
            \x30\x03\x06\x01\x2A\x03\x01\x00",
            0,
            LINES_WITH_KEY_IDENTIFIER,
        ),
        // names, the algorithm 1.2.3 in the signed part, the key's 1.3, and two extensions, the first of them critical
        (
            b"\x30\x79\x30\x6F\xA0\x03\x02\x01\x02\x02\x02\x00\xFE\x30\x04\x06\x02\x2A\x03\
            \x30\x0C\x31\x0A\x30\x08\x06\x03\x55\x04\x03\x0C\x01a\
            \x30\x1E\x17\x0D700101000000Z\x17\x0D491231235959Z\
            \x30\x0C\x31\x0A\x30\x08\x06\x03\x55\x04\x06\x13\x01b\x30\x08\x30\x03\x06\x01\x2B\x03\x01\x00\
            \xA3\x18\x30\x16\x30\x0A\x06\x03\x55\x1D\x0E\x01\x01\xFF\x04\x00\x30\x08\x06\x03\x55\x1D\x0F\x04\x01\xFF\
            \x30\x03\x06\x01\x2A\x03\x01\x00",
            0,
            LINES_WITH_TWO,
        ),
        // the key info has more length octets than it needs
        (
            b"\x30\x41\x30\x37\x02\x01\x01\x30\x03\x06\x01\x2A\x30\x00\
            \x30\x1E\x17\x0D700101000000Z\x17\x0D491231235959Z\x30\x00\x30\x81\x08\x30\x03\x06\x01\x2A\x03\x01\x00\
            \x30\x03\x06\x01\x2A\x03\x01\x00",
            1,
            "refused: invalid length\n",
        ),
        // the version is negative
        (
            b"\x30\x45\x30\x3B\xA0\x03\x02\x01\xFF\x02\x01\x01\x30\x03\x06\x01\x2A\x30\x00\
            \x30\x1E\x17\x0D700101000000Z\x17\x0D491231235959Z\x30\x00\x30\x08\x30\x03\x06\x01\x2A\x03\x01\x00\
            \x30\x03\x06\x01\x2A\x03\x01\x00",
            1,
            "refused: invalid version\n",
        ),
    ];
    for (input, status, text) in rows {
        expect_report(&rt, rt.alloc(), "cert", input, (50, 100), status, text);
    }
}

#[test]
fn every_cut(rt: HostRuntime) {
    for n in 0..CERTIFICATE.len() {
        let steps = (1000, 1000);
        expect_report(
            &rt,
            rt.alloc(),
            "cert",
            &CERTIFICATE[..n],
            steps,
            1,
            "refused: incomplete\n",
        );
    }
}
