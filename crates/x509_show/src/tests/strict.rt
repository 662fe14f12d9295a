//! What stands plainly, and nothing else, shown.

use super::certificates::LINES;
use super::{CERTIFICATE, expect_report};

const GENERIC: &str = "refused: generic error\n";

const PASSWORD: &str = "version: V1\nsubject: \nkey: 1.2\nsignature: 1.2\n\
    attribute: 1.2.840.113549.1.9.7 5\ntbs: 37\nrest: 0\n";

const REVOKED: &str =
    "version: none\nsignature: 1.2\nissuer: \nthis update: Jan  1 00:00:00 1970 +00:00\n\
    next update: none\nrevoked: 2a Jan  1 00:00:00 1970 +00:00\ntbs: 46\nrest: 0\n";

#[test]
fn plain_alone(rt: HostRuntime) {
    let rows: [(&str, &[u8], u8, &str); 11] = [
        ("cert-strict", CERTIFICATE, 0, LINES),
        // the length of the wrapper of extensions says nothing
        (
            "cert-strict",
            b"\x30\x68\x30\x5E\xA0\x03\x02\x01\x02\x02\x01\x01\x30\x03\x06\x01\x2A\x30\x00\
            \x30\x1E\x17\x0D700101000000Z\x17\x0D491231235959Z\x30\x00\x30\x08\x30\x03\x06\x01\x2A\x03\x01\x00\
            \xA3\x00\x30\x1F\x30\x1D\x06\x03\x55\x1D\x0E\x04\x16\x04\x14\
            \xA3\x05\x2F\x18\x60\x50\xC2\x89\x0A\xDD\x2B\x21\x4F\xFF\x8E\x4E\xA8\x30\x31\x36\
            \x30\x03\x06\x01\x2A\x03\x01\x00",
            1,
            GENERIC,
        ),
        // a byte stands behind the key identifier of a known extension
        (
            "cert-strict",
            b"\x30\x55\x30\x4B\xA0\x03\x02\x01\x02\x02\x01\x01\x30\x03\x06\x01\x2A\x30\x00\
            \x30\x1E\x17\x0D700101000000Z\x17\x0D491231235959Z\x30\x00\x30\x08\x30\x03\x06\x01\x2A\x03\x01\x00\
            \xA3\x0E\x30\x0C\x30\x0A\x06\x03\x55\x1D\x0E\x04\x03\x04\x00\x00\x30\x03\x06\x01\x2A\x03\x01\x00",
            1,
            GENERIC,
        ),
        // the version is negative
        (
            "cert-strict",
            b"\x30\x45\x30\x3B\xA0\x03\x02\x01\xFF\x02\x01\x01\x30\x03\x06\x01\x2A\x30\x00\
            \x30\x1E\x17\x0D700101000000Z\x17\x0D491231235959Z\x30\x00\x30\x08\x30\x03\x06\x01\x2A\x03\x01\x00\
            \x30\x03\x06\x01\x2A\x03\x01\x00",
            1,
            "refused: invalid version\n",
        ),
        ("cert-strict", b"", 1, "refused: incomplete\n"),
        (
            "csr-strict",
            b"\x30\x2D\x30\x23\x02\x01\x00\x30\x00\x30\x08\x30\x03\x06\x01\x2A\x03\x01\x00\
            \xA0\x12\x30\x10\x06\x09\x2A\x86\x48\x86\xF7\x0D\x01\x09\x07\x31\x03\x0C\x01a\x30\x03\x06\x01\x2A\x03\x01\x00",
            0,
            PASSWORD,
        ),
        // the wrapper's length is another
        (
            "csr-strict",
            b"\x30\x2D\x30\x23\x02\x01\x00\x30\x00\x30\x08\x30\x03\x06\x01\x2A\x03\x01\x00\
            \xA0\x00\x30\x10\x06\x09\x2A\x86\x48\x86\xF7\x0D\x01\x09\x07\x31\x03\x0C\x01a\x30\x03\x06\x01\x2A\x03\x01\x00",
            1,
            GENERIC,
        ),
        // no attributes' wrapper
        (
            "csr-strict",
            b"\x30\x19\x30\x0F\x02\x01\x00\x30\x00\x30\x08\x30\x03\x06\x01\x2A\x03\x01\x00\x30\x03\x06\x01\x2A\x03\x01\x00",
            1,
            "refused: invalid attributes\n",
        ),
        (
            "crl-strict",
            b"\x30\x36\x30\x2C\x30\x03\x06\x01\x2A\x30\x00\x17\x0D700101000000Z\
            \x30\x14\x30\x12\x02\x01\x2A\x17\x0D700101000000Z\x30\x03\x06\x01\x2A\x03\x01\x00",
            0,
            REVOKED,
        ),
        // the serial has an octet too many
        (
            "crl-strict",
            b"\x30\x37\x30\x2D\x30\x03\x06\x01\x2A\x30\x00\x17\x0D700101000000Z\
            \x30\x15\x30\x13\x02\x02\x00\x2A\x17\x0D700101000000Z\x30\x03\x06\x01\x2A\x03\x01\x00",
            1,
            GENERIC,
        ),
        // a certificate that can't be read
        (
            "crl-strict",
            b"\x30\x24\x30\x1A\x30\x03\x06\x01\x2A\x30\x00\x17\x0D700101000000Z\x30\x02\x05\x00\x30\x03\x06\x01\x2A\x03\x01\x00",
            1,
            "refused: invalid extensions\n",
        ),
    ];
    for (command, input, status, text) in rows {
        expect_report(&rt, rt.alloc(), command, input, (50, 100), status, text);
    }
}
