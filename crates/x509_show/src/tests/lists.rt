//! Lists of revoked certificates, shown.

use super::expect_report;

const NONE_REVOKED: &str =
    "version: none\nsignature: 1.2\nissuer: \nthis update: Jan  1 00:00:00 1970 +00:00\n\
    next update: none\ntbs: 24\nrest: 0\n";

pub const ONE_REVOKED: &str =
    "version: none\nsignature: 1.2\nissuer: \nthis update: Jan  1 00:00:00 1970 +00:00\n\
    next update: none\nrevoked: 2a Jan  1 00:00:00 1970 +00:00\ntbs: 46\nrest: 0\n";

const ALL_FIELDS: &str =
    "version: V2\nsignature: 1.2\nissuer: CN=ab\nthis update: Jan  1 00:00:00 1970 +00:00\n\
    next update: Dec 31 23:59:59 2049 +00:00\nextension: 2.5.29.20 normal 3\ntbs: 71\nrest: 2\n";

#[test]
fn lists(rt: HostRuntime) {
    let rows: [(&[u8], u8, &str); 6] = [
        (
            b"\x30\x20\x30\x16\x30\x03\x06\x01\x2A\x30\x00\x17\x0D700101000000Z\x30\x03\x06\x01\x2A\x03\x01\x00",
            0,
            NONE_REVOKED,
        ),
        (
            b"\x30\x36\x30\x2C\x30\x03\x06\x01\x2A\x30\x00\x17\x0D700101000000Z\
            \x30\x14\x30\x12\x02\x01\x2A\x17\x0D700101000000Z\x30\x03\x06\x01\x2A\x03\x01\x00",
            0,
            ONE_REVOKED,
        ),
        // every field but certificates, and two bytes behind the list
        (
            b"\x30\x4F\x30\x45\x02\x01\x01\x30\x03\x06\x01\x2A\x30\x0D\x31\x0B\x30\x09\x06\x03\x55\x04\x03\x0C\x02ab\
            \x17\x0D700101000000Z\x17\x0D491231235959Z\xA0\x0E\x30\x0C\x30\x0A\x06\x03\x55\x1D\x14\x04\x03\x02\x01\x05\
            \x30\x03\x06\x01\x2A\x03\x01\x00\x05\x00",
            0,
            ALL_FIELDS,
        ),
        // a certificate that can't be read
        (
            b"\x30\x24\x30\x1A\x30\x03\x06\x01\x2A\x30\x00\x17\x0D700101000000Z\x30\x02\x05\x00\x30\x03\x06\x01\x2A\x03\x01\x00",
            1,
            "refused: invalid extensions\n",
        ),
        // the list of none, cut short
        (
            b"\x30\x20\x30\x16\x30\x03\x06\x01\x2A\x30\x00\x17\x0D700101000000Z\x30\x03\x06\x01\x2A\x03\x01",
            1,
            "refused: incomplete\n",
        ),
        (b"", 1, "refused: incomplete\n"),
    ];
    for (input, status, text) in rows {
        expect_report(&rt, rt.alloc(), "crl", input, (50, 100), status, text);
    }
}
