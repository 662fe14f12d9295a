//! Certification requests, shown.

use super::expect_report;

const NO_ATTRIBUTES: &str = "version: V1\nsubject: \nkey: 1.2\nsignature: 1.2\ntbs: 19\nrest: 0\n";

const PASSWORD: &str = "version: V1\nsubject: \nkey: 1.2\nsignature: 1.2\n\
    attribute: 1.2.840.113549.1.9.7 5\ntbs: 37\nrest: 0\n";

#[test]
fn requests(rt: HostRuntime) {
    let rows: [(&[u8], u8, &str); 6] = [
        (
            b"\x30\x1B\x30\x11\x02\x01\x00\x30\x00\x30\x08\x30\x03\x06\x01\x2A\x03\x01\x00\xA0\x00\x30\x03\x06\x01\x2A\x03\x01\x00",
            0,
            NO_ATTRIBUTES,
        ),
        (
            b"\x30\x2D\x30\x23\x02\x01\x00\x30\x00\x30\x08\x30\x03\x06\x01\x2A\x03\x01\x00\
            \xA0\x12\x30\x10\x06\x09\x2A\x86\x48\x86\xF7\x0D\x01\x09\x07\x31\x03\x0C\x01a\x30\x03\x06\x01\x2A\x03\x01\x00",
            0,
            PASSWORD,
        ),
        // the wrapper's length isn't looked at
        (
            b"\x30\x2D\x30\x23\x02\x01\x00\x30\x00\x30\x08\x30\x03\x06\x01\x2A\x03\x01\x00\
            \xA0\x00\x30\x10\x06\x09\x2A\x86\x48\x86\xF7\x0D\x01\x09\x07\x31\x03\x0C\x01a\x30\x03\x06\x01\x2A\x03\x01\x00",
            0,
            PASSWORD,
        ),
        // no attributes' wrapper
        (
            b"\x30\x19\x30\x0F\x02\x01\x00\x30\x00\x30\x08\x30\x03\x06\x01\x2A\x03\x01\x00\x30\x03\x06\x01\x2A\x03\x01\x00",
            1,
            "refused: invalid attributes\n",
        ),
        // the request of none, cut short
        (
            b"\x30\x1B\x30\x11\x02\x01\x00\x30\x00\x30\x08\x30\x03\x06\x01\x2A\x03\x01\x00\xA0\x00\x30\x03\x06\x01\x2A\x03\x01",
            1,
            "refused: incomplete\n",
        ),
        (b"", 1, "refused: incomplete\n"),
    ];
    for (input, status, text) in rows {
        expect_report(&rt, rt.alloc(), "csr", input, (50, 100), status, text);
    }
}
