//! Inputs of many reads.

use super::certificates::LINES;
use super::{CERTIFICATE, expect_report};
use std::alloc::{AllocError, Global};

/// This beginning, that many bytes, and two more.
fn filled(alloc: Global, front: &[u8], length: usize) -> Result<&'static [u8], AllocError> {
    let mut bytes = Vec::new(alloc);
    bytes.extend_from_slice(front)?;
    let contents = vec![in alloc; 0xaa_u8; length]?;
    bytes.extend_from_slice(contents.as_slice())?;
    bytes.extend_from_slice(b"\x05\x00")?;
    Ok(bytes.leak())
}

/// The header of an OCTET STRING, how many bytes stand behind it but for the last two, and what is written.
const LONG: [(&[u8], usize, u8, &str); 5] = [
    (
        b"\x04\x82\xFF\xFF",
        65_533,
        0,
        "universal primitive tag=4 length=65535 rest=0\n",
    ),
    (
        b"\x04\x83\x01\x11\x70",
        70_000,
        0,
        "universal primitive tag=4 length=70000 rest=2\n",
    ),
    (
        b"\x04\x83\x10\xC8\xE0",
        1_100_000,
        0,
        "universal primitive tag=4 length=1100000 rest=2\n",
    ),
    (
        b"\x04\x00",
        1_100_000,
        0,
        "universal primitive tag=4 length=0 rest=1100002\n",
    ),
    // one byte too few
    (
        b"\x04\x83\x10\xC8\xE3",
        1_100_000,
        1,
        "refused: incomplete\n",
    ),
];

#[test]
fn long_elements(rt: HostRuntime) {
    for (front, length, status, text) in LONG {
        let input = filled(rt.alloc(), front, length).expect(&rt, "memory");
        let steps = (4096, 1000);
        expect_report(&rt, rt.alloc(), "der", input, steps, status, text);
    }
}

#[test]
fn long_signature(rt: HostRuntime) {
    // 56 bytes that are signed, 5 of the algorithm, and a signature of 70,000 bytes
    let mut front = [0; 72];
    front[..5].copy_from_slice(b"\x30\x83\x01\x11\xB3");
    front[5..66].copy_from_slice(&CERTIFICATE[2..63]);
    front[66..].copy_from_slice(b"\x03\x83\x01\x11\x71\x00");
    let input = filled(rt.alloc(), &front, 69_998).expect(&rt, "memory");
    let steps = (4096, 1000);
    expect_report(&rt, rt.alloc(), "cert", input, steps, 0, LINES);
}
