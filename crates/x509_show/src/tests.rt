//! Runs over memory, and over readers and writers of std.

mod certificates;
mod large;
mod lists;
mod memory;
mod requests;
mod strict;

use self::memory::{MemorySink, MemorySource};
use crate::element_report::element_report;
use crate::parts::{Sink, Source};
use crate::runs::{cause, run};
use crate::stop::Stop;
use crate::streams::{ReaderSource, WriterSink};
use std::alloc::Global;
use std::process::Abort;

/// An X.509 certificate that is empty wherever it may be: 66 bytes.
const CERTIFICATE: &[u8] = b"\x30\x40\x30\x36\x02\x01\x01\x30\x03\x06\x01\x2A\x30\x00\
    \x30\x1E\x17\x0D700101000000Z\x17\x0D491231235959Z\x30\x00\x30\x08\x30\x03\x06\x01\x2A\x03\x01\x00\
    \x30\x03\x06\x01\x2A\x03\x01\x00";

const CERTIFICATE_LINE: &str = "universal constructed tag=16 length=64 rest=0\n";

const USAGE: &str = "usage: x509_show der|cert|crl|csr|cert-strict|crl-strict|csr-strict\n";

/// Runs a command over an input, of which a read gives so many octets at most and a write takes so many, and compares what is written and
/// the exit status; all of the input is read, and nothing fails.
fn expect_report(
    rt: &impl Abort,
    alloc: Global,
    command: &str,
    input: &[u8],
    steps: (usize, usize),
    status: u8,
    text: &str,
) {
    let (read, written) = steps;
    let mut from = MemorySource::new(input, 1000, read);
    let mut to = MemorySink::new(Vec::new(alloc), 1000, 1000, written);
    let answered = run(alloc, command, &mut from, &mut to);
    assert_eq!(rt; to.bytes(), text.as_bytes());
    assert_eq!(rt; answered, status);
    assert!(rt; from.rest().is_empty());
    assert!(rt; !from.failed() && !to.failed());
}

#[test]
fn inputs(rt: HostRuntime) {
    let rows: [(&[u8], u8, &str); 14] = [
        (CERTIFICATE, 0, CERTIFICATE_LINE),
        (
            b"\xA0\x03\x02\x01\x02\xFF",
            0,
            "context constructed tag=0 length=3 rest=1\n",
        ),
        (
            b"\x41\x00",
            0,
            "application primitive tag=1 length=0 rest=0\n",
        ),
        (b"\xC1\x00", 0, "private primitive tag=1 length=0 rest=0\n"),
        (
            b"\x1F\x8F\xFF\xFF\xFF\x7F\x00",
            0,
            "universal primitive tag=4294967295 length=0 rest=0\n",
        ),
        (b"", 1, "refused: incomplete\n"),
        (b"\x80", 1, "refused: incomplete\n"),
        (b"\x30\x84\xFF\xFF\xFF\xFF", 1, "refused: incomplete\n"),
        (b"\x30\x82\x00", 1, "refused: incomplete\n"),
        (b"\x30\x80\x00\x00", 1, "refused: invalid length\n"),
        (b"\x30\x81\x01\x00", 1, "refused: invalid length\n"),
        (
            b"\x30\x85\x01\x00\x00\x00\x00",
            1,
            "refused: invalid length\n",
        ),
        (b"\x1F\x1E\x00", 1, "refused: invalid tag\n"),
        (b"\x1F\x90\x80\x80\x80\x00\x00", 1, "refused: invalid tag\n"),
    ];
    for step in [1, 7, 4096] {
        for (input, status, text) in rows {
            expect_report(&rt, rt.alloc(), "der", input, (step, step), status, text);
        }
    }
}

#[test]
fn other_words(rt: HostRuntime) {
    for command in [
        "",
        "crls",
        "cs",
        "pem",
        "der x",
        "der-strict",
        "cert-",
        "strict",
    ] {
        let mut from = MemorySource::new(CERTIFICATE, 0, 1);
        let mut to = MemorySink::new(Vec::new(rt.alloc()), 1000, 1000, 5);
        assert!(rt; run(rt.alloc(), command, &mut from, &mut to) == 2);
        assert!(rt; to.bytes() == USAGE.as_bytes());
        assert!(rt; from.rest() == CERTIFICATE);
        assert!(rt; !from.failed() && !to.failed());
    }
}

#[test]
fn second_read_fails(rt: HostRuntime) {
    let mut from = MemorySource::new(CERTIFICATE, 1, 4);
    let mut to = MemorySink::new(Vec::new(rt.alloc()), 1000, 1000, 1000);
    assert!(rt; run(rt.alloc(), "der", &mut from, &mut to) == 3);
    assert!(rt; to.bytes().is_empty());
    assert!(rt; from.failed() && !to.failed());
    assert!(rt; cause(&from, &to).why() == "standard input can't be read");
}

#[test]
fn writer_stops(rt: HostRuntime) {
    // room, calls and step of the writer, and what it has taken when it stops
    let rows = [
        (10, 1000, 1000, "universal "),
        (10, 1000, 4, "universal "),
        (1000, 0, 4, ""),
        (1000, 2, 4, "universa"),
        (
            45,
            1000,
            1000,
            "universal constructed tag=16 length=64 rest=0",
        ),
    ];
    for (room, calls, step, taken) in rows {
        let mut from = MemorySource::new(CERTIFICATE, 1000, 1000);
        let mut to = MemorySink::new(Vec::new(rt.alloc()), room, calls, step);
        assert!(rt; run(rt.alloc(), "der", &mut from, &mut to) == 3);
        assert!(rt; to.bytes() == taken.as_bytes());
        assert!(rt; to.failed() && !from.failed());
        assert!(rt; cause(&from, &to).why() == "standard output can't be written");
    }
}

#[test]
fn usage_cut_short(rt: HostRuntime) {
    let mut from = MemorySource::new(CERTIFICATE, 0, 1);
    let mut to = MemorySink::new(Vec::new(rt.alloc()), 6, 1000, 1000);
    assert!(rt; run(rt.alloc(), "pem", &mut from, &mut to) == 3);
    assert!(rt; to.bytes() == b"usage:".as_slice());
    assert!(rt; to.failed() && !from.failed());
}

#[test]
fn streams_of_std(rt: HostRuntime) {
    let mut bytes = Vec::new(rt.alloc());
    let mut from = ReaderSource::new(CERTIFICATE);
    let mut to = WriterSink::new(&mut bytes);
    assert!(rt; run(rt.alloc(), "der", &mut from, &mut to) == 0);
    assert!(rt; !from.failed() && !to.failed());
    assert!(rt; bytes.as_slice() == CERTIFICATE_LINE.as_bytes());
}

#[test]
fn reports(rt: HostRuntime) {
    let report = element_report(rt.alloc(), CERTIFICATE).expect(&rt, "memory");
    assert!(rt; report.text() == CERTIFICATE_LINE);
    assert!(rt; report.status() == 0);
}

#[test]
fn why_of_want_of_memory(rt: HostRuntime) {
    let from = MemorySource::new(CERTIFICATE, 0, 1);
    let to = MemorySink::new(Vec::new(rt.alloc()), 0, 0, 1);
    assert!(rt; cause(&from, &to).why() == "out of memory");
    assert!(rt; Stop::Memory.why() == "out of memory");
}
