//! A source and a sink over memory, which fail at a chosen call.

ghost use Rattle.std.specs.Prelude.{Some, ◌<◌};

use crate::parts::{Sink, Source};
use std::io;
use std::io::ErrorKind;

/// Gives the bytes of a slice, `step` of them a call at most. Every call behind the first `calls` fails.
#[derive(Debug, Drop)]
pub struct MemorySource<'a> {
    rest: &'a [u8],
    calls: u32,
    step: usize,
    failed: bool,
    ghost steps: { 0 < step },
}

impl<'a> MemorySource<'a> {
    pub fn new(bytes: &'a [u8], calls: u32, step: usize) -> MemorySource<'a> {
        MemorySource {
            rest: bytes,
            calls,
            step: step.max(1),
            failed: false,
        }
    }

    pub fn rest(&self) -> &'a [u8] {
        self.rest
    }
}

impl Source for MemorySource<'_> {
    ghost remaining = { λ s. Some s.rest.now };

    ghost has_failed = { λ s. s.failed };

    fn read(&mut self, buf: &mut [u8]) -> io::Result<usize> {
        if self.calls == 0 {
            self.failed = true;
            return Err(io::Error::from(ErrorKind::Other));
        }
        self.calls -= 1;
        let n = self.rest.len().min(buf.len()).min(self.step);
        let (front, rest) = self.rest.split_at(n);
        buf[..n].copy_from_slice(front);
        self.rest = rest;
        Ok(n)
    }

    fn failed(&self) -> bool {
        self.failed
    }
}

/// Takes `step` bytes a call at most. Every call behind the first `calls` takes none, and one behind the first `room`
/// bytes fails.
#[derive(Debug, Drop)]
pub struct MemorySink {
    bytes: Vec<u8>,
    room: usize,
    calls: u32,
    step: usize,
    failed: bool,
}

impl MemorySink {
    pub fn new(bytes: Vec<u8>, room: usize, calls: u32, step: usize) -> MemorySink {
        MemorySink {
            bytes,
            room,
            calls,
            step: step.max(1),
            failed: false,
        }
    }

    pub fn bytes(&self) -> &[u8] {
        &self.bytes
    }
}

impl Sink for MemorySink {
    ghost written = { λ s. Some s.bytes.items };

    ghost has_failed = { λ s. s.failed };

    fn write(&mut self, buf: &[u8]) -> io::Result<usize> {
        if self.calls == 0 {
            self.failed = true;
            return Ok(0);
        }
        self.calls -= 1;
        let n = buf.len().min(self.room).min(self.step);
        if n == 0 || self.bytes.extend_from_slice(&buf[..n]).is_err() {
            self.failed = true;
            return Err(io::Error::from(ErrorKind::Other));
        }
        self.room -= n;
        Ok(n)
    }

    fn failed(&self) -> bool {
        self.failed
    }
}
