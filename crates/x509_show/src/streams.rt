//! Any reader as a source, and any writer as a sink.

ghost use Rattle.std.specs.Prelude.{◌≡◌, false};

use crate::parts::{Sink, Source};
use std::io;
use std::io::{Read, Write};

/// A reader, and whether a read of it has failed.
#[derive(Drop)]
pub struct ReaderSource<R> {
    inner: R,
    failed: bool,
}

impl<R: Read> ReaderSource<R> {
    /// This reader, of which no read has failed.
    pub fn new(inner: R) -> ReaderSource<R>
        ensures inner { result.inner ≡ inner }
        ensures well { result.failed ≡ false }
    {
        ReaderSource {
            inner,
            failed: false,
        }
    }
}

impl<R: Read> Source for ReaderSource<R> {
    ghost remaining = { λ s. R.remaining s.inner };

    ghost has_failed = { λ s. s.failed };

    fn read(&mut self, buf: &mut [u8]) -> io::Result<usize> {
        let result = self.inner.read(buf);
        match &result {
            Ok(_) => {}
            Err(_) => self.failed = true,
        }
        result
    }

    fn failed(&self) -> bool {
        self.failed
    }
}

/// A writer, and whether a write to it has failed or taken no byte.
#[derive(Drop)]
pub struct WriterSink<W> {
    inner: W,
    stuck: bool,
}

impl<W: Write> WriterSink<W> {
    /// This writer, to which no write has failed.
    pub fn new(inner: W) -> WriterSink<W>
        ensures inner { result.inner ≡ inner }
        ensures well { result.stuck ≡ false }
    {
        WriterSink {
            inner,
            stuck: false,
        }
    }
}

impl<W: Write> Sink for WriterSink<W> {
    ghost written = { λ s. W.contents s.inner };

    ghost has_failed = { λ s. s.stuck };

    fn write(&mut self, buf: &[u8]) -> io::Result<usize> {
        let result = self.inner.write(buf);
        match &result {
            Ok(n) if *n > 0 => {}
            _ => self.stuck = true,
        }
        result
    }

    fn failed(&self) -> bool {
        self.stuck
    }
}
