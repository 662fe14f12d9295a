//! How far a long run is.

ghost use Rattle.std.specs.Prelude.{◌≡◌};

use std::io;
use std::io::{IsTerminal, Write};
use std::time::Instant;

/// How many octets are written between two looks at the clock.
const STEP: u64 = 1 << 20;

/// A writer that tells on standard error how much it has written and how fast, once a second, where that is a terminal and standard output
/// is none.
#[derive(Drop)]
pub struct Progress<'a, W> {
    inner: W,
    rt: &'a HostRuntime,
    start: Option<Instant>,
    written: u64,
    looked: u64,
    seconds: u64,
}

impl<'a, W> Progress<'a, W> {
    /// A writer over this one that has written nothing.
    pub fn new(rt: &'a HostRuntime, inner: W) -> Progress<'a, W>
        ensures { result.inner ≡ inner }
    {
        let is_watched = rt.stderr().is_terminal() && !rt.stdout().is_terminal();
        let start = if is_watched {
            Instant::now(rt).ok()
        } else {
            None
        };
        Progress {
            inner,
            rt,
            start,
            written: 0,
            looked: 0,
            seconds: 0,
        }
    }

    /// Tells how far the run is, where a second has passed.
    fn tell(&mut self)
        ensures { self.new.inner ≡ self.old.inner }
    {
        let Some(start) = &self.start else {
            return;
        };
        let Ok(passed) = start.elapsed(self.rt) else {
            return;
        };
        let seconds = passed.as_secs();
        if seconds > self.seconds {
            self.seconds = seconds;
            let megabytes = self.written / 1_000_000;
            let rate = megabytes / seconds;
            let _ = eprint!(self.rt; "\rx509_report: {megabytes} MB written, {rate} MB/s");
        }
    }
}

impl<W: Write> Write for Progress<'_, W> {
    ghost contents = { λ p. W.contents p.inner };

    fn write(&mut self, buf: &[u8]) -> io::Result<usize> {
        let count = self.inner.write(buf)?;
        self.written = self.written.saturating_add(count as u64);
        if self.written.saturating_sub(self.looked) >= STEP {
            self.looked = self.written;
            self.tell();
        }
        Ok(count)
    }

    fn flush(&mut self) -> io::Result<()> {
        if self.seconds > 0 {
            self.seconds = 0;
            let _ = eprintln!(self.rt);
        }
        self.inner.flush()
    }
}
