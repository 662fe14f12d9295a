//! Where the program reads from and writes to.

ghost use Rattle.std.specs.Prelude.{◌≡◌, ℕ, ◌<◌, List, length, Bool, Option};
ghost use Rattle.std.specs.Io.{ReadsAtMost, WritesAtMost};
ghost use Rattle.std.specs.Io.KnownBytes.{ReadConsumes, WriteAppends};
ghost use Rattle.x509_show.specs.Parts.{RemembersRead, RemembersWrite};

use std::io;

/// A source of bytes that remembers whether a read has failed.
pub trait Source {
    /// The bytes that it has still to give: `None` where it does not tell them, or has no end.
    ghost remaining: { Self → Option (List ℕ) };

    /// Whether a read has answered an error.
    ghost has_failed: { Self → Bool };

    /// Puts bytes at the start of `buf`, and answers how many: none is the end.
    fn read(&mut self, buf: &mut [u8]) -> io::Result<usize>
        ensures bound { ReadsAtMost result buf.new }
        ensures bytes { ReadConsumes (remaining self.old) (remaining self.new) result buf.new }
        ensures failed { RemembersRead (has_failed self.old) (has_failed self.new) result };

    /// Whether a read has answered an error.
    fn failed(&self) -> bool
        ensures { result ≡ has_failed self.now };
}

/// A sink of bytes that remembers whether a write has failed.
pub trait Sink {
    /// The bytes that it has taken: `None` where it does not tell them.
    ghost written: { Self → Option (List ℕ) };

    /// Whether a write has answered an error or taken no byte.
    ghost has_failed: { Self → Bool };

    /// Takes bytes from the start of `buf`, which has at least one, and answers how many.
    fn write(&mut self, buf: &[u8]) -> io::Result<usize>
        requires { 0 < length buf.now }
        ensures bound { WritesAtMost result buf.now }
        ensures bytes { WriteAppends (written self.old) (written self.new) result buf.now }
        ensures failed { RemembersWrite (has_failed self.old) (has_failed self.new) result };

    /// Whether a write has answered an error or taken no byte.
    fn failed(&self) -> bool
        ensures { result ≡ has_failed self.now };
}
