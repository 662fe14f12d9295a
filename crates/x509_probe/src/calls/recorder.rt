//! A visitor and logger that writes each visit and each message down.

use std::alloc::Global;
use x509_der::{BerError, Err};
use x509_extensions::X509Extension;
use x509_fields::X509Error;
use x509_probe_answers::{Answer, Show, put_all};
use x509_validators::Logger;

/// Writes each visit and each message down, and refuses one of them.
#[derive(Drop)]
pub struct Recorder {
    out: Answer,
    made: u32,
    refused: u32,
}

/// Takes each visit as a value.
#[derive(Drop)]
pub struct RecorderByValue(pub Recorder);

/// The visits up to the one of this number, by a method for each.
#[derive(Clone, Copy)]
pub struct Walk(pub u32);

/// The same by values.
#[derive(Clone, Copy)]
pub struct WalkByValue(pub u32);

impl Recorder {
    /// One that refuses the visit or the message of this number; 0 for none.
    pub fn new(alloc: Global, refused: u32) -> Recorder {
        Recorder {
            out: Answer::new(alloc),
            made: 0,
            refused,
        }
    }

    /// What was written down, in order.
    pub fn log(&self) -> &Answer {
        &self.out
    }

    /// Counts what was written down, and refuses it where its turn has come.
    fn count(&mut self) -> Result<(), X509Error> {
        self.made = self.made.wrapping_add(1);
        self.out.finish()?;
        if self.made == self.refused {
            return Err(X509Error::Generic);
        }
        Ok(())
    }

    /// Begins what is written of a visit.
    fn begin(&mut self, name: &str) {
        self.out.add(name);
        self.out.add("(");
    }

    /// Ends it.
    fn end(&mut self) -> Result<(), X509Error> {
        self.out.add(")|");
        self.count()
    }

    /// A message, behind its level.
    pub fn keep(&mut self, level: &str, message: &str) -> Result<(), X509Error> {
        self.out.add(level);
        self.out.hex(message.as_bytes());
        self.count()
    }

    /// A visit of a value.
    pub fn note<T: Show>(&mut self, name: &str, value: &T) -> Result<(), X509Error> {
        self.begin(name);
        value.show(&mut self.out);
        self.end()
    }

    /// A visit of a value that may be absent.
    pub fn note_any<T: Show>(&mut self, name: &str, value: Option<&T>) -> Result<(), X509Error> {
        match value {
            Some(value) => self.note(name, value),
            None => self.note_bytes(name, b""),
        }
    }

    /// A visit of several values.
    pub fn note_all<T: Show>(&mut self, name: &str, values: &[T]) -> Result<(), X509Error> {
        self.begin(name);
        put_all(&mut self.out, values);
        self.end()
    }

    /// A visit of bytes.
    pub fn note_bytes(&mut self, name: &str, bytes: &[u8]) -> Result<(), X509Error> {
        self.begin(name);
        self.out.hex(bytes);
        self.end()
    }

    /// A visit of extensions: how many there are, and which.
    pub fn note_ids(
        &mut self,
        name: &str,
        extensions: &[X509Extension<'_>],
    ) -> Result<(), X509Error> {
        self.begin(name);
        self.out.display(&extensions.len());
        for extension in extensions {
            self.out.add(",");
            self.out.hex(extension.oid.as_bytes());
        }
        self.end()
    }

    /// A visit of so many entries.
    pub fn note_count(&mut self, name: &str, count: usize) -> Result<(), X509Error> {
        self.begin(name);
        self.out.display(&count);
        self.end()
    }

    /// A visit of a value that can't be read.
    pub fn note_error(
        &mut self,
        name: &str,
        extension: &X509Extension<'_>,
        error: &Err<BerError>,
    ) -> Result<(), X509Error> {
        self.begin(name);
        extension.show(&mut self.out);
        self.out.refusal(error);
        self.end()
    }
}

impl Logger for Recorder {
    ghost use Rattle.std.specs.Prelude.{⊤};

    ghost step = { λ _ _ _ _. ⊤ };

    fn warn(&mut self, message: &str) -> Result<(), X509Error> {
        self.keep(" W", message)
    }

    fn err(&mut self, message: &str) -> Result<(), X509Error> {
        self.keep(" E", message)
    }
}

/// Adds how a walk ended, and its visits.
pub fn put_end(out: &mut Answer, outcome: Result<(), X509Error>, visits: &Answer) {
    match outcome {
        Ok(()) => out.add("ok "),
        Err(kind) => {
            out.error(&kind);
            out.add(" ");
        }
    }
    out.append(visits);
}

/// The number of the visit that is refused, in two octets.
pub fn number(bytes: &[u8]) -> u32 {
    match bytes {
        [high, low] => u32::from(u16::from_be_bytes([*high, *low])),
        _ => 0,
    }
}
