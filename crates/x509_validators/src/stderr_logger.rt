//! A logger that writes lines.

ghost use Rattle.std.specs.Prelude.{◌≡◌};

use crate::logger::Logger;
use std::io::Write;
use x509_fields::X509Error;

/// A logger that writes each message as a line, `[W] ` or `[E] ` before the text: on a program's standard error, or on
/// any other writer.
#[derive(Debug, Drop)]
pub struct StderrLogger<S> {
    writer: S,
}

impl<S: Write> StderrLogger<S> {
    /// A logger that writes to this writer.
    pub fn new(writer: S) -> StderrLogger<S>
        ensures { result.writer ≡ writer }
    {
        StderrLogger { writer }
    }
}

/// The only refusal is `Generic`: the write failed.
impl<S: Write> Logger for StderrLogger<S> {
    ghost use Rattle.x509_validators.specs.StderrLogger.{writes_line};

    ghost step = { λ s m r t. writes_line S.contents s.writer m r t.writer };

    fn warn(&mut self, message: &str) -> Result<(), X509Error> {
        writeln!(self.writer, "[W] {message}").map_err(|_| X509Error::Generic)
    }

    fn err(&mut self, message: &str) -> Result<(), X509Error> {
        writeln!(self.writer, "[E] {message}").map_err(|_| X509Error::Generic)
    }
}
