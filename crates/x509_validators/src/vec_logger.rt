//! A logger that keeps the messages.

ghost use Rattle.std.specs.Prelude.{◌≡◌, [], map};
ghost use Rattle.std.specs.String.{string_bytes};

use crate::logger::Logger;
use std::alloc::Global;
use std::marker::Model;
use x509_fields::X509Error;

/// A logger that keeps the messages, by level. One that is refused memory keeps what it had.
#[derive(Debug, Drop)]
pub struct VecLogger {
    warnings: Vec<String>,
    errors: Vec<String>,
}

impl Model for VecLogger {
    ghost use Rattle.std.specs.Prelude.{map};
    ghost use Rattle.std.specs.String.{string_bytes};
    ghost use Rattle.x509_validators.specs.VecLogger.{Kept};

    ghost Value = { Kept };

    ghost view = { λ l. record { warnings = map string_bytes l.warnings.items; errors = map string_bytes l.errors.items } };
}

impl VecLogger {
    /// A logger without messages, which takes no memory.
    pub fn new(alloc: Global) -> VecLogger
        ensures { result ≡ record { warnings = []; errors = [] } }
    {
        VecLogger {
            warnings: Vec::new(alloc),
            errors: Vec::new(alloc),
        }
    }

    /// The texts of the warnings, in order.
    pub fn warnings(&self) -> &[String]
        ensures { map string_bytes result.now ≡ self.now.warnings }
    {
        self.warnings.as_slice()
    }

    /// The texts of the errors, in order.
    pub fn errors(&self) -> &[String]
        ensures { map string_bytes result.now ≡ self.now.errors }
    {
        self.errors.as_slice()
    }

    /// The texts of the warnings and of the errors, in order.
    pub fn into_parts(self) -> (Vec<String>, Vec<String>)
        ensures warnings { map string_bytes result.0.items ≡ self.warnings }
        ensures errors { map string_bytes result.1.items ≡ self.errors }
    {
        let VecLogger { warnings, errors } = self;
        (warnings, errors)
    }
}

/// The only refusal is `OutOfMemory`.
impl Logger for VecLogger {
    ghost use Rattle.x509_validators.specs.VecLogger.{keeps};

    ghost step = { keeps };

    fn warn(&mut self, message: &str) -> Result<(), X509Error> {
        let text = String::from_str(*self.warnings.allocator(), message)?;
        self.warnings.push(text).map_err(|_| X509Error::OutOfMemory)
    }

    fn err(&mut self, message: &str) -> Result<(), X509Error> {
        let text = String::from_str(*self.errors.allocator(), message)?;
        self.errors.push(text).map_err(|_| X509Error::OutOfMemory)
    }
}
