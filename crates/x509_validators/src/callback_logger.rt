//! A logger of two closures.

ghost use Rattle.std.specs.Prelude.{◌≡◌, Some, codes};

use crate::logger::Logger;
use std::fmt;
use x509_fields::X509Error;

/// A logger that calls a closure for each level, and answers what that answers.
#[derive(Drop)]
pub struct CallbackLogger<W, E> {
    warn: W,
    err: E,
}

impl<W, E> CallbackLogger<W, E>
where
    W: FnMut(&str) -> Result<(), X509Error>,
    E: FnMut(&str) -> Result<(), X509Error>,
{
    /// A logger that calls `warn` for each warning and `err` for each error.
    pub fn new(warn: W, err: E) -> CallbackLogger<W, E>
        ensures { result ≡ record { warn = warn; err = err } }
    {
        CallbackLogger { warn, err }
    }
}

impl<W, E> Logger for CallbackLogger<W, E>
where
    W: FnMut(&str) -> Result<(), X509Error>,
    E: FnMut(&str) -> Result<(), X509Error>,
{
    ghost use Rattle.x509_validators.specs.CallbackLogger.{calls};

    ghost can_log = { λ s. W.IsAlwaysCallable s.warn × E.IsAlwaysCallable s.err };

    ghost step = { λ s m r t. calls W.step E.step s.warn s.err m r t.warn t.err };

    fn warn(&mut self, message: &str) -> Result<(), X509Error> {
        (self.warn)(message)
    }

    fn err(&mut self, message: &str) -> Result<(), X509Error> {
        (self.err)(message)
    }
}

/// The name alone: a closure has no text.
impl<W, E> fmt::Debug for CallbackLogger<W, E> {
    ghost debug_output = { λ _. Some (codes "CallbackLogger") };

    fn fmt<F: fmt::Write>(&self, f: &mut fmt::Formatter<F>) -> fmt::Result {
        write!(f, "CallbackLogger")
    }
}
