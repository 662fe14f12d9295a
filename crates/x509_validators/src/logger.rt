//! What loggers share.

ghost use Rattle.std.specs.Prelude.{IfSome};
ghost use Rattle.x509_validators.specs.Message.{warning_if, error_if, Logs};

use std::alloc::Global;
use std::fmt::Display;
use x509_fields::X509Error;

/// Takes the messages of a validator, one after another.
pub trait Logger {
    ghost use Rattle.std.specs.Prelude.{⊤};
    ghost use Rattle.x509_validators.specs.Message.{Message, warning, error, Logged};

    // the states at which a message may be logged
    ghost can_log: { Self → Type 0 } = { λ _. ⊤ };

    // a call with this message may take the first state to the second with this answer
    ghost step: { Self → Message → Logged → Self → Type 0 };

    /// Takes a warning: a fault that leaves the item usable.
    ///
    /// # Errors
    ///
    /// The logger's own; a validator stops there and gives it on.
    fn warn(&mut self, message: &str) -> Result<(), X509Error>
        requires { can_log self.old }
        ensures can { can_log self.new }
        ensures steps { step self.old (warning message.now) result self.new };

    /// Takes an error: a rule that the item breaks.
    ///
    /// # Errors
    ///
    /// The logger's own; a validator stops there and gives it on.
    fn err(&mut self, message: &str) -> Result<(), X509Error>
        requires { can_log self.old }
        ensures can { can_log self.new }
        ensures steps { step self.old (error message.now) result self.new };
}

/// Logs a warning where something was found; the text is made only then.
///
/// # Errors
///
/// `OutOfMemory` where there is none for the text, and the logger's own errors.
#[tactic(auto, using(crate::proofs::Logs::logging), unfolding(crate::specs::Message::warning_if))]
pub fn log_warning_if<L: Logger, D: Display + Drop>(
    alloc: Global,
    logger: &mut L,
    found: bool,
    message: D,
) -> Result<(), X509Error>
    requires { L.can_log logger.old }
    ensures can { L.can_log logger.new }
    ensures logs { IfSome (D.output message)
        (λ text. Logs L.step logger.old (warning_if found text) tt result logger.new) }
{
    if !found {
        return Ok(());
    }
    let text = message.to_string(alloc)?;
    logger.warn(text.as_str())
}

/// Logs an error where something was found; the text is made only then.
///
/// # Errors
///
/// `OutOfMemory` where there is none for the text, and the logger's own errors.
#[tactic(auto, using(crate::proofs::Logs::logging), unfolding(crate::specs::Message::error_if))]
pub fn log_error_if<L: Logger, D: Display + Drop>(
    alloc: Global,
    logger: &mut L,
    found: bool,
    message: D,
) -> Result<(), X509Error>
    requires { L.can_log logger.old }
    ensures can { L.can_log logger.new }
    ensures logs { IfSome (D.output message)
        (λ text. Logs L.step logger.old (error_if found text) tt result logger.new) }
{
    if !found {
        return Ok(());
    }
    let text = message.to_string(alloc)?;
    logger.err(text.as_str())
}
