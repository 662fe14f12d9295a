//! What validators tell of certificates, as lines.

ghost use Rattle.std.specs.Prelude.{◌≡◌, ◌++◌, ◌∷◌, [], IfOk, MatchResult, true};
ghost use Rattle.std.specs.String.{string_bytes};
ghost use Rattle.x509_certs.specs.Certificate.{certificate, certificate_of};
ghost use Rattle.x509_fields.specs.declared.error.X509Error.TheVariants.{OutOfMemory};
ghost use Rattle.x509_report_lines.specs.Escape.{escaped};
ghost use Rattle.x509_report_lines.specs.Kept.{kept};
ghost use Rattle.x509_c.specs.Tells.{Tells, Done};
ghost use Rattle.x509_c.specs.Validation.{ShowsValidation, is_sound, message_lines, validation_messages};

use crate::status::{OK, OUT_OF_MEMORY, refused};
use crate::text::put_text;
use std::alloc::Global;
use x509_certs::X509Certificate;
use x509_der::FromDer;
use x509_fields::X509Error;
use x509_report_lines::{Text, push_escaped};
use x509_validators::{Logger, Validator, X509CertificateValidator, X509StructureValidator, chain};

/// A logger that writes each message as a line.
#[derive(Drop)]
struct MessageLines {
    text: Text,
}

impl MessageLines {
    /// Adds the line of a message at this level. The only refusal is `OutOfMemory`.
    fn add(&mut self, level: &str, message: &str) -> Result<(), X509Error>
        ensures { MatchResult result (λ _. self.new.text ≡ kept (self.old.text.so_far ++ (level.now ++ (escaped message.now ++ 10 ∷ [])))) (λ e. e ≡ OutOfMemory) }
    {
        self.text.push_str(level);
        push_escaped(&mut self.text, message);
        self.text.push('\n');
        match self.text.finish() {
            Ok(()) => Ok(()),
            Err(_) => Err(X509Error::OutOfMemory),
        }
    }
}

/// The only refusal is `OutOfMemory`.
impl Logger for MessageLines {
    ghost use Rattle.x509_c.specs.MessageLines.{adds_line};

    ghost step = { adds_line };

    fn warn(&mut self, message: &str) -> Result<(), X509Error> {
        self.add("warning: ", message)
    }

    fn err(&mut self, message: &str) -> Result<(), X509Error> {
        self.add("error: ", message)
    }
}

/// Whether a certificate is sound, and the lines of what is told of it.
#[tactic(auto, using(crate::proofs::Messages::lines_written))]
fn told(alloc: Global, certificate: &X509Certificate<'_>) -> Result<(bool, String), X509Error>
    ensures sound { IfOk result (λ r. r.0 ≡ is_sound (certificate_of certificate.now)) }
    ensures lines { IfOk result (λ r. string_bytes r.1 ≡ message_lines (validation_messages (certificate_of certificate.now))) }
{
    let mut lines = MessageLines {
        text: Text::new(alloc),
    };
    let validator = chain(X509StructureValidator, X509CertificateValidator);
    let sound = validator.validate(alloc, certificate, &mut lines)?;
    let MessageLines { text } = lines;
    match text.into_string() {
        Ok(text) => Ok((sound, text)),
        Err(_) => Err(X509Error::OutOfMemory),
    }
}

/// Reads the certificate at the front of the buffer, and writes what the validators of its structure and of its extensions tell, a line
/// a message in the order in which they tell it: `warning: ` or `error: `, the message and a newline. A character of the message that
/// could forge a line or hide text is written by its number, as `\u{a}`. The answer is 1 where both find the certificate sound, and
/// else 0.
#[unsafe(no_mangle)]
pub extern "C" fn rtv_validate(
    alloc: Global,
    der: &[u8],
    text: &mut [u8],
    length: &mut usize,
    sound: &mut u32,
    at: &mut usize,
) -> u32
    ensures { Tells (certificate true) der.now
        (λ c _. Done (ShowsValidation text.new length.new sound.new c))
        ((text.new ≡ text.old) × (length.new ≡ length.old) × (sound.new ≡ sound.old))
        at.old at.new result }
{
    match X509Certificate::from_der_located(alloc, der) {
        Ok((_, read)) => match told(alloc, &read) {
            Ok((is_sound, lines)) => {
                *length = put_text(lines.as_bytes(), text);
                *sound = u32::from(is_sound);
                OK
            }
            Err(_) => OUT_OF_MEMORY,
        },
        Err(refusal) => refused(refusal, at),
    }
}
