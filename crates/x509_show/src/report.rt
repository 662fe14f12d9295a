//! The text and the exit status that a command gives for its input.

ghost use Rattle.std.specs.Prelude.{◌≡◌, IfOk, string_bytes};
ghost use Rattle.x509_show.specs.Report.{Report, refused_report};

use std::alloc::{AllocError, Global};
use std::marker::Model;
use x509_der::{Err, ReadError};

/// The exit status of an input that was accepted.
pub const ACCEPTED: u8 = 0;
/// The exit status of an input that was refused.
pub const REFUSED: u8 = 1;
/// The exit status where the command line has other words.
pub const WRONG_WORDS: u8 = 2;

/// What is written where the command line has other words.
pub const USAGE: &[u8] = b"usage: x509_show der|cert|crl|csr|cert-strict|crl-strict|csr-strict\n";

/// What is written of an input, and the exit status.
#[derive(Drop)]
pub struct Report {
    text: String,
    status: u8,
}

impl Model for Report {
    ghost Value = { Report };

    ghost view = { λ r. record { text = string_bytes r.text; status = r.status } };
}

impl Report {
    /// The report of an input that was accepted, with this text.
    pub fn accepted(text: String) -> Report
        ensures { result ≡ record { text = string_bytes text; status = 0 } }
    {
        Report {
            text,
            status: ACCEPTED,
        }
    }

    /// The text, with a newline at the end of each line.
    pub fn text(&self) -> &str
        ensures { result.now ≡ self.now.text }
    {
        &self.text
    }

    /// The exit status.
    pub fn status(&self) -> u8
        ensures { result ≡ self.now.status }
    {
        self.status
    }
}

/// The report of a refusal. The only error is want of memory.
#[tactic(auto, unfolding(crate::specs::Report::refused_report))]
pub fn refused<E: ReadError>(alloc: Global, refusal: &Err<E>) -> Result<Report, AllocError>
    ensures { IfOk result (λ r. r ≡ refused_report E.word_of refusal.now) }
{
    let word = refusal.word();
    let text = format!(in alloc; "refused: {word}\n")?;
    Ok(Report {
        text,
        status: REFUSED,
    })
}
