//! What the program can be asked for.

ghost use Rattle.std.specs.Prelude.{◌≡◌, MatchOption, MatchResult};
ghost use Rattle.x509_show.specs.declared.stop.Stop.TheVariants.{Memory};
ghost use Rattle.x509_show.specs.Report.{IsOnly};
ghost use Rattle.x509_show.specs.Commands.{IsCommand, IsReport, command_word};

use crate::certificate_report::{certificate_report, strict_certificate_report};
use crate::element_report::element_report;
use crate::list_report::{list_report, strict_list_report};
use crate::report::Report;
use crate::request_report::{request_report, strict_request_report};
use crate::stop::Stop;
use std::alloc::Global;

/// A command that has a report of an input.
#[derive(Clone, Copy)]
pub enum Command {
    /// The element at the front.
    Der,
    /// The certificate at the front.
    Cert,
    /// The list of revoked certificates at the front.
    Crl,
    /// The certification request at the front.
    Csr,
    /// The certificate at the front, where it stands plainly.
    CertStrict,
    /// The list of revoked certificates at the front, where it stands plainly.
    CrlStrict,
    /// The certification request at the front, where it stands plainly.
    CsrStrict,
}

impl Command {
    /// The command of this word; nothing where it is a word of none.
    pub fn of_word(word: &str) -> Option<Command>
        ensures { MatchOption result (¬ IsCommand word.now) (λ command. word.now ≡ command_word command) }
    {
        match word {
            "der" => Some(Command::Der),
            "cert" => Some(Command::Cert),
            "crl" => Some(Command::Crl),
            "csr" => Some(Command::Csr),
            "cert-strict" => Some(Command::CertStrict),
            "crl-strict" => Some(Command::CrlStrict),
            "csr-strict" => Some(Command::CsrStrict),
            _ => None,
        }
    }

    /// The report of an input. The only error is [`Stop::Memory`].
    pub fn report(self, alloc: Global, input: &[u8]) -> Result<Report, Stop>
        ensures { MatchResult result (λ r. IsOnly (IsReport (command_word self) input.now) r) (λ stop. stop ≡ Memory) }
    {
        match self {
            Command::Der => Ok(element_report(alloc, input)?),
            Command::Cert => certificate_report(alloc, input),
            Command::Crl => list_report(alloc, input),
            Command::Csr => request_report(alloc, input),
            Command::CertStrict => strict_certificate_report(alloc, input),
            Command::CrlStrict => strict_list_report(alloc, input),
            Command::CsrStrict => strict_request_report(alloc, input),
        }
    }
}
