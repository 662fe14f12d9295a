//! What is said of all serials.

ghost use Rattle.std.specs.Prelude.{◌≡◌, MatchResult};
ghost use Rattle.x509_revoked_cli.specs.Reports.{IsReport, status_of};
ghost use Rattle.x509_revoked_cli.specs.Search.{found_in};
ghost use Rattle.x509_revoked_cli.specs.declared.stop.Stop.TheVariants.{Memory};

use crate::answers::{answer_line, is_revoked};
use crate::search::Search;
use crate::serials::Serial;
use crate::stop::Stop;
use std::alloc::Global;

/// No certificate is revoked.
const NONE: u8 = 0;
/// A certificate is.
const SOME: u8 = 1;

/// The lines of all serials, and whether one of their certificates is revoked.
#[derive(Drop)]
pub struct Report {
    pub text: String,
    pub is_any_revoked: bool,
}

impl Report {
    /// The status of a run that writes it.
    pub fn status(&self) -> u8
        ensures { result ≡ status_of self.now }
    {
        if self.is_any_revoked { SOME } else { NONE }
    }
}

/// What is said of all serials, a line each, in order.
pub fn report_serials(
    alloc: Global,
    search: &Search<'_>,
    serials: &[Serial<'_>],
) -> Result<Report, Stop>
    ensures { MatchResult result (IsReport (found_in search.now) serials.now) (λ stop. stop ≡ Memory) }
{
    let mut text = String::new(alloc);
    let mut is_any_revoked = false;
    for serial in serials {
        let entry = search.find(alloc, &serial.number())?;
        let line = answer_line(alloc, serial.word, &entry)?;
        text.push_str(&line)?;
        is_any_revoked |= is_revoked(&entry);
    }
    Ok(Report {
        text,
        is_any_revoked,
    })
}
