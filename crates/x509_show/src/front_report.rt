//! Reports of what was read at the front of an input.

ghost use Rattle.std.specs.Prelude.{◌≡◌, ℕ, List, MatchResult, string_bytes};
ghost use Rattle.x509_show.specs.declared.stop.Stop.TheVariants.{Memory};
ghost use Rattle.x509_show.specs.FrontReport.{ReportsAnswer};

use crate::report::{Report, refused};
use crate::stop::Stop;
use std::alloc::Global;
use x509_fields::X509Result;

/// What is shown as lines.
pub trait Shown: Drop {
    /// What a value is, without where it lies in memory.
    ghost Value: { Type 0 };

    ghost view: { Self → Value };

    /// Its lines, and those of the bytes behind it.
    ghost lines: { Value → List ℕ → List ℕ };

    /// The lines of the value, and of the bytes behind it. The only error is [`Stop::Memory`].
    fn text(&self, alloc: Global, rest: &[u8]) -> Result<String, Stop>
        ensures { MatchResult result (λ s. string_bytes s ≡ lines (view self.now) rest.now) (λ stop. stop ≡ Memory) };
}

/// The report of what was read: its lines with status 0, or why there is none with status 1. The only error is
/// [`Stop::Memory`].
pub fn front_report<'a, T: Shown>(alloc: Global, read: X509Result<'a, T>) -> Result<Report, Stop>
    ensures { MatchResult result (λ r. ReportsAnswer (λ x. (x.0.now, T.view x.1)) T.lines read.entry r) (λ stop. stop ≡ Memory) }
{
    match read {
        Ok((rest, value)) => Ok(Report::accepted(value.text(alloc, rest)?)),
        Err(refusal) if refusal.is_out_of_memory() => Err(Stop::Memory),
        Err(refusal) => Ok(refused(alloc, &refusal)?),
    }
}
