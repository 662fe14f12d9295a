//! The values of an object's extensions that are refused.

ghost use Rattle.std.specs.Prelude.{◌≡◌, ◌∷◌, ◌++◌, ◌≤◌, List, IfOk, IsOk, OnOk, length};
ghost use Rattle.x509_elements.specs.Elements.{Line, line_of};
ghost use Rattle.x509_elements.specs.Findings.{refused_left};
ghost use Rattle.x509_elements.specs.Readings.{value_of};
ghost use Rattle.x509_elements.specs.RefusedValues.{refused_of, refused_values};
ghost use Rattle.x509_elements.specs.Values.{end_of};

use crate::line::DumpLine;
use crate::part::Part;
use crate::refused::reading::Reading;
use crate::refused::refused_value::RefusedValue;
use crate::refused::value::Value;
use crate::walk::dump;
use std::alloc::{AllocError, Global};
use x509_extensions::value_refusal;

/// Adds why a value is refused, and where in the object; nothing where it isn't, and where no reader is known for its identifier.
#[tactic(auto, using(crate::proofs::Refusals::refusal_within))]
fn push_refused(
    alloc: Global,
    refused: &mut Vec<RefusedValue>,
    octets: &[u8],
    value: &Value,
) -> Result<(), AllocError>
    ensures { OnOk result (refused.new.items ≡ refused.old.items ++ refused_of (value_of octets.now value.now)) }
{
    let (id, contents) = (value.id.of(octets), value.contents.of(octets));
    let Some(refusal) = value_refusal(alloc, id, contents) else {
        return Ok(());
    };
    if refusal.why.is_out_of_memory() {
        return Err(AllocError);
    }
    refused.push(RefusedValue {
        at: value.contents.at + refusal.at,
        why: refusal.why,
        value_at: value.contents.at,
        value_size: contents.len(),
    })?;
    Ok(())
}

/// Adds what is refused of one line more. Tells where reading stands behind it.
fn push_line(
    alloc: Global,
    refused: &mut Vec<RefusedValue>,
    octets: &[u8],
    reading: Reading,
    found: Result<DumpLine<'_>, AllocError>,
) -> Result<Reading, AllocError>
    requires { IfOk found (λ line. end_of (line_of line) ≤ length octets.now) }
    ensures line { OnOk result (IsOk found.entry) }
    ensures refused { IfOk result (λ behind. IfOk found.entry (λ line. (ls : List Line) →
        refused.old.items ++ refused_left octets.now reading (line_of line ∷ ls) ≡ refused.new.items ++ refused_left octets.now behind ls)) }
{
    let line = found?;
    let (behind, value) = reading.step(&line);
    if let Some(value) = value {
        push_refused(alloc, refused, octets, &value)?;
    }
    Ok(behind)
}

/// The values of the extensions of the object at the front of the octets, which is such a part, that the readers of their kinds refuse, in
/// their order: those of a certificate, of a list and of its entries, and those that a request asks for, as far as [`dump`] calls
/// their elements `extnID` and `extnValue`. Each value is read once, and each element of the object looked at once.
///
/// # Errors
///
/// `AllocError`: then nothing is said of any value.
pub fn refused_values(
    alloc: Global,
    object: Part,
    octets: &[u8],
) -> Result<Vec<RefusedValue>, AllocError>
    ensures { IfOk result (λ refused. refused.items ≡ refused_values object octets.now) }
{
    let mut refused = Vec::new(alloc);
    let mut reading = Reading::new();
    for found in dump(alloc, object, octets) {
        reading = push_line(alloc, &mut refused, octets, reading, found)?;
    }
    Ok(refused)
}
