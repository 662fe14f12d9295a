//! The report of an element.

ghost use Rattle.std.specs.Prelude.{◌≡◌, IfOk};
ghost use Rattle.x509_der.specs.Reading.{element_of};
ghost use Rattle.x509_show.specs.Report.{IsOnly};
ghost use Rattle.x509_show.specs.ElementReport.{IsElementReport, class_word, form_word, accepted_report};

use crate::report::{Report, refused};
use std::alloc::{AllocError, Global};
use x509_der::{Any, Class, Tries, read_any};

/// The class of a tag, in a word.
fn class_word(class: Class) -> &'static str
    ensures { result.now ≡ class_word class }
{
    match class {
        Class::Universal => "universal",
        Class::Application => "application",
        Class::ContextSpecific => "context",
        Class::Private => "private",
    }
}

/// Whether the contents are elements themselves, in a word.
fn form_word(constructed: bool) -> &'static str
    ensures { result.now ≡ form_word constructed }
{
    if constructed {
        "constructed"
    } else {
        "primitive"
    }
}

/// The report of an element with these bytes behind it.
#[tactic(auto, unfolding(crate::specs::ElementReport::accepted_report))]
fn accepted(alloc: Global, element: &Any, rest: &[u8]) -> Result<Report, AllocError>
    ensures { IfOk result (λ r. r ≡ accepted_report (element_of element.now) rest.now) }
{
    let header = element.header();
    let (class, form) = (class_word(header.class), form_word(header.constructed));
    let (tag, length, rest) = (header.tag.0, header.length, rest.len());
    let text = format!(in alloc; "{class} {form} tag={tag} length={length} rest={rest}\n")?;
    Ok(Report::accepted(text))
}

/// The report of the element at the front of the input (X.690, sections 8.1 and 10.1): its line with status 0, or why
/// there is none with status 1. The only error is want of memory.
pub fn element_report(alloc: Global, input: &[u8]) -> Result<Report, AllocError>
    ensures { IfOk result (λ r. IsOnly (IsElementReport input.now) r) }
{
    match read_any(&mut Tries::new(), input) {
        Ok((rest, element)) => accepted(alloc, &element, rest),
        Err(refusal) => refused(alloc, &refusal),
    }
}
