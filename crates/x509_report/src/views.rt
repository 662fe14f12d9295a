//! Which of its readers an object is seen by.

ghost use Rattle.std.specs.Prelude.{◌≡◌, IfOk};
ghost use Rattle.x509_report_objects.specs.Attempts.{wishes_of};
ghost use Rattle.x509_report.specs.Views.{part_of, part_word, refusal_of, seen_by, seen_where, view_of};

use std::alloc::{AllocError, Global};
use x509_certs::X509Certificate;
use x509_der::{FromDer, Located};
use x509_elements::Part;
use x509_fields::X509Error;
use x509_lists::CertificateRevocationList;
use x509_report_objects::Wishes;
use x509_requests::X509CertificationRequest;

/// Which of its readers an object is seen by.
#[derive(Clone, Copy, Debug)]
pub enum View {
    /// None was asked.
    Nothing,
    /// All that were asked refuse it, this one at the furthest octet.
    Refused(Part, Located<X509Error>),
    /// This is the first that takes it.
    Taken(Part),
}

/// Why the octets are no such object, and at which of them; none where they are one.
fn refusal_of<'a, T: FromDer<'a, X509Error> + Drop>(
    alloc: Global,
    octets: &'a [u8],
) -> Result<Option<Located<X509Error>>, AllocError>
    ensures { IfOk result (λ r. r ≡ refusal_of T.grammar.plan octets.now) }
{
    match T::from_der_located(alloc, octets) {
        Ok((_, _value)) => Ok(None),
        Err(refusal) => if refusal.why.is_out_of_memory() {
            Err(AllocError)
        } else {
            Ok(Some(refusal))
        },
    }
}

/// The view behind what one more reader says.
fn seen_by(view: View, part: Part, refusal: Option<Located<X509Error>>) -> View
    ensures { result ≡ seen_by view part refusal }
{
    match view {
        View::Taken(_) => view,
        View::Nothing => match refusal {
            None => View::Taken(part),
            Some(refusal) => View::Refused(part, refusal),
        },
        View::Refused(_, first) => match refusal {
            None => View::Taken(part),
            Some(refusal) => if first.at < refusal.at {
                View::Refused(part, refusal)
            } else {
                view
            },
        },
    }
}

/// The view behind what the reader of such a part says, where that is wanted.
fn seen_where<'a, T: FromDer<'a, X509Error> + Drop>(
    alloc: Global,
    wanted: bool,
    view: View,
    part: Part,
    octets: &'a [u8],
) -> Result<View, AllocError>
    ensures { IfOk result (λ v. v ≡ seen_where wanted view part (refusal_of T.grammar.plan octets.now)) }
{
    if !wanted {
        return Ok(view);
    }
    let refusal = refusal_of::<T>(alloc, octets)?;
    Ok(seen_by(view, part, refusal))
}

/// Which of the readers that are wanted an object is seen by.
#[tactic(auto, unfolding(crate::specs::Views::view_of))]
pub fn view_of(alloc: Global, wishes: &Wishes, octets: &[u8]) -> Result<View, AllocError>
    ensures { IfOk result (λ view. view ≡ view_of (wishes_of wishes.now) octets.now) }
{
    let view = View::Nothing;
    let (wanted, part) = (wishes.certificates, Part::Certificate);
    let view = seen_where::<X509Certificate<'_>>(alloc, wanted, view, part, octets)?;
    let (wanted, part) = (wishes.lists, Part::List);
    let view = seen_where::<CertificateRevocationList<'_>>(alloc, wanted, view, part, octets)?;
    let (wanted, part) = (wishes.requests, Part::Request);
    seen_where::<X509CertificationRequest<'_>>(alloc, wanted, view, part, octets)
}

/// What the names of elements are those of.
pub fn part_of(view: &View) -> Part
    ensures { result ≡ part_of view.now }
{
    match view {
        View::Nothing => Part::Whole,
        View::Refused(part, _) | View::Taken(part) => *part,
    }
}

/// What a reader reads, in a word.
pub fn part_word(part: Part) -> &'static str
    ensures { result.now ≡ part_word part }
{
    match part {
        Part::Certificate => "certificate",
        Part::List => "list",
        Part::Request => "request",
        _ => "object",
    }
}
