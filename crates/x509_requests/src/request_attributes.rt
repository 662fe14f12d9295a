//! The attributes of a request.

ghost use Rattle.std.specs.Prelude.{◌≡◌, ◌≤◌, ◌+◌, ◌-◌, ◌*◌, [], true, IfOk, map, length, sum_by};
ghost use Rattle.x509_der.specs.Place.{at, outside_of};
ghost use Rattle.x509_der.specs.Reading.{AddsAtLeast};
ghost use Rattle.x509_fields.specs.Errors.{is_x509_memory};
ghost use Rattle.x509_requests.specs.CriAttribute.{attribute_of, attribute_heads};
ghost use Rattle.x509_requests.specs.RequestInfo.{attributes_header, attributes};
ghost use Rattle.x509_der.specs.Promises.{AnswersAt, GivesAt};

use crate::cri_attribute::X509CriAttribute;
use std::alloc::Global;
use x509_der::{Class, Err, Header, Outside, Place, Refused, Sequence, Tag, Tries, read_to_end};
use x509_extensions::closes;
use x509_fields::X509Error;

// What stands behind a header of context class and number 0, whatever its form and its length.
#[inline(always)]
#[tactic(auto, unfolding(crate::specs::RequestInfo::attributes_header, x509_der::specs::Leaves::any_header))]
fn attributes_behind<'a, L: Outside>(
    place: &Place<'a, L>,
) -> Result<(&'a [u8], Header), Refused<X509Error, L>>
    ensures reads { GivesAt (λ x. (x.0.now, x.1)) attributes_header L.adds (at place.now) (outside_of place.now) result }
    ensures marks { attributes_header.marks (at place.now) ≡ true }
    ensures sizes { IfOk result (λ x. length x.0.now + 2 ≤ length (at place.now)) }
{
    let (inner, header) = match place.header() {
        Ok((inner, header)) => (inner, header),
        Err(e) => return Err(e.named(Err::Error(X509Error::InvalidAttributes))),
    };
    match header {
        Header {
            class: Class::ContextSpecific,
            tag: Tag(0),
            ..
        } => Ok((inner, header)),
        _ => Err(place.refuse(Err::Error(X509Error::InvalidAttributes))),
    }
}

/// The attributes at a place, up to the end of the request's info, and whether they stand plainly.
#[tactic(auto, unfolding(crate::specs::RequestInfo::attributes), using(x509_der::proofs::Marking::marks_of_readers))]
pub(crate) fn read_attributes<'a, L: Outside>(
    alloc: Global,
    tries: &mut Tries,
    place: &Place<'a, L>,
) -> Result<(Sequence<X509CriAttribute<'a>>, bool), Refused<X509Error, L>>
    ensures reads { AnswersAt is_x509_memory true (λ x. ([], map attribute_of x.0)) attributes L.adds (at place.now) (outside_of place.now) result }
    ensures marks { IfOk result (λ x. x.1 ≡ attributes.marks (at place.now)) }
    ensures grows { tries.old ≤ tries.new }
    ensures count { tries.new ≤ tries.old + (8 * length (at place.now) - 8) }
    ensures least { IfOk result (λ x. AddsAtLeast (sum_by attribute_heads (map attribute_of x.0)) tries.old tries.new) }
    ensures sizes { IfOk result (λ _. 2 ≤ length (at place.now)) }
{
    let (inner, header) = attributes_behind(place)?;
    let closes = closes(0, header, inner);
    let (list, plain) = read_to_end(alloc, tries, &place.left(inner))?;
    Ok((list, closes & plain))
}
