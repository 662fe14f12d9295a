//! When the next list comes.

ghost use Rattle.std.specs.Prelude.{false, min, length};
ghost use Rattle.x509_der.specs.Fields.{next_of, plain_in, outer_of, ReadsSeveral};
ghost use Rattle.x509_der.specs.Promises.{option_view, option_heads};
ghost use Rattle.x509_fields.specs.Errors.{is_x509_memory};
ghost use Rattle.x509_fields.specs.Times.{time_of};
ghost use Rattle.x509_lists.specs.NextUpdate.{next_update};

use std::alloc::Global;
use x509_der::{Class, Err, Fields, Header, Outside, Refused, Tag, Tries};
use x509_fields::{ASN1Time, X509Error};

/// When the next list comes (RFC 5280, section 5.1.2.5), absent where the header of another element than a time stands next.
#[inline(always)]
#[tactic(auto, unfolding(crate::specs::NextUpdate::next_update), using(x509_der::proofs::Marking::marks_of_readers))]
pub(crate) fn read_next_update<'a, L: Outside>(
    alloc: Global,
    tries: &mut Tries,
    fields: &Fields<'a, L>,
) -> Result<(Fields<'a, L>, Option<ASN1Time>), Refused<X509Error, L>>
    ensures { ReadsSeveral is_x509_memory false (option_heads (λ _. 1)) (λ x. (next_of x.0, option_view time_of x.1)) (λ x. outer_of x.0) (λ x. plain_in x.0)
        next_update 0 (min 1 (length (next_of fields.now))) (plain_in fields.now) L.adds (next_of fields.now) (outer_of fields.now) tries.old tries.new result }
{
    if fields.are_over() {
        return Ok((fields.same(), None));
    }
    let header = match fields.place.header() {
        Ok((_, header)) => header,
        Err(e) => return Err(e.named(Err::Error(X509Error::InvalidDate))),
    };
    match header {
        Header {
            class: Class::Universal,
            tag: Tag(23 | 24),
            ..
        } => {}
        _ => return Ok((fields.same(), None)),
    }
    match fields.field(alloc, tries) {
        Ok((fields, time)) => Ok((fields, Some(time))),
        Err(e) => Err(e),
    }
}
