//! The contents of a SEQUENCE and of a SET, as the fields of a structure.

ghost use Rattle.x509_der.specs.Leaves.{sequence, set};
ghost use Rattle.x509_der.specs.Place.{at, outside_of, bytes_in, outside_in};
ghost use Rattle.x509_der.specs.Primitives.{is_constructed};
ghost use Rattle.x509_der.specs.Promises.{ReadsWindow};
ghost use Rattle.x509_der.specs.Reading.{strict};
ghost use Rattle.x509_fields.specs.Fields.{lifted};

use crate::error::X509Error;
use x509_der::{Outside, Place, Refused, Window};

/// The contents of the SEQUENCE that stands at a place.
#[inline(always)]
pub fn sequence_at<'a, L: Outside>(
    place: &Place<'a, L>,
) -> Result<Window<'a, L>, Refused<X509Error, L>>
    ensures { ReadsWindow strict (is_constructed 16) (λ x. bytes_in x) (λ x. outside_in x) (lifted sequence) L.adds (at place.now) (outside_of place.now)
        result }
{
    match place.sequence() {
        Ok(contents) => Ok(contents),
        Err(e) => Err(e.convert()),
    }
}

/// The contents of the SET that stands at a place.
#[inline(always)]
pub fn set_at<'a, L: Outside>(place: &Place<'a, L>) -> Result<Window<'a, L>, Refused<X509Error, L>>
    ensures { ReadsWindow strict (is_constructed 17) (λ x. bytes_in x) (λ x. outside_in x) (lifted set) L.adds (at place.now) (outside_of place.now) result }
{
    match place.set() {
        Ok(contents) => Ok(contents),
        Err(e) => Err(e.convert()),
    }
}
