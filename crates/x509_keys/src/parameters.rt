//! Fields of parameters, in explicit context tags.

ghost use Rattle.x509_der.specs.Fields.{next_of};
ghost use Rattle.x509_der.specs.Leaves.{u32};
ghost use Rattle.x509_der.specs.Looks.{behind};
ghost use Rattle.x509_der.specs.Promises.{option_view};
ghost use Rattle.x509_der.specs.Reading.{Gives};
ghost use Rattle.x509_fields.specs.Algorithm.{algorithm, algorithm_of};
ghost use Rattle.x509_fields.specs.Fields.{lifted};
ghost use Rattle.x509_keys.specs.Parameters.{tagged_algorithm, tagged_u32};

use crate::public_key::first_place;
use x509_der::{Class, Err, Fields, Header, Nowhere, Tries};
use x509_fields::{AlgorithmIdentifier, X509Error, sequence_at};

/// The algorithm that stands first in these bytes (RFC 5280, section 4.1.1.2).
#[tactic(auto, unfolding(x509_fields::specs::Algorithm::algorithm))]
fn first_algorithm<'a>(bytes: &'a [u8]) -> Result<AlgorithmIdentifier<'a>, Err<X509Error>>
    ensures { Gives (λ x. (behind bytes.now, algorithm_of x)) result (algorithm.read bytes.now) }
{
    let contents = sequence_at(&first_place(bytes))?;
    let mut tries = Tries::new();
    let fields = Fields::of(&mut tries, &contents);
    let (fields, algorithm) = match fields.oid(&mut tries) {
        Ok((fields, algorithm)) => (fields, algorithm),
        Err(_) => return Err(Err::Error(X509Error::InvalidAlgorithmIdentifier)),
    };
    let parameters = match fields.place.any() {
        Ok(any) => Some(any),
        Err(_) => None,
    };
    Ok(AlgorithmIdentifier {
        algorithm,
        parameters,
    })
}

/// The number that stands first in these bytes, of at most 32 bits.
fn first_u32(bytes: &[u8]) -> Result<u32, Err<X509Error>>
    ensures { Gives (λ x. (behind bytes.now, x)) result ((lifted u32).read bytes.now) }
{
    match first_place(bytes).u32() {
        Ok(number) => Ok(number),
        Err(e) => Err(e.why.convert()),
    }
}

/// The algorithm in the explicit tag of this number, absent where nothing is left or where an element of another class or
/// number stands. Whether it stands plainly isn't told.
#[inline(always)]
#[tactic(auto, unfolding(crate::specs::Parameters::tagged_algorithm))]
pub(crate) fn tagged_algorithm_at<'a>(
    fields: &Fields<'a, Nowhere>,
    tries: &mut Tries,
    number: u32,
) -> Result<(Fields<'a, Nowhere>, Option<AlgorithmIdentifier<'a>>), Err<X509Error>>
    ensures { Gives (λ x. (next_of x.0, option_view algorithm_of x.1)) result ((tagged_algorithm number).read (next_of fields.now)) }
{
    if fields.are_over() {
        return Ok((fields.same(), None));
    }
    let header = match fields.place.any() {
        Ok(any) => any.header(),
        Err(e) => return Err(e.why.convert()),
    };
    match header {
        Header {
            class: Class::ContextSpecific,
            tag,
            ..
        } if tag.0 == number => {}
        _ => return Ok((fields.same(), None)),
    }
    let contents = match fields.place.explicit(number) {
        Ok(contents) => contents.bytes(),
        Err(e) => return Err(e.why.convert()),
    };
    let algorithm = first_algorithm(contents)?;
    Ok((fields.behind(tries, true), Some(algorithm)))
}

/// The number of at most 32 bits in the explicit tag of this number, absent where nothing is left or where an element of
/// another class or number stands. Whether it stands plainly isn't told.
#[inline(always)]
#[tactic(auto, unfolding(crate::specs::Parameters::tagged_u32))]
pub(crate) fn tagged_u32_at<'a>(
    fields: &Fields<'a, Nowhere>,
    tries: &mut Tries,
    number: u32,
) -> Result<(Fields<'a, Nowhere>, Option<u32>), Err<X509Error>>
    ensures { Gives (λ x. (next_of x.0, x.1)) result ((tagged_u32 number).read (next_of fields.now)) }
{
    if fields.are_over() {
        return Ok((fields.same(), None));
    }
    let header = match fields.place.any() {
        Ok(any) => any.header(),
        Err(e) => return Err(e.why.convert()),
    };
    match header {
        Header {
            class: Class::ContextSpecific,
            tag,
            ..
        } if tag.0 == number => {}
        _ => return Ok((fields.same(), None)),
    }
    let contents = match fields.place.explicit(number) {
        Ok(contents) => contents.bytes(),
        Err(e) => return Err(e.why.convert()),
    };
    let value = first_u32(contents)?;
    Ok((fields.behind(tries, true), Some(value)))
}
