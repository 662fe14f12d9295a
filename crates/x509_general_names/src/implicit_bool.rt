//! BOOLEAN under a context tag.

ghost use Rattle.std.specs.Prelude.{◌≡◌, true};
ghost use Rattle.x509_der.specs.Fields.{next_of, plain_in, StepsSoftLeaf, outer_of};
ghost use Rattle.x509_der.specs.Place.{at, outside_of};
ghost use Rattle.x509_der.specs.Primitives.{as_refusal, truth_of};
ghost use Rattle.x509_der.specs.Promises.{ReadsLeaf};
ghost use Rattle.x509_der.specs.Reading.{Gives};
ghost use Rattle.x509_fields.specs.Fields.{lifted};
ghost use Rattle.x509_general_names.specs.ImplicitBool.{implicit_bool};

use x509_der::{BerError, Err, Fields, Outside, Place, Refused, Tries};

/// A BOOLEAN under this context tag that may be absent.
#[inline(always)]
#[tactic(auto, using(x509_der::proofs::Steps::marks_of_fields))]
pub(crate) fn soft_bool<'a, L: Outside>(
    fields: &Fields<'a, L>,
    tries: &mut Tries,
    number: u32,
) -> (Fields<'a, L>, Option<bool>)
    ensures { StepsSoftLeaf (λ x. (next_of x.0, x.1)) (λ x. outer_of x.0) (λ x. plain_in x.0) (lifted (implicit_bool number)) (plain_in fields.now)
        (next_of fields.now) (outer_of fields.now) tries.old tries.new result }
{
    match bool_at(&fields.place, number) {
        Ok(truth) => (fields.behind(tries, true), Some(truth)),
        Err(_) => (fields.same(), None),
    }
}

/// A BOOLEAN under this context tag.
#[inline(always)]
#[tactic(auto, unfolding(crate::specs::ImplicitBool::implicit_bool, x509_der::specs::Leaves::implicit))]
fn bool_at<L: Outside>(place: &Place<'_, L>, number: u32) -> Result<bool, Refused<BerError, L>>
    ensures reads { ReadsLeaf (λ x. x) (implicit_bool number) L.adds (at place.now) (outside_of place.now) result }
    ensures marks { (implicit_bool number).marks (at place.now) ≡ true }
{
    place.judge(truth(place.implicit(number)?.bytes()))
}

#[inline(always)]
fn truth(contents: &[u8]) -> Result<bool, Err<BerError>>
    ensures { Gives (λ x. x) result (as_refusal (truth_of contents.now)) }
{
    match contents {
        [0] => Ok(false),
        [0xff] => Ok(true),
        [_] => Err(Err::Error(BerError::DerConstraintFailed)),
        _ => Err(Err::Error(BerError::BerValueError)),
    }
}
