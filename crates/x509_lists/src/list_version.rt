//! The version of a list.

ghost use Rattle.std.specs.Prelude.{◌≤◌, ◌+◌, ◌-◌, ◌*◌, min, length};
ghost use Rattle.x509_der.specs.Fields.{next_of, plain_in, StepsSoftLeaf, outer_of};
ghost use Rattle.x509_der.specs.Promises.{option_view, option_heads};
ghost use Rattle.x509_der.specs.Reading.{AddsAtLeast};
ghost use Rattle.x509_fields.specs.Version.{version};

use x509_der::{Fields, Outside, Tries};
use x509_fields::X509Version;

/// The version that stands next (RFC 5280, section 5.1.2.1), absent where none stands there that can be read.
#[inline(always)]
#[tactic(auto, unfolding(x509_fields::specs::Version::version), using(x509_der::proofs::Steps::marks_of_fields))]
pub(crate) fn read_version<'a, L: Outside>(
    tries: &mut Tries,
    fields: &Fields<'a, L>,
) -> (Fields<'a, L>, Option<X509Version>)
    ensures steps { StepsSoftLeaf (λ x. (next_of x.0, option_view (λ v. v.0) x.1)) (λ x. outer_of x.0) (λ x. plain_in x.0) version (plain_in fields.now)
        (next_of fields.now) (outer_of fields.now) tries.old tries.new result }
    ensures count { tries.new + 8 * length (next_of result.0) ≤ tries.old + 8 * length (next_of fields.now) }
    ensures least { AddsAtLeast
        (option_heads (λ _. 1) (option_view (λ v. v.0) result.1) + min 1 (length (next_of result.0)) - min 1 (length (next_of fields.now))) tries.old
        tries.new }
{
    match fields.place.u32() {
        Ok(number) => (fields.behind(tries, true), Some(X509Version(number))),
        Err(_) => (fields.same(), None),
    }
}
