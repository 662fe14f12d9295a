//! The version in its wrapper (RFC 5280, section 4.1.2.1).

ghost use Rattle.std.specs.Prelude.{◌≡◌, ◌≤◌, ◌+◌, ◌-◌, ◌*◌, ◌&&◌, true, IfOk, IfErr, min, length};
ghost use Rattle.x509_der.specs.Fields.{next_of, plain_in, outer_of};
ghost use Rattle.x509_der.specs.Looks.{behind, is_element};
ghost use Rattle.x509_der.specs.Place.{at, outside_of, bytes_in, outside_in};
ghost use Rattle.x509_der.specs.Promises.{option_view, option_heads, ReadsLeaf, GivesAt};
ghost use Rattle.x509_der.specs.Reading.{AddsAtLeast};
ghost use Rattle.x509_certs.specs.ExplicitVersion.{version_wrapper, wrapped_version, explicit_version};

use x509_der::{
    Class, Err, Fields, Header, Outside, Place, Refused, Tag, Tries, Window, converted, named,
};
use x509_fields::{X509Error, X509Version};

// The contents of a constructed element.
#[inline(always)]
#[tactic(auto, unfolding(crate::specs::ExplicitVersion::version_wrapper, x509_der::specs::Leaves::any, x509_der::specs::Primitives::contents_at))]
fn version_wrapper_of<'a, L: Outside>(
    place: &Place<'a, L>,
) -> Result<Window<'a, L>, Refused<X509Error, L>>
    ensures reads { ReadsLeaf (λ x. bytes_in x) version_wrapper L.adds (at place.now) (outside_of place.now) result }
    ensures outer { IfOk result (λ x. outside_in x ≡ L.adds (length (behind (at place.now))) (outside_of place.now)) }
    ensures marks { version_wrapper.marks (at place.now) ≡ true }
{
    let wrapper = converted!(place.any());
    if !wrapper.header().constructed {
        return Err(place.refuse(Err::Error(X509Error::InvalidVersion)));
    }
    Ok(place.window(wrapper.as_bytes()))
}

// A version in its wrapper; bytes behind it there are skipped.
#[inline(always)]
#[tactic(auto, unfolding(crate::specs::ExplicitVersion::wrapped_version, x509_fields::specs::Version::version), using(x509_der::proofs::Marking::marks_of_readers))]
fn read_wrapped_version<'a, L: Outside>(
    tries: &mut Tries,
    place: &Place<'a, L>,
) -> Result<(X509Version, bool), Refused<X509Error, L>>
    ensures reads { GivesAt (λ x. (behind (at place.now), x.0.0)) wrapped_version L.adds (at place.now) (outside_of place.now) result }
    ensures marks { IfOk result (λ x. x.1 ≡ wrapped_version.marks (at place.now)) }
    ensures grows { tries.old ≤ tries.new }
    ensures few_tries { tries.new ≤ tries.old + 1 }
    ensures none { IfErr result (λ _. length (at place.now) ≡ 0 → tries.new ≡ tries.old) }
    ensures least { IfOk result (λ _. AddsAtLeast 1 tries.old tries.new) }
    ensures there { IfOk result (λ _. is_element (at place.now) ≡ true) }
    ensures sizes { IfOk result (λ _. length (behind (at place.now)) + 2 ≤ length (at place.now)) }
{
    let contents = version_wrapper_of(place)?;
    let inner = Place::inside(tries, &contents);
    let version = named!(inner.u32(), X509Error::InvalidVersion);
    Ok((X509Version(version), inner.rest().is_empty()))
}

/// The version in its wrapper, absent where another element stands.
#[inline(always)]
#[tactic(auto, unfolding(crate::specs::ExplicitVersion::explicit_version), using(x509_der::proofs::Marking::marks_of_readers))]
pub(crate) fn read_version<'a, L: Outside>(
    tries: &mut Tries,
    fields: &Fields<'a, L>,
) -> Result<(Fields<'a, L>, Option<X509Version>), Refused<X509Error, L>>
    ensures reads { GivesAt (λ x. (next_of x.0, option_view (λ v. v.0) x.1)) explicit_version L.adds (next_of fields.now) (outer_of fields.now) result }
    ensures outer { IfOk result (λ x. outer_of x.0 ≡ outer_of fields.now) }
    ensures marks { IfOk result (λ x. plain_in x.0 ≡ (plain_in fields.now && explicit_version.marks (next_of fields.now))) }
    ensures grows { tries.old ≤ tries.new }
    ensures few_tries { IfErr result (λ _. tries.new ≤ tries.old + (8 * length (next_of fields.now) - 8)) }
    ensures count { IfOk result (λ x. tries.new + length (next_of x.0) ≤ tries.old + length (next_of fields.now)) }
    ensures least { IfOk result
        (λ x. AddsAtLeast (option_heads (λ _. 2) (option_view (λ v. v.0) x.1) + min 1 (length (next_of x.0)) - min 1 (length (next_of fields.now))) tries.old
        tries.new) }
{
    if fields.are_over() {
        return Ok((fields.same(), None));
    }
    let any = converted!(fields.place.any_loose());
    match any.header() {
        Header {
            class: Class::ContextSpecific,
            tag: Tag(0),
            ..
        } => {}
        _ => return Ok((fields.same(), None)),
    }
    let (version, plain) = read_wrapped_version(tries, &fields.place)?;
    Ok((fields.behind(tries, plain), Some(version)))
}
