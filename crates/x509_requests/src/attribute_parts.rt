//! The parts of an attribute.

ghost use Rattle.std.specs.Prelude.{◌≡◌, ◌≤◌, ◌+◌, true, IfOk, length};
ghost use Rattle.x509_der.specs.Looks.{behind};
ghost use Rattle.x509_der.specs.Place.{at, outside_of, bytes_in, outside_in};
ghost use Rattle.x509_der.specs.Primitives.{is_constructed};
ghost use Rattle.x509_der.specs.Promises.{ReadsLeaf, ReadsParts, ReadsWindow};
ghost use Rattle.x509_der.specs.Reading.{element_of, loose};
ghost use Rattle.x509_fields.specs.Fields.{lifted};
ghost use Rattle.x509_requests.specs.CriAttribute.{parts_of, set_of, loose_sequence, attribute_set, attribute_fields, attribute_parts};

use x509_der::{
    Any, BerError, Class, Err, Fields, Header, Oid, Outside, Place, Refused, Tag, Tries, Window,
    converted, named,
};
use x509_fields::X509Error;

/// An attribute whose value isn't looked at.
#[derive(Clone, Copy)]
pub(crate) struct AttributeParts<'a> {
    /// The whole attribute.
    pub(crate) raw: &'a [u8],
    pub(crate) oid: Oid<'a>,
    /// The whole SET.
    pub(crate) set: &'a [u8],
    /// The SET's header and contents.
    pub(crate) element: Any<'a>,
}

// The contents of a SEQUENCE, its length in any octets.
#[inline(always)]
#[tactic(auto, unfolding(crate::specs::CriAttribute::loose_sequence, x509_der::specs::Leaves::any_loose, x509_der::specs::Primitives::contents_at))]
fn loose_sequence_at<'a, L: Outside>(
    place: &Place<'a, L>,
) -> Result<Window<'a, L>, Refused<X509Error, L>>
    ensures reads { ReadsWindow loose (is_constructed 16) (λ x. bytes_in x) (λ x. outside_in x) (lifted loose_sequence) L.adds (at place.now)
        (outside_of place.now) result }
    ensures marks { (lifted loose_sequence).marks (at place.now) ≡ true }
{
    let (any, _) = converted!(place.any_marked());
    match any.header() {
        Header {
            class: Class::Universal,
            constructed: true,
            tag: Tag(16),
            ..
        } => Ok(place.window(any.as_bytes())),
        _ => Err(place.refuse(Err::Error(X509Error::Der(BerError::InvalidTag)))),
    }
}

// A SET, and its header and contents.
#[inline(always)]
#[tactic(auto, unfolding(crate::specs::CriAttribute::attribute_set, x509_der::specs::Leaves::any))]
fn set_at<'a, L: Outside>(
    place: &Place<'a, L>,
) -> Result<(&'a [u8], Any<'a>), Refused<X509Error, L>>
    ensures reads { ReadsLeaf set_of attribute_set L.adds (at place.now) (outside_of place.now) result }
    ensures marks { attribute_set.marks (at place.now) ≡ true }
    ensures sizes { IfOk result (λ x. length (behind (at place.now)) + length (element_of x.1).contents + 2 ≤ length (at place.now)) }
{
    let element = match place.any() {
        Ok(element) => element,
        Err(e) => return Err(e.named(Err::Error(X509Error::InvalidAttributes))),
    };
    if element.tag() != Tag::Set {
        return Err(place.refuse(Err::Error(X509Error::InvalidAttributes)));
    }
    let bytes = place.bytes();
    Ok((&bytes[..bytes.len() - place.rest().len()], element))
}

// The parts, with their own refusals, and whether nothing stands behind the SET.
#[tactic(auto, unfolding(crate::specs::CriAttribute::attribute_fields), using(x509_der::proofs::Marking::marks_of_readers))]
fn read_attribute_fields<'a, L: Outside>(
    tries: &mut Tries,
    place: &Place<'a, L>,
) -> Result<(AttributeParts<'a>, bool), Refused<X509Error, L>>
    ensures { ReadsParts loose (is_constructed 16) (λ _. 2) parts_of (λ parts. length (element_of parts.element).contents) attribute_fields L.adds (at place.now)
        (outside_of place.now) tries.old tries.new result }
{
    let contents = loose_sequence_at(place)?;
    let fields = Fields::of(tries, &contents);
    let (fields, oid) = converted!(fields.oid(tries));
    let (set, element) = set_at(&fields.place)?;
    let bytes = place.bytes();
    let parts = AttributeParts {
        raw: &bytes[..bytes.len() - place.rest().len()],
        oid,
        set,
        element,
    };
    Ok((parts, fields.ends_here()))
}

/// The parts of the attribute at a place, and whether nothing stands behind the SET. Every refusal is `InvalidAttributes`.
#[inline(always)]
#[tactic(auto, unfolding(crate::specs::CriAttribute::attribute_parts))]
pub(crate) fn read_attribute_parts<'a, L: Outside>(
    tries: &mut Tries,
    place: &Place<'a, L>,
) -> Result<(AttributeParts<'a>, bool), Refused<X509Error, L>>
    ensures { ReadsParts loose (is_constructed 16) (λ _. 2) parts_of (λ parts. length (element_of parts.element).contents) attribute_parts L.adds (at place.now)
        (outside_of place.now) tries.old tries.new result }
{
    Ok(named!(
        read_attribute_fields(tries, place),
        X509Error::InvalidAttributes
    ))
}
