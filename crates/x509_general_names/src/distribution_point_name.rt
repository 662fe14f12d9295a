//! The names of distribution points.

ghost use Rattle.std.specs.Prelude.{◌≡◌, ◌≤◌, ◌+◌, ◌*◌, true, length, IfOk};
ghost use Rattle.x509_der.specs.Grammar.{allocates, in_element};
ghost use Rattle.x509_der.specs.Place.{at, outside_of, bytes_in, outside_in};
ghost use Rattle.x509_der.specs.Primitives.{is_constructed, is_explicit};
ghost use Rattle.x509_der.specs.Reading.{AddsAtLeast, strict};
ghost use Rattle.x509_fields.specs.Errors.{is_x509_memory};
ghost use Rattle.x509_general_names.specs.DistributionPointName.{PointName, point_name_of, choice_header, is_choice, closes, point_name, point_name_heads};
ghost use Rattle.x509_general_names.specs.DistributionPointName.{distribution_point_name, distribution_point_name_heads, distribution_point_name_laws};
ghost use Rattle.x509_der.specs.Promises.{AnswersAt, GivesAt, ReadsAt};
ghost use Rattle.x509_names.specs.Names.{relative_name_of, relative_name, relative_name_heads};

use crate::general_name::GeneralName;
use crate::implicit_names::some_names_in;
use std::alloc::Global;
use x509_der::{
    BerError, Class, Err, FromDer, Header, Outside, Place, Refused, Sequence, Tag, Tries, Window,
    converted, read_run1,
};
use x509_fields::{TryClone, X509Error, set_at};
use x509_names::RelativeDistinguishedName;

/// The name of a distribution point (RFC 5280, section 4.2.1.13).
///
/// ```text
/// DistributionPointName ::= CHOICE {
///     fullName                 [0]  GeneralNames,
///     nameRelativeToCRLIssuer  [1]  RelativeDistinguishedName }
/// ```
///
/// The standard's own `nameRelativeToCRLIssuer`, whose implicit tag stands in the place of the SET's, with the attributes
/// directly inside, is not read here: a field of such a name is absent. What is read has a whole SET inside the tag.
#[derive(Debug, PartialEq, Drop)]
pub enum DistributionPointName<'a> {
    /// Names of the point, at least one.
    FullName(Sequence<GeneralName<'a>>),
    /// What the name of the list's issuer lacks.
    NameRelativeToCRLIssuer(RelativeDistinguishedName<'a>),
}

/// The name in the explicit tag `[0]`, in which other structures hold it. Of the header inside that tag the number alone is
/// looked at, not the class nor the length: the names take all bytes up to the end of `[0]`, and what stands behind them is
/// skipped. Another number is `Der(InvalidTag)`, and an empty list of names `Der(NomError(Many1))`.
impl<'a> FromDer<'a, X509Error> for DistributionPointName<'a> {
    ghost Value = { PointName };

    ghost view = { point_name_of };

    ghost grammar = { in_element strict (is_explicit 0) distribution_point_name distribution_point_name_laws distribution_point_name_heads allocates };

    #[tactic(auto, unfolding(crate::specs::DistributionPointName::distribution_point_name, x509_der::specs::Leaves::explicit, x509_der::specs::Primitives::contents_at), using(x509_der::proofs::Marking::marks_of_readers))]
    fn read_at<L: Outside>(
        alloc: Global,
        tries: &mut Tries,
        place: &Place<'a, L>,
    ) -> Result<(Self, bool), Refused<X509Error, L>> {
        let contents = converted!(place.explicit(0));
        let (tail, name, plain) = name_in(alloc, tries, &contents)?;
        Ok((name, plain & tail.is_empty()))
    }

    ghost never_memory = { distribution_point_name_laws.laws.never_memory };
}

impl TryClone for DistributionPointName<'_> {
    fn try_clone(&self) -> Result<Self, X509Error> {
        let copy = match self {
            DistributionPointName::FullName(names) => {
                DistributionPointName::FullName(names.try_clone()?)
            }
            DistributionPointName::NameRelativeToCRLIssuer(relative) => {
                DistributionPointName::NameRelativeToCRLIssuer(relative.try_clone()?)
            }
        };
        Ok(copy)
    }
}

// The name at the front of these bytes, what stands behind it, and its mark.
#[tactic(auto, unfolding(crate::specs::DistributionPointName::point_name, crate::specs::DistributionPointName::full_name, crate::specs::DistributionPointName::name_relative), using(x509_der::proofs::Marking::marks_of_readers))]
fn name_in<'a, L: Outside>(
    alloc: Global,
    tries: &mut Tries,
    contents: &Window<'a, L>,
) -> Result<(&'a [u8], DistributionPointName<'a>, bool), Refused<X509Error, L>>
    ensures reads { AnswersAt is_x509_memory true (λ x. (x.0.now, point_name_of x.1)) point_name L.adds (bytes_in contents.now) (outside_in contents.now)
        result }
    ensures marks { IfOk result (λ x. x.2 ≡ point_name.marks (bytes_in contents.now)) }
    ensures grows { tries.old ≤ tries.new }
    ensures count { tries.new ≤ tries.old + 8 * length (bytes_in contents.now) }
    ensures least { IfOk result (λ x. AddsAtLeast (point_name_heads (point_name_of x.1)) tries.old tries.new) }
{
    let place = Place::inside(tries, contents);
    let (inner, header) = choice_at(&place)?;
    let closes = closes(header, inner);
    if header.tag.0 == 0 {
        let (rest, names, plain) = some_names_in(alloc, tries, &place.left(inner))?;
        Ok((rest, DistributionPointName::FullName(names), closes & plain))
    } else {
        let relative = Place::inside(tries, &place.left(inner));
        let (name, plain) = relative_name_at(alloc, tries, &relative)?;
        let name = DistributionPointName::NameRelativeToCRLIssuer(name);
        Ok((relative.rest(), name, closes & plain))
    }
}

// The relative name at this place, whose SET is read as any list is, into memory: it is rare, and the reader of sets that keeps one
// attribute without memory has so one caller, the loop over a name, into which LLVM writes it.
#[tactic(auto, unfolding(x509_names::specs::Names::relative_name), using(x509_der::proofs::Marking::marks_of_readers))]
fn relative_name_at<'a, L: Outside>(
    alloc: Global,
    tries: &mut Tries,
    place: &Place<'a, L>,
) -> Result<(RelativeDistinguishedName<'a>, bool), Refused<X509Error, L>>
    ensures { ReadsAt is_x509_memory true strict (is_constructed 17) relative_name_heads relative_name_of relative_name L.adds
        (at place.now) (outside_of place.now) tries.old tries.new result }
{
    let contents = set_at(place)?;
    let (tail, attributes, plain) = read_run1(alloc, tries, &contents)?;
    let name = RelativeDistinguishedName::new(attributes.into_vec());
    Ok((name, plain & tail.is_empty()))
}

// What stands behind a header of number 0 or 1, whatever its class and its length.
#[inline(always)]
#[tactic(auto, unfolding(crate::specs::DistributionPointName::choice_header, x509_der::specs::Leaves::any_header))]
fn choice_at<'a, L: Outside>(
    place: &Place<'a, L>,
) -> Result<(&'a [u8], Header), Refused<X509Error, L>>
    ensures reads { GivesAt (λ x. (x.0.now, x.1)) choice_header L.adds (at place.now) (outside_of place.now) result }
    ensures marks { choice_header.marks (at place.now) ≡ true }
    ensures sizes { IfOk result (λ x. length x.0.now + 2 ≤ length (at place.now)) }
{
    match converted!(place.header()) {
        (inner, header) if is_choice(header) => Ok((inner, header)),
        _ => Err(place.refuse(Err::Error(X509Error::Der(BerError::InvalidTag)))),
    }
}

fn is_choice(header: Header) -> bool
    ensures { result ≡ is_choice header }
{
    matches!(header.tag, Tag(0) | Tag(1))
}

// Whether the header is that of a constructed element of context class that ends with these bytes.
#[inline(always)]
fn closes(header: Header, left: &[u8]) -> bool
    ensures { result ≡ closes header left.now }
{
    match header {
        Header {
            class: Class::ContextSpecific,
            constructed: true,
            length,
            ..
        } => left.len() == length as usize,
        _ => false,
    }
}
