//! Other names of a subject and of an issuer.

ghost use Rattle.std.specs.Prelude.{◌≤◌, ◌+◌, List, [], map, true};
ghost use Rattle.x509_der.specs.Grammar.{allocates, in_sequence};
ghost use Rattle.x509_der.specs.Place.{at, outside_of, outside_in};
ghost use Rattle.x509_der.specs.Primitives.{is_constructed};
ghost use Rattle.x509_der.specs.Promises.{ReadsAt, GivesAt};
ghost use Rattle.x509_der.specs.Reading.{strict};
ghost use Rattle.x509_fields.specs.Errors.{is_x509_memory};
ghost use Rattle.x509_general_names.specs.GeneralName.{GeneralNameValue, general_name_of};
ghost use Rattle.x509_general_names.specs.AlternativeNames.{subject_names_of, issuer_names_of, end_of_names, general_names, general_names_heads};
ghost use Rattle.x509_general_names.specs.AlternativeNamesLaws.{general_names_laws};

use crate::general_name::{GeneralName, context_at};
use std::alloc::Global;
use x509_der::{
    BerError, Err, ErrorKind, FromDer, Outside, Place, Refused, Sequence, Tries, Window, read_run,
};
use x509_fields::{TryClone, X509Error, sequence_at};

/// Other names of the subject (RFC 5280, section 4.2.1.6).
///
/// ```text
/// SubjectAltName ::= GeneralNames
/// GeneralNames ::= SEQUENCE SIZE (1..MAX) OF GeneralName
/// ```
#[derive(Debug, PartialEq, Drop)]
pub struct SubjectAlternativeName<'a> {
    /// The names, in order.
    pub general_names: Sequence<GeneralName<'a>>,
}

/// The names fill the SEQUENCE, which may be empty. A whole element in it whose class isn't that of context, and a header
/// with a misspelled tag, are `Failure(Der(InvalidTag))`; a header with a misspelled length is
/// `Failure(Der(InvalidLength))`. Where an element is cut short, the names are `Error(Der(NomError(Eof)))`.
impl<'a> FromDer<'a, X509Error> for SubjectAlternativeName<'a> {
    ghost Value = { List GeneralNameValue };

    ghost view = { subject_names_of };

    ghost grammar = { in_sequence general_names general_names_laws general_names_heads allocates };

    fn read_at<L: Outside>(
        alloc: Global,
        tries: &mut Tries,
        place: &Place<'a, L>,
    ) -> Result<(Self, bool), Refused<X509Error, L>> {
        let (general_names, plain) = names_at(alloc, tries, place)?;
        Ok((SubjectAlternativeName { general_names }, plain))
    }

    ghost never_memory = { general_names_laws.laws.never_memory };
}

impl TryClone for SubjectAlternativeName<'_> {
    fn try_clone(&self) -> Result<Self, X509Error> {
        let general_names = self.general_names.try_clone()?;
        Ok(SubjectAlternativeName { general_names })
    }
}

/// Other names of the issuer (RFC 5280, section 4.2.1.7).
///
/// ```text
/// IssuerAltName ::= GeneralNames
/// GeneralNames ::= SEQUENCE SIZE (1..MAX) OF GeneralName
/// ```
#[derive(Debug, PartialEq, Drop)]
pub struct IssuerAlternativeName<'a> {
    /// The names, in order.
    pub general_names: Sequence<GeneralName<'a>>,
}

/// As [`SubjectAlternativeName`].
impl<'a> FromDer<'a, X509Error> for IssuerAlternativeName<'a> {
    ghost Value = { List GeneralNameValue };

    ghost view = { issuer_names_of };

    ghost grammar = { in_sequence general_names general_names_laws general_names_heads allocates };

    fn read_at<L: Outside>(
        alloc: Global,
        tries: &mut Tries,
        place: &Place<'a, L>,
    ) -> Result<(Self, bool), Refused<X509Error, L>> {
        let (general_names, plain) = names_at(alloc, tries, place)?;
        Ok((IssuerAlternativeName { general_names }, plain))
    }

    ghost never_memory = { general_names_laws.laws.never_memory };
}

impl TryClone for IssuerAlternativeName<'_> {
    fn try_clone(&self) -> Result<Self, X509Error> {
        let general_names = self.general_names.try_clone()?;
        Ok(IssuerAlternativeName { general_names })
    }
}

// Names in a SEQUENCE that they fill, and their mark.
#[tactic(auto, unfolding(crate::specs::AlternativeNames::general_names), using(x509_der::proofs::Marking::marks_of_readers, crate::proofs::Ends::end_plain))]
fn names_at<'a, L: Outside>(
    alloc: Global,
    tries: &mut Tries,
    place: &Place<'a, L>,
) -> Result<(Sequence<GeneralName<'a>>, bool), Refused<X509Error, L>>
    ensures { ReadsAt is_x509_memory true strict (is_constructed 16) general_names_heads (λ x. map general_name_of x) general_names L.adds (at place.now)
        (outside_of place.now) tries.old tries.new result }
{
    let contents = sequence_at(place)?;
    let (rest, names, plain) = place.judge(read_run(alloc, tries, contents.bytes()))?;
    end_of_names(tries, &contents, rest)?;
    Ok((names, plain))
}

// What stands behind the last name: nothing, or why it is refused.
#[tactic(auto, unfolding(crate::specs::AlternativeNames::end_of_names))]
fn end_of_names<'a, L: Outside>(
    tries: &mut Tries,
    contents: &Window<'a, L>,
    rest: &'a [u8],
) -> Result<(), Refused<X509Error, L>>
    ensures reads { (names : List GeneralNameValue) → GivesAt (λ _. ([], names)) (end_of_names names) L.adds rest.now (outside_in contents.now) result }
    ensures grows { tries.old ≤ tries.new }
    ensures few { tries.new ≤ tries.old + 1 }
{
    if rest.is_empty() {
        return Ok(());
    }
    match context_at(&Place::look(tries, rest)) {
        Err(
            Refused {
                why: Err::Error(why),
                ..
            },
        ) => Err(contents.refuse_at(rest, Err::Failure(why))),
        _ => Err(contents.refuse_at(
            rest,
            Err::Error(X509Error::Der(BerError::NomError(ErrorKind::Eof))),
        )),
    }
}
