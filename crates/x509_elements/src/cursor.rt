//! The members of an element, one after another.

ghost use Rattle.std.specs.Prelude.{◌≡◌, ◌+◌, ◌<◌, ◌^◌, option_map};
ghost use Rattle.x509_elements.specs.Cursors.{alone, alternative, alternative_of, called_as, called_of, coming, first_of, general_name, held, holds};
ghost use Rattle.x509_elements.specs.Cursors.{is_string, listed, resolved, standing_of, stepped};
ghost use Rattle.x509_elements.specs.Fields.{chosen, field};

use crate::field::{Field, Stands, choose, is_each};
use crate::part::{Part, fields};
use crate::seen::{begins_element, holds_sequence};
use crate::told::told_by;
use x509_der::{Class, Header};

/// What a member of an element is called, and what it is.
#[derive(Clone, Copy, Debug)]
pub struct Called {
    /// The name of the field that it is; empty where that has none, and where it is no field.
    pub name: &'static str,
    /// Its number, from 0, where it is a member of a list.
    pub number: Option<usize>,
    /// The name of the alternative that it is, where the field is a choice (X.680, section 29); else empty.
    pub alternative: &'static str,
    /// What it is.
    pub part: Part,
}

/// What may still come.
#[derive(Clone, Copy, Debug)]
enum Coming {
    /// One element, which is this part.
    Alone(Part),
    /// Fields of this part, from the one with this number on.
    Fields(Part, usize),
}

/// Where reading stands among the members of an element.
#[derive(Clone, Copy, Debug)]
pub(crate) struct Cursor {
    coming: Coming,
    number: usize,
    /// What the identifiers so far told.
    told: Part,
}

/// The number of a member, where it is one of a list.
fn listed(stands: Stands, number: usize) -> Option<usize>
    ensures { result ≡ listed stands number }
{
    if is_each(stands) { Some(number) } else { None }
}

/// What a field is, behind members that told this.
fn resolved(part: Part, told: Part) -> Part
    ensures { result ≡ resolved part told }
{
    match part {
        Part::Told => told,
        _ => part,
    }
}

/// Whether this is a string whose contents are no elements by themselves, of the universal type with this number.
fn is_string(number: u32, header: &Header) -> bool
    ensures { result ≡ is_string number header.now }
{
    matches!(header.class, Class::Universal) && header.tag.0 == number && !header.constructed
}

/// Whether the contents of an element are such a part.
fn holds(part: Part, header: &Header, contents: &[u8]) -> bool
    ensures { result ≡ holds part header.now contents.now }
{
    match part {
        Part::Value(_) => is_string(4, header) && begins_element(contents),
        Part::RsaKeyBits => is_string(3, header) && holds_sequence(contents),
        _ => true,
    }
}

/// What an element is that may be such a part.
fn held(part: Part, header: &Header, contents: &[u8]) -> Part
    ensures { result ≡ held part header.now contents.now }
{
    if holds(part, header, contents) {
        part
    } else {
        Part::Whole
    }
}

/// The alternative of GeneralName with this number (RFC 5280, section 4.2.1.6).
fn general_name(number: u32) -> (&'static str, Part)
    ensures { alternative result.0.now result.1 ≡ general_name number }
{
    match number {
        0 => ("otherName", Part::OtherName),
        1 => ("rfc822Name", Part::Whole),
        2 => ("dNSName", Part::Whole),
        3 => ("x400Address", Part::Whole),
        4 => ("directoryName", Part::TaggedName),
        5 => ("ediPartyName", Part::EdiPartyName),
        6 => ("uniformResourceIdentifier", Part::Whole),
        7 => ("iPAddress", Part::Whole),
        8 => ("registeredID", Part::Whole),
        _ => ("", Part::Whole),
    }
}

/// The alternative that an element is, and what that is, where the part is a choice; else no name, and the part.
fn alternative(part: Part, header: &Header) -> (&'static str, Part)
    ensures { alternative result.0.now result.1 ≡ alternative_of part header.now }
{
    match part {
        Part::GeneralName => match header.class {
            Class::ContextSpecific => general_name(header.tag.0),
            _ => ("", Part::Whole),
        },
        _ => ("", part),
    }
}

/// What a field is called, and what it is, as the member with this number, behind members that told this.
fn call(taken: &Field, number: usize, told: Part, header: &Header, contents: &[u8]) -> Called
    ensures { called_of result ≡ called_as (field taken.now.0.now taken.now.1 taken.now.2) number told header.now contents.now }
{
    let (name, stands, part) = *taken;
    let part = held(resolved(part, told), header, contents);
    let (alternative, part) = alternative(part, header);
    Called {
        name,
        number: listed(stands, number),
        alternative,
        part,
    }
}

impl Coming {
    /// The first of the fields that an element with this header may be, and what may come behind it.
    fn choose(self, header: &Header) -> Option<(Field, Coming)>
        ensures { option_map (λ c. (field c.0.0.now c.0.1 c.0.2, coming c.1)) result ≡ chosen (coming self) header.now }
    {
        match self {
            Coming::Alone(part) => Some((
                ("", Stands::Always, part),
                Coming::Fields(Part::Whole, 0),
            )),
            Coming::Fields(part, from) => match choose(fields(part), from, header) {
                Some((field, behind)) => Some((field, Coming::Fields(part, behind))),
                None => None,
            },
        }
    }
}

impl Cursor {
    /// Before an element that is this part, behind which no field comes.
    pub(crate) fn alone(part: Part) -> Cursor
        ensures { standing_of result ≡ alone part }
    {
        Cursor {
            coming: Coming::Alone(part),
            number: 0,
            told: Part::Whole,
        }
    }

    /// Before the first member of an element that is this part.
    pub(crate) fn of(part: Part) -> Cursor
        ensures { standing_of result ≡ first_of part }
    {
        Cursor {
            coming: Coming::Fields(part, 0),
            number: 0,
            told: Part::Whole,
        }
    }

    /// What the next member is called, an element with this header and these contents, as far as they are there, and where reading stands
    /// behind it. Where it is no field that may stand there, neither it nor any behind it has a name.
    pub(crate) fn step(self, header: &Header, contents: &[u8]) -> (Called, Cursor)
        requires { (standing_of self).number + 1 < 2 ^ 64 }
        ensures { (called_of result.0, standing_of result.1) ≡ stepped (standing_of self) header.now contents.now }
    {
        let number = self.number + 1;
        match self.coming.choose(header) {
            Some((field, coming)) => (
                call(&field, self.number, self.told, header, contents),
                Cursor {
                    coming,
                    number,
                    told: told_by(field.2, contents, self.told),
                },
            ),
            None => (
                Called {
                    name: "",
                    number: None,
                    alternative: "",
                    part: Part::Unknown,
                },
                Cursor {
                    coming: Coming::Fields(Part::Unknown, 0),
                    number,
                    told: self.told,
                },
            ),
        }
    }
}
