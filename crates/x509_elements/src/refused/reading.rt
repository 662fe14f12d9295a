//! The values of extensions, among the lines of an object.

ghost use Rattle.std.specs.Prelude.{◌≡◌, ◌==◌, ◌&&◌, ◌∷◌, ◌++◌, ◌<◌, ◌^◌, ℕ, List, option_map};
ghost use Rattle.x509_der.specs.Primitives.{is_primitive};
ghost use Rattle.x509_elements.specs.Elements.{Line, line_of};
ghost use Rattle.x509_elements.specs.Readings.{found, values_left};
ghost use Rattle.x509_elements.specs.Values.{contents_at, end_of, is_identifier, is_member, is_value, values_in};

use crate::line::{DumpLine, What};
use crate::refused::value::{Contents, Value};
use x509_der::{Class, Header, Tag};

/// Whether an element is a primitive one of this universal type, of whose contents so many octets are there: all of them.
fn is_whole(header: &Header, there: usize, tag: Tag) -> bool
    ensures { result ≡ (is_primitive tag.0 header.now && there == header.now.length) }
{
    matches!(header.class, Class::Universal)
        && !header.constructed
        && header.tag == tag
        && there == header.length as usize
}

/// Whether a line is a primitive element of this name and universal type, with all of its contents.
fn is_member(line: &DumpLine<'_>, name: &str, tag: Tag) -> bool
    ensures { result ≡ is_member name.now tag.0 (line_of line.now) }
{
    match line.what {
        What::Element { header, there, .. } => {
            line.called.name == name && is_whole(&header, there, tag)
        }
        What::Refused(_) => false,
    }
}

/// Whether a line is the identifier of an extension.
fn is_identifier(line: &DumpLine<'_>) -> bool
    ensures { result ≡ is_identifier (line_of line.now) }
{
    is_member(line, "extnID", Tag::Oid)
}

/// Whether a line is the value of an extension.
fn is_value(line: &DumpLine<'_>) -> bool
    ensures { result ≡ is_value (line_of line.now) }
{
    is_member(line, "extnValue", Tag::OctetString)
}

/// The contents of an element.
fn contents_of(line: &DumpLine<'_>) -> Contents
    requires { end_of (line_of line.now) < 2 ^ 64 }
    ensures at { result.at ≡ contents_at (line_of line.now) }
    ensures end { result.end ≡ end_of (line_of line.now) }
{
    match line.what {
        What::Element { size, there, .. } => {
            let at = line.offset + size;
            Contents {
                at,
                end: at + there,
            }
        }
        What::Refused(_) => Contents {
            at: line.offset,
            end: line.offset,
        },
    }
}

/// Where reading stands among the lines of an object.
#[derive(Clone, Copy)]
pub(crate) struct Reading {
    /// The contents of an identifier, whose value comes next.
    id: Option<Contents>,
    /// Where the last value ends: lines before that are elements in it.
    from: usize,
}

impl Reading {
    /// Before the first line.
    #[tactic(auto, unfolding(crate::specs::Values::values_in))]
    pub(crate) fn new() -> Reading
        ensures { (octets : List ℕ) → (ls : List Line) → values_left octets result ls ≡ values_in octets ls }
    {
        Reading { id: None, from: 0 }
    }

    /// The value with the identifier before it, whose contents are these.
    fn value(self, contents: Contents) -> Option<Value>
        ensures { result ≡ option_map (λ id. record { id = id; contents = contents }) self.id }
    {
        match self.id {
            Some(id) => Some(Value { id, contents }),
            None => None,
        }
    }

    /// Where reading stands behind one line more, and the value that the line is.
    pub(crate) fn step(self, line: &DumpLine<'_>) -> (Reading, Option<Value>)
        requires { end_of (line_of line.now) < 2 ^ 64 }
        ensures { (octets : List ℕ) → (ls : List Line) →
            values_left octets self (line_of line.now ∷ ls) ≡ found octets result.1 ++ values_left octets result.0 ls }
    {
        if line.offset < self.from {
            return (self, None);
        }
        if is_identifier(line) {
            let id = Some(contents_of(line));
            return (Reading { id, ..self }, None);
        }
        if is_value(line) {
            let contents = contents_of(line);
            let from = contents.end;
            return (Reading { id: None, from }, self.value(contents));
        }
        (self, None)
    }
}
