//! The next of objects that stand one behind another.

ghost use Rattle.std.specs.Prelude.{◌≡◌, ◌<◌, ◌++◌, ℕ, List, MatchOption, MatchResult, [], length};
ghost use Rattle.std.specs.Iterator.{at_most};
ghost use Rattle.x509_parser.specs.Object.{IsObject, IsNoObject};
ghost use Rattle.x509_parser.specs.Objects.{IsNext, rest_of};

use crate::object::{NoObject, Object, parse_object};
use crate::object_iter::ObjectIter;
use std::alloc::Global;
use x509_der::{Elements, Tries};

/// What stands in a file, and where.
#[derive(Debug, Drop)]
pub struct FoundObject<'a> {
    /// How many octets stand before it.
    pub offset: usize,
    /// Its octets: an element, or all that is left where none is whole.
    pub octets: &'a [u8],
    /// What it is, or why it is none.
    pub object: Result<Object<'a>, NoObject>,
}

/// The element at the front, and what stands behind it; all octets where none stands.
fn first_element(octets: &[u8]) -> (&[u8], &[u8])
    ensures parts { octets.now ≡ result.0.now ++ result.1.now }
    ensures rest { result.1.now ≡ rest_of octets.now }
    ensures shorter { 0 < length octets.now → length result.1.now < length octets.now }
{
    let elements: Elements<'_, 1> = Elements::cut(&mut Tries::new(), octets);
    match elements.get(0) {
        Some(element) => (element.whole, elements.tail()),
        None => (octets, &[]),
    }
}

/// What the octets are, or why they are no object.
fn object_of<'a>(alloc: Global, octets: &'a [u8]) -> Result<Object<'a>, NoObject>
    ensures { MatchResult result (λ o. (rest : List ℕ) × IsObject octets.now rest o) (IsNoObject octets.now) }
{
    match parse_object(alloc, octets) {
        Ok((_, object)) => Ok(object),
        Err(refusals) => Err(refusals),
    }
}

impl<'a> Iterator for ObjectIter<'a> {
    type Item = FoundObject<'a>;

    ghost next_gives = { λ s r t. MatchOption r (s.left.now ≡ []) (λ x. IsNext s x t) };

    ghost remaining = { λ s. at_most (length s.left.now) };

    fn next(&mut self) -> Option<FoundObject<'a>> {
        if self.left.is_empty() {
            return None;
        }
        let (octets, left) = first_element(self.left);
        let offset = self.offset;
        self.left = left;
        self.offset += octets.len();
        let object = object_of(self.alloc, octets);
        Some(FoundObject {
            offset,
            octets,
            object,
        })
    }
}
