//! Iterators over the parts of a name.

ghost use Rattle.std.specs.Prelude.{◌≡◌, []};
ghost use Rattle.std.specs.Iterator.{YieldsFirstRef, item_count};
ghost use Rattle.x509_der.specs.Oid.{oid_bytes};
ghost use Rattle.x509_names.specs.Names.{attributes_in, with_type, attributes_left, matching_left};

use crate::name::{AttributeTypeAndValue, RelativeDistinguishedName};
use std::slice;
use x509_der::Oid;

/// The relative names of a name, in order.
pub type RdnIter<'v, 'a> = slice::Iter<'v, RelativeDistinguishedName<'a>>;

/// Attributes of relative names, in order.
#[derive(Debug, Drop)]
pub struct AttributeIter<'v, 'a> {
    attributes: slice::Iter<'v, AttributeTypeAndValue<'a>>,
    relative: slice::Iter<'v, RelativeDistinguishedName<'a>>,
}

impl<'v, 'a> AttributeIter<'v, 'a> {
    pub(crate) fn new(relative: &'v [RelativeDistinguishedName<'a>]) -> Self
        ensures { attributes_left result ≡ attributes_in relative.now }
    {
        AttributeIter {
            attributes: none().iter(),
            relative: relative.iter(),
        }
    }
}

impl<'v, 'a> Iterator for AttributeIter<'v, 'a> {
    type Item = &'v AttributeTypeAndValue<'a>;

    ghost next_gives = { YieldsFirstRef attributes_left };

    ghost remaining = { item_count attributes_left };

    fn next(&mut self) -> Option<&'v AttributeTypeAndValue<'a>> {
        'relative: loop {
            if let Some(attribute) = self.attributes.next() {
                return Some(attribute);
            }
            self.attributes = self.relative.next()?.set.as_slice().iter();
        }
    }
}

fn none<'v, T>() -> &'v [T]
    ensures { result.now ≡ [] }
{
    &[]
}

/// The attributes of one type, in order.
#[derive(Debug, Drop)]
pub struct AttributeByOid<'v, 'a> {
    oid: Oid<'a>,
    attributes: AttributeIter<'v, 'a>,
}

impl<'v, 'a> AttributeByOid<'v, 'a> {
    pub(crate) fn new(attributes: AttributeIter<'v, 'a>, oid: Oid<'a>) -> Self
        ensures { matching_left result ≡ with_type (oid_bytes oid.entry) (attributes_left attributes.entry) }
    {
        AttributeByOid { oid, attributes }
    }
}

impl<'v, 'a> Iterator for AttributeByOid<'v, 'a> {
    type Item = &'v AttributeTypeAndValue<'a>;

    ghost next_gives = { YieldsFirstRef matching_left };

    ghost remaining = { item_count matching_left };

    fn next(&mut self) -> Option<&'v AttributeTypeAndValue<'a>> {
        while let Some(attribute) = self.attributes.next() {
            if attribute.attr_type == self.oid {
                return Some(attribute);
            }
        }
        None
    }
}
