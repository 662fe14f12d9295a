//! Elements, fields and names.

use crate::show::answer::Answer;
use std::fmt;
use x509_der::{
    Any, BitString, Class, Err, FromDer, Header, Integer, Oid, ReadError, Sequence, UnsignedBytes,
};
use x509_fields::{ASN1Time, AlgorithmIdentifier, X509Error, X509Version};
use x509_names::{AttributeByOid, AttributeTypeAndValue, RelativeDistinguishedName, X509Name};

/// What has such a text. How a value is let go comes with it: it is proved here, once for each type, so who owns a value
/// does so in a function over any `T: Show`.
pub trait Show: Drop {
    /// Adds the text.
    fn show(&self, out: &mut Answer);
}

/// Adds a value that was made, or the name of the error.
pub fn put_result<T: Show, E: fmt::Debug + ReadError>(out: &mut Answer, made: Result<T, E>) {
    match made {
        Ok(value) => value.show(out),
        Err(kind) => out.error(&kind),
    }
}

/// What tells something of itself where it is asked so.
pub trait Tells<Q> {
    /// Adds it.
    fn tell(&self, asked: &Q, out: &mut Answer);
}

/// Adds what a value that was read tells where it is asked so, or that it can't be read.
pub fn look_at<T: Show + Tells<Q>, E: ReadError, Q>(
    out: &mut Answer,
    asked: &Q,
    read: Result<(&[u8], T), Err<E>>,
) {
    match read {
        Ok((_, value)) => value.tell(asked, out),
        Err(refusal) => out.refused(&refusal),
    }
}

/// The same of a value that is read at the front of the bytes.
pub fn look_in<'a, T: FromDer<'a, X509Error> + Show + Tells<Q>, Q>(
    out: &mut Answer,
    asked: &Q,
    i: &'a [u8],
) {
    let read = T::from_der(out.alloc(), i);
    look_at(out, asked, read);
}

/// Two values that were read; none where one can't be read, which is added.
pub fn both<T: Show, U: Show, E: ReadError>(
    out: &mut Answer,
    first: Result<(&[u8], T), Err<E>>,
    second: Result<(&[u8], U), Err<E>>,
) -> Option<(T, U)> {
    match first {
        Ok((_, first)) => match second {
            Ok((_, second)) => Some((first, second)),
            Err(refusal) => {
                out.refused(&refusal);
                None
            }
        },
        Err(refusal) => {
            out.refused(&refusal);
            None
        }
    }
}

/// The same of two values that are read at the front of their bytes.
pub fn read_both<'a, T: FromDer<'a, X509Error> + Show, U: FromDer<'a, X509Error> + Show>(
    out: &mut Answer,
    a: &'a [u8],
    b: &'a [u8],
) -> Option<(T, U)> {
    let alloc = out.alloc();
    both(out, T::from_der(alloc, a), U::from_der(alloc, b))
}

/// Bytes.
#[derive(Clone, Copy)]
pub struct Octets<'a>(pub &'a [u8]);

/// Text.
#[derive(Clone, Copy)]
pub struct Text<'a>(pub &'a str);

impl Show for bool {
    fn show(&self, out: &mut Answer) {
        out.truth(*self);
    }
}

impl Show for u32 {
    fn show(&self, out: &mut Answer) {
        out.display(self);
    }
}

impl Show for Octets<'_> {
    fn show(&self, out: &mut Answer) {
        out.hex(self.0);
    }
}

impl Show for Text<'_> {
    fn show(&self, out: &mut Answer) {
        out.hex(self.0.as_bytes());
    }
}

impl Show for Integer<'_> {
    fn show(&self, out: &mut Answer) {
        out.hex(self.as_bytes());
    }
}

impl Show for UnsignedBytes<'_> {
    fn show(&self, out: &mut Answer) {
        out.hex(self.as_bytes());
    }
}

impl Show for Header {
    fn show(&self, out: &mut Answer) {
        out.add(match self.class {
            Class::Universal => "universal",
            Class::Application => "application",
            Class::ContextSpecific => "context",
            Class::Private => "private",
        });
        out.add(if self.constructed { "/c/" } else { "/p/" });
        let (tag, length) = (self.tag.0, self.length);
        out.display(&tag);
        out.add("/");
        out.display(&length);
    }
}

impl Show for Any<'_> {
    fn show(&self, out: &mut Answer) {
        self.header().show(out);
        out.add("/");
        out.hex(self.as_bytes());
    }
}

impl Show for BitString<'_> {
    fn show(&self, out: &mut Answer) {
        out.display(&self.unused_bits);
        out.add(":");
        out.hex(self.bytes);
    }
}

impl Show for Oid<'_> {
    fn show(&self, out: &mut Answer) {
        out.hex(self.as_bytes());
        out.add(",");
        out.display_hex(self);
        out.add(",");
        out.debug_hex(self);
    }
}

impl Show for X509Version {
    fn show(&self, out: &mut Answer) {
        out.display(&self.0);
        out.add(",");
        out.display_hex(self);
    }
}

impl Show for AlgorithmIdentifier<'_> {
    fn show(&self, out: &mut Answer) {
        out.add("alg(");
        out.hex(self.oid().as_bytes());
        out.add(";");
        self.parameters().show(out);
        out.add(")");
    }
}

/// Adds all members.
pub fn put_all<T: Show>(out: &mut Answer, members: &[T]) {
    out.add("[");
    for member in members {
        member.show(out);
    }
    out.add("]");
}

impl<T: Show> Show for Sequence<T> {
    fn show(&self, out: &mut Answer) {
        put_all(out, self.as_slice());
    }
}

impl<T: Show> Show for &T {
    fn show(&self, out: &mut Answer) {
        (**self).show(out);
    }
}

impl<T: Show> Show for Option<T> {
    fn show(&self, out: &mut Answer) {
        match self {
            Some(value) => value.show(out),
            None => out.add("-"),
        }
    }
}

impl Show for AttributeTypeAndValue<'_> {
    fn show(&self, out: &mut Answer) {
        out.add("atv(");
        out.hex(self.attr_type().as_bytes());
        out.add(";");
        self.attr_value().show(out);
        out.add(";");
        match self.as_str() {
            Ok(text) => {
                out.add("str ");
                out.hex(text.as_bytes());
            }
            Err(kind) => out.error(&kind),
        }
        out.add(";");
        out.hex(self.as_slice());
        out.add(")");
    }
}

impl Show for RelativeDistinguishedName<'_> {
    fn show(&self, out: &mut Answer) {
        out.add("rdn[");
        for attribute in self.iter() {
            attribute.show(out);
        }
        out.add("]");
    }
}

impl Show for X509Name<'_> {
    fn show(&self, out: &mut Answer) {
        out.add("name(");
        for relative in self.iter() {
            relative.show(out);
        }
        out.add(";");
        out.hex(self.as_raw());
        out.add(";");
        out.display_hex(self);
        out.add(";all");
        for attribute in self.iter_attributes() {
            out.add(",");
            out.hex(attribute.as_slice());
        }
        put_named(out, self);
        out.add(")");
    }
}

/// Adds a word and the contents of the attributes of one type.
fn put_by_type(out: &mut Answer, word: &str, attributes: AttributeByOid<'_, '_>) {
    out.add(word);
    for attribute in attributes {
        out.add(",");
        out.hex(attribute.as_slice());
    }
}

/// Adds the attributes of seven types.
fn put_named(out: &mut Answer, name: &X509Name<'_>) {
    put_by_type(out, ";cn", name.iter_common_name());
    put_by_type(out, ";c", name.iter_country());
    put_by_type(out, ";o", name.iter_organization());
    put_by_type(out, ";ou", name.iter_organizational_unit());
    put_by_type(out, ";st", name.iter_state_or_province());
    put_by_type(out, ";l", name.iter_locality());
    put_by_type(out, ";email", name.iter_email());
}

impl Show for ASN1Time {
    fn show(&self, out: &mut Answer) {
        let (seconds, moment) = (self.timestamp(), self.to_datetime());
        let (offset, year) = (moment.offset_minutes(), moment.year());
        out.add("time(");
        out.display(&seconds);
        out.add(";");
        out.display_hex(self);
        out.add(";");
        out.truth(self.is_utctime());
        out.add(";");
        out.truth(self.is_generalizedtime());
        out.add(";");
        out.display(&offset);
        out.add(";");
        out.display(&year);
        out.add(")");
    }
}
