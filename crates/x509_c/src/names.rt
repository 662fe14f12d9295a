//! Names, and their texts.

ghost use Rattle.std.specs.Prelude.{◌≡◌, codes};
ghost use Rattle.x509_der.specs.Hex.{hex_text};
ghost use Rattle.x509_der.specs.Oid.{oid_text};
ghost use Rattle.x509_names.specs.Names.{Attribute, attribute_of, name};
ghost use Rattle.x509_names.specs.NameTexts.{shown_name};
ghost use Rattle.x509_c.specs.Names.{IsAttributeRow};
ghost use Rattle.x509_c.specs.Rows.{CountsAndShows, numbered_from};
ghost use Rattle.x509_c.specs.Tells.{Tells, Done};
ghost use Rattle.x509_c.specs.Text.{ShowsText, TellsText};

use crate::row_writer::{HasNumberedRow, ItemsOf, tell_items};
use crate::status::{OK, OUT_OF_MEMORY, refused};
use crate::text::put_text;
use std::alloc::Global;
use x509_der::{FromDer, Oid};
use x509_fields::format_serial;
use x509_names::{AttributeTypeAndValue, RelativeDistinguishedName, X509Name};

/// Writes the text of the name at the front of the buffer, as `C=FR, CN=www.example.com`; its characters stand as they are in the name.
#[unsafe(no_mangle)]
pub extern "C" fn rtv_name_text(
    alloc: Global,
    der: &[u8],
    text: &mut [u8],
    length: &mut usize,
    at: &mut usize,
) -> u32
    ensures { Tells name der.now
        (λ n _. Done (ShowsText text.new length.new (shown_name n)))
        ((text.new ≡ text.old) × (length.new ≡ length.old))
        at.old at.new result }
{
    match X509Name::from_der_located(alloc, der) {
        Ok((_, read)) => match read.to_string(alloc) {
            Ok(shown) => {
                *length = put_text(shown.as_bytes(), text);
                OK
            }
            Err(_) => OUT_OF_MEMORY,
        },
        Err(refusal) => refused(refusal, at),
    }
}

/// Writes octets, as those of a serial, as pairs of hex digits with colons between them: `01:02:ff`.
#[unsafe(no_mangle)]
pub extern "C" fn rtv_hex_text(
    alloc: Global,
    octets: &[u8],
    text: &mut [u8],
    length: &mut usize,
) -> u32
    ensures { TellsText (hex_text (codes ":") octets.now) text.new length.new
        ((text.new ≡ text.old) × (length.new ≡ length.old)) result }
{
    match format_serial(alloc, octets) {
        Ok(shown) => {
            *length = put_text(shown.as_bytes(), text);
            OK
        }
        Err(_) => OUT_OF_MEMORY,
    }
}

/// Writes the text of the identifier with these contents: dotted, as `1.2.840.113549`, and else pairs of hex digits with spaces between
/// them.
#[unsafe(no_mangle)]
pub extern "C" fn rtv_oid_text(
    alloc: Global,
    oid: &[u8],
    text: &mut [u8],
    length: &mut usize,
) -> u32
    ensures { TellsText (oid_text oid.now) text.new length.new
        ((text.new ≡ text.old) × (length.new ≡ length.old)) result }
{
    match Oid::new(oid).to_string(alloc) {
        Ok(shown) => {
            *length = put_text(shown.as_bytes(), text);
            OK
        }
        Err(_) => OUT_OF_MEMORY,
    }
}

/// One attribute of a name: `rtv_attribute` of rushtrivet.h.
#[repr(C)]
#[derive(Clone, Copy)]
pub struct AttributeRow<'a> {
    /// The contents of the identifier of its type.
    pub oid: &'a [u8],
    /// The contents of its value.
    pub value: &'a [u8],
    /// The number of the relative name that it stands in, from 0 on.
    pub relative: usize,
    /// The number of the tag of its value.
    pub tag: u32,
}

impl<'a> HasNumberedRow for AttributeTypeAndValue<'a> {
    type Row = AttributeRow<'a>;

    ghost Value = { Attribute };

    ghost view = { attribute_of };

    ghost Shows = { IsAttributeRow };

    fn numbered_row(&self, number: usize) -> AttributeRow<'a> {
        AttributeRow {
            oid: self.attr_type().as_bytes(),
            value: self.as_slice(),
            relative: number,
            tag: self.attr_value().tag().0,
        }
    }
}

/// The attributes of relative names.
struct NameAttributes;

impl<'a> ItemsOf<RelativeDistinguishedName<'a>, AttributeTypeAndValue<'a>> for NameAttributes {
    ghost own = { λ r. r.set };

    fn items<'v>(member: &'v RelativeDistinguishedName<'a>) -> &'v [AttributeTypeAndValue<'a>] {
        member.attributes()
    }
}

/// Reads the name at the front of the buffer. Its attributes are written in order, as many as there are rows, and all of them are
/// counted.
#[unsafe(no_mangle)]
pub extern "C" fn rtv_read_name<'a>(
    alloc: Global,
    der: &'a [u8],
    attributes: &mut [AttributeRow<'a>],
    count: &mut usize,
    at: &mut usize,
) -> u32
    ensures { Tells name der.now
        (λ n _. Done (CountsAndShows IsAttributeRow attributes.new count.new (numbered_from 0 n.relative)))
        ((attributes.new ≡ attributes.old) × (count.new ≡ count.old))
        at.old at.new result }
{
    match X509Name::from_der_located(alloc, der) {
        Ok((_, read)) => {
            let relative = read.relative_names();
            tell_items::<AttributeTypeAndValue<'a>, _, NameAttributes>(attributes, count, relative)
        }
        Err(refusal) => refused(refusal, at),
    }
}
