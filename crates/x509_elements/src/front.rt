//! The element at the front of a window.

ghost use Rattle.std.specs.Prelude.{◌≡◌, ◌+◌, ◌<◌, ◌≤◌, ◌^◌, IfOk, Ok, length};
ghost use Rattle.x509_der.specs.Reading.{Gives};
ghost use Rattle.x509_elements.specs.Fronts.{front_at, front_of, is_bits, is_value, own_in};
ghost use Rattle.x509_elements.specs.Cursors.{standing_of};

use crate::cursor::{Called, Cursor};
use crate::seen::{holds_sequence, is_one};
use x509_der::{BerError, Class, Err, Header, Tag, Tries, read_header_loose};

/// The element at the front of a window.
#[derive(Clone, Copy)]
pub(crate) struct Front {
    pub(crate) header: Header,
    /// How many octets its header has.
    pub(crate) size: usize,
    /// How many octets of its contents are there.
    pub(crate) there: usize,
    /// What it is called.
    pub(crate) called: Called,
    /// Where reading stands behind it.
    pub(crate) next: Cursor,
    /// How many octets its line holds.
    pub(crate) own: usize,
}

/// Whether an element of this name is the value of an extension.
fn is_value(name: &str, header: &Header) -> bool
    ensures { result ≡ is_value name.now header.now }
{
    matches!(header.class, Class::Universal)
        && header.tag == Tag::OctetString
        && name == "extnValue"
}

/// Whether an element of this name is a key or a signature.
fn is_bits(name: &str, header: &Header) -> bool
    ensures { result ≡ is_bits name.now header.now }
{
    matches!(header.class, Class::Universal)
        && header.tag == Tag::BitString
        && (name == "subjectPublicKey" || name == "signatureValue" || name == "signature")
}

/// How many octets of its contents the line of an element holds.
fn own_in(name: &str, header: &Header, contents: &[u8]) -> usize
    ensures own { result ≡ own_in name.now header.now contents.now }
    ensures within { result ≤ length contents.now }
{
    if header.constructed {
        0
    } else if is_value(name, header) && is_one(contents) {
        0
    } else if is_bits(name, header) && holds_sequence(contents) {
        1
    } else {
        contents.len()
    }
}

/// The element at the front of a window; why none stands there.
#[tactic(auto, unfolding(crate::specs::Fronts::front_at))]
pub(crate) fn front_element(cursor: Cursor, window: &[u8]) -> Result<Front, Err<BerError>>
    requires { (standing_of cursor).number + 1 < 2 ^ 64 }
    ensures front { Gives front_of result (front_at (standing_of cursor) window.now) }
    ensures some { IfOk result (λ f. 0 < f.own) }
    ensures own { IfOk result (λ f. f.own ≤ f.size + f.there) }
    ensures whole { IfOk result (λ f. f.size + f.there ≤ length window.now) }
{
    let (rest, header) = read_header_loose(&mut Tries::new(), window)?;
    let size = window.len() - rest.len();
    let there = rest.len().min(header.length as usize);
    let contents = &rest[..there];
    let (called, next) = cursor.step(&header, contents);
    let own = size + own_in(called.name, &header, contents);
    Ok(Front {
        header,
        size,
        there,
        called,
        next,
        own,
    })
}
