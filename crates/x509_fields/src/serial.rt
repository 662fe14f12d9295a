//! The serial number (RFC 5280, section 4.1.2.2).

ghost use Rattle.std.specs.Prelude.{◌≡◌, ◌&&◌, IfOk};
ghost use Rattle.x509_der.specs.Fields.{next_of, plain_in, StepsLeaf, outer_of};
ghost use Rattle.x509_der.specs.Place.{at, outside_of};
ghost use Rattle.x509_der.specs.Primitives.{is_primitive};
ghost use Rattle.x509_der.specs.Promises.{ReadsLeaf};
ghost use Rattle.x509_fields.specs.Serial.{serial, are_fewest};

use crate::error::X509Error;
use x509_der::{Class, Err, Fields, Header, Outside, Place, Refused, Tag, Tries, named};

/// The contents of a serial: any element of number 2, whatever its class, form, length octets and contents.
#[inline(always)]
#[tactic(auto, unfolding(crate::specs::Serial::serial, crate::specs::Serial::serial_contents, x509_der::specs::Leaves::integer, x509_der::specs::Leaves::any_loose, x509_der::specs::Primitives::contents_at))]
pub fn serial_at<'a, L: Outside>(
    place: &Place<'a, L>,
) -> Result<(&'a [u8], bool), Refused<X509Error, L>>
    ensures reads { ReadsLeaf (λ x. x.0.now) serial L.adds (at place.now) (outside_of place.now) result }
    ensures marks { IfOk result (λ x. x.1 ≡ serial.marks (at place.now)) }
{
    let (any, strict) = named!(place.any_marked(), X509Error::InvalidSerial);
    if any.tag() != Tag::Integer {
        return Err(place.refuse(Err::Error(X509Error::InvalidSerial)));
    }
    let plain = strict && is_plain_integer(any.header(), any.as_bytes());
    Ok((any.as_bytes(), plain))
}

/// The contents of the serial that stands next.
#[inline(always)]
pub fn read_serial<'a, L: Outside>(
    tries: &mut Tries,
    fields: &Fields<'a, L>,
) -> Result<(Fields<'a, L>, &'a [u8]), Refused<X509Error, L>>
    ensures { StepsLeaf (λ x. (next_of x.0, x.1.now)) (λ x. outer_of x.0) (λ x. plain_in x.0) serial (plain_in fields.now) L.adds (next_of fields.now)
        (outer_of fields.now) tries.old tries.new result }
{
    let (contents, plain) = serial_at(&fields.place)?;
    Ok((fields.behind(tries, plain), contents))
}

// Whether an element of these contents is an INTEGER in the fewest octets.
#[inline(always)]
fn is_plain_integer(header: Header, contents: &[u8]) -> bool
    ensures { result ≡ (is_primitive 2 header && are_fewest contents.now) }
{
    if header.constructed || !matches!(header.class, Class::Universal) || header.tag.0 != 2 {
        return false;
    }
    match contents {
        [] => false,
        [_] => true,
        [0, 0..0x80, ..] | [0xff, 0x80..=0xff, ..] => false,
        _ => true,
    }
}
