//! The path of fields that leads to an octet.

ghost use Rattle.std.specs.Prelude.{◌≡◌};
ghost use Rattle.x509_c.specs.FieldPaths.{TellsPath, object_by};

use crate::status::{NOT_FOUND, OK, OUT_OF_MEMORY};
use crate::text::put_text;
use std::alloc::Global;
use x509_elements::{Part, path_to};

/// What an object is, by its kind's number: 1 a certificate, 2 a list, 3 a request.
pub(crate) fn object_by(kind: u32) -> Option<Part>
    ensures { result ≡ object_by kind }
{
    match kind {
        1 => Some(Part::Certificate),
        2 => Some(Part::List),
        3 => Some(Part::Request),
        _ => None,
    }
}

/// Writes the names of the fields that lead to an octet of the object at the front of the buffer, as
/// `tbsCertificate.validity.notAfter`, by the kind's number: 1 a certificate, 2 a list, 3 a request; 50 where it is none of these. The
/// text is empty where the octet lies in no member of the object.
#[unsafe(no_mangle)]
pub extern "C" fn rtv_field_path(
    alloc: Global,
    der: &[u8],
    kind: u32,
    octet: usize,
    text: &mut [u8],
    length: &mut usize,
) -> u32
    ensures { TellsPath (object_by kind) der.now octet text.new length.new
        ((text.new ≡ text.old) × (length.new ≡ length.old)) result }
{
    match object_by(kind) {
        Some(object) => match path_to(alloc, object, der, octet) {
            Ok(path) => {
                *length = put_text(path.as_bytes(), text);
                OK
            }
            Err(_) => OUT_OF_MEMORY,
        },
        None => NOT_FOUND,
    }
}
