//! Reports of objects, as JSON.

ghost use Rattle.std.specs.Prelude.{◌≡◌};
ghost use Rattle.x509_report_objects.specs.Objects.{object_told};
ghost use Rattle.x509_report_objects.specs.Attempts.{wishes_of};
ghost use Rattle.x509_c.specs.Reports.{TellsJson, nowhere, wishes_by};

use crate::status::{NOT_FOUND, OK, OUT_OF_MEMORY};
use crate::text::put_text;
use std::alloc::Global;
use x509_report_lines::Line;
use x509_report_objects::{Found, Wishes, object_line};

/// What is wanted by a kind's number: 1 certificates, 2 lists, 3 requests, 0 all three.
fn wishes(kind: u32, strict: bool) -> Wishes
    ensures { wishes_of result ≡ wishes_by kind strict }
{
    Wishes {
        certificates: kind == 0 || kind == 1,
        lists: kind == 0 || kind == 2,
        requests: kind == 0 || kind == 3,
        strict,
        fingerprints: false,
    }
}

/// Writes all that is said of the object at the front of the buffer, as one line of JSON without a newline: a certificate (kind 1), a
/// list (2), a request (3), or the first of these that it is (0). Where no reader of the kind takes it, the status is 50 and the line
/// says why each refuses it.
#[unsafe(no_mangle)]
pub extern "C" fn rtv_json(
    alloc: Global,
    der: &[u8],
    kind: u32,
    strict: bool,
    text: &mut [u8],
    length: &mut usize,
) -> u32
    ensures { TellsJson (object_told (wishes_by kind strict) nowhere der.now) text.new length.new
        ((text.new ≡ text.old) × (length.new ≡ length.old)) result }
{
    let place = Found {
        file: "-",
        index: 0,
        offset: 0,
        label: None,
    };
    let mut line = Line::new(alloc);
    let status = match object_line(&mut line, &wishes(kind, strict), &place, der) {
        Ok(Some(_)) => OK,
        Ok(None) => NOT_FOUND,
        Err(_) => return OUT_OF_MEMORY,
    };
    match line.into_text() {
        Ok(json) => {
            *length = put_text(json.as_slice(), text);
            status
        }
        Err(_) => OUT_OF_MEMORY,
    }
}
