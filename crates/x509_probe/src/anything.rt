//! Objects of any kind, alone and one behind another, by the calls that are x509_parser's own.

use x509_parser::{FoundObject, NoObject, Object, objects_in, parse_object};
use x509_probe_answers::{Answer, Show};

// What an object is.
fn put_object(object: &Object<'_>, out: &mut Answer) {
    match object {
        Object::Certificate(certificate) => {
            out.add("certificate ");
            certificate.show(out);
        }
        Object::List(list) => {
            out.add("list ");
            list.show(out);
        }
        Object::Request(request) => {
            out.add("request ");
            request.show(out);
        }
    }
}

// Why there is no object.
fn put_none(why: &NoObject, out: &mut Answer) {
    match why {
        NoObject::Refused(refusals) => {
            out.add("none: ");
            out.refusal(&refusals.certificate);
            out.add("; ");
            out.refusal(&refusals.list);
            out.add("; ");
            out.refusal(&refusals.request);
        }
        NoObject::OutOfMemory => out.stop(),
    }
}

// The object at the front, and the length of the rest.
fn put_any(a: &[u8], out: &mut Answer) {
    match parse_object(out.alloc(), a) {
        Ok((rest, object)) => {
            out.add("ok rest=");
            out.display(&rest.len());
            out.add(" ");
            put_object(&object, out);
        }
        Err(why) => put_none(&why, out),
    }
}

// Where an object stands, how long it is, and what it is.
fn put_found(found: &FoundObject<'_>, out: &mut Answer) {
    out.add("[");
    out.display(&found.offset);
    out.add("+");
    out.display(&found.octets.len());
    out.add(" ");
    match &found.object {
        Ok(object) => put_object(object, out),
        Err(why) => put_none(why, out),
    }
    out.add("]");
}

// All objects, one behind another.
fn put_all(a: &[u8], out: &mut Answer) {
    for found in objects_in(out.alloc(), a) {
        put_found(&found, out);
    }
}

// The text of why there is no object.
fn put_no_object(a: &[u8], out: &mut Answer) {
    match parse_object(out.alloc(), a) {
        Ok(_) => out.add("ok"),
        Err(NoObject::OutOfMemory) => out.stop(),
        Err(why) => out.display(&why),
    }
}

/// Adds the answer of a call; false where the word names none.
pub fn answer(word: &str, a: &[u8], out: &mut Answer) -> bool {
    match word {
        "object_any" => put_any(a, out),
        "objects_in" => put_all(a, out),
        "no_object_text" => put_no_object(a, out),
        _ => return false,
    }
    true
}
