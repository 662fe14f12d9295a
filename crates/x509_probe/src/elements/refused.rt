//! The values of an object's extensions that can't be read.

use std::alloc::AllocError;
use x509_elements::{Part, refused_values};
use x509_probe_answers::Answer;

// Of each why, at which octet, and the octet at which the value begins.
fn put_refused_values(object: Part, a: &[u8], out: &mut Answer) {
    match refused_values(out.alloc(), object, a) {
        Ok(values) => {
            out.display(&values.len());
            for value in &values {
                out.add("; ");
                out.refusal(&value.why);
                out.add(" at=");
                out.display(&value.at);
                out.add(" value_at=");
                out.display(&value.value_at);
            }
        }
        Err(AllocError) => out.stop(),
    }
}

/// Adds the values of an object that can't be read; false where the word names none.
pub fn answer(word: &str, a: &[u8], out: &mut Answer) -> bool {
    match word {
        "certificate_refused_values" => put_refused_values(Part::Certificate, a, out),
        "list_refused_values" => put_refused_values(Part::List, a, out),
        "request_refused_values" => put_refused_values(Part::Request, a, out),
        _ => return false,
    }
    true
}
