//! The names of the fields that lead to an octet of an object.

use std::alloc::AllocError;
use x509_elements::{Part, path_to};
use x509_probe_answers::{Answer, number_in};

// The names of the fields that lead to an octet of an object.
fn put_path(object: Part, a: &[u8], octet: &[u8], out: &mut Answer) {
    let Some(octet) = number_in(octet) else {
        out.add("four bytes");
        return;
    };
    match path_to(out.alloc(), object, a, octet as usize) {
        Ok(text) => out.add(text.as_str()),
        Err(AllocError) => out.stop(),
    }
}

/// Adds the path to an octet; false where the word names none.
pub fn answer(word: &str, a: &[u8], b: &[u8], out: &mut Answer) -> bool {
    match word {
        "certificate_path" => put_path(Part::Certificate, a, b, out),
        "list_path" => put_path(Part::List, a, b, out),
        "request_path" => put_path(Part::Request, a, b, out),
        _ => return false,
    }
    true
}
