//! The elements of an object, a line each.

use std::alloc::{AllocError, Global};
use x509_elements::{DumpLine, Part, dump};
use x509_probe_answers::Answer;
use x509_report_lines::{Text, push_line};

// A line as text.
fn line_text(alloc: Global, found: Result<DumpLine<'_>, AllocError>) -> Result<String, AllocError> {
    let line = found?;
    let mut text = Text::new(alloc);
    push_line(&mut text, &line);
    text.into_string()
}

// The lines of an object, each behind a bar, and one behind the last.
fn put_dump(object: Part, a: &[u8], out: &mut Answer) {
    let alloc = out.alloc();
    for found in dump(alloc, object, a) {
        match line_text(alloc, found) {
            Ok(text) => {
                for shown in text.as_str().lines() {
                    out.add("|");
                    out.add(shown);
                }
            }
            Err(AllocError) => out.stop(),
        }
    }
    out.add("|");
}

/// Adds the lines of an object; false where the word names none.
pub fn answer(word: &str, a: &[u8], out: &mut Answer) -> bool {
    match word {
        "dump" => put_dump(Part::Whole, a, out),
        "certificate_dump" => put_dump(Part::Certificate, a, out),
        "list_dump" => put_dump(Part::List, a, out),
        "request_dump" => put_dump(Part::Request, a, out),
        _ => return false,
    }
    true
}
