//! Why the values of extensions are refused, and where.

use crate::show::Answer;
use std::alloc::Global;
use x509_der::{Err, FromDer, Located, Reader};
use x509_extensions::{X509Extension, X509ExtensionParser};
use x509_fields::X509Error;

// Why the value of an extension is refused that wasn't looked at.
fn shallow_refusal(alloc: Global, a: &[u8]) -> Result<Option<Located<X509Error>>, Err<X509Error>> {
    let parser = X509ExtensionParser::new().with_deep_parse_extensions(false);
    match parser.parse(alloc, a) {
        Ok((_, extension)) => Ok(extension.value_refusal(alloc)),
        Err(why) => Err(why),
    }
}

// A refusal and its octet in the value; of a value that isn't refused what it is.
fn put_refusal(
    extension: &X509Extension<'_>,
    refusal: &Option<Located<X509Error>>,
    out: &mut Answer,
) {
    match refusal {
        Some(refusal) => {
            out.refusal(&refusal.why);
            out.add(" at=");
            out.display(&refusal.at);
        }
        None => {
            out.add("none ");
            out.add(extension.parsed_extension().kind());
        }
    }
}

// Why the value of an extension is refused; that the shallow extension says otherwise shows.
fn put_value(a: &[u8], out: &mut Answer) {
    let alloc = out.alloc();
    match X509Extension::from_der(alloc, a) {
        Ok((_, extension)) => {
            let refusal = extension.value_refusal(alloc);
            put_refusal(&extension, &refusal, out);
            if shallow_refusal(alloc, a) != Ok(refusal) {
                out.add(" SHALLOW");
            }
        }
        Err(why) => out.refusal(&why),
    }
}

/// Adds why the value of an extension is refused; false where the word is another.
pub fn answer(word: &str, a: &[u8], out: &mut Answer) -> bool {
    match word {
        "value_refusal" => put_value(a, out),
        _ => return false,
    }
    true
}
