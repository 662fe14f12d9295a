//! Identifiers from text, and the names of the bits that are set.

use crate::show::{Answer, Tells, look_in};
use std::str;
use x509_fields::BitNames;
use x509_general_names::ReasonFlags;
use x509_names::{OidBuf, ParseOidError};
use x509_values::{KeyUsage, NSCertType};

// The octets of an identifier and its text; a copy that is another shows.
fn put_owned(oid: &OidBuf, out: &mut Answer) {
    out.hex(oid.as_bytes());
    out.add(",");
    out.display_hex(oid);
    match oid.try_clone() {
        Ok(copy) => {
            if copy != *oid {
                out.add(" COPY");
            }
        }
        Err(_) => out.stop(),
    }
}

// The octets of an identifier with this text, and its text again.
fn put_parsed(a: &[u8], out: &mut Answer) {
    let Ok(text) = str::from_utf8(a) else {
        out.add("no text");
        return;
    };
    match OidBuf::parse(out.alloc(), text) {
        Ok(oid) => put_owned(&oid, out),
        Err(ParseOidError::OutOfMemory) => out.stop(),
        Err(kind) => {
            out.add("error ");
            out.debug(&kind);
        }
    }
}

// The text of the error where a text names no identifier.
fn put_parse_error(a: &[u8], out: &mut Answer) {
    let Ok(text) = str::from_utf8(a) else {
        out.add("no text");
        return;
    };
    match OidBuf::parse(out.alloc(), text) {
        Ok(_) => out.add("ok"),
        Err(ParseOidError::OutOfMemory) => out.stop(),
        Err(kind) => out.display(&kind),
    }
}

// The names of the bits that are set.
fn put_names(names: BitNames, out: &mut Answer) {
    let mut is_first = true;
    for name in names {
        if !is_first {
            out.add(",");
        }
        is_first = false;
        out.add(name);
    }
}

/// The names of the bits that are set.
struct Names;

impl Tells<Names> for KeyUsage {
    fn tell(&self, _asked: &Names, out: &mut Answer) {
        put_names(self.names(), out);
    }
}

impl Tells<Names> for NSCertType {
    fn tell(&self, _asked: &Names, out: &mut Answer) {
        put_names(self.names(), out);
    }
}

impl Tells<Names> for ReasonFlags {
    fn tell(&self, _asked: &Names, out: &mut Answer) {
        put_names(self.names(), out);
    }
}

/// Adds the answer of a call; false where the word names none.
pub fn answer(word: &str, a: &[u8], out: &mut Answer) -> bool {
    match word {
        "oid_parse" => put_parsed(a, out),
        "oid_parse_error" => put_parse_error(a, out),
        "key_usage_names" => look_in::<KeyUsage, _>(out, &Names, a),
        "ns_cert_type_names" => look_in::<NSCertType, _>(out, &Names, a),
        "reason_flags_names" => look_in::<ReasonFlags, _>(out, &Names, a),
        _ => return false,
    }
    true
}
