//! Numbers, identifiers and serials as texts, and certificates by calls of the facade.

use crate::objects::columns::put_read;
use crate::show::{Answer, Show, Tells, look_at};
use x509_certs::{X509Certificate, parse_x509_certificate, parse_x509_der};
use x509_der::{Oid, UnsignedBytes};
use x509_fields::{X509Version, format_serial};

/// Four octets as a number.
pub fn number_in(bytes: &[u8]) -> Option<u32> {
    match bytes {
        [b0, b1, b2, b3] => Some(u32::from_be_bytes([*b0, *b1, *b2, *b3])),
        _ => None,
    }
}

// Whether digits are a number.
fn put_number(out: &mut Answer, digits: &[u8], number: &[u8]) {
    match number_in(number) {
        Some(number) => {
            let equal = UnsignedBytes::new(digits).is_u32(number);
            out.add(if equal { "yes" } else { "no" });
        }
        None => out.add("four bytes"),
    }
}

// The text of a version.
fn put_version(number: &[u8], out: &mut Answer) {
    match number_in(number) {
        Some(number) => X509Version(number).show(out),
        None => out.add("four bytes"),
    }
}

// The text of a serial.
fn put_serial(a: &[u8], out: &mut Answer) {
    match format_serial(out.alloc(), a) {
        Ok(text) => out.add(text.as_str()),
        Err(kind) => out.named_error(&kind),
    }
}

// A certificate by two names of the same call.
fn put_parsed(a: &[u8], out: &mut Answer) {
    let alloc = out.alloc();
    put_read(out, parse_x509_certificate(alloc, a));
    out.add(" | ");
    put_read(out, parse_x509_der(alloc, a));
}

/// The fields of a certificate by calls of its own.
struct Fields;

impl Tells<Fields> for X509Certificate<'_> {
    fn tell(&self, _asked: &Fields, out: &mut Answer) {
        self.version().show(out);
        out.add(";");
        out.hex(self.raw_serial());
        out.add(";");
        out.made_hex(self.raw_serial_as_string(out.alloc()));
        out.add(";");
        out.hex(self.issuer().as_raw());
        out.add(";");
        out.hex(self.subject().as_raw());
        out.add(";");
        self.validity().show(out);
        out.add(";");
        out.hex(self.public_key().raw);
        out.add(";");
        out.display(&self.extensions().len());
        out.add(";");
        out.hex(self.as_ref());
    }
}

// The fields of a certificate.
fn put_fields(a: &[u8], out: &mut Answer) {
    let read = parse_x509_certificate(out.alloc(), a);
    look_at(out, &Fields, read);
}

/// Adds the answer of a call; false where the word names none.
pub fn answer(word: &str, a: &[u8], b: &[u8], out: &mut Answer) -> bool {
    match word {
        "is_u32" => put_number(out, a, b),
        "oid_text" => Oid::new(a).show(out),
        "version_text" => put_version(a, out),
        "format_serial" => put_serial(a, out),
        "parse" => put_parsed(a, out),
        "certificate_fields" => put_fields(a, out),
        _ => return false,
    }
    true
}
