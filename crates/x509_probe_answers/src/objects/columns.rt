//! What values say in words for keys and columns, and their texts for other programs.

use crate::show::{Answer, Show, Tells, look_at, look_in};
use std::alloc::AllocError;
use std::io;
use x509_certs::{X509Certificate, parse_x509_certificate_marked};
use x509_der::{Err, FromDer, Oid, Reader, UnsignedBytes};
use x509_extensions::{X509Extension, X509ExtensionParser};
use x509_fields::{AlgorithmIdentifier, ReasonCode, X509Error};
use x509_general_names::GeneralName;
use x509_keys::{HashAlgorithm, SubjectPublicKeyInfo, signature_hash};
use x509_lists::parse_x509_crl_marked;
use x509_names::{X509Name, registered_name};
use x509_requests::{parse_x509_csr, parse_x509_csr_marked};
use x509_values::ExtendedKeyUsage;

// A text, in hex.
fn put_text(out: &mut Answer, text: Result<String, AllocError>) {
    match text {
        Ok(text) => out.hex(text.as_bytes()),
        Err(AllocError) => out.stop(),
    }
}

/// The text of a name that never fails, and those of its values.
struct Lossy;

impl Tells<Lossy> for X509Name<'_> {
    fn tell(&self, _asked: &Lossy, out: &mut Answer) {
        let alloc = out.alloc();
        put_text(out, self.to_text_lossy(alloc));
        for relative in self.relative_names() {
            out.add(";");
            for attribute in relative.attributes() {
                out.add(",");
                put_text(out, attribute.to_text_lossy(alloc));
            }
        }
    }
}

// What a key is for, its curve and its size.
fn put_key_info(a: &[u8], out: &mut Answer) {
    match SubjectPublicKeyInfo::from_der(out.alloc(), a) {
        Ok((_, info)) => {
            out.add(info.key_algorithm().word());
            match info.named_curve() {
                Some(curve) => {
                    out.add(" ");
                    out.add(curve.word());
                    out.add("/");
                    out.display(&curve.field_bits());
                }
                None => out.add(" -"),
            }
            match info.key_size() {
                Some(size) => {
                    out.add(" ");
                    out.display(&size);
                }
                None => out.add(" -"),
            }
        }
        Err(refusal) => out.refused(&refusal),
    }
}

// The word of a hash, where there is one.
fn put_hash(out: &mut Answer, hash: Option<HashAlgorithm>) {
    out.add(match hash {
        Some(hash) => hash.word(),
        None => "-",
    });
}

// The hash that signatures of an algorithm are over.
fn put_signed(a: &[u8], out: &mut Answer) {
    match AlgorithmIdentifier::from_der(out.alloc(), a) {
        Ok((_, algorithm)) => put_hash(out, signature_hash(&algorithm)),
        Err(refusal) => out.refused(&refusal),
    }
}

/// What the value of an extension is.
struct Kind;

impl Tells<Kind> for X509Extension<'_> {
    fn tell(&self, _asked: &Kind, out: &mut Answer) {
        out.add(self.parsed_extension().kind());
    }
}

// The same where the value isn't looked at.
fn put_shallow_kind(a: &[u8], out: &mut Answer) {
    let parser = X509ExtensionParser::new().with_deep_parse_extensions(false);
    let read = parser.parse(out.alloc(), a);
    look_at(out, &Kind, read);
}

/// The address of a general name, as a text.
struct Address;

impl Tells<Address> for GeneralName<'_> {
    fn tell(&self, _asked: &Address, out: &mut Answer) {
        match self.ip() {
            Some(address) => out.display(&address),
            None => out.add("-"),
        }
    }
}

// The words of reasons.
fn put_reasons(out: &mut Answer, numbers: &[u8]) {
    for number in numbers {
        out.add(" ");
        out.add(ReasonCode(*number).word());
    }
}

// A number as text.
fn put_number(out: &mut Answer, a: &[u8]) {
    out.display(&UnsignedBytes::new(a));
}

// The name of an identifier by what is known here, and whether it is that of commonName.
fn put_registered(out: &mut Answer, a: &[u8]) {
    match registered_name(a) {
        Some(name) => out.add(name),
        None => out.add("-"),
    }
    out.add(" ");
    out.truth(Oid::new(a).is_octets(b"\x55\x04\x03"));
}

/// The other purposes of a usage: how many, the last, and all in order.
struct Members;

impl Tells<Members> for ExtendedKeyUsage<'_> {
    fn tell(&self, _asked: &Members, out: &mut Answer) {
        let count = self.other.len();
        out.display(&count);
        out.add(" ");
        match self.other.get(count.wrapping_sub(1)) {
            Some(last) => out.hex(last.as_bytes()),
            None => out.add("-"),
        }
        for oid in &self.other {
            out.add(",");
            out.hex(oid.as_bytes());
        }
    }
}

// Why a value isn't taken.
fn refusal_of<T: Show>(read: Result<(&[u8], T), Err<X509Error>>) -> Option<Err<X509Error>> {
    match read {
        Ok(_) => None,
        Err(refusal) => Some(refusal),
    }
}

// The refusal of a certificate as a text, and as an error of reads and writes.
fn put_io(a: &[u8], out: &mut Answer) {
    match refusal_of(X509Certificate::from_der(out.alloc(), a)) {
        Some(refusal) => {
            out.refused(&refusal);
            out.add(" ");
            out.display_hex(&refusal);
            let error: io::Error = refusal.into();
            out.add(" ");
            out.debug(&error.kind());
        }
        None => out.add("ok"),
    }
}

/// Adds what a reader answers: the length of the rest, and the value.
pub fn put_read<T: Show>(out: &mut Answer, read: Result<(&[u8], T), Err<X509Error>>) {
    match read {
        Ok((rest, value)) => {
            out.add("ok rest=");
            out.display(&rest.len());
            out.add(" ");
            value.show(out);
        }
        Err(refusal) => out.refusal(&refusal),
    }
}

// What a reader answers that tells the mark: the length of the rest and the mark, and the value.
fn put_marked<T: Show>(out: &mut Answer, read: Result<(&[u8], T, bool), Err<X509Error>>) {
    match read {
        Ok((rest, value, plain)) => {
            out.add("ok rest=");
            out.display(&rest.len());
            out.add(if plain { " plain " } else { " loose " });
            value.show(out);
        }
        Err(refusal) => out.refusal(&refusal),
    }
}

/// Adds the answer of a call; false where the word names none.
pub fn answer(word: &str, a: &[u8], out: &mut Answer) -> bool {
    let alloc = out.alloc();
    match word {
        "name_lossy" => look_in::<X509Name, _>(out, &Lossy, a),
        "key_info" => put_key_info(a, out),
        "hash_of" => put_hash(out, HashAlgorithm::of(a)),
        "signature_hash" => put_signed(a, out),
        "address" => look_in::<GeneralName, _>(out, &Address, a),
        "extension_kind" => look_in::<X509Extension, _>(out, &Kind, a),
        "extension_kind_shallow" => put_shallow_kind(a, out),
        "reason_words" => put_reasons(out, a),
        "unsigned_text" => put_number(out, a),
        "registered_name" => put_registered(out, a),
        "members" => look_in::<ExtendedKeyUsage, _>(out, &Members, a),
        "io_error" => put_io(a, out),
        "parse_csr" => put_read(out, parse_x509_csr(alloc, a)),
        "certificate_marked" => put_marked(out, parse_x509_certificate_marked(alloc, a)),
        "crl_marked" => put_marked(out, parse_x509_crl_marked(alloc, a)),
        "csr_marked" => put_marked(out, parse_x509_csr_marked(alloc, a)),
        _ => return false,
    }
    true
}
