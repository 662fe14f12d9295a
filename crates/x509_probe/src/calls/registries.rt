//! Names by registries of identifiers.

use x509_der::Oid;
use x509_fields::{NidError, X509Error};
use x509_names::{
    OidEntry, OidRegistry, X509Name, oid_registry, oid2abbrev, oid2description, oid2sn,
    registry_full,
};
use x509_probe_answers::{Answer, Tells, look_in};

// A name of an identifier, or that there is none.
fn put_word(out: &mut Answer, word: Result<&str, NidError>) {
    match word {
        Ok(text) => {
            out.add("+");
            out.hex(text.as_bytes());
        }
        Err(NidError) => out.add("NidError"),
    }
}

// The names of an identifier by a registry.
fn put_called<'a>(out: &mut Answer, oid: &Oid<'a>, registry: &OidRegistry<'a>) {
    put_word(out, oid2abbrev(oid, registry));
    out.add(" ");
    put_word(out, oid2sn(oid, registry));
    out.add(" ");
    put_word(out, oid2description(oid, registry));
    match registry.get(oid) {
        Some(entry) => {
            out.add(" entry ");
            out.hex(entry.sn().as_bytes());
            out.add(",");
            out.hex(entry.description().as_bytes());
        }
        None => out.add(" none"),
    }
}

// The names of an identifier by a registry of its own: empty, and with an entry for it, put in twice.
fn put_own_words<'a>(oid: Oid<'a>, out: &mut Answer) {
    let mut own = OidRegistry::new(out.alloc());
    put_called(out, &oid, &own);
    out.add("|");
    match own.insert(oid, OidEntry::new("first", "the first")) {
        Ok(first) => out.add(if first.is_none() { "new " } else { "old " }),
        Err(_) => out.stop(),
    }
    put_called(out, &oid, &own);
    out.add("|");
    match own.insert(oid, OidEntry::new("second", "the second")) {
        Ok(Some(entry)) => out.add(entry.sn()),
        Ok(None) => out.add("-"),
        Err(_) => out.stop(),
    }
    out.add(" ");
    put_called(out, &oid, &own);
}

// The names of an identifier by the registry with the names in daily use.
fn put_words_in_full(a: &[u8], out: &mut Answer) {
    match registry_full(out.alloc()) {
        Ok(table) => put_called(out, &Oid::new(a), &table),
        Err(_) => out.stop(),
    }
}

// The names of an identifier by the table, and by a registry of its own.
fn put_words(a: &[u8], out: &mut Answer) {
    let oid = Oid::new(a);
    match oid_registry(out.alloc()) {
        Ok(table) => put_called(out, &oid, &table),
        Err(_) => out.stop(),
    }
    out.add("|");
    put_own_words(oid, out);
}

/// Adds a text, or why there is none.
pub fn put_text(out: &mut Answer, text: Result<String, X509Error>) {
    match text {
        Ok(text) => {
            out.add("+");
            out.hex(text.as_bytes());
        }
        Err(kind) => out.error(&kind),
    }
}

// A name by three registries: the table, an empty one, and one with an entry for the identifier.
fn put_name<'o>(name: &X509Name<'_>, oid: Oid<'o>, out: &mut Answer) {
    let alloc = out.alloc();
    match oid_registry(alloc) {
        Ok(table) => put_text(out, name.to_string_with_registry(alloc, &table)),
        Err(_) => out.stop(),
    }
    out.add("|");
    let mut own: OidRegistry<'o> = OidRegistry::new(alloc);
    put_text(out, name.to_string_with_registry(alloc, &own));
    out.add("|");
    if own.insert(oid, OidEntry::new("own", "my own")).is_err() {
        out.stop();
    }
    put_text(out, name.to_string_with_registry(alloc, &own));
}

/// A name by registries, with an entry for the identifier.
#[derive(Clone, Copy)]
struct Registries<'o>(Oid<'o>);

impl Tells<Registries<'_>> for X509Name<'_> {
    fn tell(&self, asked: &Registries<'_>, out: &mut Answer) {
        put_name(self, asked.0, out);
    }
}

/// Adds names by registries; false where the word names none.
pub fn answer(word: &str, a: &[u8], b: &[u8], out: &mut Answer) -> bool {
    match word {
        "oid_words" => put_words(a, out),
        "oid_words_full" => put_words_in_full(a, out),
        "name_registry" => look_in::<X509Name, _>(out, &Registries(Oid::new(b)), a),
        _ => return false,
    }
    true
}
