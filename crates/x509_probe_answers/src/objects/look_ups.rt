//! Look-ups.

use crate::show::{Answer, Hasher, Show, Tells, look_at, look_in, put_result};
use std::collections::HashMap;
use x509_certs::{BasicExtension, TbsCertificate, X509Certificate, X509CertificateParser};
use x509_der::{FromDer, Oid, Reader, UnsignedBytes};
use x509_extensions::{X509Extension, extensions_map, find_extension, get_extension_unique};
use x509_fields::X509Error;
use x509_lists::{CertificateRevocationList, RevokedCertificate, TbsCertList, TbsCertListEntries};
use x509_names::X509Name;
use x509_requests::{ExtensionRequest, X509CertificationRequestInfo};
use x509_revoked::{EntriesIndex, IndexError, RevocationIndex};

/// The extensions by their identifiers.
type Map<'v, 'a> = HashMap<Oid<'a>, &'v X509Extension<'a>, Hasher>;

// The value of each of these in the map.
fn put_held<'v, 'a>(extensions: &'v [X509Extension<'a>], map: &Map<'v, 'a>, out: &mut Answer) {
    out.display(&map.len());
    for extension in extensions {
        match map.get(&extension.oid) {
            Some(held) => held.show(out),
            None => out.add("-"),
        }
    }
}

// The same of a map that was made.
fn put_map<'v, 'a>(
    extensions: &'v [X509Extension<'a>],
    made: Result<Map<'v, 'a>, X509Error>,
    out: &mut Answer,
) {
    match made {
        Ok(map) => put_held(extensions, &map, out),
        Err(kind) => out.error(&kind),
    }
}

// What an extension says, and whether it is critical.
fn put_typed<T: Show>(
    out: &mut Answer,
    word: &str,
    found: Result<Option<BasicExtension<&T>>, X509Error>,
) {
    out.add(word);
    match found {
        Ok(Some(extension)) => {
            out.truth(extension.critical);
            out.add(",");
            extension.value.show(out);
        }
        Ok(None) => out.add("-"),
        Err(kind) => out.error(&kind),
    }
}

/// What is found by an identifier.
#[derive(Clone, Copy)]
struct LookUps<'o>(Oid<'o>);

// What a certificate has by an identifier, or its signed part, which has the same.
macro_rules! put_by_identifier {
    ($value:ident, $oid:expr, $out:ident) => {
        $out.add("find ");
        $value.find_extension($oid).show($out);
        $out.add("|unique ");
        put_result($out, $value.get_extension_unique($oid));
        $out.add("|map ");
        let map = $value.extensions_map($out.alloc(), Hasher::new());
        put_map($value.extensions(), map, $out);
    };
}

// What it says by calls of their own.
macro_rules! put_all_typed {
    ($value:ident, $out:ident) => {
        put_typed($out, "|basic_constraints ", $value.basic_constraints());
        put_typed($out, "|key_usage ", $value.key_usage());
        put_typed($out, "|extended_key_usage ", $value.extended_key_usage());
        put_typed($out, "|policy_constraints ", $value.policy_constraints());
        put_typed($out, "|inhibit_anypolicy ", $value.inhibit_anypolicy());
        put_typed($out, "|policy_mappings ", $value.policy_mappings());
        put_typed($out, "|subject_alternative_name ", $value.subject_alternative_name());
        put_typed($out, "|name_constraints ", $value.name_constraints());
        $out.add("|ca ");
        $out.truth($value.is_ca());
    };
}

fn put_certificate(value: &X509Certificate<'_>, out: &mut Answer) {
    put_all_typed!(value, out);
}

impl Tells<LookUps<'_>> for X509Certificate<'_> {
    fn tell(&self, asked: &LookUps<'_>, out: &mut Answer) {
        put_by_identifier!(self, &asked.0, out);
        put_certificate(self, out);
    }
}

fn put_tbs(value: &TbsCertificate<'_>, out: &mut Answer) {
    put_all_typed!(value, out);
}

impl Tells<LookUps<'_>> for TbsCertificate<'_> {
    fn tell(&self, asked: &LookUps<'_>, out: &mut Answer) {
        put_by_identifier!(self, &asked.0, out);
        put_tbs(self, out);
    }
}

// The look-ups of an entry.
fn put_entry(entry: &RevokedCertificate<'_>, oid: &Oid<'_>, out: &mut Answer) {
    out.add("|entry ");
    entry.find_extension(oid).show(out);
    out.add(" ");
    let map = entry.extensions_map(out.alloc(), Hasher::new());
    put_map(entry.extensions(), map, out);
}

impl Tells<LookUps<'_>> for TbsCertList<'_> {
    fn tell(&self, asked: &LookUps<'_>, out: &mut Answer) {
        out.add("find ");
        self.find_extension(&asked.0).show(out);
        out.add("|map ");
        let map = self.extensions_map(out.alloc(), Hasher::new());
        put_map(self.extensions(), map, out);
    }
}

impl Tells<LookUps<'_>> for CertificateRevocationList<'_> {
    fn tell(&self, asked: &LookUps<'_>, out: &mut Answer) {
        let list = &self.tbs_cert_list;
        list.tell(asked, out);
        for entry in list.revoked_certificates.as_slice() {
            put_entry(entry, &asked.0, out);
        }
    }
}

impl Tells<LookUps<'_>> for X509CertificationRequestInfo<'_> {
    fn tell(&self, asked: &LookUps<'_>, out: &mut Answer) {
        out.add("find ");
        self.find_attribute(&asked.0).show(out);
        out.add("|map ");
        match self.attributes_map(out.alloc(), Hasher::new()) {
            Ok(map) => {
                out.display(&map.len());
                for attribute in self.attributes() {
                    map.get(&attribute.oid).copied().show(out);
                }
            }
            Err(kind) => out.error(&kind),
        }
    }
}

impl Tells<LookUps<'_>> for ExtensionRequest<'_> {
    fn tell(&self, asked: &LookUps<'_>, out: &mut Answer) {
        let extensions = self.extensions.as_slice();
        out.add("find ");
        find_extension(extensions, &asked.0).show(out);
        out.add("|unique ");
        put_result(out, get_extension_unique(extensions, &asked.0));
        out.add("|map ");
        let map = extensions_map(out.alloc(), extensions, Hasher::new());
        put_map(extensions, map, out);
    }
}

// A position, where there is one.
fn put_position(out: &mut Answer, position: Option<usize>) {
    match position {
        Some(position) => out.display(&position),
        None => out.add("-"),
    }
}

/// The first entry of a serial, by the scan and by the index.
#[derive(Clone, Copy)]
struct Serial<'s>(UnsignedBytes<'s>);

impl Tells<Serial<'_>> for TbsCertList<'_> {
    fn tell(&self, asked: &Serial<'_>, out: &mut Answer) {
        put_position(out, self.find_revoked(&asked.0));
        out.add(" ");
        match RevocationIndex::build(self) {
            Ok(index) => {
                put_position(out, index.find(&asked.0));
                let (position, compared) = index.find_counted(&asked.0);
                out.add(" ");
                put_position(out, position);
                out.add(" ");
                out.display(&index.len());
                out.add(" ");
                out.truth(index.is_empty());
                out.add(" ");
                out.display(&compared);
            }
            Err(kind) => out.error(&kind),
        }
    }
}

// A position and the entry there, where there is one.
fn put_found(out: &mut Answer, found: Result<Option<(usize, RevokedCertificate<'_>)>, X509Error>) {
    match found {
        Ok(Some((position, entry))) => {
            out.display(&position);
            out.add(" ");
            entry.show(out);
        }
        Ok(None) => out.add("-"),
        Err(kind) => out.error(&kind),
    }
}

/// The same in octets, and the entry.
impl Tells<Serial<'_>> for TbsCertListEntries<'_> {
    fn tell(&self, asked: &Serial<'_>, out: &mut Answer) {
        put_position(out, self.find_revoked(&asked.0));
        out.add(" ");
        let entries = &self.revoked_certificates;
        put_position(out, entries.position(&asked.0));
        out.add(" ");
        put_found(out, entries.find(out.alloc(), &asked.0));
    }
}

// Why there is no index. Want of memory is the program's own, and no answer.
fn put_index_error(out: &mut Answer, why: IndexError) {
    match why {
        IndexError::OutOfMemory => out.stop(),
        _ => {
            out.debug(&why);
            out.add(" (");
            out.display(&why);
            out.add(")");
        }
    }
}

// An index as octets.
fn put_index(out: &mut Answer, index: &EntriesIndex<'_>) {
    match index.to_bytes(out.alloc()) {
        Ok(file) => out.hex(file.as_slice()),
        Err(why) => put_index_error(out, why),
    }
}

/// The entry of a serial by the index over the octets, beside the scan.
#[derive(Clone, Copy)]
struct Indexed<'s>(UnsignedBytes<'s>);

impl Tells<Indexed<'_>> for TbsCertListEntries<'_> {
    fn tell(&self, asked: &Indexed<'_>, out: &mut Answer) {
        let entries = &self.revoked_certificates;
        put_position(out, entries.position(&asked.0));
        out.add(" ");
        match EntriesIndex::build(out.alloc(), entries) {
            Ok(index) => {
                let (offset, compared) = index.find_counted(&asked.0);
                put_position(out, offset);
                out.add(" ");
                out.display(&index.len());
                out.add(" ");
                out.truth(index.is_empty());
                out.add(" ");
                out.display(&compared);
                out.add(" ");
                put_result(out, index.find(out.alloc(), &asked.0));
                out.add(" ");
                put_index(out, &index);
            }
            Err(why) => put_index_error(out, why),
        }
    }
}

/// An index that is read back, as octets once more.
#[derive(Clone, Copy)]
struct IndexFile<'f>(&'f [u8]);

impl Tells<IndexFile<'_>> for TbsCertListEntries<'_> {
    fn tell(&self, asked: &IndexFile<'_>, out: &mut Answer) {
        match EntriesIndex::from_bytes(out.alloc(), &self.revoked_certificates, asked.0) {
            Ok(index) => put_index(out, &index),
            Err(why) => put_index_error(out, why),
        }
    }
}

/// The entry of an issuer's serial.
#[derive(Drop)]
struct IssuedBy<'n, 's> {
    issuer: X509Name<'n>,
    serial: UnsignedBytes<'s>,
}

impl Tells<IssuedBy<'_, '_>> for TbsCertListEntries<'_> {
    fn tell(&self, asked: &IssuedBy<'_, '_>, out: &mut Answer) {
        put_found(
            out,
            self.find_for(out.alloc(), &asked.issuer, &asked.serial),
        );
    }
}

/// The same on a list that is kept, by its position.
impl Tells<IssuedBy<'_, '_>> for TbsCertList<'_> {
    fn tell(&self, asked: &IssuedBy<'_, '_>, out: &mut Answer) {
        match self.find_for(&asked.issuer, &asked.serial) {
            Ok(position) => put_position(out, position),
            Err(kind) => out.error(&kind),
        }
    }
}

// The entry of the serial that stands behind its issuer's name.
fn issued(out: &mut Answer, a: &[u8], b: &[u8]) {
    match X509Name::from_der(out.alloc(), b) {
        Ok((serial, issuer)) => {
            let serial = UnsignedBytes::new(serial);
            let asked = IssuedBy { issuer, serial };
            look_in::<TbsCertListEntries, _>(out, &asked, a);
            out.add(" ");
            look_in::<TbsCertList, _>(out, &asked, a);
        }
        Err(refusal) => out.refused(&refusal),
    }
}

// A certificate without what the values of its extensions say.
fn shallow(out: &mut Answer, a: &[u8], asked: &LookUps<'_>) {
    let parser = X509CertificateParser::new().with_deep_parse_extensions(false);
    let read = parser.parse(out.alloc(), a);
    look_at(out, asked, read);
}

/// Whom an entry names as the issuer of its certificate.
#[derive(Clone, Copy)]
struct CertificateIssuer;

impl Tells<CertificateIssuer> for RevokedCertificate<'_> {
    fn tell(&self, _asked: &CertificateIssuer, out: &mut Answer) {
        put_result(out, self.certificate_issuer(out.alloc()));
    }
}

// The words of entries of lists, and of one entry.
fn entries(word: &str, a: &[u8], b: &[u8], out: &mut Answer) -> bool {
    match word {
        "find_revoked" => {
            look_in::<TbsCertList, _>(out, &Serial(UnsignedBytes::new(b)), a);
        }
        "find_entry" => {
            look_in::<TbsCertListEntries, _>(out, &Serial(UnsignedBytes::new(b)), a);
        }
        "find_for" => issued(out, a, b),
        "certificate_issuer" => look_in::<RevokedCertificate, _>(out, &CertificateIssuer, a),
        "octets_index" => {
            look_in::<TbsCertListEntries, _>(out, &Indexed(UnsignedBytes::new(b)), a);
        }
        "index_from_bytes" => look_in::<TbsCertListEntries, _>(out, &IndexFile(b), a),
        _ => return false,
    }
    true
}

/// Adds the answer of a look-up; false where the word names none.
pub fn answer(word: &str, a: &[u8], b: &[u8], out: &mut Answer) -> bool {
    let asked = LookUps(Oid::new(b));
    match word {
        "look_certificate" => look_in::<X509Certificate, _>(out, &asked, a),
        "look_certificate_shallow" => shallow(out, a, &asked),
        "look_tbs" => look_in::<TbsCertificate, _>(out, &asked, a),
        "look_list" => look_in::<CertificateRevocationList, _>(out, &asked, a),
        "look_request" => look_in::<X509CertificationRequestInfo, _>(out, &asked, a),
        "look_extensions" => look_in::<ExtensionRequest, _>(out, &asked, a),
        _ => return entries(word, a, b, out),
    }
    true
}
