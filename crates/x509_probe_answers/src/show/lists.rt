//! Lists of revoked certificates.

use crate::show::answer::Answer;
use crate::show::base::Show;
use std::alloc::Global;
use x509_fields::X509Error;
use x509_lists::{
    CertificateListEntries, CertificateListOf, CertificateRevocationList, RevokedCertificate,
    RevokedEntries, TbsCertListOf,
};

// Whether an extension is critical, and what it says, where it is there.
fn put_critical<T: Show>(out: &mut Answer, found: Option<(bool, T)>) {
    match found {
        Some((critical, value)) => {
            out.truth(critical);
            value.show(out);
        }
        None => out.add("-"),
    }
}

impl Show for RevokedCertificate<'_> {
    fn show(&self, out: &mut Answer) {
        out.add("entry(");
        out.hex(self.raw_serial());
        out.add(";");
        out.hex(self.user_certificate.as_bytes());
        out.add(";");
        out.hex(self.serial().as_bytes());
        out.add(";");
        out.made_hex(self.raw_serial_as_string(out.alloc()));
        out.add(";");
        self.revocation_date.show(out);
        out.add(";");
        for extension in self.iter_extensions() {
            extension.show(out);
        }
        out.add(";");
        put_critical(out, self.reason_code());
        out.add(";");
        put_critical(out, self.invalidity_date());
        out.add(")");
    }
}

/// As the list of them.
impl Show for RevokedEntries<'_> {
    fn show(&self, out: &mut Answer) {
        out.add("[");
        for entry in self.iter(out.alloc()) {
            match entry {
                Ok(entry) => entry.show(out),
                Err(_) => out.stop(),
            }
        }
        out.add("]");
    }
}

impl<R: Show> Show for TbsCertListOf<'_, R> {
    fn show(&self, out: &mut Answer) {
        out.add("tbl(");
        self.version.show(out);
        out.add(";");
        self.signature.show(out);
        self.issuer.show(out);
        self.this_update.show(out);
        self.next_update.show(out);
        out.add(";");
        self.revoked_certificates.show(out);
        for extension in self.iter_extensions() {
            extension.show(out);
        }
        out.add(";");
        out.hex(self.as_ref());
        out.add(")");
    }
}

// What a list says again behind its window.
fn put_again<R>(list: &CertificateListOf<'_, R>, out: &mut Answer) {
    list.version().show(out);
    out.add(";");
    out.hex(list.issuer().as_raw());
    out.add(";");
    list.last_update().show(out);
    list.next_update().show(out);
    out.add(";");
    list.crl_number().show(out);
}

// A list that has so many entries.
fn put_list<R: Show>(list: &CertificateListOf<'_, R>, entries: usize, out: &mut Answer) {
    out.add("crl(");
    list.tbs_cert_list.show(out);
    list.signature_algorithm.show(out);
    list.signature_value.show(out);
    out.add(";");
    out.hex(list.as_raw());
    out.add(";");
    if list.as_ref() != list.as_raw() {
        out.add("OTHER");
    }
    put_again(list, out);
    out.add(";");
    out.display(&entries);
    out.add(";");
    out.display(&list.extensions().len());
    out.add(")");
}

impl Show for CertificateRevocationList<'_> {
    fn show(&self, out: &mut Answer) {
        let mut entries = 0_usize;
        for _entry in self.iter_revoked_certificates() {
            entries = entries.wrapping_add(1);
        }
        put_list(self, entries, out);
    }
}

// Whether the serials, read without memory, are those of the entries, with nothing behind the last.
fn are_serials(alloc: Global, entries: &RevokedEntries<'_>) -> Result<bool, X509Error> {
    let mut left = *entries;
    for entry in entries.iter(alloc) {
        let entry = match entry {
            Ok(entry) => entry,
            Err(e) => return Err(e),
        };
        let (serial, behind) = match left.split_first() {
            Some((serial, behind)) => (serial, behind),
            None => return Ok(false),
        };
        if serial != entry.user_certificate {
            return Ok(false);
        }
        left = behind;
    }
    Ok(left.is_empty())
}

/// As the list that keeps its entries.
impl Show for CertificateListEntries<'_> {
    fn show(&self, out: &mut Answer) {
        let mut entries = 0_usize;
        for _entry in self.iter_revoked_certificates(out.alloc()) {
            entries = entries.wrapping_add(1);
        }
        put_list(self, entries, out);
        let revoked = &self.tbs_cert_list.revoked_certificates;
        if revoked.len() != entries || revoked.is_empty() != (entries == 0) {
            out.add("OTHER");
        }
        match are_serials(out.alloc(), revoked) {
            Ok(true) => {}
            Ok(false) => out.add("OTHER"),
            Err(_) => out.stop(),
        }
    }
}
