//! General names, and the values of extensions that hold them.

use crate::show::answer::Answer;
use crate::show::base::{Show, put_all};
use crate::show::usages::{Hasher, put_digits, put_flags};
use std::collections::HashMap;
use std::fmt;
use x509_der::Oid;
use x509_fields::X509Error;
use x509_general_names::{
    AccessDescription, AccessIter, AuthorityInfoAccess, AuthorityKeyIdentifier,
    CRLDistributionPoint, CRLDistributionPoints, DistributionPointName, GeneralName,
    GeneralSubtree, IssuerAlternativeName, IssuingDistributionPoint, KeyIdentifier,
    NameConstraints, ReasonFlags, SubjectAlternativeName, SubjectInfoAccess,
};

// A word and a text.
fn put_text(out: &mut Answer, word: &str, text: &str) {
    put_octets(out, word, text.as_bytes());
}

// A word and bytes.
fn put_octets(out: &mut Answer, word: &str, bytes: &[u8]) {
    out.add(word);
    out.add(",");
    out.hex(bytes);
}

// The kind of a general name, and its contents.
fn put_name(out: &mut Answer, name: &GeneralName<'_>) {
    match name {
        GeneralName::OtherName(id, value) => {
            put_octets(out, "OtherName", id.as_bytes());
            out.add(",");
            out.hex(value);
        }
        GeneralName::RFC822Name(text) => put_text(out, "RFC822Name", text),
        GeneralName::DNSName(text) => put_text(out, "DNSName", text),
        GeneralName::X400Address(any) => {
            out.add("X400Address,");
            any.show(out);
        }
        GeneralName::DirectoryName(name) => {
            out.add("DirectoryName,");
            name.show(out);
        }
        GeneralName::EDIPartyName(any) => {
            out.add("EDIPartyName,");
            any.show(out);
        }
        GeneralName::URI(text) => put_text(out, "URI", text),
        GeneralName::IPAddress(bytes) => put_octets(out, "IPAddress", bytes),
        GeneralName::RegisteredID(id) => put_octets(out, "RegisteredID", id.as_bytes()),
        GeneralName::Invalid(tag, bytes) => {
            let number = tag.0;
            out.add("Invalid,");
            out.display(&number);
            out.add(",");
            out.hex(bytes);
        }
    }
}

impl Show for GeneralName<'_> {
    fn show(&self, out: &mut Answer) {
        out.add("gn(");
        put_name(out, self);
        out.add(";");
        out.display_hex(self);
        out.add(")");
    }
}

impl Show for SubjectAlternativeName<'_> {
    fn show(&self, out: &mut Answer) {
        self.general_names.show(out);
    }
}

impl Show for IssuerAlternativeName<'_> {
    fn show(&self, out: &mut Answer) {
        self.general_names.show(out);
    }
}

impl Show for GeneralSubtree<'_> {
    fn show(&self, out: &mut Answer) {
        self.base.show(out);
    }
}

impl Show for NameConstraints<'_> {
    fn show(&self, out: &mut Answer) {
        out.add("nc(");
        self.permitted_subtrees.show(out);
        out.add(";");
        self.excluded_subtrees.show(out);
        out.add(")");
    }
}

// Shown by `LowerHex`.
#[derive(Clone, Copy)]
struct Lower<'a>(KeyIdentifier<'a>);

impl fmt::Display for Lower<'_> {
    fn fmt<W: fmt::Write>(&self, f: &mut fmt::Formatter<W>) -> fmt::Result {
        fmt::LowerHex::fmt(&self.0, f)
    }
}

impl Show for KeyIdentifier<'_> {
    fn show(&self, out: &mut Answer) {
        out.add("ki(");
        out.hex(self.0);
        out.add(";");
        out.display(&Lower(*self));
        out.add(")");
    }
}

impl Show for AuthorityKeyIdentifier<'_> {
    fn show(&self, out: &mut Answer) {
        out.add("aki(");
        self.key_identifier.show(out);
        out.add(";");
        self.authority_cert_issuer.show(out);
        out.add(";");
        match self.authority_cert_serial {
            Some(serial) => out.hex(serial),
            None => out.add("-"),
        }
        out.add(")");
    }
}

impl Show for ReasonFlags {
    fn show(&self, out: &mut Answer) {
        put_flags(
            out,
            "rf",
            &self.flags,
            self,
            &[
                self.key_compromise(),
                self.ca_compromise(),
                self.affilation_changed(),
                self.superseded(),
                self.cessation_of_operation(),
                self.certificate_hold(),
                self.privelege_withdrawn(),
                self.aa_compromise(),
            ],
        );
    }
}

impl Show for DistributionPointName<'_> {
    fn show(&self, out: &mut Answer) {
        match self {
            DistributionPointName::FullName(names) => {
                out.add("full");
                names.show(out);
            }
            DistributionPointName::NameRelativeToCRLIssuer(relative) => {
                out.add("relative ");
                relative.show(out);
            }
        }
    }
}

impl Show for CRLDistributionPoint<'_> {
    fn show(&self, out: &mut Answer) {
        out.add("dp(");
        self.distribution_point.show(out);
        out.add(";");
        self.reasons.show(out);
        out.add(";");
        self.crl_issuer.show(out);
        out.add(")");
    }
}

impl Show for CRLDistributionPoints<'_> {
    fn show(&self, out: &mut Answer) {
        put_all(out, self.points());
    }
}

impl Show for IssuingDistributionPoint<'_> {
    fn show(&self, out: &mut Answer) {
        out.add("idp(");
        self.distribution_point.show(out);
        out.add(";");
        put_digits(
            out,
            &[self.only_contains_user_certs, self.only_contains_ca_certs],
        );
        out.add(";");
        self.only_some_reasons.show(out);
        out.add(";");
        put_digits(
            out,
            &[self.indirect_crl, self.only_contains_attribute_certs],
        );
        out.add(")");
    }
}

impl Show for AccessDescription<'_> {
    fn show(&self, out: &mut Answer) {
        out.add("ad(");
        out.hex(self.access_method.as_bytes());
        out.add(";");
        self.access_location.show(out);
        out.add(")");
    }
}

// The locations of accesses, by their methods.
type Groups<'v, 'a> = HashMap<Oid<'a>, Vec<&'v GeneralName<'a>>, Hasher>;

// For each access, how many locations its method has. (The borrow checker has no rule for those that are lent, so
// which they are is shown by `into_hashmap` alone.)
fn put_groups<'v, 'a>(
    out: &mut Answer,
    accesses: &'v [AccessDescription<'a>],
    map: &Groups<'v, 'a>,
) {
    out.display(&map.len());
    for access in accesses {
        out.add("{");
        if let Some(group) = map.get(&access.access_method) {
            out.display(&group.len());
        }
        out.add("}");
    }
}

// All accesses, by an iterator, and how many locations each method has.
fn put_accesses<'v, 'a>(
    out: &mut Answer,
    iterator: AccessIter<'v, 'a>,
    accesses: &'v [AccessDescription<'a>],
    groups: Result<Groups<'v, 'a>, X509Error>,
) {
    out.add("ia[");
    for access in iterator {
        access.show(out);
    }
    out.add("]");
    match groups {
        Ok(map) => put_groups(out, accesses, &map),
        Err(kind) => out.error(&kind),
    }
}

impl Show for AuthorityInfoAccess<'_> {
    fn show(&self, out: &mut Answer) {
        let groups = self.as_hashmap(out.alloc(), Hasher::new());
        put_accesses(out, self.iter(), self.accessdescs.as_slice(), groups);
    }
}

impl Show for SubjectInfoAccess<'_> {
    fn show(&self, out: &mut Answer) {
        let groups = self.as_hashmap(out.alloc(), Hasher::new());
        put_accesses(out, self.iter(), self.accessdescs.as_slice(), groups);
    }
}
