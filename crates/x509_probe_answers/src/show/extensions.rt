//! Extensions.

use crate::show::answer::Answer;
use crate::show::base::Show;
use x509_extensions::{ExtensionSequence, ParsedExtension, X509Extension};

// A word and the value behind it.
fn put_value<T: Show>(out: &mut Answer, word: &str, value: &T) {
    out.add(word);
    out.add(",");
    value.show(out);
}

// What the value of an extension says.
fn put_parsed(out: &mut Answer, parsed: &ParsedExtension<'_>) {
    match parsed {
        ParsedExtension::UnsupportedExtension { oid } => {
            out.add("UnsupportedExtension,");
            out.hex(oid.as_bytes());
        }
        ParsedExtension::ParseError { error } => {
            out.add("ParseError,");
            out.refusal(error);
        }
        ParsedExtension::Unparsed => out.add("Unparsed"),
        ParsedExtension::SubjectKeyIdentifier(value) => put_value(
            out,
            "SubjectKeyIdentifier",
            value,
        ),
        ParsedExtension::KeyUsage(value) => put_value(out, "KeyUsage", value),
        ParsedExtension::SubjectAlternativeName(value) => put_value(
            out,
            "SubjectAlternativeName",
            value,
        ),
        ParsedExtension::IssuerAlternativeName(value) => put_value(
            out,
            "IssuerAlternativeName",
            value,
        ),
        ParsedExtension::BasicConstraints(value) => put_value(out, "BasicConstraints", value),
        ParsedExtension::CRLNumber(value) => put_value(out, "CRLNumber", value),
        ParsedExtension::ReasonCode(value) => put_value(out, "ReasonCode", value),
        ParsedExtension::InvalidityDate(value) => put_value(out, "InvalidityDate", value),
        ParsedExtension::IssuingDistributionPoint(value) => put_value(
            out,
            "IssuingDistributionPoint",
            value,
        ),
        ParsedExtension::NameConstraints(value) => put_value(out, "NameConstraints", value),
        ParsedExtension::CRLDistributionPoints(value) => put_value(
            out,
            "CRLDistributionPoints",
            value,
        ),
        ParsedExtension::CertificatePolicies(value) => put_value(out, "CertificatePolicies", value),
        ParsedExtension::PolicyMappings(value) => put_value(out, "PolicyMappings", value),
        ParsedExtension::AuthorityKeyIdentifier(value) => put_value(
            out,
            "AuthorityKeyIdentifier",
            value,
        ),
        ParsedExtension::PolicyConstraints(value) => put_value(out, "PolicyConstraints", value),
        ParsedExtension::ExtendedKeyUsage(value) => put_value(out, "ExtendedKeyUsage", value),
        ParsedExtension::InhibitAnyPolicy(value) => put_value(out, "InhibitAnyPolicy", value),
        ParsedExtension::AuthorityInfoAccess(value) => put_value(out, "AuthorityInfoAccess", value),
        ParsedExtension::SubjectInfoAccess(value) => put_value(out, "SubjectInfoAccess", value),
        ParsedExtension::SCT(value) => put_value(out, "SCT", value),
        ParsedExtension::NSCertType(value) => put_value(out, "NSCertType", value),
        ParsedExtension::NsCertComment(text) => {
            out.add("NsCertComment,");
            out.hex(text.as_bytes());
        }
    }
}

impl Show for ParsedExtension<'_> {
    fn show(&self, out: &mut Answer) {
        put_parsed(out, self);
        if self.unsupported() {
            out.add(",unsupported");
        }
        if let Some(error) = self.error() {
            out.add(",");
            out.refusal(error);
        }
    }
}

impl Show for X509Extension<'_> {
    fn show(&self, out: &mut Answer) {
        out.add("ext(");
        out.hex(self.oid.as_bytes());
        out.add(";");
        out.truth(self.critical);
        out.add(";");
        out.hex(self.value);
        out.add(";");
        self.parsed_extension().show(out);
        out.add(")");
    }
}

impl Show for ExtensionSequence<'_> {
    fn show(&self, out: &mut Answer) {
        self.list.show(out);
    }
}
