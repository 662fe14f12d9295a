//! Certification requests.

use crate::show::answer::Answer;
use crate::show::base::Show;
use x509_requests::{
    ExtensionRequest, ParsedCriAttribute, X509CertificationRequest, X509CertificationRequestInfo,
    X509CriAttribute,
};

impl Show for ExtensionRequest<'_> {
    fn show(&self, out: &mut Answer) {
        self.extensions.show(out);
    }
}

impl Show for ParsedCriAttribute<'_> {
    fn show(&self, out: &mut Answer) {
        match self {
            ParsedCriAttribute::ChallengePassword(password) => {
                out.add("ChallengePassword,");
                out.hex(password.0.as_bytes());
            }
            ParsedCriAttribute::ExtensionRequest(request) => {
                out.add("ExtensionRequest,");
                request.show(out);
            }
            ParsedCriAttribute::UnsupportedAttribute => out.add("UnsupportedAttribute"),
        }
    }
}

impl Show for X509CriAttribute<'_> {
    fn show(&self, out: &mut Answer) {
        out.add("attr(");
        out.hex(self.oid.as_bytes());
        out.add(";");
        out.hex(self.value);
        out.add(";");
        self.parsed_attribute().show(out);
        out.add(")");
    }
}

impl Show for X509CertificationRequestInfo<'_> {
    fn show(&self, out: &mut Answer) {
        out.add("info(");
        self.version.show(out);
        out.add(";");
        self.subject.show(out);
        self.subject_pki.show(out);
        for attribute in self.iter_attributes() {
            attribute.show(out);
        }
        out.add(";");
        out.display(&self.attributes().len());
        out.add(";");
        out.hex(self.raw);
        out.add(")");
    }
}

impl Show for X509CertificationRequest<'_> {
    fn show(&self, out: &mut Answer) {
        out.add("csr(");
        self.certification_request_info.show(out);
        self.signature_algorithm.show(out);
        self.signature_value.show(out);
        out.add(";");
        out.hex(self.as_raw());
        out.add(";");
        if self.as_ref() != self.as_raw() {
            out.add("OTHER");
        }
        match self.requested_extensions() {
            Some(requested) => {
                for parsed in requested {
                    out.add("{");
                    parsed.show(out);
                    out.add("}");
                }
                out.add(";)");
            }
            None => out.add("-)"),
        }
    }
}
