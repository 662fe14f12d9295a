//! Certificates.

use crate::show::answer::Answer;
use crate::show::base::Show;
use x509_certs::{TbsCertificate, UniqueIdentifier, Validity, X509Certificate};

impl Show for Validity {
    fn show(&self, out: &mut Answer) {
        self.not_before.show(out);
        self.not_after.show(out);
    }
}

impl Show for UniqueIdentifier<'_> {
    fn show(&self, out: &mut Answer) {
        self.0.show(out);
    }
}

impl Show for TbsCertificate<'_> {
    fn show(&self, out: &mut Answer) {
        out.add("tbs(");
        self.version().show(out);
        out.add(";");
        out.hex(self.raw_serial());
        out.add(";");
        out.hex(self.serial.as_bytes());
        out.add(";");
        out.made_hex(self.raw_serial_as_string(out.alloc()));
        out.add(";");
        self.signature.show(out);
        self.issuer().show(out);
        self.validity().show(out);
        self.subject().show(out);
        self.public_key().show(out);
        self.issuer_uid.show(out);
        out.add(";");
        self.subject_uid.show(out);
        out.add(";");
        for extension in self.iter_extensions() {
            extension.show(out);
        }
        out.add(";");
        out.hex(self.as_ref());
        out.add(")");
    }
}

impl Show for X509Certificate<'_> {
    fn show(&self, out: &mut Answer) {
        out.add("cert(");
        self.tbs_certificate.show(out);
        self.signature_algorithm.show(out);
        self.signature_value.show(out);
        out.add(";");
        out.hex(self.as_raw());
        out.add(")");
    }
}
