//! Walks over certificates.

use crate::calls::recorder::{Recorder, RecorderByValue, Walk, WalkByValue, number, put_end};
use x509_certs::{TbsCertificate, X509Certificate, X509CertificateParser};
use x509_der::Reader;
use x509_fields::X509Error;
use x509_probe_answers::{Answer, Tells, look_at, look_in};
use x509_visitors::{CertificateVisit, CertificateVisits, WalkCertificate, X509CertificateVisitor};

impl CertificateVisits for RecorderByValue {
    ghost use Rattle.std.specs.Prelude.{⊤};

    ghost visit_step = { λ _ _ _ _. ⊤ };

    fn visit(&mut self, visit: CertificateVisit<'_, '_>) -> Result<(), X509Error> {
        self.0.visit(visit)
    }
}

impl Tells<Walk> for X509Certificate<'_> {
    fn tell(&self, asked: &Walk, out: &mut Answer) {
        let mut visitor = Recorder::new(out.alloc(), asked.0);
        let outcome = visitor.walk(self);
        put_end(out, outcome, visitor.log());
    }
}

impl Tells<WalkByValue> for X509Certificate<'_> {
    fn tell(&self, asked: &WalkByValue, out: &mut Answer) {
        let mut visitor = RecorderByValue(Recorder::new(out.alloc(), asked.0));
        let outcome = self.walk(&mut visitor);
        put_end(out, outcome, visitor.0.log());
    }
}

impl Tells<Walk> for TbsCertificate<'_> {
    fn tell(&self, asked: &Walk, out: &mut Answer) {
        let mut visitor = Recorder::new(out.alloc(), asked.0);
        let outcome = self.walk(&mut visitor);
        put_end(out, outcome, visitor.log());
    }
}

// The visits of a certificate without what the values of its extensions say.
fn shallow(a: &[u8], walk: Walk, out: &mut Answer) {
    let parser = X509CertificateParser::new().with_deep_parse_extensions(false);
    let read = parser.parse(out.alloc(), a);
    look_at(out, &walk, read);
}

/// Adds the visits; false where the word names none.
pub fn answer(word: &str, a: &[u8], b: &[u8], out: &mut Answer) -> bool {
    let refused = number(b);
    match word {
        "visits_certificate" => look_in::<X509Certificate, _>(out, &Walk(refused), a),
        "visits_certificate_by_value" => {
            look_in::<X509Certificate, _>(out, &WalkByValue(refused), a);
        }
        "visits_certificate_shallow" => shallow(a, Walk(refused), out),
        "visits_tbs" => look_in::<TbsCertificate, _>(out, &Walk(refused), a),
        _ => return false,
    }
    true
}
