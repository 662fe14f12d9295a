//! Walks over lists.

use crate::calls::recorder::{Recorder, RecorderByValue, Walk, WalkByValue, number, put_end};
use x509_fields::X509Error;
use x509_lists::{CertificateRevocationList, TbsCertList};
use x509_probe_answers::{Answer, Tells, look_in};
use x509_visitors::{CertificateRevocationListVisitor, ListVisit, ListVisits, WalkRevocationList};

impl ListVisits for RecorderByValue {
    ghost use Rattle.std.specs.Prelude.{⊤};

    ghost visit_step = { λ _ _ _ _. ⊤ };

    fn visit(&mut self, visit: ListVisit<'_, '_>) -> Result<(), X509Error> {
        self.0.visit(visit)
    }
}

impl Tells<Walk> for CertificateRevocationList<'_> {
    fn tell(&self, asked: &Walk, out: &mut Answer) {
        let mut visitor = Recorder::new(out.alloc(), asked.0);
        let outcome = visitor.walk(self);
        put_end(out, outcome, visitor.log());
    }
}

impl Tells<WalkByValue> for CertificateRevocationList<'_> {
    fn tell(&self, asked: &WalkByValue, out: &mut Answer) {
        let mut visitor = RecorderByValue(Recorder::new(out.alloc(), asked.0));
        let outcome = self.walk(&mut visitor);
        put_end(out, outcome, visitor.0.log());
    }
}

impl Tells<Walk> for TbsCertList<'_> {
    fn tell(&self, asked: &Walk, out: &mut Answer) {
        let mut visitor = Recorder::new(out.alloc(), asked.0);
        let outcome = self.walk(&mut visitor);
        put_end(out, outcome, visitor.log());
    }
}

/// Adds the visits; false where the word names none.
pub fn answer(word: &str, a: &[u8], b: &[u8], out: &mut Answer) -> bool {
    let refused = number(b);
    match word {
        "visits_crl" => look_in::<CertificateRevocationList, _>(out, &Walk(refused), a),
        "visits_crl_by_value" => {
            look_in::<CertificateRevocationList, _>(out, &WalkByValue(refused), a);
        }
        "visits_tbs_cert_list" => look_in::<TbsCertList, _>(out, &Walk(refused), a),
        _ => return false,
    }
    true
}
