//! The report of a certificate.

ghost use Rattle.std.specs.Prelude.{◌≡◌, MatchResult};
ghost use Rattle.x509_certs.specs.Certificate.{Certificate, certificate_of};
ghost use Rattle.x509_show.specs.declared.stop.Stop.TheVariants.{Memory};
ghost use Rattle.x509_show.specs.Report.{IsOnly};
ghost use Rattle.x509_show.specs.CertificateReport.{IsCertificateReport, IsStrictCertificateReport, certificate_text};

use crate::front_report::{Shown, front_report};
use crate::lines::{push_extensions, push_line};
use crate::report::Report;
use crate::stop::Stop;
use std::alloc::Global;
use x509_certs::{X509Certificate, X509CertificateParser, parse_x509_certificate_strict};
use x509_der::Reader;

impl Shown for X509Certificate<'_> {
    ghost Value = { Certificate };

    ghost view = { certificate_of };

    ghost lines = { certificate_text };

    #[tactic(auto, unfolding(crate::specs::CertificateReport::certificate_text))]
    fn text(&self, alloc: Global, rest: &[u8]) -> Result<String, Stop> {
        let Ok(serial) = self.raw_serial_as_string(alloc) else {
            return Err(Stop::Memory);
        };
        let tbs = &self.tbs_certificate;
        let (algorithm, key) = (&self.signature_algorithm, &tbs.subject_pki.algorithm);
        let mut text = String::new(alloc);
        push_line(&mut text, "version", &tbs.version)?;
        push_line(&mut text, "serial", &serial)?;
        push_line(&mut text, "signature", &algorithm.algorithm)?;
        push_line(&mut text, "issuer", &tbs.issuer)?;
        push_line(&mut text, "not before", &tbs.validity.not_before)?;
        push_line(&mut text, "not after", &tbs.validity.not_after)?;
        push_line(&mut text, "subject", &tbs.subject)?;
        push_line(&mut text, "key", &key.algorithm)?;
        push_extensions(&mut text, tbs.extensions())?;
        push_line(&mut text, "tbs", &tbs.as_ref().len())?;
        push_line(&mut text, "rest", &rest.len())?;
        Ok(text)
    }
}

/// The report of the certificate at the front of the input (RFC 5280, section 4.1), the values of its extensions not
/// looked at: its lines with status 0, or why there is none with status 1. The only error is [`Stop::Memory`].
pub fn certificate_report(alloc: Global, input: &[u8]) -> Result<Report, Stop>
    ensures { MatchResult result (λ r. IsOnly (IsCertificateReport input.now) r) (λ stop. stop ≡ Memory) }
{
    let parser = X509CertificateParser::new().with_deep_parse_extensions(false);
    front_report(alloc, parser.parse(alloc, input))
}

/// The same of a certificate that stands plainly, the values of its extensions too: one that doesn't is refused.
pub fn strict_certificate_report(alloc: Global, input: &[u8]) -> Result<Report, Stop>
    ensures { MatchResult result (λ r. IsOnly (IsStrictCertificateReport input.now) r) (λ stop. stop ≡ Memory) }
{
    front_report(alloc, parse_x509_certificate_strict(alloc, input))
}
