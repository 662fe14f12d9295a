//! The report of a certification request.

ghost use Rattle.std.specs.Prelude.{◌≡◌, ◌++◌, OnOk, MatchResult, flat_map, map, string_bytes};
ghost use Rattle.x509_requests.specs.CriAttribute.{attribute_of};
ghost use Rattle.x509_requests.specs.Request.{certification_request_of};
ghost use Rattle.x509_requests.specs.RequestInfo.{RequestInfo};
ghost use Rattle.x509_fields.specs.Signed.{Signed};
ghost use Rattle.x509_show.specs.declared.stop.Stop.TheVariants.{Memory};
ghost use Rattle.x509_show.specs.Report.{IsOnly};
ghost use Rattle.x509_show.specs.RequestReport.{IsRequestReport, IsStrictRequestReport, attribute_line, request_text};

use crate::front_report::{Shown, front_report};
use crate::lines::push_line;
use crate::report::Report;
use crate::stop::Stop;
use std::alloc::{AllocError, Global};
use x509_der::FromDer;
use x509_requests::{X509CertificationRequest, X509CriAttribute, parse_x509_csr_strict};

/// Adds the line of an attribute.
fn push_attribute(text: &mut String, attribute: &X509CriAttribute<'_>) -> Result<(), AllocError>
    ensures { OnOk result (string_bytes text.new ≡ string_bytes text.old ++ attribute_line (attribute_of attribute.now)) }
{
    let (oid, length) = (&attribute.oid, attribute.value.len());
    push_line(text, "attribute", &format_args!("{oid} {length}"))
}

/// Adds the line of each attribute.
fn push_attributes(text: &mut String, attributes: &[X509CriAttribute<'_>]) -> Result<(), AllocError>
    ensures { OnOk result (string_bytes text.new ≡ string_bytes text.old ++ flat_map attribute_line (map attribute_of attributes.now)) }
{
    for attribute in attributes {
        push_attribute(text, attribute)?;
    }
    Ok(())
}

impl Shown for X509CertificationRequest<'_> {
    ghost Value = { Signed RequestInfo };

    ghost view = { certification_request_of };

    ghost lines = { request_text };

    #[tactic(auto, unfolding(crate::specs::RequestReport::request_text))]
    fn text(&self, alloc: Global, rest: &[u8]) -> Result<String, Stop> {
        let info = &self.certification_request_info;
        let (algorithm, key) = (&self.signature_algorithm, &info.subject_pki.algorithm);
        let mut text = String::new(alloc);
        push_line(&mut text, "version", &info.version)?;
        push_line(&mut text, "subject", &info.subject)?;
        push_line(&mut text, "key", &key.algorithm)?;
        push_line(&mut text, "signature", &algorithm.algorithm)?;
        push_attributes(&mut text, info.attributes())?;
        push_line(&mut text, "tbs", &info.raw.len())?;
        push_line(&mut text, "rest", &rest.len())?;
        Ok(text)
    }
}

/// The report of the certification request at the front of the input (RFC 2986, section 4.2): its lines with status 0, or why
/// there is none with status 1. The only error is [`Stop::Memory`].
pub fn request_report(alloc: Global, input: &[u8]) -> Result<Report, Stop>
    ensures { MatchResult result (λ r. IsOnly (IsRequestReport input.now) r) (λ stop. stop ≡ Memory) }
{
    front_report(alloc, X509CertificationRequest::from_der(alloc, input))
}

/// The same of a request that stands plainly: one that doesn't is refused.
pub fn strict_request_report(alloc: Global, input: &[u8]) -> Result<Report, Stop>
    ensures { MatchResult result (λ r. IsOnly (IsStrictRequestReport input.now) r) (λ stop. stop ≡ Memory) }
{
    front_report(alloc, parse_x509_csr_strict(alloc, input))
}
