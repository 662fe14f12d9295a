//! The report of a list of revoked certificates.

ghost use Rattle.std.specs.Prelude.{◌≡◌, ◌++◌, IfSome, OnOk, MatchOption, MatchResult, codes, flat_map, map, string_bytes};
ghost use Rattle.x509_lists.specs.CertificateList.{list_of};
ghost use Rattle.x509_lists.specs.RevokedCertificate.{revoked_of};
ghost use Rattle.x509_lists.specs.TbsCertList.{TbsList};
ghost use Rattle.x509_fields.specs.Signed.{Signed};
ghost use Rattle.x509_show.specs.declared.stop.Stop.TheVariants.{Memory};
ghost use Rattle.x509_show.specs.Lines.{line};
ghost use Rattle.x509_show.specs.ListReport.{IsListReport, IsStrictListReport, revoked_line, list_text};
ghost use Rattle.x509_show.specs.Report.{IsOnly};

use crate::front_report::{Shown, front_report};
use crate::lines::{push_extensions, push_line};
use crate::report::Report;
use crate::stop::Stop;
use std::alloc::{AllocError, Global};
use std::fmt;
use x509_lists::{
    CertificateRevocationList, RevokedCertificate, parse_x509_crl, parse_x509_crl_strict,
};

/// Adds the line of a field that may be absent.
fn push_optional<T: fmt::Display>(
    text: &mut String,
    label: &str,
    value: &Option<T>,
) -> Result<(), AllocError>
    ensures { OnOk result (MatchOption value.now
        (string_bytes text.new ≡ string_bytes text.old ++ line label.now (codes "none"))
        (λ held. IfSome (T.output held) (λ shown. string_bytes text.new ≡ string_bytes text.old ++ line label.now shown))) }
{
    match value {
        Some(value) => push_line(text, label, value),
        None => push_line(text, label, &"none"),
    }
}

/// Adds the line of a certificate that was revoked.
fn push_revoked(
    alloc: Global,
    text: &mut String,
    revoked: &RevokedCertificate<'_>,
) -> Result<(), Stop>
    ensures { MatchResult result (λ _. string_bytes text.new ≡ string_bytes text.old ++ revoked_line (revoked_of revoked.now)) (λ stop. stop ≡ Memory) }
{
    let Ok(serial) = revoked.raw_serial_as_string(alloc) else {
        return Err(Stop::Memory);
    };
    let date = &revoked.revocation_date;
    push_line(text, "revoked", &format_args!("{serial} {date}"))?;
    Ok(())
}

/// Adds the line of each certificate that was revoked.
fn push_all_revoked(
    alloc: Global,
    text: &mut String,
    revoked: &[RevokedCertificate<'_>],
) -> Result<(), Stop>
    ensures { MatchResult result (λ _. string_bytes text.new ≡ string_bytes text.old ++ flat_map revoked_line (map revoked_of revoked.now))
        (λ stop. stop ≡ Memory) }
{
    for one in revoked {
        push_revoked(alloc, text, one)?;
    }
    Ok(())
}

impl Shown for CertificateRevocationList<'_> {
    ghost Value = { Signed TbsList };

    ghost view = { list_of };

    ghost lines = { list_text };

    #[tactic(auto, unfolding(crate::specs::ListReport::list_text))]
    fn text(&self, alloc: Global, rest: &[u8]) -> Result<String, Stop> {
        let tbs = &self.tbs_cert_list;
        let mut text = String::new(alloc);
        push_optional(&mut text, "version", &tbs.version)?;
        push_line(&mut text, "signature", &self.signature_algorithm.algorithm)?;
        push_line(&mut text, "issuer", &tbs.issuer)?;
        push_line(&mut text, "this update", &tbs.this_update)?;
        push_optional(&mut text, "next update", &tbs.next_update)?;
        push_all_revoked(alloc, &mut text, tbs.revoked_certificates.as_slice())?;
        push_extensions(&mut text, tbs.extensions())?;
        push_line(&mut text, "tbs", &tbs.as_ref().len())?;
        push_line(&mut text, "rest", &rest.len())?;
        Ok(text)
    }
}

/// The report of the list of revoked certificates at the front of the input (RFC 5280, section 5.1): its lines with status 0, or
/// why there is none with status 1. The only error is [`Stop::Memory`].
pub fn list_report(alloc: Global, input: &[u8]) -> Result<Report, Stop>
    ensures { MatchResult result (λ r. IsOnly (IsListReport input.now) r) (λ stop. stop ≡ Memory) }
{
    front_report(alloc, parse_x509_crl(alloc, input))
}

/// The same of a list that stands plainly: one that doesn't is refused.
pub fn strict_list_report(alloc: Global, input: &[u8]) -> Result<Report, Stop>
    ensures { MatchResult result (λ r. IsOnly (IsStrictListReport input.now) r) (λ stop. stop ≡ Memory) }
{
    front_report(alloc, parse_x509_crl_strict(alloc, input))
}
