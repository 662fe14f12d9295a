//! Strict readers that tell where, and by which rule, what they refuse is taken.

ghost use Rattle.std.specs.Prelude.{◌≡◌, ◌⊎◌, true, None, IfOk};
ghost use Rattle.x509_der.specs.Promises.{is_excused};
ghost use Rattle.x509_fields.specs.Errors.{is_x509_memory};
ghost use Rattle.x509_certs.specs.Certificate.{CertificateStands, certificate, certificate_of};
ghost use Rattle.x509_lists.specs.CertificateList.{ListStands, certificate_list, list_of};
ghost use Rattle.x509_lists.specs.ListEntries.{list_entries_of};
ghost use Rattle.x509_requests.specs.Request.{RequestStands, certification_request, certification_request_of};
ghost use Rattle.x509_elements.specs.declared.part.Part.TheVariants as parts;
ghost use Rattle.x509_elements.specs.Judgements.{judged_by, part_judged};
ghost use Rattle.x509_elements.specs.StrictRefusals.{ReadsPlainly, first_use, placed_by};
ghost use Rattle.x509_elements.specs.Uses.{leniencies};

use crate::leniency::Leniency;
use crate::part::Part;
use crate::uses::leniencies;
use std::alloc::Global;
use std::error::Error;
use std::fmt;
use x509_certs::X509Certificate;
use x509_der::{Err, FromDer, Located, Reader};
use x509_fields::{Plainly, X509Error};
use x509_lists::{CertificateListEntries, CertificateRevocationList};
use x509_requests::X509CertificationRequest;

/// Why a strict reader refuses an object, and where.
#[derive(Clone, Copy, Debug, PartialEq, Drop)]
pub struct StrictRefusal {
    /// Why: `Error(Generic)` where a lenient rule is used.
    pub why: Err<X509Error>,
    /// The octet, from 0, at which the first lenient rule is used, or, where none is, at which the grammar refuses the object; of no meaning
    /// for want of memory.
    pub at: usize,
    /// The lenient rule by which a reader takes the object there; None where no reader takes it.
    pub rule: Option<Leniency>,
}

/// The refusal, the octet of its place and the rule, as `generic error at octet 4 (any_serial)`.
impl fmt::Display for StrictRefusal {
    fn fmt<W: fmt::Write>(&self, f: &mut fmt::Formatter<W>) -> fmt::Result {
        let refusal = Located {
            why: self.why,
            at: self.at,
        };
        match self.rule {
            Some(rule) => write!(f, "{refusal} ({})", rule.word()),
            None => write!(f, "{refusal}"),
        }
    }
}

impl Error for StrictRefusal {}

/// A refusal of an object that uses no rule.
fn without_rule(refusal: Located<X509Error>) -> StrictRefusal
    ensures { result ≡ placed_by refusal None }
{
    StrictRefusal {
        why: refusal.why,
        at: refusal.at,
        rule: None,
    }
}

/// A strict reader's refusal at the first rule that the object uses, which a second reading finds; or want of memory.
fn at_first_rule(
    alloc: Global,
    object: Part,
    octets: &[u8],
    refusal: Located<X509Error>,
) -> StrictRefusal
    ensures { (result ≡ placed_by refusal (first_use (leniencies object octets.now))) ⊎
        ((is_excused is_x509_memory true result.why ≡ true) × (result.rule ≡ None)) }
{
    let Ok(uses) = leniencies(alloc, object, octets) else {
        return without_rule(Located {
            why: Err::Failure(X509Error::OutOfMemory),
            at: 0,
        });
    };
    match uses.as_slice() {
        [first, ..] => StrictRefusal {
            why: refusal.why,
            at: first.at,
            rule: Some(first.rule),
        },
        [] => without_rule(refusal),
    }
}

/// Reads a value of a type, the object of this kind, where it stands plainly.
fn read_plainly<'a, T: FromDer<'a, X509Error> + Drop>(
    alloc: Global,
    object: Part,
    i: &'a [u8],
) -> Result<(&'a [u8], T), StrictRefusal>
    requires memory { T.grammar.takes_memory ≡ true }
    requires judged { part_judged object i.now i.now ≡ judged_by T.grammar.plan i.now }
    ensures { ReadsPlainly (λ x. (x.0.now, T.view x.1)) T.grammar.plan object i.now result }
{
    match Plainly.parse_located(alloc, i) {
        Ok((rest, value)) => Ok((rest, value)),
        Err(refusal) if refusal.why.is_out_of_memory() => Err(without_rule(refusal)),
        Err(refusal) => Err(at_first_rule(alloc, object, i, refusal)),
    }
}

/// The same as [`parse_x509_certificate_strict`](x509_certs::parse_x509_certificate_strict); a refusal has its octet, and the lenient rule
/// by which [`parse_x509_certificate`](x509_certs::parse_x509_certificate) takes the certificate. What is taken is read once; of what is
/// refused, the rule is looked for in a second reading, which reads parts once more that don't stand plainly.
///
/// # Errors
///
/// Those of [`parse_x509_certificate_strict`](x509_certs::parse_x509_certificate_strict), with their octet and rule; want of memory has
/// neither.
pub fn parse_x509_certificate_strict_located<'a>(
    alloc: Global,
    i: &'a [u8],
) -> Result<(&'a [u8], X509Certificate<'a>), StrictRefusal>
    ensures reads { ReadsPlainly (λ x. (x.0.now, certificate_of x.1)) (certificate true) parts.Certificate i.now result }
    ensures stands { IfOk result (λ x. CertificateStands true i.now (certificate_of x.1) x.0.now) }
{
    read_plainly(alloc, Part::Certificate, i)
}

/// The same as [`parse_x509_crl_strict`](x509_lists::parse_x509_crl_strict), with the octet and the rule of a refusal, as above.
///
/// # Errors
///
/// Those of [`parse_x509_crl_strict`](x509_lists::parse_x509_crl_strict), with their octet and rule; want of memory has neither.
pub fn parse_x509_crl_strict_located<'a>(
    alloc: Global,
    i: &'a [u8],
) -> Result<(&'a [u8], CertificateRevocationList<'a>), StrictRefusal>
    ensures reads { ReadsPlainly (λ x. (x.0.now, list_of x.1)) certificate_list parts.List i.now result }
    ensures stands { IfOk result (λ x. ListStands i.now (list_of x.1) x.0.now) }
{
    read_plainly(alloc, Part::List, i)
}

/// The same of a list whose certificates aren't kept
/// ([`parse_x509_crl_entries_strict`](x509_lists::parse_x509_crl_entries_strict)).
///
/// # Errors
///
/// Those of [`parse_x509_crl_strict_located`].
pub fn parse_x509_crl_entries_strict_located<'a>(
    alloc: Global,
    i: &'a [u8],
) -> Result<(&'a [u8], CertificateListEntries<'a>), StrictRefusal>
    ensures reads { ReadsPlainly (λ x. (x.0.now, list_entries_of x.1)) certificate_list parts.List i.now result }
    ensures stands { IfOk result (λ x. ListStands i.now (list_entries_of x.1) x.0.now) }
{
    read_plainly(alloc, Part::List, i)
}

/// The same as [`parse_x509_csr_strict`](x509_requests::parse_x509_csr_strict), with the octet and the rule of a refusal, as above.
///
/// # Errors
///
/// Those of [`parse_x509_csr_strict`](x509_requests::parse_x509_csr_strict), with their octet and rule; want of memory has neither.
pub fn parse_x509_csr_strict_located<'a>(
    alloc: Global,
    i: &'a [u8],
) -> Result<(&'a [u8], X509CertificationRequest<'a>), StrictRefusal>
    ensures reads { ReadsPlainly (λ x. (x.0.now, certification_request_of x.1)) certification_request parts.Request i.now result }
    ensures stands { IfOk result (λ x. RequestStands i.now (certification_request_of x.1) x.0.now) }
{
    read_plainly(alloc, Part::Request, i)
}
