//! What to make of a refusal.

ghost use Rattle.std.specs.Prelude.{◌≡◌, ◌↔◌, IfOk, IsTrue, MatchOption, string_bytes};
ghost use Rattle.x509_der.specs.declared.error.BerError.TheVariants.{InvalidTag};
ghost use Rattle.x509_der.specs.declared.error.Err.TheVariants as refusals;
ghost use Rattle.x509_fields.specs.declared.error.X509Error.TheVariants.{Der};
ghost use Rattle.x509_uses.specs.Conclusions.{IsCertificate, IsFault, IsPathToFault, IsPlainCertificate, IsStrictFault};
ghost use Rattle.x509_uses.specs.Refusals.{what_next};

use std::alloc::{AllocError, Global};
use x509_parser::der::{BerError, Err};
use x509_parser::error::X509Error;
use x509_parser::leniencies::StrictRefusal;
use x509_parser::paths::{Part, path_to};
use x509_parser::{parse_x509_certificate_located, parse_x509_certificate_strict_located};

/// What a service does with an input that was refused.
#[derive(Clone, Copy, Debug, PartialEq, Eq)]
pub enum Next {
    /// The input ended too early: wait for the rest of it.
    AwaitMore,
    /// Memory was wanting, which says nothing of the input: try again.
    TryAgain,
    /// The input is no certificate.
    Refuse,
}

/// What comes next after a refusal.
pub fn next_after(refusal: &Err<X509Error>) -> Next
    ensures { result ≡ what_next refusal.now }
{
    match refusal {
        Err::Incomplete => Next::AwaitMore,
        _ if refusal.is_out_of_memory() => Next::TryAgain,
        _ => Next::Refuse,
    }
}

/// Whether the refusal is that of a tag that doesn't belong where it stands, as a list has where a certificate is wanted.
pub fn is_another_structure(refusal: &Err<X509Error>) -> bool
    ensures { IsTrue result ↔ (refusal.now ≡ refusals.Error (Der InvalidTag)) }
{
    matches!(refusal, Err::Error(X509Error::Der(BerError::InvalidTag)))
}

/// Why the bytes are no certificate, in words, and the octet, counted from their front, at which the fault lies; None where a
/// certificate stands at their front.
pub fn fault_in(alloc: Global, input: &[u8]) -> Result<Option<(usize, &'static str)>, AllocError>
    ensures { IfOk result (λ fault. MatchOption fault (IsCertificate input.now) (λ x. IsFault input.now x.0 x.1.now)) }
{
    match parse_x509_certificate_located(alloc, input) {
        Ok(_) => Ok(None),
        Err(refusal) if refusal.why.is_out_of_memory() => Err(AllocError),
        Err(refusal) => Ok(Some((refusal.at, refusal.why.word()))),
    }
}

/// The names of the fields that lead to the fault of bytes that are no certificate, as `tbsCertificate.validity.notAfter`; None where
/// a certificate stands at their front.
pub fn field_at_fault(alloc: Global, input: &[u8]) -> Result<Option<String>, AllocError>
    ensures { IfOk result (λ path. MatchOption path (IsCertificate input.now) (λ text. IsPathToFault input.now (string_bytes text))) }
{
    let Some((at, _)) = fault_in(alloc, input)? else {
        return Ok(None);
    };
    let path = path_to(alloc, Part::Certificate, input, at)?;
    Ok(Some(path))
}

/// Why a strict reader refuses the bytes, where, and by which lenient rule a reader takes them; None where a certificate stands plainly at
/// their front.
pub fn strict_fault_in(alloc: Global, input: &[u8]) -> Result<Option<StrictRefusal>, AllocError>
    ensures { IfOk result (λ fault. MatchOption fault (IsPlainCertificate input.now) (IsStrictFault input.now)) }
{
    match parse_x509_certificate_strict_located(alloc, input) {
        Ok(_) => Ok(None),
        Err(refusal) if refusal.why.is_out_of_memory() => Err(AllocError),
        Err(refusal) => Ok(Some(refusal)),
    }
}
