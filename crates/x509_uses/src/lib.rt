//! What a user can conclude from the contracts of the reader: short callers, each with its clause, a validator and visitors. Proof files
//! have the two walks that change nothing, which apply two lemmas of `x509_fields`, the path to a fault, and `outline`, whose members are counted.
//!
//! Three words of the contracts below say what a certificate is. `certificate deep` is the grammar, with what the values of
//! extensions say or without (RFC 5280, section 4.1); `certificate_of` is the value that a certificate in memory stands for;
//! `IsFront grammar bytes value rest` says that a front of the bytes stands for the value, and the rest behind it.
#![tactic(auto)]

ghost use Rattle.std.specs.Prelude.{◌≡◌, ◌≤◌, ◌<◌, ◌+◌, ◌*◌, ◌++◌, ◌↔◌, ℕ, Bool, true, false, length, All, IsTrue, IsNone, IfSome, IfOk, IfErr};
ghost use Rattle.x509_der.specs.Promises.{Answers, IsFront, is_excused};
ghost use Rattle.x509_fields.specs.Errors.{is_x509_memory};
ghost use Rattle.x509_certs.specs.Certificate.{certificate, certificate_of, certificate_at_depth};
ghost use Rattle.x509_uses.specs.Conclusions.{HoldsTwo, IsSignedPartOf, IsValidAt};

use std::alloc::Global;
use x509_parser::certificate::{X509Certificate, X509CertificateParser};
use x509_parser::der::{Reader, Tries};
use x509_parser::error::X509Result;
use x509_parser::parse_x509_certificate;
use x509_parser::time::ASN1Time;

mod certificates;
mod elements;
mod linting;
mod refusals;
mod requests;
mod revocation;
mod visiting;

pub use certificates::{days_left, days_valid, has_strong_key, hosts};
pub use elements::{first_identifier, is_known, outline};
pub use linting::{CriticalExtensions, SerialLength};
pub use refusals::{
    Next, fault_in, field_at_fault, is_another_structure, next_after, strict_fault_in,
};
pub use requests::is_modest;
pub use revocation::{count_revoked, entry_in_octets, entry_of};
pub use visiting::{Quiet, VisitCount, walk_list_quietly, walk_quietly};

#[cfg(test)]
mod tests;

/// The bytes that the signature of the certificate at the front of the input is over, and what stands behind the certificate.
///
/// A signature check is handed a window of the input and no copy: what is checked is what was read, and what was read is the
/// part of the certificate that the grammar calls signed.
pub fn signed_bytes<'a>(alloc: Global, input: &'a [u8]) -> X509Result<'a, &'a [u8]>
    ensures { IfOk result (λ x. IsSignedPartOf input.now x.0.now x.1.now) }
{
    let (rest, certificate) = parse_x509_certificate(alloc, input)?;
    Ok((rest, certificate.tbs_certificate.as_ref()))
}

/// Reads the certificate at the front of an input as a gateway does, which leaves the values of extensions alone.
///
/// The service behind the gateway reads those values too. What the gateway lets through, the service takes, with the same
/// bytes left over. A refusal of the gateway that isn't want of memory is the grammar's own, at both depths: the service
/// would have refused for the same reason.
pub fn admit<'a>(alloc: Global, input: &'a [u8]) -> X509Result<'a, X509Certificate<'a>>
    ensures taken { IfOk result (λ x. (deep : Bool)
        → IsFront (certificate deep) input.now (certificate_at_depth deep (certificate_of x.1)) x.0.now) }
    ensures refused { IfErr result (λ e. is_excused is_x509_memory true e ≡ false
        → (deep : Bool) → (left : ℕ) × (certificate deep).Refuses input.now e left) }
{
    X509CertificateParser::new()
        .with_deep_parse_extensions(false)
        .parse(alloc, input)
}

/// A certificate and the one behind it, as a server sends its own and its issuer's, and what stands behind both.
///
/// They lie end to end from the start of the input: no byte is left out, and none is read twice.
pub fn read_two<'a>(
    alloc: Global,
    input: &'a [u8],
) -> X509Result<'a, (X509Certificate<'a>, X509Certificate<'a>)>
    ensures end_to_end { IfOk result (λ x. input.now
        ≡ (certificate_of x.1.0).raw ++ (certificate_of x.1.1).raw ++ x.0.now) }
    ensures both { IfOk result (λ x. HoldsTwo input.now
        (certificate_of x.1.0) (certificate_of x.1.1) x.0.now) }
{
    let (behind, own) = parse_x509_certificate(alloc, input)?;
    let (rest, issuer) = parse_x509_certificate(alloc, behind)?;
    Ok((rest, (own, issuer)))
}

/// Reads the certificate at the front of an input of at most `limit` bytes; nothing where the input is longer.
///
/// Whatever a sender puts into the input, the reader tries at most eight headers for each byte of the limit. `tries` counts
/// them.
pub fn read_within<'a>(
    alloc: Global,
    limit: usize,
    tries: &mut Tries,
    input: &'a [u8],
) -> Option<X509Result<'a, X509Certificate<'a>>>
    ensures longer { IsNone result ↔ (limit < length input.now) }
    ensures bounded { tries.new ≤ tries.old + 8 * limit }
    ensures reads { IfSome result (λ read. Answers is_x509_memory true
        (λ x. (x.0.now, certificate_of x.1)) read ((certificate true).read input.now)) }
{
    if limit < input.len() {
        return None;
    }
    Some(X509CertificateParser::new().read(alloc, tries, input))
}

/// Whether each certificate of a chain is valid at a time. Instants decide, both ends included: a chain that mixes
/// UTCTimes and GeneralizedTimes of different offsets is judged by the same clock.
pub fn is_chain_valid_at(chain: &[X509Certificate<'_>], time: ASN1Time) -> bool
    ensures { IsTrue result ↔ All (λ c. IsValidAt c.tbs_certificate.validity time) chain.now }
{
    chain
        .iter()
        .all(|certificate| certificate.validity().is_valid_at(time))
}
