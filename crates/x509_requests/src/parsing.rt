//! Reading whole requests.

ghost use Rattle.std.specs.Prelude.{◌≡◌, true, IfOk};
ghost use Rattle.x509_der.specs.Promises.{Answers, ReadsExactly, ReadsWhere};
ghost use Rattle.x509_fields.specs.Errors.{is_x509_memory};
ghost use Rattle.x509_requests.specs.Request.{RequestStands, certification_request, certification_request_of, plain_request};

use crate::request::X509CertificationRequest;
use std::alloc::Global;
use x509_der::{Err, FromDer, Located, Reader, Tries};
use x509_fields::{Plainly, X509Error, X509Result};

/// Reads the certification request at the front of the bytes (RFC 2986, section 4.2), and gives what stands behind it.
///
/// # Errors
///
/// Those of the first field in reading order that can't be read, and `Failure(OutOfMemory)`.
pub fn parse_x509_csr<'a>(
    alloc: Global,
    i: &'a [u8],
) -> X509Result<'a, X509CertificationRequest<'a>>
    ensures exact { ReadsExactly is_x509_memory true (λ x. (x.0.now, certification_request_of x.1)) certification_request i.now result }
    ensures stands { IfOk result (λ x. RequestStands i.now (certification_request_of x.1) x.0.now) }
{
    X509CertificationRequest::from_der(alloc, i)
}

/// The same as [`parse_x509_csr`]; a refusal has the offset, in octets from the front, of the place at which the grammar refuses
/// the bytes.
///
/// # Errors
///
/// Those of [`parse_x509_csr`], with their offset; want of memory has none.
pub fn parse_x509_csr_located<'a>(
    alloc: Global,
    i: &'a [u8],
) -> Result<(&'a [u8], X509CertificationRequest<'a>), Located<X509Error>>
    ensures exact { ReadsWhere is_x509_memory true (λ x. (x.0.now, certification_request_of x.1)) certification_request i.now result }
    ensures stands { IfOk result (λ x. RequestStands i.now (certification_request_of x.1) x.0.now) }
{
    X509CertificationRequest::from_der_located(alloc, i)
}

/// Reads the certification request at the front of the bytes (RFC 2986, section 4.2) where it stands plainly, by no rule that is
/// looser than the standard, and gives what stands behind it.
///
/// # Errors
///
/// Those of the first field in reading order that can't be read, `Error(Generic)` where a request is read that doesn't stand
/// plainly, and `Failure(OutOfMemory)`.
pub fn parse_x509_csr_strict<'a>(
    alloc: Global,
    i: &'a [u8],
) -> X509Result<'a, X509CertificationRequest<'a>>
    ensures exact { ReadsExactly is_x509_memory true (λ x. (x.0.now, certification_request_of x.1)) plain_request i.now result }
    ensures stands { IfOk result (λ x. RequestStands i.now (certification_request_of x.1) x.0.now) }
{
    Plainly.parse(alloc, i)
}

/// The same as [`parse_x509_csr`], and whether the request stands plainly: whether [`parse_x509_csr_strict`] would take it too. The
/// bytes are read once.
///
/// # Errors
///
/// Those of [`parse_x509_csr`].
pub fn parse_x509_csr_marked<'a>(
    alloc: Global,
    i: &'a [u8],
) -> Result<(&'a [u8], X509CertificationRequest<'a>, bool), Err<X509Error>>
    ensures reads { Answers is_x509_memory true (λ x. (x.0.now, certification_request_of x.1)) result (certification_request.read i.now) }
    ensures marks { IfOk result (λ x. x.2 ≡ certification_request.marks i.now) }
{
    X509CertificationRequest::read_marked(alloc, &mut Tries::new(), i)
}
