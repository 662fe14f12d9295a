//! An object, whichever of the three structures it is.

ghost use Rattle.std.specs.Prelude.{IfOk, IfErr};
ghost use Rattle.x509_parser.specs.Object.{IsObject, IsNoObject};

use std::alloc::Global;
use thiserror::Error;
use x509_certs::{X509Certificate, parse_x509_certificate_marked};
use x509_der::Err;
use x509_fields::X509Error;
use x509_lists::{CertificateRevocationList, parse_x509_crl_marked};
use x509_requests::{X509CertificationRequest, parse_x509_csr_marked};

/// What stands in a file of certificates.
#[derive(Debug, Drop)]
pub enum Object<'a> {
    /// A certificate (RFC 5280, section 4.1).
    Certificate(X509Certificate<'a>),
    /// A list of revoked certificates (RFC 5280, section 5.1).
    List(CertificateRevocationList<'a>),
    /// A certification request (RFC 2986, section 4.2).
    Request(X509CertificationRequest<'a>),
}

/// Why none of the three readers takes an object.
#[derive(Clone, Copy, Debug, PartialEq)]
pub struct Refusals {
    /// The refusal of the reader of certificates.
    pub certificate: Err<X509Error>,
    /// That of the reader of lists.
    pub list: Err<X509Error>,
    /// That of the reader of requests.
    pub request: Err<X509Error>,
}

/// Why there is no object.
#[derive(Clone, Copy, Debug, PartialEq, Error)]
pub enum NoObject {
    /// None of the three readers takes it.
    #[error("no certificate: {}; no list: {}; no request: {}", .0.certificate.word(), .0.list.word(), .0.request.word())]
    Refused(Refusals),
    /// A request for memory was refused.
    #[error("out of memory")]
    OutOfMemory,
}

/// The object at the front of the octets, and what stands behind it: that of the first reader that takes it, of certificates, of lists and
/// of requests, with the values of their extensions.
///
/// # Errors
///
/// The refusals of all three where none takes it; want of memory.
pub fn parse_object<'a>(alloc: Global, i: &'a [u8]) -> Result<(&'a [u8], Object<'a>), NoObject>
    ensures object { IfOk result (λ x. IsObject i.now x.0.now x.1) }
    ensures refused { IfErr result (IsNoObject i.now) }
{
    let certificate = match parse_x509_certificate_marked(alloc, i) {
        Ok((rest, certificate, _)) => return Ok((rest, Object::Certificate(certificate))),
        Err(refusal) if refusal.is_out_of_memory() => return Err(NoObject::OutOfMemory),
        Err(refusal) => refusal,
    };
    let list = match parse_x509_crl_marked(alloc, i) {
        Ok((rest, list, _)) => return Ok((rest, Object::List(list))),
        Err(refusal) if refusal.is_out_of_memory() => return Err(NoObject::OutOfMemory),
        Err(refusal) => refusal,
    };
    let request = match parse_x509_csr_marked(alloc, i) {
        Ok((rest, request, _)) => return Ok((rest, Object::Request(request))),
        Err(refusal) if refusal.is_out_of_memory() => return Err(NoObject::OutOfMemory),
        Err(refusal) => refusal,
    };
    Err(NoObject::Refused(Refusals {
        certificate,
        list,
        request,
    }))
}
