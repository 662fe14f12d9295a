//! Certification requests.

ghost use Rattle.std.specs.Prelude.{◌≡◌, true};
ghost use Rattle.x509_der.specs.Promises.{ReadsWhere};
ghost use Rattle.x509_fields.specs.Errors.{is_x509_memory};
ghost use Rattle.x509_requests.specs.CriAttribute.{Attribute, attribute_of};
ghost use Rattle.x509_requests.specs.Request.{certification_request_of};
ghost use Rattle.x509_c.specs.Requests.{IsRequestRow, IsRequestAttributeRow, ShowsRequest, request_by};
ghost use Rattle.x509_c.specs.Tells.{Tells, Done};

use crate::keys::key_size;
use crate::row_writer::{HasRow, put_rows};
use crate::status::{OK, refused};
use std::alloc::Global;
use x509_der::{FromDer, Located, Reader};
use x509_fields::{Plainly, X509Error};
use x509_requests::{X509CertificationRequest, X509CriAttribute};

/// What a certification request says: `rtv_request` of rushtrivet.h.
#[repr(C)]
#[derive(Clone, Copy)]
pub struct RequestRow<'a> {
    /// The request, with its header.
    pub whole: &'a [u8],
    /// What stands behind it in the buffer.
    pub rest: &'a [u8],
    /// The octets that are signed, with their header.
    pub signed_part: &'a [u8],
    /// The name of whom the certificate is to be about, with its header.
    pub subject: &'a [u8],
    /// The key and its algorithm, with their header.
    pub key_info: &'a [u8],
    /// The contents of the identifier of the key's algorithm.
    pub key_algorithm: &'a [u8],
    /// The octets of the key's bits.
    pub key_bits: &'a [u8],
    /// The contents of the identifier of the signature's algorithm.
    pub signature_algorithm: &'a [u8],
    /// The octets of the signature's bits.
    pub signature: &'a [u8],
    /// The size of the key in bits; 0 where it isn't known.
    pub key_size: usize,
    /// How many attributes there are.
    pub attribute_count: usize,
    /// The number of the version: 0 is the first.
    pub version: u32,
}

/// One attribute of a request: `rtv_request_attribute` of rushtrivet.h.
#[repr(C)]
#[derive(Clone, Copy)]
pub struct RequestAttributeRow<'a> {
    /// The contents of its identifier.
    pub oid: &'a [u8],
    /// Its values: the whole SET, with its header.
    pub value: &'a [u8],
}

fn request_row<'a>(request: &X509CertificationRequest<'a>, rest: &'a [u8]) -> RequestRow<'a>
    ensures { IsRequestRow result (certification_request_of request.now) rest.now }
{
    let part = &request.certification_request_info;
    RequestRow {
        whole: request.as_raw(),
        rest,
        signed_part: part.raw,
        subject: part.subject.as_raw(),
        key_info: part.subject_pki.raw,
        key_algorithm: part.subject_pki.algorithm.algorithm.as_bytes(),
        key_bits: part.subject_pki.subject_public_key.bytes,
        signature_algorithm: request.signature_algorithm.algorithm.as_bytes(),
        signature: request.signature_value.bytes,
        key_size: key_size(&part.subject_pki),
        attribute_count: part.attributes().len(),
        version: part.version.0,
    }
}

impl<'a> HasRow for X509CriAttribute<'a> {
    type Row = RequestAttributeRow<'a>;

    ghost Value = { Attribute };

    ghost view = { attribute_of };

    ghost Shows = { IsRequestAttributeRow };

    fn row(&self) -> RequestAttributeRow<'a> {
        RequestAttributeRow {
            oid: self.oid.as_bytes(),
            value: self.value,
        }
    }
}

/// Reads a request; a strict reading takes it only where it stands plainly.
fn read<'a>(
    alloc: Global,
    der: &'a [u8],
    strict: bool,
) -> Result<(&'a [u8], X509CertificationRequest<'a>), Located<X509Error>>
    ensures { ReadsWhere is_x509_memory true (λ x. (x.0.now, certification_request_of x.1)) (request_by strict) der.now result }
{
    if strict {
        Plainly.parse_located(alloc, der)
    } else {
        X509CertificationRequest::from_der_located(alloc, der)
    }
}

/// Reads the certification request at the front of the buffer. Its attributes are written in order, as many as there are rows; the
/// request says how many there are. A strict reading refuses what stands by a lenient rule, as 3.
#[unsafe(no_mangle)]
pub extern "C" fn rtv_read_request<'a>(
    alloc: Global,
    der: &'a [u8],
    strict: bool,
    request: &mut RequestRow<'a>,
    attributes: &mut [RequestAttributeRow<'a>],
    at: &mut usize,
) -> u32
    ensures { Tells (request_by strict) der.now
        (λ r rest. Done (ShowsRequest request.new attributes.new r rest))
        ((request.new ≡ request.old) × (attributes.new ≡ attributes.old))
        at.old at.new result }
{
    match read(alloc, der, strict) {
        Ok((rest, read)) => {
            *request = request_row(&read, rest);
            put_rows(attributes, read.certification_request_info.attributes());
            OK
        }
        Err(refusal) => refused(refusal, at),
    }
}
