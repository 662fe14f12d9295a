//! Certification requests.

ghost use Rattle.std.specs.Prelude.{◌≡◌, option_map};
ghost use Rattle.x509_der.specs.Grammar.{allocates, in_sequence};
ghost use Rattle.x509_fields.specs.Signed.{Signed};
ghost use Rattle.x509_requests.specs.RequestInfo.{RequestInfo};
ghost use Rattle.x509_requests.specs.Requested.{first_requested, requested_left};
ghost use Rattle.x509_requests.specs.Request.{certification_request_of, certification_request_heads, certification_request, certification_request_laws};

use crate::cri_attribute::ParsedCriAttribute;
use crate::request_info::X509CertificationRequestInfo;
use crate::requested_iter::RequestedIter;
use std::alloc::Global;
use x509_der::{BitString, FromDer, OfType, Outside, Place, Refused, Tries, ok};
use x509_fields::{AlgorithmIdentifier, Signed, X509Error, read_signed};

/// A request for a certificate (RFC 2986, section 4.2). Its signature is not looked into.
///
/// ```text
/// CertificationRequest  ::=  SEQUENCE  {
///     certificationRequestInfo  CertificationRequestInfo,
///     signatureAlgorithm        AlgorithmIdentifier,
///     signature                 BIT STRING  }
/// ```
#[derive(Debug, Drop, PartialEq)]
pub struct X509CertificationRequest<'a> {
    /// The part that is signed.
    pub certification_request_info: X509CertificationRequestInfo<'a>,
    /// The algorithm of the signature.
    pub signature_algorithm: AlgorithmIdentifier<'a>,
    /// The bits of the signature.
    pub signature_value: BitString<'a>,
    pub(crate) raw: &'a [u8],
}

impl<'a> X509CertificationRequest<'a> {
    /// The bytes of the request: the whole element, with its header.
    pub fn as_raw(&self) -> &'a [u8]
        ensures { result.now ≡ (certification_request_of self.now).raw }
    {
        self.raw
    }

    /// The same as [`X509CertificationRequest::as_raw`].
    pub fn as_ref(&self) -> &'a [u8]
        ensures { result.now ≡ (certification_request_of self.now).raw }
    {
        self.as_raw()
    }

    /// What the extensions say that the request asks for, in order: those of its first extension request, where it has one.
    pub fn requested_extensions(&self) -> Option<RequestedIter<'_, 'a>>
        ensures { option_map requested_left result ≡ first_requested self.now.certification_request_info.attributes }
    {
        for attribute in self.certification_request_info.attributes() {
            if let ParsedCriAttribute::ExtensionRequest(request) = attribute.parsed_attribute() {
                return Some(RequestedIter::new(request.extensions.as_slice()));
            }
        }
        None
    }
}

impl<'a> FromDer<'a, X509Error> for X509CertificationRequest<'a> {
    ghost Value = { Signed RequestInfo };

    ghost view = { certification_request_of };

    ghost grammar = { in_sequence certification_request certification_request_laws certification_request_heads allocates };

    #[tactic(auto, unfolding(crate::specs::Request::certification_request))]
    fn read_at<L: Outside>(
        alloc: Global,
        tries: &mut Tries,
        place: &Place<'a, L>,
    ) -> Result<(Self, bool), Refused<X509Error, L>> {
        let (
            Signed {
                tbs,
                signature_algorithm,
                signature_value,
                raw,
            },
            plain,
        ) = ok!(read_signed(&OfType, alloc, tries, place));
        let request = X509CertificationRequest {
            certification_request_info: tbs,
            signature_algorithm,
            signature_value,
            raw,
        };
        Ok((request, plain))
    }

    ghost never_memory = { certification_request_laws.laws.never_memory };
}
