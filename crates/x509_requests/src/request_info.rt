//! What a certification request says.

ghost use Rattle.std.specs.Prelude.{◌≡◌};
ghost use Rattle.x509_der.specs.Grammar.{allocates, in_sequence};
ghost use Rattle.x509_der.specs.Iterating.{Iterates};
ghost use Rattle.x509_requests.specs.RequestInfo.{RequestInfo, info_of, info_heads, request_info, request_info_laws};

use crate::cri_attribute::{CriAttributeIter, X509CriAttribute};
use crate::request_attributes::read_attributes;
use std::alloc::Global;
use x509_der::{Fields, FromDer, Outside, Place, Refused, Sequence, Tries, ok};
use x509_fields::{X509Error, X509Version, sequence_at};
use x509_keys::SubjectPublicKeyInfo;
use x509_names::X509Name;

/// The part of a certification request that is signed (RFC 2986, section 4.1).
///
/// ```text
/// CertificationRequestInfo  ::=  SEQUENCE  {
///     version        INTEGER { v1(0) },
///     subject        Name,
///     subjectPKInfo  SubjectPublicKeyInfo,
///     attributes     [0]  Attributes  }
/// ```
///
/// Attributes fill all that stands behind the header of the wrapper, whatever length it says.
#[derive(Debug, Drop, PartialEq)]
pub struct X509CertificationRequestInfo<'a> {
    /// The version: any number of at most 32 bits.
    pub version: X509Version,
    /// Whom the certificate is to be about.
    pub subject: X509Name<'a>,
    /// The key of the subject, and its algorithm.
    pub subject_pki: SubjectPublicKeyInfo<'a>,
    pub(crate) attributes: Sequence<X509CriAttribute<'a>>,
    /// The bytes that are signed: the whole element, with its header.
    pub raw: &'a [u8],
}

impl<'a> X509CertificationRequestInfo<'a> {
    /// The attributes, in order; two may have one identifier.
    pub fn attributes(&self) -> &[X509CriAttribute<'a>]
        ensures { result.now ≡ self.now.attributes }
    {
        self.attributes.as_slice()
    }

    /// Iterates over the attributes, in order.
    pub fn iter_attributes(&self) -> CriAttributeIter<'_, 'a>
        ensures { Iterates result self.now.attributes }
    {
        self.attributes.iter()
    }
}

impl<'a> FromDer<'a, X509Error> for X509CertificationRequestInfo<'a> {
    ghost Value = { RequestInfo };

    ghost view = { info_of };

    ghost grammar = { in_sequence request_info request_info_laws info_heads allocates };

    #[tactic(auto, unfolding(crate::specs::RequestInfo::request_info), using(x509_der::proofs::Marking::marks_of_readers))]
    fn read_at<L: Outside>(
        alloc: Global,
        tries: &mut Tries,
        place: &Place<'a, L>,
    ) -> Result<(Self, bool), Refused<X509Error, L>> {
        let contents = sequence_at(place)?;
        let fields = Fields::of(tries, &contents);
        let (fields, version) = fields.field(alloc, tries)?;
        let (fields, subject) = fields.field(alloc, tries)?;
        let (fields, subject_pki) = fields.field(alloc, tries)?;
        let (attributes, attributes_plain) = ok!(read_attributes(alloc, tries, &fields.place));
        let bytes = place.bytes();
        let info = X509CertificationRequestInfo {
            version,
            subject,
            subject_pki,
            attributes,
            raw: &bytes[..bytes.len() - place.rest().len()],
        };
        Ok((info, fields.plain_so_far() & attributes_plain))
    }

    ghost never_memory = { request_info_laws.laws.never_memory };
}
