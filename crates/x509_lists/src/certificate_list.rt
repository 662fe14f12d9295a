//! Lists of revoked certificates.

ghost use Rattle.std.specs.Prelude.{◌≡◌};
ghost use Rattle.x509_der.specs.Grammar.{allocates, in_sequence};
ghost use Rattle.x509_der.specs.Iterating.{Iterates};
ghost use Rattle.x509_fields.specs.Signed.{Signed};
ghost use Rattle.x509_lists.specs.CertificateList.{certificate_list, certificate_list_laws, list_heads, list_of};
ghost use Rattle.x509_lists.specs.ListEntries.{list_entries_of};
ghost use Rattle.x509_lists.specs.RevokedEntries.{entries_left, entries_of};
ghost use Rattle.x509_lists.specs.TbsCertList.{TbsList};

use crate::entries_iter::EntriesIter;
use crate::revoked_certificate::{RevokedCertificate, RevokedIter};
use crate::revoked_entries::RevokedEntries;
use crate::tbs_cert_list::TbsCertListOf;
use std::alloc::Global;
use x509_der::{BitString, FromDer, OfType, Outside, Place, Refused, Sequence, Tries, ok};
use x509_extensions::X509Extension;
use x509_fields::{
    ASN1Time, AlgorithmIdentifier, Signed, TryClone, X509Error, X509Version, read_signed,
};
use x509_names::X509Name;

/// A list of revoked certificates (RFC 5280, section 5.1), its certificates kept as `R` says: [`CertificateRevocationList`] and
/// [`CertificateListEntries`] are its two kinds. Its signature is not looked into.
///
/// ```text
/// CertificateList  ::=  SEQUENCE  {
///     tbsCertList         TBSCertList,
///     signatureAlgorithm  AlgorithmIdentifier,
///     signatureValue      BIT STRING  }
/// ```
#[derive(Debug, Drop)]
pub struct CertificateListOf<'a, R> {
    /// The part that is signed.
    pub tbs_cert_list: TbsCertListOf<'a, R>,
    /// The algorithm of the signature.
    pub signature_algorithm: AlgorithmIdentifier<'a>,
    /// The bits of the signature.
    pub signature_value: BitString<'a>,
    pub(crate) raw: &'a [u8],
}

/// A list of revoked certificates, these in memory.
pub type CertificateRevocationList<'a> = CertificateListOf<'a, Sequence<RevokedCertificate<'a>>>;

/// A list of revoked certificates, each of which was read, and stays in its octets: a list of any length takes the memory of its name
/// and its own extensions.
pub type CertificateListEntries<'a> = CertificateListOf<'a, RevokedEntries<'a>>;

impl<'a, R> CertificateListOf<'a, R> {
    /// The version, where one is written that can be read.
    pub fn version(&self) -> Option<X509Version>
        ensures { result ≡ self.now.tbs_cert_list.version }
    {
        self.tbs_cert_list.version
    }

    /// Who signed the list.
    pub fn issuer(&self) -> &X509Name<'a>
        ensures { result.now ≡ self.now.tbs_cert_list.issuer }
    {
        &self.tbs_cert_list.issuer
    }

    /// When the list was made.
    pub fn last_update(&self) -> ASN1Time
        ensures { result ≡ self.now.tbs_cert_list.this_update }
    {
        self.tbs_cert_list.this_update
    }

    /// When the next list comes at the latest, where that is said.
    pub fn next_update(&self) -> Option<ASN1Time>
        ensures { result ≡ self.now.tbs_cert_list.next_update }
    {
        self.tbs_cert_list.next_update
    }

    /// The extensions, in order; two may have one identifier.
    pub fn extensions(&self) -> &[X509Extension<'a>]
        ensures { result.now ≡ self.now.tbs_cert_list.extensions }
    {
        self.tbs_cert_list.extensions()
    }

    /// The bytes of the list: the whole element, with its header.
    pub fn as_raw(&self) -> &'a [u8]
        ensures { result.now ≡ self.now.raw.now }
    {
        self.raw
    }

    /// The same as [`CertificateListOf::as_raw`].
    pub fn as_ref(&self) -> &'a [u8]
        ensures { result.now ≡ self.now.raw.now }
    {
        self.as_raw()
    }
}

impl<'a> CertificateRevocationList<'a> {
    /// Iterates over the certificates that were revoked, in order.
    pub fn iter_revoked_certificates(&self) -> RevokedIter<'_, 'a>
        ensures { Iterates result self.now.tbs_cert_list.revoked_certificates }
    {
        self.tbs_cert_list.revoked_certificates.iter()
    }
}

impl<'a> CertificateListEntries<'a> {
    /// Reads the certificates that were revoked again, one after another. The extensions of each take memory from here.
    pub fn iter_revoked_certificates(&self, alloc: Global) -> EntriesIter<'a>
        ensures { entries_left result ≡ entries_of self.now.tbs_cert_list.revoked_certificates }
    {
        self.tbs_cert_list.revoked_certificates.iter(alloc)
    }
}

/// The list, its extensions with what their values say.
impl<'a> FromDer<'a, X509Error> for CertificateRevocationList<'a> {
    ghost Value = { Signed TbsList };

    ghost view = { list_of };

    ghost grammar = { in_sequence certificate_list certificate_list_laws list_heads allocates };

    #[tactic(auto, unfolding(crate::specs::CertificateList::certificate_list))]
    fn read_at<L: Outside>(
        alloc: Global,
        tries: &mut Tries,
        place: &Place<'a, L>,
    ) -> Result<(Self, bool), Refused<X509Error, L>> {
        let (
            Signed {
                tbs,
                signature_algorithm,
                signature_value,
                raw,
            },
            plain,
        ) = ok!(read_signed(&OfType, alloc, tries, place));
        let list = CertificateListOf {
            tbs_cert_list: tbs,
            signature_algorithm,
            signature_value,
            raw,
        };
        Ok((list, plain))
    }

    ghost never_memory = { certificate_list_laws.laws.never_memory };
}

/// As [`CertificateRevocationList`].
impl<'a> FromDer<'a, X509Error> for CertificateListEntries<'a> {
    ghost Value = { Signed TbsList };

    ghost view = { list_entries_of };

    ghost grammar = { in_sequence certificate_list certificate_list_laws list_heads allocates };

    #[tactic(auto, unfolding(crate::specs::CertificateList::certificate_list))]
    fn read_at<L: Outside>(
        alloc: Global,
        tries: &mut Tries,
        place: &Place<'a, L>,
    ) -> Result<(Self, bool), Refused<X509Error, L>> {
        let (
            Signed {
                tbs,
                signature_algorithm,
                signature_value,
                raw,
            },
            plain,
        ) = ok!(read_signed(&OfType, alloc, tries, place));
        let list = CertificateListOf {
            tbs_cert_list: tbs,
            signature_algorithm,
            signature_value,
            raw,
        };
        Ok((list, plain))
    }

    ghost never_memory = { certificate_list_laws.laws.never_memory };
}

impl<R: TryClone> TryClone for CertificateListOf<'_, R> {
    fn try_clone(&self) -> Result<Self, X509Error> {
        let tbs_cert_list = self.tbs_cert_list.try_clone()?;
        Ok(CertificateListOf {
            tbs_cert_list,
            signature_algorithm: self.signature_algorithm,
            signature_value: self.signature_value,
            raw: self.raw,
        })
    }
}
