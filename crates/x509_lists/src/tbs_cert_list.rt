//! The part of a list that is signed.

ghost use Rattle.std.specs.Prelude.{◌≡◌};
ghost use Rattle.x509_der.specs.Grammar.{allocates, in_sequence};
ghost use Rattle.x509_der.specs.Iterating.{Iterates};
ghost use Rattle.x509_lists.specs.TbsCertList.{TbsList, tbs_list, tbs_list_heads, tbs_list_laws, tbs_list_with};

use crate::revoked_certificate::RevokedCertificate;
use crate::revoked_entries::RevokedEntries;
use crate::tbs_parts::{Entries, read_parts};
use std::alloc::Global;
use x509_der::{FromDer, Outside, Place, Refused, Sequence, Tries};
use x509_extensions::{ExtensionIter, X509Extension};
use x509_fields::{ASN1Time, AlgorithmIdentifier, TryClone, X509Error, X509Version};
use x509_names::X509Name;

/// The part of a list that is signed (RFC 5280, section 5.1.2), its certificates kept as `R` says: [`TbsCertList`] and
/// [`TbsCertListEntries`] are its two kinds.
///
/// ```text
/// TBSCertList  ::=  SEQUENCE  {
///     version              Version OPTIONAL,
///     signature            AlgorithmIdentifier,
///     issuer               Name,
///     thisUpdate           Time,
///     nextUpdate           Time OPTIONAL,
///     revokedCertificates  SEQUENCE OF SEQUENCE  {
///         userCertificate     CertificateSerialNumber,
///         revocationDate      Time,
///         crlEntryExtensions  Extensions OPTIONAL  }  OPTIONAL,
///     crlExtensions        [0]  EXPLICIT Extensions OPTIONAL  }
/// ```
#[derive(Debug, Drop, PartialEq)]
pub struct TbsCertListOf<'a, R> {
    /// The version, where one is written that can be read.
    pub version: Option<X509Version>,
    /// The algorithm that the signature is made with, as the signed part names it.
    pub signature: AlgorithmIdentifier<'a>,
    /// Who signed the list.
    pub issuer: X509Name<'a>,
    /// When the list was made.
    pub this_update: ASN1Time,
    /// When the next one comes at the latest, where that is said.
    pub next_update: Option<ASN1Time>,
    /// The certificates that were revoked, in order: all of them, or none where none are written.
    pub revoked_certificates: R,
    pub(crate) extensions: Sequence<X509Extension<'a>>,
    pub(crate) raw: &'a [u8],
}

/// The part of a list that is signed, its certificates in memory.
pub type TbsCertList<'a> = TbsCertListOf<'a, Sequence<RevokedCertificate<'a>>>;

/// The part of a list that is signed, its certificates left in their octets, where they take no memory.
pub type TbsCertListEntries<'a> = TbsCertListOf<'a, RevokedEntries<'a>>;

impl<'a, R> TbsCertListOf<'a, R> {
    /// The extensions, in order; two may have one identifier.
    pub fn extensions(&self) -> &[X509Extension<'a>]
        ensures { result.now ≡ self.now.extensions }
    {
        self.extensions.as_slice()
    }

    /// Iterates over the extensions, in order.
    pub fn iter_extensions(&self) -> ExtensionIter<'_, 'a>
        ensures { Iterates result self.now.extensions }
    {
        self.extensions.iter()
    }

    /// The bytes that are signed: the whole element, with its header.
    pub fn as_ref(&self) -> &'a [u8]
        ensures { result.now ≡ self.now.raw.now }
    {
        self.raw
    }
}

/// The signed part alone, extensions with what their values say.
impl<'a, R: Entries<'a>> FromDer<'a, X509Error> for TbsCertListOf<'a, R> {
    ghost Value = { TbsList };

    ghost view = { tbs_list_with R.entries };

    ghost grammar = { in_sequence tbs_list tbs_list_laws tbs_list_heads allocates };

    fn read_at<L: Outside>(
        alloc: Global,
        tries: &mut Tries,
        place: &Place<'a, L>,
    ) -> Result<(Self, bool), Refused<X509Error, L>> {
        read_parts(alloc, tries, place)
    }

    ghost never_memory = { tbs_list_laws.laws.never_memory };
}

impl<R: TryClone> TryClone for TbsCertListOf<'_, R> {
    fn try_clone(&self) -> Result<Self, X509Error> {
        let issuer = self.issuer.try_clone()?;
        let revoked_certificates = self.revoked_certificates.try_clone()?;
        let extensions = self.extensions.try_clone()?;
        Ok(TbsCertListOf {
            version: self.version,
            signature: self.signature,
            issuer,
            this_update: self.this_update,
            next_update: self.next_update,
            revoked_certificates,
            extensions,
            raw: self.raw,
        })
    }
}
