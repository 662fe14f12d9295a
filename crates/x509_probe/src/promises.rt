//! What holds of every input, whatever is answered: windows, depths, strict readers, counts, copies, the index, and that memory suffices.

use std::alloc::{AllocError, Global};
use x509_certs::{X509Certificate, X509CertificateParser};
use x509_der::{Err, FromDer, ReadError, Reader, Tries, read_any, read_any_loose};
use x509_extensions::{X509Extension, X509ExtensionParser};
use x509_fields::{TryClone, X509Error};
use x509_lists::{CertificateRevocationList, TbsCertList, parse_x509_crl_strict};
use x509_names::X509Name;
use x509_probe_answers::Show;
use x509_requests::{X509CertificationRequest, parse_x509_csr_strict};
use x509_revoked::RevocationIndex;

/// What is looked at.
#[derive(Clone, Copy)]
pub enum Promise {
    /// The rest is the end of the input.
    Rest,
    /// At most eight headers a byte are looked at.
    Tries,
    /// `read` and `from_der` answer as `read_marked`.
    Readers,
    /// What a strict reader takes, the other takes, with the same value.
    Strict,
    /// With the values of extensions and without them the same is taken.
    Depths,
    /// A window is those bytes of the input that it should be.
    Windows,
    /// What was signed, read from its window, is the same, with nothing behind it.
    SignedPart,
    /// A copy is equal.
    Copies,
    /// The index finds what the list finds.
    Index,
    /// An element is the one that its identifier and length octets give.
    Element,
    /// The reader that tells the place of a refusal takes and refuses the same, at an octet of the input or behind its last.
    Places,
    /// A list whose entries stay in their octets is read as one that keeps them.
    Entries,
    /// No answer is want of memory, and no text fails: where memory is short in truth, the line that says so isn't written either.
    Memory,
}

impl Promise {
    /// All of them.
    pub const ALL: [Promise; 13] = [
        Promise::Rest,
        Promise::Tries,
        Promise::Readers,
        Promise::Strict,
        Promise::Depths,
        Promise::Windows,
        Promise::SignedPart,
        Promise::Copies,
        Promise::Index,
        Promise::Element,
        Promise::Places,
        Promise::Entries,
        Promise::Memory,
    ];

    /// What isn't as it should be, in words.
    pub fn broken(self) -> &'static str {
        match self {
            Promise::Rest => "the rest isn't the end of the input",
            Promise::Tries => "more than eight headers a byte were looked at",
            Promise::Readers => "the readers of a type answer otherwise",
            Promise::Strict => "the strict reader takes another value, or more",
            Promise::Depths => "one depth takes what the other doesn't",
            Promise::Windows => "a window holds other bytes",
            Promise::SignedPart => "the signed part reads otherwise",
            Promise::Copies => "a copy isn't equal",
            Promise::Index => "the index finds another entry",
            Promise::Element => "an element is another than its header says",
            Promise::Places => "a refusal with its place is another, or lies outside of the input",
            Promise::Entries => "a list whose entries stay in their octets reads otherwise",
            Promise::Memory => "memory is said to be short, or a text failed",
        }
    }

    /// Its place among all.
    pub fn place(self) -> usize {
        match self {
            Promise::Rest => 0,
            Promise::Tries => 1,
            Promise::Readers => 2,
            Promise::Strict => 3,
            Promise::Depths => 4,
            Promise::Windows => 5,
            Promise::SignedPart => 6,
            Promise::Copies => 7,
            Promise::Index => 8,
            Promise::Element => 9,
            Promise::Places => 10,
            Promise::Entries => 11,
            Promise::Memory => 12,
        }
    }
}

/// Why not all was found as it should be.
#[derive(Clone, Copy)]
pub enum Finding {
    /// This isn't kept.
    Broken(Promise),
    /// Memory was refused.
    Memory,
}

impl From<AllocError> for Finding {
    fn from(_error: AllocError) -> Finding {
        Finding::Memory
    }
}

/// What is read, and the rest behind it; none where it is refused.
type Taken<'a, T> = Option<(&'a [u8], T)>;

// This promise is kept where this holds.
fn kept(promise: Promise, holds: bool) -> Result<(), Finding> {
    if holds {
        Ok(())
    } else {
        Err(Finding::Broken(promise))
    }
}

// What a reader took; the rest is the end of the input.
fn taken<'a, T: Show, E: ReadError>(
    i: &'a [u8],
    read: Result<(&'a [u8], T), Err<E>>,
) -> Result<Taken<'a, T>, Finding> {
    match read {
        Ok((rest, value)) => {
            if i.ends_with(rest) {
                Ok(Some((rest, value)))
            } else {
                Err(Finding::Broken(Promise::Rest))
            }
        }
        Err(refusal) if refusal.is_out_of_memory() => Err(Finding::Memory),
        Err(_) => Ok(None),
    }
}

// The same of a reader that counts.
fn counted<'a, T: Show, E: ReadError>(
    i: &'a [u8],
    tries: &Tries,
    read: Result<(&'a [u8], T), Err<E>>,
) -> Result<Taken<'a, T>, Finding> {
    let length = u128::try_from(i.len()).unwrap_or(u128::MAX);
    if tries.count() / 8 <= length {
        taken(i, read)
    } else {
        Err(Finding::Broken(Promise::Tries))
    }
}

// Whether a reader took something.
fn is_taken<T: Show>(taken: Result<Taken<'_, T>, Finding>) -> Result<bool, Finding> {
    match taken {
        Ok(taken) => Ok(taken.is_some()),
        Err(finding) => Err(finding),
    }
}

// A window that is all that was consumed.
fn consumed(i: &[u8], rest: &[u8], window: &[u8]) -> Result<(), Finding> {
    let length = i.len().saturating_sub(rest.len());
    kept(
        Promise::Windows,
        i.starts_with(window) && window.len() == length,
    )
}

// The window of the signed part: the front of the contents.
fn signed(whole: &[u8], part: &[u8]) -> Result<(), Finding> {
    let mut tries = Tries::new();
    match read_any(&mut tries, whole) {
        Ok((_, any)) => kept(Promise::Windows, any.as_bytes().starts_with(part)),
        Err(_) => Err(Finding::Broken(Promise::Windows)),
    }
}

// The signed part, read from its window.
fn again<'a, T: FromDer<'a, X509Error> + PartialEq + Show>(
    alloc: Global,
    window: &'a [u8],
    value: &T,
) -> Result<(), Finding> {
    match taken(window, T::from_der(alloc, window)) {
        Ok(Some((rest, same))) => kept(Promise::SignedPart, rest.is_empty() && same == *value),
        Ok(None) => Err(Finding::Broken(Promise::SignedPart)),
        Err(finding) => Err(finding),
    }
}

// A copy of a value.
fn copied<T: TryClone + PartialEq>(value: &T) -> Result<(), Finding> {
    match value.try_clone() {
        Ok(copy) => kept(Promise::Copies, copy == *value),
        Err(_) => Err(Finding::Memory),
    }
}

/// A structure whose front is signed.
trait Structure<'a>: Show {
    /// What its readers take.
    fn loose(alloc: Global, i: &'a [u8]) -> Result<Taken<'a, Self>, Finding>;

    /// What its strict readers take.
    fn strict(alloc: Global, i: &'a [u8]) -> Result<Taken<'a, Self>, Finding>;

    /// Whether two say the same.
    fn is_same(&self, other: &Self) -> bool;

    /// Its window, and that of its signed part.
    fn windows(&self) -> (&'a [u8], &'a [u8]);

    /// The signed part read again, copies, and what else it has.
    fn others(&self, alloc: Global) -> Result<(), Finding>;
}

// The strict readers take the same value, or none.
fn same_strict<'a, T: Structure<'a>>(
    alloc: Global,
    i: &'a [u8],
    rest: &[u8],
    value: &T,
) -> Result<(), Finding> {
    match T::strict(alloc, i) {
        Ok(Some((strict_rest, same))) => {
            kept(Promise::Strict, strict_rest == rest && value.is_same(&same))
        }
        Ok(None) => Ok(()),
        Err(finding) => Err(finding),
    }
}

// What is promised of a structure that was taken.
fn promised<'a, T: Structure<'a>>(
    alloc: Global,
    i: &'a [u8],
    rest: &[u8],
    value: &T,
) -> Result<(), Finding> {
    same_strict(alloc, i, rest, value)?;
    let (whole, part) = value.windows();
    consumed(i, rest, whole)?;
    signed(whole, part)?;
    value.others(alloc)
}

// Looks at a structure, strict and not, and tells whether it is taken.
fn looks_at<'a, T: Structure<'a>>(alloc: Global, i: &'a [u8]) -> Result<bool, Finding> {
    match T::loose(alloc, i) {
        Ok(Some((rest, value))) => match promised(alloc, i, rest, &value) {
            Ok(()) => Ok(true),
            Err(finding) => Err(finding),
        },
        Ok(None) => {
            let strict = is_taken(T::strict(alloc, i))?;
            kept(Promise::Strict, !strict)?;
            Ok(false)
        }
        Err(finding) => Err(finding),
    }
}

// A certificate, by a parser.
fn certificate_by<'a>(
    alloc: Global,
    parser: X509CertificateParser,
    i: &'a [u8],
) -> Result<Taken<'a, X509Certificate<'a>>, Finding> {
    let mut tries = Tries::new();
    let read = parser.read(alloc, &mut tries, i);
    counted(i, &tries, read)
}

impl<'a> Structure<'a> for X509Certificate<'a> {
    fn loose(alloc: Global, i: &'a [u8]) -> Result<Taken<'a, X509Certificate<'a>>, Finding> {
        certificate_by(alloc, X509CertificateParser::new(), i)
    }

    fn strict(alloc: Global, i: &'a [u8]) -> Result<Taken<'a, X509Certificate<'a>>, Finding> {
        certificate_by(alloc, X509CertificateParser::new().with_strict(true), i)
    }

    fn is_same(&self, other: &X509Certificate<'a>) -> bool {
        *other == *self
    }

    fn windows(&self) -> (&'a [u8], &'a [u8]) {
        (self.as_raw(), self.tbs_certificate.as_ref())
    }

    fn others(&self, alloc: Global) -> Result<(), Finding> {
        let tbs = &self.tbs_certificate;
        again(alloc, tbs.as_ref(), tbs)?;
        copied(self)
    }
}

/// Looks at a certificate at both depths, strict and not.
pub fn certificate(alloc: Global, i: &[u8]) -> Result<(), Finding> {
    let parser = X509CertificateParser::new().with_deep_parse_extensions(false);
    let shallow = is_taken(certificate_by(alloc, parser, i))?;
    let deep = looks_at::<X509Certificate>(alloc, i)?;
    kept(Promise::Depths, deep == shallow)
}

// The index over a list finds of each entry what the list finds.
fn indexed_by(list: &TbsCertList<'_>, index: &RevocationIndex<'_>) -> Result<(), Finding> {
    for entry in list.revoked_certificates.as_slice() {
        let serial = entry.serial();
        kept(
            Promise::Index,
            index.find(serial) == list.find_revoked(serial),
        )?;
    }
    Ok(())
}

// The index over a list.
fn indexed(list: &TbsCertList<'_>) -> Result<(), Finding> {
    match RevocationIndex::build(list) {
        Ok(index) => indexed_by(list, &index),
        Err(_) => Err(Finding::Memory),
    }
}

impl<'a> Structure<'a> for CertificateRevocationList<'a> {
    fn loose(
        alloc: Global,
        i: &'a [u8],
    ) -> Result<Taken<'a, CertificateRevocationList<'a>>, Finding> {
        let mut tries = Tries::new();
        let read = CertificateRevocationList::read(alloc, &mut tries, i);
        counted(i, &tries, read)
    }

    fn strict(
        alloc: Global,
        i: &'a [u8],
    ) -> Result<Taken<'a, CertificateRevocationList<'a>>, Finding> {
        taken(i, parse_x509_crl_strict(alloc, i))
    }

    fn is_same(&self, other: &CertificateRevocationList<'a>) -> bool {
        other.tbs_cert_list == self.tbs_cert_list
            && other.signature_algorithm == self.signature_algorithm
            && other.signature_value == self.signature_value
    }

    fn windows(&self) -> (&'a [u8], &'a [u8]) {
        (self.as_raw(), self.tbs_cert_list.as_ref())
    }

    fn others(&self, alloc: Global) -> Result<(), Finding> {
        let list = &self.tbs_cert_list;
        again(alloc, list.as_ref(), list)?;
        copied(list)?;
        indexed(list)
    }
}

/// Looks at a list, strict and not.
pub fn list(alloc: Global, i: &[u8]) -> Result<(), Finding> {
    looks_at::<CertificateRevocationList>(alloc, i)?;
    Ok(())
}

impl<'a> Structure<'a> for X509CertificationRequest<'a> {
    fn loose(
        alloc: Global,
        i: &'a [u8],
    ) -> Result<Taken<'a, X509CertificationRequest<'a>>, Finding> {
        let mut tries = Tries::new();
        let read = X509CertificationRequest::read(alloc, &mut tries, i);
        counted(i, &tries, read)
    }

    fn strict(
        alloc: Global,
        i: &'a [u8],
    ) -> Result<Taken<'a, X509CertificationRequest<'a>>, Finding> {
        taken(i, parse_x509_csr_strict(alloc, i))
    }

    fn is_same(&self, other: &X509CertificationRequest<'a>) -> bool {
        *other == *self
    }

    fn windows(&self) -> (&'a [u8], &'a [u8]) {
        (self.as_raw(), self.certification_request_info.raw)
    }

    fn others(&self, alloc: Global) -> Result<(), Finding> {
        let info = &self.certification_request_info;
        again(alloc, info.raw, info)
    }
}

/// Looks at a request, strict and not.
pub fn request(alloc: Global, i: &[u8]) -> Result<(), Finding> {
    looks_at::<X509CertificationRequest>(alloc, i)?;
    Ok(())
}

// Looks at the copy of what is taken, and tells whether it is.
fn copied_if_taken<T: TryClone + PartialEq + Show>(
    taken: Result<Taken<'_, T>, Finding>,
) -> Result<bool, Finding> {
    match taken {
        Ok(Some((_, value))) => match copied(&value) {
            Ok(()) => Ok(true),
            Err(finding) => Err(finding),
        },
        Ok(None) => Ok(false),
        Err(finding) => Err(finding),
    }
}

/// Looks at an extension at both depths.
pub fn extension(alloc: Global, i: &[u8]) -> Result<(), Finding> {
    let mut tries = Tries::new();
    let read = X509Extension::read(alloc, &mut tries, i);
    let deep = copied_if_taken(counted(i, &tries, read))?;
    let parser = X509ExtensionParser::new().with_deep_parse_extensions(false);
    let mut tries = Tries::new();
    let read = parser.read(alloc, &mut tries, i);
    let shallow = is_taken(counted(i, &tries, read))?;
    kept(Promise::Depths, deep == shallow)
}

// Looks at a name that was taken.
fn promised_of_name(i: &[u8], name: &X509Name<'_>) -> Result<(), Finding> {
    kept(Promise::Windows, i.starts_with(name.as_raw()))?;
    copied(name)
}

/// Looks at a name.
pub fn name(alloc: Global, i: &[u8]) -> Result<(), Finding> {
    match taken(i, X509Name::from_der(alloc, i)) {
        Ok(Some((_, value))) => promised_of_name(i, &value),
        Ok(None) => Ok(()),
        Err(finding) => Err(finding),
    }
}

/// How many identifier octets stand first (X.690, 8.1.2): one, or those up to one without bit 8.
fn identifier(i: &[u8]) -> Option<usize> {
    if i.first()? & 0x1f != 0x1f {
        return Some(1);
    }
    let more = i.get(1..)?.iter().position(|octet| *octet < 0x80)?;
    Some(more.wrapping_add(2))
}

/// Where an element's contents begin, where it ends, and whether its length stands in the fewest octets (X.690, 8.1.3, 10.1).
#[derive(Clone, Copy)]
struct Extent {
    start: usize,
    end: usize,
    fewest: bool,
}

/// The extent that the octets at the front give.
fn extent_of(i: &[u8]) -> Option<Extent> {
    let places = identifier(i)?;
    let first = *i.get(places)?;
    let start = places.wrapping_add(1);
    if first < 0x80 {
        let end = start.wrapping_add(usize::from(first));
        return Some(Extent {
            start,
            end,
            fewest: true,
        });
    }
    let behind = start.wrapping_add(usize::from(first & 0x7f));
    let octets = i.get(start..behind)?;
    let mut length = 0_usize;
    for octet in octets {
        length = length.wrapping_mul(256).wrapping_add(usize::from(*octet));
    }
    Some(Extent {
        start: behind,
        end: behind.wrapping_add(length),
        fewest: length > 0x7f && octets.first() != Some(&0),
    })
}

/// Looks at an element, strict or not: its contents and the rest are those of its extent, in one try.
fn element_by(i: &[u8], strict: bool) -> Result<bool, Finding> {
    let mut tries = Tries::new();
    let read = if strict {
        read_any(&mut tries, i)
    } else {
        read_any_loose(&mut tries, i)
    };
    kept(Promise::Tries, tries.count() == u128::from(!i.is_empty()))?;
    match (taken(i, read)?, extent_of(i)) {
        (Some((rest, any)), Some(extent)) => {
            let right = i.get(extent.start..extent.end) == Some(any.as_bytes())
                && i.get(extent.end..) == Some(rest)
                && (extent.fewest || !strict);
            kept(Promise::Element, right)?;
            Ok(true)
        }
        (Some(_), None) => Err(Finding::Broken(Promise::Element)),
        (None, _) => Ok(false),
    }
}

/// Looks at an element: the strict reader takes what the other takes whose length stands in the fewest octets.
pub fn element(i: &[u8]) -> Result<(), Finding> {
    let strict = element_by(i, true)?;
    let loose = element_by(i, false)?;
    let fewest = matches!(extent_of(i), Some(extent) if extent.fewest);
    kept(Promise::Strict, strict == (loose && fewest))
}
