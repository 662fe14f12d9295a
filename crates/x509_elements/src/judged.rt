//! How a part stands at the front of some octets.

ghost use Rattle.std.specs.Prelude.{◌≡◌, MatchResult, false, true, ⊤};
ghost use Rattle.x509_der.specs.Leaves.{any, bool_loose};
ghost use Rattle.x509_fields.specs.Serial.{serial};
ghost use Rattle.x509_extensions.specs.Extension.{extension};
ghost use Rattle.x509_elements.specs.Judgements.{is_absent, is_another, is_leaf, is_name, opened, judged, judged_by, marked, part_judged, value_judged};
ghost use Rattle.x509_elements.specs.Cursors.{called_of};

use crate::cursor::Called;
use crate::part::Part;
use std::alloc::{AllocError, Global};
use x509_certs::{TbsCertificate, Validity, X509Certificate};
use x509_der::{BerError, FromDer, Place, ReadError, Reader, Tries, Window, read_any};
use x509_extensions::{ExtensionSequence, X509ExtensionParser};
use x509_fields::{AlgorithmIdentifier, X509Error, serial_at};
use x509_general_names::{
    AccessDescription, CRLDistributionPoint, DistributionPointName, GeneralName, GeneralSubtree,
};
use x509_keys::SubjectPublicKeyInfo;
use x509_lists::{CertificateRevocationList, RevokedCertificate, RevokedEntries, TbsCertList};
use x509_names::{AttributeTypeAndValue, RelativeDistinguishedName, X509Name};
use x509_requests::{X509CertificationRequest, X509CertificationRequestInfo, X509CriAttribute};
use x509_values::{PolicyInformation, PolicyMapping, PolicyQualifierInfo};

/// How a part stands at the front of some octets, by its reader.
#[derive(Clone, Copy, Debug)]
pub(crate) enum Judged {
    /// It doesn't: its reader refuses them.
    Absent,
    /// By no lenient rule.
    Plain,
    /// By one at least.
    Lenient,
    /// It has no reader of its own: what stands in it tells.
    Unjudged,
}

/// Whether it doesn't stand there.
pub(crate) fn is_absent(judged: Judged) -> bool
    ensures { result ≡ is_absent judged }
{
    matches!(judged, Judged::Absent)
}

/// By whether its reader takes it plainly.
fn marked(plain: bool) -> Judged
    ensures { result ≡ marked plain }
{
    if plain {
        Judged::Plain
    } else {
        Judged::Lenient
    }
}

/// How a value of this type stands there.
#[inline(never)]
#[tactic(auto, using(crate::proofs::Judging::not_excused))]
fn judge_as<'a, E: ReadError, T: FromDer<'a, E> + Drop>(
    alloc: Global,
    place: &'a [u8],
) -> Result<Judged, AllocError>
    ensures { MatchResult result (λ j. j ≡ judged_by T.grammar.plan place.now) (λ _. ⊤) }
{
    match T::from_der_marked_located(alloc, place) {
        Ok((_, _value, plain)) => Ok(marked(plain)),
        Err(refusal) if refusal.why.is_out_of_memory() => Err(AllocError),
        Err(_) => Ok(Judged::Absent),
    }
}

/// How an extension stands there. One is read as where the place of a refusal is asked for, and so shares no code with the loop over the
/// extensions of an object, into which LLVM inlines their envelope where nothing else in a program reads it.
#[tactic(auto, using(crate::proofs::Judging::not_excused))]
fn judge_extension(alloc: Global, place: &[u8]) -> Result<Judged, AllocError>
    ensures { MatchResult result (λ j. j ≡ judged_by (extension true) place.now) (λ _. ⊤) }
{
    let mut tries = Tries::new();
    let front = Place::inside(&mut tries, &Window::counted(place));
    match X509ExtensionParser::new().read_at(alloc, &mut tries, &front) {
        Ok((_extension, plain)) => Ok(marked(plain)),
        Err(refusal) if refusal.why.is_out_of_memory() => Err(AllocError),
        Err(_) => Ok(Judged::Absent),
    }
}

/// How a serial number stands there.
fn judge_serial(place: &[u8]) -> Judged
    ensures { result ≡ judged_by serial place.now }
{
    match serial_at(&Place::look(&mut Tries::new(), place)) {
        Ok((_, plain)) => marked(plain),
        Err(_) => Judged::Absent,
    }
}

/// How a BOOLEAN stands there that is read by the basic rules.
fn judge_boolean(place: &[u8]) -> Judged
    ensures { result ≡ judged_by bool_loose place.now }
{
    match Place::look(&mut Tries::new(), place).bool_marked() {
        Ok((_, plain)) => marked(plain),
        Err(_) => Judged::Absent,
    }
}

/// How an element stands that is looked into without a grammar of its own.
fn opened(judged: Judged) -> Judged
    ensures { result ≡ opened judged }
{
    match judged {
        Judged::Plain => Judged::Unjudged,
        other => other,
    }
}

/// How an element stands there that isn't taken apart.
#[tactic(auto, unfolding(x509_der::specs::Leaves::any))]
fn judge_any(place: &[u8]) -> Judged
    ensures { result ≡ judged_by any place.now }
{
    match read_any(&mut Tries::new(), place) {
        Ok(_) => Judged::Plain,
        Err(_) => Judged::Absent,
    }
}

/// How the value stands of the extension that stands there, which is read as above.
#[tactic(auto, using(crate::proofs::Judging::not_excused))]
fn judge_value(alloc: Global, place: &[u8]) -> Result<Judged, AllocError>
    ensures { MatchResult result (λ j. j ≡ value_judged ((extension false).read place.now)) (λ _. ⊤) }
{
    let parser = X509ExtensionParser::new().with_deep_parse_extensions(false);
    let mut tries = Tries::new();
    let front = Place::inside(&mut tries, &Window::counted(place));
    match parser.read_at(alloc, &mut tries, &front) {
        Ok((extension, _)) => Ok(marked(extension.has_plain_value(alloc)?)),
        Err(refusal) if refusal.why.is_out_of_memory() => Err(AllocError),
        Err(_) => Ok(Judged::Absent),
    }
}

/// Whether a part is looked at from outside alone: its members, where it has any, aren't read.
pub(crate) fn is_leaf(part: Part) -> bool
    ensures { result ≡ is_leaf part }
{
    matches!(
        part,
        Part::Serial
            | Part::Critical
            | Part::ExtensionId
            | Part::AttributeType
            | Part::Values
            | Part::QualifierId
            | Part::UserNotice
            | Part::NoticeReference
            | Part::NoticeNumbers
            | Part::RsaKeyBits
            | Part::RsaKey
            | Part::GeneralName
            | Part::OtherName
            | Part::EdiPartyName
            | Part::Told
            | Part::Whole
    )
}

/// How a part stands at the front of a place in the element at the front of the octets around it.
pub(crate) fn judge_part(
    alloc: Global,
    part: Part,
    around: &[u8],
    place: &[u8],
) -> Result<Judged, AllocError>
    ensures { MatchResult result (λ j. j ≡ part_judged part around.now place.now) (λ _. ⊤) }
{
    match part {
        Part::Certificate => judge_as::<X509Error, X509Certificate<'_>>(alloc, place),
        Part::TbsCertificate => judge_as::<X509Error, TbsCertificate<'_>>(alloc, place),
        Part::Serial => Ok(judge_serial(place)),
        Part::Algorithm | Part::KeyAlgorithm => judge_as::<X509Error, AlgorithmIdentifier<'_>>(
            alloc, place,
        ),
        Part::Name => judge_as::<X509Error, X509Name<'_>>(alloc, place),
        Part::RelativeName => judge_as::<X509Error, RelativeDistinguishedName<'_>>(alloc, place),
        Part::NameAttribute => judge_as::<X509Error, AttributeTypeAndValue<'_>>(alloc, place),
        Part::Validity => judge_as::<X509Error, Validity>(alloc, place),
        Part::KeyInfo => judge_as::<X509Error, SubjectPublicKeyInfo<'_>>(alloc, place),
        Part::Extensions => judge_as::<X509Error, ExtensionSequence<'_>>(alloc, place),
        Part::Extension => judge_extension(alloc, place),
        Part::Critical => Ok(judge_boolean(place)),
        Part::Value(_) => judge_value(alloc, around),
        Part::Policy => judge_as::<BerError, PolicyInformation<'_>>(alloc, place),
        Part::Qualifier => judge_as::<BerError, PolicyQualifierInfo<'_>>(alloc, place),
        Part::PolicyMapping => judge_as::<BerError, PolicyMapping<'_>>(alloc, place),
        Part::Subtree => judge_as::<X509Error, GeneralSubtree<'_>>(alloc, place),
        Part::DistributionPoint => judge_as::<X509Error, CRLDistributionPoint<'_>>(alloc, place),
        Part::DistributionPointName => judge_as::<X509Error, DistributionPointName<'_>>(
            alloc, place,
        ),
        Part::Access => judge_as::<X509Error, AccessDescription<'_>>(alloc, place),
        Part::List => judge_as::<X509Error, CertificateRevocationList<'_>>(alloc, place),
        Part::TbsList => judge_as::<X509Error, TbsCertList<'_>>(alloc, place),
        Part::Revoked => judge_as::<X509Error, RevokedEntries<'_>>(alloc, place),
        Part::Entry => judge_as::<X509Error, RevokedCertificate<'_>>(alloc, place),
        Part::Request => judge_as::<X509Error, X509CertificationRequest<'_>>(alloc, place),
        Part::RequestInfo => judge_as::<X509Error, X509CertificationRequestInfo<'_>>(alloc, place),
        Part::Attribute => judge_as::<X509Error, X509CriAttribute<'_>>(alloc, place),
        Part::TaggedExtensions | Part::Attributes | Part::FullName | Part::RelativeToIssuer => Ok(
            Judged::Unjudged,
        ),
        Part::Values => Ok(opened(judge_any(place))),
        Part::Unknown | Part::Unread => Ok(Judged::Absent),
        _ if is_leaf(part) => Ok(judge_any(place)),
        _ => Ok(opened(judge_any(place))),
    }
}

/// Whether a member of such a part is a GeneralName, whatever its number.
pub(crate) fn is_name(around: Part, name: &str) -> bool
    ensures { result ≡ is_name around name.now }
{
    match around {
        Part::GeneralNames | Part::FullName => true,
        Part::Subtree => name == "base",
        Part::Access => name == "accessLocation",
        _ => false,
    }
}

/// Whether a member with this number is none of such a part, whose reader takes the first one.
fn is_another(part: Part, number: Option<usize>) -> bool
    ensures { result ≡ is_another part number }
{
    match (part, number) {
        (Part::Passwords | Part::RequestedExtensions, Some(number)) => number != 0,
        _ => false,
    }
}

/// How what is called so stands at the front of a place, in this part at the front of the octets around it.
pub(crate) fn judge(
    alloc: Global,
    called: &Called,
    part: Part,
    around: &[u8],
    place: &[u8],
) -> Result<Judged, AllocError>
    ensures { MatchResult result (λ j. j ≡ judged (called_of called.now) (record { part = part; octets = around.now }) place.now) (λ _. ⊤) }
{
    if is_another(part, called.number) {
        Ok(Judged::Absent)
    } else if is_name(part, called.name) {
        judge_as::<X509Error, GeneralName<'_>>(alloc, place)
    } else {
        judge_part(alloc, called.part, around, place)
    }
}
