//! Where the value of an extension is refused, and why.

ghost use Rattle.std.specs.Prelude.{◌≡◌, MatchResult, ⊤};
ghost use Rattle.x509_der.specs.Oid.{oid_bytes};
ghost use Rattle.x509_fields.specs.Fields.{lifted};
ghost use Rattle.x509_values.specs.NsComment.{ns_comment};
ghost use Rattle.x509_values.specs.TimestampList.{timestamps};
ghost use Rattle.x509_extensions.specs.Kinds.{kind_of};
ghost use Rattle.x509_extensions.specs.Parsed.{parsed_value, row, value_marks};
ghost use Rattle.x509_extensions.specs.Refusals.{IsErrorOf, IsOrMemory, IsValueRefusal, TellsRefusal, value_refusal};

use crate::extension::X509Extension;
use crate::kind::Kind;
use crate::parsed::parse_value;
use std::alloc::{AllocError, Global};
use x509_der::{FromDer, Located, Tries};
use x509_fields::X509Error;
use x509_general_names::{
    AuthorityInfoAccess, AuthorityKeyIdentifier, CRLDistributionPoints, IssuerAlternativeName,
    IssuingDistributionPoint, KeyIdentifier, NameConstraints, SubjectAlternativeName,
    SubjectInfoAccess,
};
use x509_values::{
    BasicConstraints, CRLNumber, ExtendedKeyUsage, InhibitAnyPolicy, InvalidityDate, KeyUsage,
    NSCertType, PolicyConstraints, PolicyList, PolicyMappings, ReasonCodeValue, TimestampList,
    read_ns_comment,
};

// Why no value of this type stands at the front of these octets, and where.
#[inline(never)]
fn refusal_of<'a, T: FromDer<'a, X509Error> + Drop>(
    alloc: Global,
    value: &'a [u8],
) -> Option<Located<X509Error>>
    ensures { TellsRefusal T.grammar.plan value.now result }
{
    match T::from_der_located(alloc, value) {
        Ok(_) => None,
        Err(refusal) => Some(refusal),
    }
}

// The same of timestamps, whose reader refuses as the layer of elements does.
fn timestamps_refusal(alloc: Global, value: &[u8]) -> Option<Located<X509Error>>
    ensures { TellsRefusal (lifted timestamps) value.now result }
{
    match TimestampList::from_der_located(alloc, value) {
        Ok(_) => None,
        Err(refusal) => Some(Located {
            why: refusal.why.convert(),
            at: refusal.at,
        }),
    }
}

// The same of a comment, which is one text: it is refused at its front.
fn comment_refusal(value: &[u8]) -> Option<Located<X509Error>>
    ensures { TellsRefusal ns_comment value.now result }
{
    match read_ns_comment(&mut Tries::new(), value) {
        Ok(_) => None,
        Err(why) => Some(Located { why, at: 0 }),
    }
}

// The same of a value of this kind.
#[tactic(auto, using(crate::proofs::Refusing::told_made))]
fn kind_refusal(alloc: Global, kind: Kind, value: &[u8]) -> Option<Located<X509Error>>
    ensures { TellsRefusal (row kind) value.now result }
{
    match kind {
        Kind::SubjectKeyIdentifier => refusal_of::<KeyIdentifier<'_>>(alloc, value),
        Kind::KeyUsage => refusal_of::<KeyUsage>(alloc, value),
        Kind::SubjectAlternativeName => refusal_of::<SubjectAlternativeName<'_>>(alloc, value),
        Kind::IssuerAlternativeName => refusal_of::<IssuerAlternativeName<'_>>(alloc, value),
        Kind::BasicConstraints => refusal_of::<BasicConstraints>(alloc, value),
        Kind::CRLNumber => refusal_of::<CRLNumber<'_>>(alloc, value),
        Kind::ReasonCode => refusal_of::<ReasonCodeValue>(alloc, value),
        Kind::InvalidityDate => refusal_of::<InvalidityDate>(alloc, value),
        Kind::IssuingDistributionPoint => refusal_of::<IssuingDistributionPoint<'_>>(alloc, value),
        Kind::NameConstraints => refusal_of::<NameConstraints<'_>>(alloc, value),
        Kind::CRLDistributionPoints => refusal_of::<CRLDistributionPoints<'_>>(alloc, value),
        Kind::CertificatePolicies => refusal_of::<PolicyList<'_>>(alloc, value),
        Kind::PolicyMappings => refusal_of::<PolicyMappings<'_>>(alloc, value),
        Kind::AuthorityKeyIdentifier => refusal_of::<AuthorityKeyIdentifier<'_>>(alloc, value),
        Kind::PolicyConstraints => refusal_of::<PolicyConstraints>(alloc, value),
        Kind::ExtendedKeyUsage => refusal_of::<ExtendedKeyUsage<'_>>(alloc, value),
        Kind::InhibitAnyPolicy => refusal_of::<InhibitAnyPolicy>(alloc, value),
        Kind::AuthorityInfoAccess => refusal_of::<AuthorityInfoAccess<'_>>(alloc, value),
        Kind::SubjectInfoAccess => refusal_of::<SubjectInfoAccess<'_>>(alloc, value),
        Kind::SCT => timestamps_refusal(alloc, value),
        Kind::NSCertType => refusal_of::<NSCertType>(alloc, value),
        Kind::NsCertComment => comment_refusal(value),
    }
}

/// Why these octets are no value of an extension whose identifier has these contents octets, and where: what the reader of its kind
/// refuses, at the octet, from 0, at which the kind's grammar refuses it. None where they are a value, and where no reader is known for the
/// identifier. At most eight headers are tried for each octet.
///
/// Want of memory is want of memory, and its place means nothing.
pub fn value_refusal(alloc: Global, id: &[u8], value: &[u8]) -> Option<Located<X509Error>>
    // A refusal of the grammar, with its place; and each refusal of the grammar is told.
    ensures grammar { IsValueRefusal (kind_of id.now) value.now result }
    ensures computed { IsOrMemory result (value_refusal id.now value.now) }
    // The reason is that of the `ParseError`.
    ensures error { IsErrorOf (parsed_value id.now value.now) result }
{
    let Some(kind) = Kind::of(id) else {
        return None;
    };
    kind_refusal(alloc, kind, value)
}

impl X509Extension<'_> {
    /// Why the value can't be read, and where, by [`value_refusal`]: at the octet of `value`, from 0. The value is read for it, also where
    /// it wasn't looked at before ([`ParsedExtension::Unparsed`](crate::ParsedExtension)).
    ///
    /// Where what the value says is a [`ParsedExtension::ParseError`](crate::ParsedExtension), this is for the same reason, told more
    /// exactly: there an error that isn't one of an element stands as `BerValueError`.
    ///
    /// In an object's octets the place is so many octets behind the first of the contents of the extension's OCTET STRING.
    pub fn value_refusal(&self, alloc: Global) -> Option<Located<X509Error>>
        ensures grammar { IsValueRefusal (kind_of (oid_bytes self.now.oid)) self.now.value.now result }
        ensures computed { IsOrMemory result (value_refusal (oid_bytes self.now.oid) self.now.value.now) }
        ensures error { IsErrorOf (parsed_value (oid_bytes self.now.oid) self.now.value.now) result }
    {
        value_refusal(alloc, self.oid.as_bytes(), self.value)
    }

    /// Whether a strict reader takes the value: where it can be read, that no lenient rule was used for it and that nothing stands behind it
    /// in its OCTET STRING. So is a value that can't be read, or whose identifier has no reader: it uses no rule. The value is read for it,
    /// also where it wasn't looked at before.
    ///
    /// # Errors
    ///
    /// `AllocError`.
    pub fn has_plain_value(&self, alloc: Global) -> Result<bool, AllocError>
        ensures { MatchResult result (λ plain. plain ≡ value_marks (oid_bytes self.now.oid) self.now.value.now) (λ _. ⊤) }
    {
        match parse_value(alloc, &mut Tries::new(), &self.oid, self.value) {
            Ok((_, plain)) => Ok(plain),
            Err(_) => Err(AllocError),
        }
    }
}
