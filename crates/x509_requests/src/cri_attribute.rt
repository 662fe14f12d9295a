//! Attributes of a request.

ghost use Rattle.std.specs.Prelude.{◌≡◌, ◌≤◌, ◌+◌, ◌*◌, true, false, length, IfOk, MatchResult};
ghost use Rattle.x509_der.specs.Grammar.{allocates, in_element};
ghost use Rattle.x509_der.specs.Oid.{oid_bytes};
ghost use Rattle.x509_der.specs.Primitives.{is_constructed};
ghost use Rattle.x509_der.specs.declared.error.Err.TheVariants.{Error};
ghost use Rattle.x509_der.specs.Promises.{Answers, is_excused};
ghost use Rattle.x509_fields.specs.declared.error.X509Error.TheVariants.{InvalidAttributes, OutOfMemory};
ghost use Rattle.x509_der.specs.Reading.{loose};
ghost use Rattle.x509_fields.specs.Errors.{is_x509_memory};
ghost use Rattle.x509_requests.specs.CriAttribute.{Attribute, attribute_of, parsed_of, extensions_in, attribute, attribute_heads, kind_of, said_by};
ghost use Rattle.x509_requests.specs.CriAttribute.{marks_of_values};
ghost use Rattle.x509_requests.specs.AttributeLaws.{attribute_laws};

use crate::attribute_kind::AttributeKind;
use crate::attribute_parts::{AttributeParts, read_attribute_parts};
use crate::extension_request::ExtensionRequest;
use crate::password::{ChallengePassword, read_password};
use std::alloc::Global;
use std::slice;
use x509_der::{Class, Err, Fields, FromDer, Header, Oid, Outside, Place, Refused, Tries, Window};
use x509_fields::{TryClone, X509Error};

/// An attribute of a certification request (RFC 2986, section 4.1).
///
/// ```text
/// Attribute  ::=  SEQUENCE  {
///     type    OBJECT IDENTIFIER,
///     values  SET OF AttributeValue  }
/// ```
///
/// Of the SEQUENCE's length any octets are taken, and of the SET's tag the number alone is looked at. An attribute whose
/// identifier is known is refused where the first value in its SET can't be read; bytes behind that value are skipped.
#[derive(Debug, Drop, PartialEq)]
pub struct X509CriAttribute<'a> {
    /// Which attribute it is.
    pub oid: Oid<'a>,
    /// The values: the whole SET, with its header.
    pub value: &'a [u8],
    pub(crate) parsed_attribute: ParsedCriAttribute<'a>,
}

/// What the value of an attribute says, by the attribute's identifier.
#[derive(Debug, Drop, PartialEq)]
pub enum ParsedCriAttribute<'a> {
    /// A password by which the certificate can be revoked.
    ChallengePassword(ChallengePassword),
    /// Extensions that the certificate is to have.
    ExtensionRequest(ExtensionRequest<'a>),
    /// No reader is known for the identifier.
    UnsupportedAttribute,
}

impl ParsedCriAttribute<'_> {
    /// The same password or extensions, in memory of their own.
    ///
    /// # Errors
    ///
    /// `OutOfMemory`.
    pub fn try_clone(&self) -> Result<Self, X509Error>
        ensures copies { MatchResult result (λ copy. parsed_of copy ≡ parsed_of self.now) (λ e. e ≡ OutOfMemory) }
        ensures extensions { IfOk result (λ copy. extensions_in copy ≡ extensions_in self.now) }
    {
        let copy = match self {
            ParsedCriAttribute::ChallengePassword(password) => {
                ParsedCriAttribute::ChallengePassword(password.try_clone()?)
            }
            ParsedCriAttribute::ExtensionRequest(request) => {
                ParsedCriAttribute::ExtensionRequest(request.try_clone()?)
            }
            ParsedCriAttribute::UnsupportedAttribute => ParsedCriAttribute::UnsupportedAttribute,
        };
        Ok(copy)
    }
}

/// Attributes of a request, in order.
pub type CriAttributeIter<'v, 'a> = slice::Iter<'v, X509CriAttribute<'a>>;

impl<'a> X509CriAttribute<'a> {
    /// The same attribute, with what its value says in memory of its own.
    ///
    /// # Errors
    ///
    /// `OutOfMemory`.
    pub fn try_clone(&self) -> Result<Self, X509Error>
        ensures copies { MatchResult result (λ copy. attribute_of copy ≡ attribute_of self.now) (λ e. e ≡ OutOfMemory) }
        ensures extensions { IfOk result (λ copy. extensions_in copy.parsed_attribute ≡ extensions_in self.now.parsed_attribute) }
    {
        let parsed_attribute = self.parsed_attribute.try_clone()?;
        Ok(X509CriAttribute {
            oid: self.oid,
            value: self.value,
            parsed_attribute,
        })
    }

    /// What the value says.
    pub fn parsed_attribute(&self) -> &ParsedCriAttribute<'a>
        ensures { result.now ≡ self.now.parsed_attribute }
    {
        &self.parsed_attribute
    }
}

/// The attribute with what its value says. Every refusal is `InvalidAttributes`.
impl<'a> FromDer<'a, X509Error> for X509CriAttribute<'a> {
    ghost Value = { Attribute };

    ghost view = { attribute_of };

    ghost grammar = { in_element loose (is_constructed 16) attribute attribute_laws attribute_heads allocates };

    #[tactic(auto, unfolding(crate::specs::CriAttribute::attribute, crate::specs::CriAttribute::said, crate::specs::CriAttribute::parts_mark))]
    fn read_at<L: Outside>(
        alloc: Global,
        tries: &mut Tries,
        place: &Place<'a, L>,
    ) -> Result<(Self, bool), Refused<X509Error, L>> {
        let (parts, plain) = read_attribute_parts(tries, place)?;
        let is_sequence = place.sequence().is_ok();
        let is_set = is_plain_set(parts.element.header());
        let values = parts.element.as_bytes();
        match parse_values(alloc, tries, &parts.oid, values) {
            Ok((parsed_attribute, value_plain)) => {
                let attribute = X509CriAttribute {
                    oid: parts.oid,
                    value: parts.set,
                    parsed_attribute,
                };
                Ok((attribute, plain & (is_sequence & (is_set & value_plain))))
            }
            Err(e) => Err(place.refuse(e)),
        }
    }

    ghost never_memory = { attribute_laws.laws.never_memory };
}

// Whether a header is that of a SET.
#[inline(always)]
fn is_plain_set(header: Header) -> bool
    ensures { result ≡ is_constructed 17 header }
{
    matches!(header.class, Class::Universal) && header.constructed && header.tag.0 == 17
}

// What the contents of the SET of an attribute with this identifier say, and whether no lenient rule was used for it.
#[tactic(auto, using(x509_der::proofs::Marking::marks_of_readers))]
fn parse_values<'a>(
    alloc: Global,
    tries: &mut Tries,
    oid: &Oid<'a>,
    values: &'a [u8],
) -> Result<(ParsedCriAttribute<'a>, bool), Err<X509Error>>
    ensures reads { Answers is_x509_memory true (λ x. parsed_of x.0) result (said_by (kind_of (oid_bytes oid.now)) values.now) }
    ensures marks { IfOk result (λ x. x.1 ≡ marks_of_values (kind_of (oid_bytes oid.now)) values.now) }
    ensures grows { tries.old ≤ tries.new }
    ensures count { tries.new ≤ tries.old + 8 * length values.now }
{
    match AttributeKind::of(oid.as_bytes()) {
        None => Ok((ParsedCriAttribute::UnsupportedAttribute, true)),
        Some(AttributeKind::ChallengePassword) => {
            let fields = Fields::of(tries, &Window::whole(values));
            match read_password(alloc, &fields.place) {
                Ok(password) => Ok((
                    ParsedCriAttribute::ChallengePassword(password),
                    fields.ends_here(),
                )),
                Err(e) => Err(refusal_of(e.why)),
            }
        }
        Some(AttributeKind::ExtensionRequest) => {
            let fields = Fields::of(tries, &Window::whole(values));
            match fields.last(alloc, tries) {
                Ok((request, plain)) => Ok((ParsedCriAttribute::ExtensionRequest(request), plain)),
                Err(e) => Err(refusal_of(e.why)),
            }
        }
    }
}

// The refusal of an attribute whose value can't be read.
fn refusal_of(e: Err<X509Error>) -> Err<X509Error>
    ensures memory { is_excused is_x509_memory true e ≡ true → result ≡ e }
    ensures other { is_excused is_x509_memory true e ≡ false → result ≡ Error InvalidAttributes }
{
    if e.is_out_of_memory() {
        e
    } else {
        Err::Error(X509Error::InvalidAttributes)
    }
}
