//! Names (RFC 5280, 4.1.2.4).

ghost use Rattle.std.specs.Prelude.{◌≡◌, List, []};
ghost use Rattle.std.specs.Cmp.Lexicographic.{pointwise};
ghost use Rattle.x509_der.specs.Grammar.{allocates, borrows, in_sequence, in_set};
ghost use Rattle.x509_der.specs.Iterating.{Iterates};
ghost use Rattle.x509_der.specs.Leaves.{sequence};
ghost use Rattle.x509_der.specs.Oid.{oid_bytes};
ghost use Rattle.x509_der.specs.Promises.{OneTryEach};
ghost use Rattle.x509_der.specs.Reading.{Gives};
ghost use Rattle.x509_names.specs.Names.{Attribute, attribute_of, attribute_heads, attribute, attribute_laws, relative_name_of, relative_name_heads};
ghost use Rattle.x509_names.specs.Names.{relative_name, relative_name_laws, Name, name_of, name_heads, name, name_laws, attributes_in, with_type};
ghost use Rattle.x509_names.specs.Names.{attributes_left, matching_left, is_plain_string, string_in};
ghost use Rattle.x509_names.specs.Objects.{common_name, country_name, locality_name, state_or_province_name, organization_name, organizational_unit};
ghost use Rattle.x509_names.specs.Objects.{email_address};

use crate::name_iter::{AttributeByOid, AttributeIter, RdnIter};
use crate::objects::{
    OID_PKCS9_EMAIL_ADDRESS, OID_X509_COMMON_NAME, OID_X509_COUNTRY_NAME, OID_X509_LOCALITY_NAME,
    OID_X509_ORGANIZATION_NAME, OID_X509_ORGANIZATIONAL_UNIT, OID_X509_STATE_OR_PROVINCE_NAME,
};
use crate::value_text::utf8;
use std::alloc::Global;
use std::slice;
use x509_der::{
    Any, BerError, Fields, FromDer, Oid, Outside, Place, Refused, Sequence, SetOf, Tag, Tries,
    named, read_run, read_set_of,
};
use x509_fields::{TryClone, X509Error, sequence_at, set_at};

/// The type of an attribute and its value (RFC 5280, 4.1.2.4).
#[derive(Clone, Copy, Debug, PartialEq)]
pub struct AttributeTypeAndValue<'a> {
    pub(crate) attr_type: Oid<'a>,
    pub(crate) attr_value: Any<'a>,
}

impl<'a> AttributeTypeAndValue<'a> {
    /// The attribute of this type with this value.
    pub const fn new(attr_type: Oid<'a>, attr_value: Any<'a>) -> Self
        ensures kind { result.attr_type ≡ attr_type.entry }
        ensures value { result.attr_value ≡ attr_value.entry }
    {
        AttributeTypeAndValue {
            attr_type,
            attr_value,
        }
    }

    /// The type.
    pub const fn attr_type(&self) -> &Oid<'a>
        ensures { result.now ≡ self.now.attr_type }
    {
        &self.attr_type
    }

    /// The value, an element of any type.
    pub const fn attr_value(&self) -> &Any<'a>
        ensures { result.now ≡ self.now.attr_value }
    {
        &self.attr_value
    }

    /// The value as a string, where the number of its tag is that of a NumericString, PrintableString, UTF8String or
    /// IA5String.
    ///
    /// # Errors
    ///
    /// `Der(InvalidTag)` where the tag has another number, and `InvalidAttributes` where the contents are not UTF-8.
    pub fn as_str(&self) -> Result<&'a str, X509Error>
        ensures { Gives (λ s. s.now) result (string_in (attribute_of self.now).attr_value) }
    {
        if is_plain_string(self.attr_value.tag()) {
            utf8(self.as_slice())
        } else {
            Err(X509Error::Der(BerError::InvalidTag))
        }
    }

    /// The contents of the value.
    pub fn as_slice(&self) -> &'a [u8]
        ensures { result.now ≡ (attribute_of self.now).attr_value.contents }
    {
        self.attr_value.as_bytes()
    }
}

/// A field that cannot be read is refused as `InvalidX509Name`.
impl<'a> FromDer<'a, X509Error> for AttributeTypeAndValue<'a> {
    ghost Value = { Attribute };

    ghost view = { attribute_of };

    ghost grammar = { in_sequence attribute attribute_laws attribute_heads borrows };

    ghost tight = { OneTryEach sequence };

    #[tactic(auto, unfolding(crate::specs::Names::attribute), using(x509_der::proofs::Marking::marks_of_readers))]
    #[inline(always)]
    fn read_at<L: Outside>(
        _alloc: Global,
        tries: &mut Tries,
        place: &Place<'a, L>,
    ) -> Result<(Self, bool), Refused<X509Error, L>> {
        let contents = sequence_at(place)?;
        let fields = Fields::of(tries, &contents);
        let (fields, attr_type) = named!(fields.oid(tries), X509Error::InvalidX509Name);
        let attr_value = named!(fields.place.any(), X509Error::InvalidX509Name);
        let attribute = AttributeTypeAndValue {
            attr_type,
            attr_value,
        };
        Ok((attribute, fields.ends_here()))
    }

    ghost never_memory = { attribute_laws.laws.never_memory };
}

// Whether a value with this number is one of the strings that `as_str` gives.
fn is_plain_string(tag: Tag) -> bool
    ensures { result ≡ is_plain_string tag.0 }
{
    matches!(
        tag,
        Tag::NumericString | Tag::PrintableString | Tag::Utf8String | Tag::Ia5String
    )
}

/// Attributes that name together (RFC 5280, 4.1.2.4).
#[derive(Debug, Drop)]
pub struct RelativeDistinguishedName<'a> {
    pub(crate) set: SetOf<AttributeTypeAndValue<'a>>,
}

impl<'a> RelativeDistinguishedName<'a> {
    /// The relative name of these attributes, which takes no memory.
    pub fn new(set: Vec<AttributeTypeAndValue<'a>>) -> Self
        ensures { result.set ≡ set.entry.items }
    {
        RelativeDistinguishedName {
            set: SetOf::from_vec(set),
        }
    }

    /// The same, by the name that stands for collecting them.
    pub fn from_list(set: Vec<AttributeTypeAndValue<'a>>) -> Self
        ensures { result.set ≡ set.entry.items }
    {
        RelativeDistinguishedName::new(set)
    }

    /// The attributes, in order, as a slice.
    #[inline(always)]
    pub fn attributes(&self) -> &[AttributeTypeAndValue<'a>]
        ensures { result.now ≡ self.now.set }
    {
        self.set.as_slice()
    }

    /// The attributes, in order.
    pub fn iter(&self) -> AttributeIter<'_, 'a>
        ensures { attributes_left result ≡ self.now.set }
    {
        AttributeIter::new(slice::from_ref(self))
    }
}

/// At least one attribute; bytes behind the last one in the SET are skipped.
impl<'a> FromDer<'a, X509Error> for RelativeDistinguishedName<'a> {
    ghost Value = { List Attribute };

    ghost view = { relative_name_of };

    ghost grammar = { in_set relative_name relative_name_laws relative_name_heads allocates };

    #[tactic(auto, unfolding(crate::specs::Names::relative_name), using(x509_der::proofs::Marking::marks_of_readers))]
    #[inline(always)]
    fn read_at<L: Outside>(
        alloc: Global,
        tries: &mut Tries,
        place: &Place<'a, L>,
    ) -> Result<(Self, bool), Refused<X509Error, L>> {
        let contents = set_at(place)?;
        let (tail, set, plain) = read_set_of(alloc, tries, &contents)?;
        Ok((RelativeDistinguishedName { set }, plain & tail.is_empty()))
    }

    ghost never_memory = { relative_name_laws.laws.never_memory };
}

/// Equality goes by the attributes, in order.
impl PartialEq for RelativeDistinguishedName<'_> {
    ghost use Rattle.std.proofs.Common.{rules};
    ghost use Rattle.std.specs.Cmp.Rules.{comparing};
    ghost use Rattle.std.specs.Ordering.{on};
    ghost use Rattle.x509_names.specs.contracts.name.AttributeTypeAndValuePartialEq.TheImpl as attribute;
    ghost use Rattle.x509_names.specs.contracts.name.AttributeTypeAndValuePartialEq.TheImpl.Laws as attribute_laws;

    ghost eq = { on (λ r. r.set) (pointwise attribute.ghosts.eq) };

    ghost laws = { Prim.search (comparing, rules, attribute_laws.laws-law) };

    fn eq(&self, other: &Self) -> bool {
        self.set.as_slice() == other.set.as_slice()
    }
}

impl TryClone for RelativeDistinguishedName<'_> {
    fn try_clone(&self) -> Result<Self, X509Error> {
        let set = self.set.try_copy()?;
        Ok(RelativeDistinguishedName { set })
    }
}

/// A name: relative names from the widest to the narrowest, and the bytes that it was read from (RFC 5280, 4.1.2.4).
#[derive(Debug, Drop)]
pub struct X509Name<'a> {
    pub(crate) rdn_seq: Sequence<RelativeDistinguishedName<'a>>,
    pub(crate) raw: &'a [u8],
}

/// The name ends before the first element that is no relative name, and `as_raw` ends there.
impl<'a> FromDer<'a, X509Error> for X509Name<'a> {
    ghost Value = { Name };

    ghost view = { name_of };

    ghost grammar = { in_sequence name name_laws name_heads allocates };

    #[tactic(auto, unfolding(crate::specs::Names::name), using(x509_der::proofs::Marking::marks_of_readers))]
    #[inline(always)]
    fn read_at<L: Outside>(
        alloc: Global,
        tries: &mut Tries,
        place: &Place<'a, L>,
    ) -> Result<(Self, bool), Refused<X509Error, L>> {
        let contents = sequence_at(place)?;
        let (tail, rdn_seq, plain) = place.judge(read_run(alloc, tries, contents.bytes()))?;
        let bytes = place.bytes();
        let raw = &bytes[..bytes.len() - (tail.len() + place.rest().len())];
        Ok((X509Name { rdn_seq, raw }, plain & tail.is_empty()))
    }

    ghost never_memory = { name_laws.laws.never_memory };
}

/// Equality goes by the relative names, in order, and by the bytes.
impl PartialEq for X509Name<'_> {
    ghost use Rattle.std.proofs.Common.{rules};
    ghost use Rattle.std.specs.Cmp.Rules.{comparing};
    ghost use Rattle.std.specs.Ordering.{on, eq_of_both};
    ghost use Rattle.std.specs.Str.{bytes_eq};
    ghost use Rattle.x509_names.specs.contracts.name.RelativeDistinguishedNamePartialEq.TheImpl as relative;
    ghost use Rattle.x509_names.specs.contracts.name.RelativeDistinguishedNamePartialEq.TheImpl.Laws as relative_laws;

    ghost eq = { eq_of_both (on (λ n. n.rdn_seq) (pointwise relative.ghosts.eq)) (on (λ n. n.raw.now) bytes_eq) };

    ghost laws = { Prim.search (comparing, rules, relative_laws.laws-law) };

    fn eq(&self, other: &Self) -> bool {
        same_items(self.rdn_seq.as_slice(), other.rdn_seq.as_slice())
            && self.as_raw() == other.as_raw()
    }
}

impl TryClone for X509Name<'_> {
    fn try_clone(&self) -> Result<Self, X509Error> {
        let rdn_seq = self.rdn_seq.try_clone()?;
        Ok(X509Name {
            rdn_seq,
            raw: self.raw,
        })
    }
}

fn same_items<T: PartialEq>(a: &[T], b: &[T]) -> bool
    ensures { result ≡ pointwise T.eq a.now b.now }
{
    a == b
}

impl<'a> X509Name<'a> {
    /// The name of these relative names that was read from these bytes. It takes no memory.
    pub fn new(rdn_seq: Vec<RelativeDistinguishedName<'a>>, raw: &'a [u8]) -> Self
        ensures relative { result.rdn_seq ≡ rdn_seq.entry.items }
        ensures raw { (name_of result).raw ≡ raw.now }
    {
        X509Name {
            rdn_seq: Sequence::from_vec(rdn_seq),
            raw,
        }
    }

    /// The name of these relative names that was read from no bytes. It takes no memory.
    pub fn from_list(rdn_seq: Vec<RelativeDistinguishedName<'a>>) -> Self
        ensures relative { result.rdn_seq ≡ rdn_seq.entry.items }
        ensures raw { (name_of result).raw ≡ [] }
    {
        X509Name::new(rdn_seq, &[])
    }

    /// The relative names, which takes no memory.
    pub fn into_list(self) -> Vec<RelativeDistinguishedName<'a>>
        ensures { result.items ≡ self.entry.rdn_seq }
    {
        self.rdn_seq.into_vec()
    }

    /// The bytes that the name was read from.
    pub fn as_raw(&self) -> &'a [u8]
        ensures { result.now ≡ (name_of self.now).raw }
    {
        self.raw
    }

    /// The relative names, in order, as a slice.
    #[inline(always)]
    pub fn relative_names(&self) -> &[RelativeDistinguishedName<'a>]
        ensures { result.now ≡ self.now.rdn_seq }
    {
        self.rdn_seq.as_slice()
    }

    /// The relative names, in order.
    pub fn iter(&self) -> RdnIter<'_, 'a>
        ensures { Iterates result self.now.rdn_seq }
    {
        self.iter_rdn()
    }

    /// The relative names, in order.
    pub fn iter_rdn(&self) -> RdnIter<'_, 'a>
        ensures { Iterates result self.now.rdn_seq }
    {
        self.rdn_seq.iter()
    }

    /// The attributes of all relative names, in order.
    pub fn iter_attributes(&self) -> AttributeIter<'_, 'a>
        ensures { attributes_left result ≡ attributes_in self.now.rdn_seq }
    {
        AttributeIter::new(self.rdn_seq.as_slice())
    }

    /// The attributes of this type, in order.
    pub fn iter_by_oid(&self, oid: &Oid<'a>) -> AttributeByOid<'_, 'a>
        ensures { matching_left result ≡ with_type (oid_bytes oid.now) (attributes_in self.now.rdn_seq) }
    {
        AttributeByOid::new(self.iter_attributes(), *oid)
    }

    /// The attributes of type commonName.
    pub fn iter_common_name(&self) -> AttributeByOid<'_, 'a>
        ensures { matching_left result ≡ with_type common_name (attributes_in self.now.rdn_seq) }
    {
        self.iter_by_oid(&Oid::new(OID_X509_COMMON_NAME))
    }

    /// The attributes of type countryName.
    pub fn iter_country(&self) -> AttributeByOid<'_, 'a>
        ensures { matching_left result ≡ with_type country_name (attributes_in self.now.rdn_seq) }
    {
        self.iter_by_oid(&Oid::new(OID_X509_COUNTRY_NAME))
    }

    /// The attributes of type organizationName.
    pub fn iter_organization(&self) -> AttributeByOid<'_, 'a>
        ensures { matching_left result ≡ with_type organization_name (attributes_in self.now.rdn_seq) }
    {
        self.iter_by_oid(&Oid::new(OID_X509_ORGANIZATION_NAME))
    }

    /// The attributes of type organizationalUnitName.
    pub fn iter_organizational_unit(&self) -> AttributeByOid<'_, 'a>
        ensures { matching_left result ≡ with_type organizational_unit (attributes_in self.now.rdn_seq) }
    {
        self.iter_by_oid(&Oid::new(OID_X509_ORGANIZATIONAL_UNIT))
    }

    /// The attributes of type stateOrProvinceName.
    pub fn iter_state_or_province(&self) -> AttributeByOid<'_, 'a>
        ensures { matching_left result ≡ with_type state_or_province_name (attributes_in self.now.rdn_seq) }
    {
        self.iter_by_oid(&Oid::new(OID_X509_STATE_OR_PROVINCE_NAME))
    }

    /// The attributes of type localityName.
    pub fn iter_locality(&self) -> AttributeByOid<'_, 'a>
        ensures { matching_left result ≡ with_type locality_name (attributes_in self.now.rdn_seq) }
    {
        self.iter_by_oid(&Oid::new(OID_X509_LOCALITY_NAME))
    }

    /// The attributes of type emailAddress (RFC 2985).
    pub fn iter_email(&self) -> AttributeByOid<'_, 'a>
        ensures { matching_left result ≡ with_type email_address (attributes_in self.now.rdn_seq) }
    {
        self.iter_by_oid(&Oid::new(OID_PKCS9_EMAIL_ADDRESS))
    }
}
