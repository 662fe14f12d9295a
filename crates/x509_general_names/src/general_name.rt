//! General names.

ghost use Rattle.std.specs.Prelude.{◌≡◌, ◌≤◌, ◌+◌, ◌-◌, ◌*◌, Some, Ok, IfOk, IfSome, IsErr, length};
ghost use Rattle.std.specs.Option.{is_some};
ghost use Rattle.x509_der.specs.Grammar.{allocates, in_element};
ghost use Rattle.x509_der.specs.Hex.{hex_text};
ghost use Rattle.x509_der.specs.Plan.{reads_inside};
ghost use Rattle.x509_der.specs.Primitives.{is_context};
ghost use Rattle.x509_der.specs.Promises.{IsForeign, ReadsLeaf, ReadsPart, option_heads, option_view};
ghost use Rattle.x509_der.specs.Looks.{behind};
ghost use Rattle.x509_der.specs.Place.{at, outside_of};
ghost use Rattle.x509_der.specs.Reading.{AddsAtLeast, element_of, strict};
ghost use Rattle.x509_fields.specs.Errors.{is_x509_memory};
ghost use Rattle.x509_general_names.specs.Addresses.{IsAddressIn};
ghost use Rattle.x509_general_names.specs.GeneralName.{GeneralNameValue, general_name_of, general_name, general_name_heads, general_name_text, alternative};
ghost use Rattle.x509_general_names.specs.GeneralName.{other_name, directory_name, alternative_in, name_inside, value_read, named, general_name_in, GivesName};
ghost use Rattle.x509_general_names.specs.GeneralName.{context_element, hex_pairs, utf8_in};
ghost use Rattle.x509_general_names.specs.GeneralNameLaws.{general_name_laws};

use crate::addresses::ip_address;
use std::alloc::Global;
use std::net::IpAddr;
use std::{fmt, str};
use x509_der::{
    Any, BerError, Class, Err, FromDer, HexPairs, Oid, Outside, Place, Refused, Tag, Tries,
    converted,
};
use x509_fields::{TryClone, X509Error};
use x509_names::X509Name;

/// A name of one of many kinds (RFC 5280, section 4.2.1.6), told by the number of its tag.
///
/// ```text
/// GeneralName ::= CHOICE {
///     otherName                  [0]  OtherName,
///     rfc822Name                 [1]  IA5String,
///     dNSName                    [2]  IA5String,
///     x400Address                [3]  ORAddress,
///     directoryName              [4]  Name,
///     ediPartyName               [5]  EDIPartyName,
///     uniformResourceIdentifier  [6]  IA5String,
///     iPAddress                  [7]  OCTET STRING,
///     registeredID               [8]  OBJECT IDENTIFIER }
/// ```
#[derive(Debug, PartialEq, Drop)]
pub enum GeneralName<'a> {
    /// The identifier of a form, and the bytes of a name of that form, which are not looked at.
    OtherName(Oid<'a>, &'a [u8]),
    /// An address of electronic mail; any text is taken.
    RFC822Name(&'a str),
    /// A name of a host; any text is taken.
    DNSName(&'a str),
    /// An address of X.400, which is not looked at.
    X400Address(Any<'a>),
    /// A name as that of an issuer or a subject.
    DirectoryName(X509Name<'a>),
    /// A name of a partner in data interchange, which is not looked at.
    EDIPartyName(Any<'a>),
    /// A uniform resource identifier; any text is taken.
    URI(&'a str),
    /// The octets of an address, and in a name constraint those of its mask; any number of octets is taken.
    IPAddress(&'a [u8]),
    /// An identifier.
    RegisteredID(Oid<'a>),
    /// The number of a tag, and contents that are no name of that number.
    Invalid(Tag, &'a [u8]),
}

impl<'a> GeneralName<'a> {
    /// The general name of a whole element.
    ///
    /// # Errors
    ///
    /// `InvalidTag` where the class of its tag isn't that of context, and `OutOfMemory`.
    pub fn try_from(alloc: Global, any: Any<'a>) -> Result<GeneralName<'a>, BerError>
        ensures { GivesName result (general_name_in (element_of any.entry)) }
    {
        if any.class() != Class::ContextSpecific {
            return Err(BerError::InvalidTag);
        }
        match named(alloc, &mut Tries::new(), any) {
            Ok((name, _)) => Ok(name),
            Err(_) => Err(BerError::OutOfMemory),
        }
    }

    /// The address of an `iPAddress` with four octets (IPv4) or sixteen (IPv6); None of every other name.
    pub fn ip(&self) -> Option<IpAddr>
        ensures { IsAddressIn (general_name_of self.now) result }
    {
        match self {
            GeneralName::IPAddress(octets) => ip_address(octets),
            _ => None,
        }
    }
}

/// An element of context class whose contents can't be read is [`GeneralName::Invalid`]; one of another class is refused as
/// `Der(InvalidTag)`.
impl<'a> FromDer<'a, X509Error> for GeneralName<'a> {
    ghost Value = { GeneralNameValue };

    ghost view = { general_name_of };

    ghost grammar = { in_element strict (λ h. is_context h.class) general_name general_name_laws general_name_heads allocates };

    #[tactic(auto, unfolding(crate::specs::GeneralName::general_name), using(crate::proofs::Elements::context_plain))]
    fn read_at<L: Outside>(
        alloc: Global,
        tries: &mut Tries,
        place: &Place<'a, L>,
    ) -> Result<(Self, bool), Refused<X509Error, L>> {
        let any = context_at(place)?;
        place.judge(named(alloc, tries, any))
    }

    ghost never_memory = { general_name_laws.laws.never_memory };
}

impl TryClone for GeneralName<'_> {
    fn try_clone(&self) -> Result<Self, X509Error> {
        let copy = match self {
            GeneralName::OtherName(id, value) => GeneralName::OtherName(*id, *value),
            GeneralName::RFC822Name(text) => GeneralName::RFC822Name(*text),
            GeneralName::DNSName(text) => GeneralName::DNSName(*text),
            GeneralName::X400Address(any) => GeneralName::X400Address(*any),
            GeneralName::DirectoryName(name) => GeneralName::DirectoryName(name.try_clone()?),
            GeneralName::EDIPartyName(any) => GeneralName::EDIPartyName(*any),
            GeneralName::URI(text) => GeneralName::URI(*text),
            GeneralName::IPAddress(address) => GeneralName::IPAddress(*address),
            GeneralName::RegisteredID(id) => GeneralName::RegisteredID(*id),
            GeneralName::Invalid(tag, contents) => GeneralName::Invalid(*tag, *contents),
        };
        Ok(copy)
    }
}

/// The element of context class that stands at a place.
#[inline(always)]
#[tactic(auto, unfolding(crate::specs::GeneralName::context_element, x509_der::specs::Leaves::any))]
pub(crate) fn context_at<'a, L: Outside>(
    place: &Place<'a, L>,
) -> Result<Any<'a>, Refused<X509Error, L>>
    ensures reads { ReadsLeaf (λ x. element_of x) context_element L.adds (at place.now) (outside_of place.now) result }
    ensures sizes { IfOk result (λ x. length (behind (at place.now)) + length (element_of x).contents + 2 ≤ length (at place.now)) }
    ensures foreign { IsForeign strict (λ h. is_context h.class) (at place.now) → IsErr result }
{
    let any = converted!(place.any());
    if any.class() != Class::ContextSpecific {
        return Err(place.refuse(Err::Error(X509Error::Der(BerError::InvalidTag))));
    }
    Ok(any)
}

// The name of an element of context class, and whether its contents say it plainly.
fn named<'a>(
    alloc: Global,
    tries: &mut Tries,
    any: Any<'a>,
) -> Result<(GeneralName<'a>, bool), Err<X509Error>>
    ensures { ReadsPart is_x509_memory (λ name. general_name_heads name - 1) (λ x. general_name_of x.0) (λ x. x.1) (Ok (named (element_of any.entry)))
        (reads_inside (alternative_in (element_of any.entry)) (element_of any.entry).contents) (element_of any.entry).contents tries.old tries.new result }
{
    let (name, plain) = read_inside(alloc, tries, any)?;
    let name = name.unwrap_or(GeneralName::Invalid(any.tag(), any.as_bytes()));
    Ok((name, plain))
}

// The name that the contents say, and whether they say it plainly.
#[tactic(auto, unfolding(crate::specs::GeneralName::alternative))]
fn read_inside<'a>(
    alloc: Global,
    tries: &mut Tries,
    any: Any<'a>,
) -> Result<(Option<GeneralName<'a>>, bool), Err<X509Error>>
    ensures { ReadsPart is_x509_memory (λ name. option_heads general_name_heads name - 1) (λ x. option_view general_name_of x.0) (λ x. x.1)
        (Ok (name_inside (element_of any.entry))) (reads_inside (alternative_in (element_of any.entry)) (element_of any.entry).contents)
        (element_of any.entry).contents tries.old tries.new result }
{
    let contents = any.as_bytes();
    match any.tag() {
        Tag(0) => plainly(other_name(tries, any)),
        Tag(1) => plainly(text(contents).map(GeneralName::RFC822Name)),
        Tag(2) => plainly(text(contents).map(GeneralName::DNSName)),
        Tag(3) => plainly(Some(GeneralName::X400Address(any))),
        Tag(4) => directory_name(alloc, tries, any),
        Tag(5) => plainly(Some(GeneralName::EDIPartyName(any))),
        Tag(6) => plainly(text(contents).map(GeneralName::URI)),
        Tag(7) => plainly(Some(GeneralName::IPAddress(contents))),
        Tag(8) => plainly(Some(GeneralName::RegisteredID(Oid::new(contents)))),
        _ => plainly(None),
    }
}

// A name that stands plainly, where there is one.
fn plainly(name: Option<GeneralName<'_>>) -> Result<(Option<GeneralName<'_>>, bool), Err<X509Error>>
    ensures { result ≡ Ok (name.entry, is_some name.entry) }
{
    let plain = name.is_some();
    Ok((name, plain))
}

// The identifier at the front of the contents, and what stands behind it.
#[tactic(auto, unfolding(crate::specs::GeneralName::alternative), using(x509_der::proofs::Marking::marks_of_readers))]
fn other_name<'a>(tries: &mut Tries, any: Any<'a>) -> Option<GeneralName<'a>>
    ensures reads { value_read ((alternative other_name (element_of any.entry).header).read (element_of any.entry).contents)
        ≡ option_view general_name_of result }
    ensures marks { reads_inside (alternative other_name (element_of any.entry).header) (element_of any.entry).contents ≡ is_some result }
    ensures grows { tries.old ≤ tries.new }
    ensures count { tries.new ≤ tries.old + 8 * length (element_of any.entry).contents }
    ensures least { IfSome result (λ x. AddsAtLeast 1 tries.old tries.new) }
{
    let place = Place::look(tries, any.as_bytes());
    match place.oid() {
        Ok(id) => Some(GeneralName::OtherName(id, place.rest())),
        Err(_) => None,
    }
}

// The contents as a text in UTF-8.
fn text(contents: &[u8]) -> Option<&str>
    ensures { option_view (λ text. text.now) result ≡ utf8_in contents.now }
{
    match str::from_utf8(contents) {
        Ok(text) => Some(text),
        Err(_) => None,
    }
}

// The name that fills the contents, and whether it stands plainly.
#[tactic(auto, unfolding(crate::specs::GeneralName::alternative))]
fn directory_name<'a>(
    alloc: Global,
    tries: &mut Tries,
    any: Any<'a>,
) -> Result<(Option<GeneralName<'a>>, bool), Err<X509Error>>
    ensures { ReadsPart is_x509_memory (λ name. option_heads general_name_heads name - 1) (λ x. option_view general_name_of x.0) (λ x. x.1)
        (Ok (value_read ((alternative directory_name (element_of any.entry).header).read (element_of any.entry).contents)))
        (reads_inside (alternative directory_name (element_of any.entry).header) (element_of any.entry).contents) (element_of any.entry).contents
        tries.old tries.new result }
{
    match X509Name::read_marked(alloc, tries, any.as_bytes()) {
        Ok((rest, name, plain)) if rest.is_empty() => {
            Ok((Some(GeneralName::DirectoryName(name)), plain))
        }
        Err(e) if e.is_out_of_memory() => Err(e),
        _ => Ok((None, false)),
    }
}

/// The kind of the name and in brackets what it says, as `DNSName(example.com)`. Addresses and the contents of an invalid
/// name are pairs of hex digits, as `IPAddress(7f:00:00:01)` and `Invalid(tag=2, data=ff)`; what was not looked at is
/// `[...]` or `<unparsed>`.
impl fmt::Display for GeneralName<'_> {
    ghost output = { λ name. Some (general_name_text (general_name_of name)) };

    fn fmt<W: fmt::Write>(&self, f: &mut fmt::Formatter<W>) -> fmt::Result {
        match self {
            GeneralName::OtherName(id, _) => write!(f, "OtherName({id}, [...])"),
            GeneralName::RFC822Name(text) => write!(f, "RFC822Name({text})"),
            GeneralName::DNSName(text) => write!(f, "DNSName({text})"),
            GeneralName::X400Address(_) => f.write_str("X400Address(<unparsed>)"),
            GeneralName::DirectoryName(name) => write!(f, "DirectoryName({name})"),
            GeneralName::EDIPartyName(_) => f.write_str("EDIPartyName(<unparsed>)"),
            GeneralName::URI(text) => write!(f, "URI({text})"),
            GeneralName::IPAddress(address) => write!(f, "IPAddress({})", pairs(address)),
            GeneralName::RegisteredID(id) => write!(f, "RegisteredID({id})"),
            GeneralName::Invalid(tag, contents) => {
                write!(f, "Invalid(tag={}, data={})", tag.0, pairs(contents))
            }
        }
    }
}

fn pairs(bytes: &[u8]) -> HexPairs<'_>
    ensures { hex_text result.separator.now result.bytes.now ≡ hex_pairs bytes.now }
{
    HexPairs {
        bytes,
        separator: ":",
    }
}
