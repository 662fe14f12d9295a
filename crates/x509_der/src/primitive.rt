//! Values of primitive elements and contents of others, at a place that was looked at.

ghost use Rattle.std.specs.Prelude.{◌≡◌, ◌∷◌, IfOk, ◌<◌, length};
ghost use Rattle.x509_der.specs.Looks.{behind};
ghost use Rattle.x509_der.specs.Primitives.{as_refusal, bit_string, bits_of, is_constructed, is_explicit, is_implicit, is_primitive, text_of, truth_of, u32_of};
ghost use Rattle.x509_der.specs.Integer.{integer_bytes};
ghost use Rattle.x509_der.specs.Oid.{oid_bytes};
ghost use Rattle.x509_der.specs.Unsigned.{unsigned_bytes};
ghost use Rattle.x509_der.specs.Leaves.{contents, any, any_loose, bool, bool_loose, u32, unsigned, enumerated, integer, octets, oid, bits, utf8, ia5, explicit};
ghost use Rattle.x509_der.specs.Leaves.{implicit, implicit_bits, implicit_u32, sequence, set};
ghost use Rattle.x509_der.specs.Place.{at, outside_of, bytes_in, outside_in};
ghost use Rattle.x509_der.specs.Promises.{ReadsLeaf, ReadsContents, ReadsWindow};
ghost use Rattle.x509_der.specs.Reading.{element_of, Gives, strict};

use crate::any::Any;
use crate::bit_string::BitString;
use crate::error::{BerError, Err, Refused};
use crate::header::{Class, Header, Tag};
use crate::integer::Integer;
use crate::look::{Form, is_constructed, is_primitive, number_of};
use crate::oid::Oid;
use crate::outside::Outside;
use crate::place::Place;
use crate::unsigned::UnsignedBytes;
use crate::window::Window;

#[inline(always)]
fn truth(contents: &[u8]) -> Result<bool, Err<BerError>>
    ensures { Gives (λ x. x) result (as_refusal (truth_of contents.now)) }
{
    match contents {
        [0] => Ok(false),
        [0xff] => Ok(true),
        [_] => Err(Err::Error(BerError::DerConstraintFailed)),
        _ => Err(Err::Error(BerError::BerValueError)),
    }
}

/// A number of at most 32 bits: some octet, the first one's top bit clear, leading zeros free.
#[inline(always)]
fn u32_value(contents: &[u8]) -> Result<u32, Err<BerError>>
    ensures { Gives (λ x. x) result (as_refusal (u32_of contents.now)) }
{
    match contents {
        [0..0x80, ..] => number_of(contents).ok_or(Err::Error(BerError::BerValueError)),
        _ => Err(Err::Error(BerError::BerValueError)),
    }
}

/// A text in UTF-8; no character set is looked at.
#[inline(always)]
fn text(contents: &[u8]) -> Result<&str, Err<BerError>>
    ensures { Gives (λ x. x.now) result (as_refusal (text_of contents.now)) }
{
    match str::from_utf8(contents) {
        Ok(text) => Ok(text),
        Err(_) => Err(Err::Error(BerError::BerValueError)),
    }
}

/// The bits of these contents.
#[inline(never)]
fn checked_bits(contents: &[u8]) -> Result<BitString<'_>, Err<BerError>>
    ensures reading { Gives bit_string result (as_refusal (bits_of contents.now)) }
    ensures parts { IfOk result (λ b. contents.now ≡ b.unused_bits ∷ b.bytes.now) }
{
    match contents {
        [0] => Ok(BitString {
            unused_bits: 0,
            bytes: &contents[1..],
        }),
        [unused @ 0..=7, bytes @ ..] if !bytes.is_empty() => {
            if bytes[bytes.len() - 1] % (1 << *unused) != 0 {
                return Err(Err::Error(BerError::DerConstraintFailed));
            }
            Ok(BitString {
                unused_bits: *unused,
                bytes,
            })
        }
        _ => Err(Err::Error(BerError::BerValueError)),
    }
}

/// The same, with the octets cut off here: so the callers never look at the count of unused bits by itself, and it moves
/// as one word with the padding behind it.
#[inline(always)]
fn bits(contents: &[u8]) -> Result<BitString<'_>, Err<BerError>>
    ensures { Gives bit_string result (as_refusal (bits_of contents.now)) }
{
    let mut bits = match checked_bits(contents) {
        Ok(bits) => bits,
        Err(e) => return Err(e),
    };
    bits.bytes = &contents[1..];
    Ok(bits)
}

/// Whether the header has this context tag.
#[inline(always)]
fn is_context(header: Header, number: u32) -> bool
    ensures { result ≡ is_implicit number header }
{
    matches!(header.class, Class::ContextSpecific) && header.tag.0 == number
}

impl<'a, L: Outside> Place<'a, L> {
    /// The contents of the element there as a window, behind which stands what stands behind the element.
    #[inline(always)]
    pub fn window(&self, contents: &'a [u8]) -> Window<'a, L>
        ensures bytes { bytes_in result ≡ contents.now }
        ensures outside { outside_in result ≡ L.adds (length (behind (at self.now))) (outside_of self.now) }
    {
        Window {
            bytes: contents,
            outside: self.outside.more(self.rest().len()),
        }
    }

    /// The contents of a primitive element with this universal tag.
    #[inline(always)]
    #[tactic(auto, unfolding(crate::specs::Primitives::contents_at), using(crate::proofs::Octets::primitive_octet))]
    fn primitive(&self, form: Form, tag: Tag) -> Result<&'a [u8], Refused<BerError, L>>
        requires { tag.0 < 31 }
        ensures { ReadsContents form (is_primitive tag.0) (λ x. x.now) (contents (is_primitive tag.0) form) L.adds (at self.now) (outside_of self.now) result }
    {
        let any = self.judge(self.element(form))?;
        if !is_primitive(self.octet(), tag) {
            return Err(self.refuse(Err::Error(BerError::InvalidTag)));
        }
        Ok(any.as_bytes())
    }

    /// The contents of a constructed element with this universal tag.
    #[inline(always)]
    #[tactic(auto, unfolding(crate::specs::Primitives::contents_at), using(crate::proofs::Octets::constructed_octet))]
    fn constructed(&self, tag: Tag) -> Result<&'a [u8], Refused<BerError, L>>
        requires { tag.0 < 31 }
        ensures { ReadsContents strict (is_constructed tag.0) (λ x. x.now) (contents (is_constructed tag.0) strict) L.adds (at self.now) (outside_of self.now)
            result }
    {
        let any = self.judge(self.element(Form::Strict))?;
        if !is_constructed(self.octet(), tag) {
            return Err(self.refuse(Err::Error(BerError::InvalidTag)));
        }
        Ok(any.as_bytes())
    }

    /// The strict element.
    #[inline(always)]
    #[tactic(auto, unfolding(crate::specs::Leaves::any))]
    pub fn any(&self) -> Result<Any<'a>, Refused<BerError, L>>
        ensures { ReadsLeaf (λ x. element_of x) any L.adds (at self.now) (outside_of self.now) result }
    {
        self.judge(self.element(Form::Strict))
    }

    /// The element, its length in any octets.
    #[inline(always)]
    #[tactic(auto, unfolding(crate::specs::Leaves::any_loose))]
    pub fn any_loose(&self) -> Result<Any<'a>, Refused<BerError, L>>
        ensures { ReadsLeaf (λ x. element_of x) any_loose L.adds (at self.now) (outside_of self.now) result }
    {
        self.judge(self.element(Form::Loose))
    }

    /// A BOOLEAN (X.690, 8.2 and 11.1): one octet, 0 or 255.
    #[inline(always)]
    #[tactic(auto, unfolding(crate::specs::Leaves::bool))]
    pub fn bool(&self) -> Result<bool, Refused<BerError, L>>
        ensures { ReadsLeaf (λ x. x) bool L.adds (at self.now) (outside_of self.now) result }
    {
        self.judge(truth(self.primitive(Form::Strict, Tag::Boolean)?))
    }

    /// A BOOLEAN by the basic rules (X.690, 8.2): any octet but 0 is true, and the length may stand in more octets than it needs.
    #[inline(always)]
    #[tactic(auto, unfolding(crate::specs::Leaves::bool_loose))]
    pub fn bool_loose(&self) -> Result<bool, Refused<BerError, L>>
        ensures { ReadsLeaf (λ x. x) bool_loose L.adds (at self.now) (outside_of self.now) result }
    {
        match self.primitive(Form::Loose, Tag::Boolean)? {
            [octet] => Ok(*octet != 0),
            _ => Err(self.refuse(Err::Error(BerError::BerValueError))),
        }
    }

    /// A BOOLEAN by the basic rules, and whether it is one by the strict rules too.
    #[inline(always)]
    #[tactic(auto, using(crate::proofs::Octets::primitive_octet), unfolding(crate::specs::Leaves::bool_loose, crate::specs::Leaves::bool, crate::specs::Leaves::any_loose, crate::specs::Primitives::contents_at))]
    pub fn bool_marked(&self) -> Result<(bool, bool), Refused<BerError, L>>
        ensures reads { ReadsLeaf (λ x. x.0) bool_loose L.adds (at self.now) (outside_of self.now) result }
        ensures marks { IfOk result (λ x. x.1 ≡ bool_loose.marks (at self.now)) }
    {
        let (any, strict) = self.any_marked()?;
        if !is_primitive(self.octet(), Tag::Boolean) {
            return Err(self.refuse(Err::Error(BerError::InvalidTag)));
        }
        match any.as_bytes() {
            [octet] => Ok((*octet != 0, strict & (*octet == 0 || *octet == 0xff))),
            _ => Err(self.refuse(Err::Error(BerError::BerValueError))),
        }
    }

    /// An INTEGER from 0 to 4,294,967,295 (X.690, 8.3); its leading zeros are free.
    #[inline(always)]
    #[tactic(auto, unfolding(crate::specs::Leaves::u32))]
    pub fn u32(&self) -> Result<u32, Refused<BerError, L>>
        ensures { ReadsLeaf (λ x. x) u32 L.adds (at self.now) (outside_of self.now) result }
    {
        self.judge(u32_value(self.primitive(Form::Strict, Tag::Integer)?))
    }

    /// An ENUMERATED from 0 to 4,294,967,295 (X.690, 8.4); its leading zeros are free.
    #[inline(always)]
    #[tactic(auto, unfolding(crate::specs::Leaves::enumerated))]
    pub fn enumerated(&self) -> Result<u32, Refused<BerError, L>>
        ensures { ReadsLeaf (λ x. x) enumerated L.adds (at self.now) (outside_of self.now) result }
    {
        self.judge(u32_value(self.primitive(Form::Strict, Tag::Enumerated)?))
    }

    /// An INTEGER that is not negative, of any size (X.690, 8.3); its leading zeros are free, and are cut.
    #[inline(always)]
    #[tactic(auto, unfolding(crate::specs::Leaves::unsigned))]
    pub fn unsigned(&self) -> Result<UnsignedBytes<'a>, Refused<BerError, L>>
        ensures { ReadsLeaf (λ x. unsigned_bytes x) unsigned L.adds (at self.now) (outside_of self.now) result }
    {
        let contents = self.primitive(Form::Strict, Tag::Integer)?;
        match contents {
            [0..0x80, ..] => Ok(UnsignedBytes::new(contents)),
            _ => Err(self.refuse(Err::Error(BerError::BerValueError))),
        }
    }

    /// An INTEGER, its contents octets as they stand (X.690, 8.3).
    #[inline(always)]
    #[tactic(auto, unfolding(crate::specs::Leaves::integer))]
    pub fn integer(&self) -> Result<Integer<'a>, Refused<BerError, L>>
        ensures { ReadsLeaf (λ x. integer_bytes x) integer L.adds (at self.now) (outside_of self.now) result }
    {
        Ok(Integer::new(self.primitive(Form::Strict, Tag::Integer)?))
    }

    /// An OCTET STRING in its primitive form (X.690, 8.7).
    #[inline(always)]
    #[tactic(auto, unfolding(crate::specs::Leaves::octets))]
    pub fn octets(&self) -> Result<&'a [u8], Refused<BerError, L>>
        ensures { ReadsContents strict (is_primitive 4) (λ x. x.now) octets L.adds (at self.now) (outside_of self.now) result }
    {
        self.primitive(Form::Strict, Tag::OctetString)
    }

    /// A UTF8String in its primitive form (X.690, 8.23).
    #[inline(always)]
    #[tactic(auto, unfolding(crate::specs::Leaves::utf8))]
    pub fn utf8(&self) -> Result<&'a str, Refused<BerError, L>>
        ensures { ReadsLeaf (λ x. x.now) utf8 L.adds (at self.now) (outside_of self.now) result }
    {
        self.judge(text(self.primitive(Form::Strict, Tag::Utf8String)?))
    }

    /// An IA5String in its primitive form (X.690, 8.23). Its character set is not looked at: any UTF-8 is taken.
    #[inline(always)]
    #[tactic(auto, unfolding(crate::specs::Leaves::ia5))]
    pub fn ia5(&self) -> Result<&'a str, Refused<BerError, L>>
        ensures { ReadsLeaf (λ x. x.now) ia5 L.adds (at self.now) (outside_of self.now) result }
    {
        self.judge(text(self.primitive(Form::Strict, Tag::Ia5String)?))
    }

    /// An object identifier.
    #[inline(always)]
    #[tactic(auto, unfolding(crate::specs::Leaves::oid))]
    pub fn oid(&self) -> Result<Oid<'a>, Refused<BerError, L>>
        ensures { ReadsLeaf (λ x. oid_bytes x) oid L.adds (at self.now) (outside_of self.now) result }
    {
        Ok(Oid::new(self.primitive(Form::Strict, Tag::Oid)?))
    }

    /// A BIT STRING.
    #[inline(always)]
    #[tactic(auto, unfolding(crate::specs::Leaves::bits))]
    pub fn bits(&self) -> Result<BitString<'a>, Refused<BerError, L>>
        ensures { ReadsLeaf (λ x. bit_string x) bits L.adds (at self.now) (outside_of self.now) result }
    {
        self.judge(bits(self.primitive(Form::Strict, Tag::BitString)?))
    }

    /// The contents of a SEQUENCE.
    #[inline(always)]
    #[tactic(auto, unfolding(crate::specs::Leaves::sequence, crate::specs::Primitives::contents_at))]
    pub fn sequence(&self) -> Result<Window<'a, L>, Refused<BerError, L>>
        ensures { ReadsWindow strict (is_constructed 16) (λ x. bytes_in x) (λ x. outside_in x) sequence L.adds (at self.now) (outside_of self.now) result }
    {
        Ok(self.window(self.constructed(Tag::Sequence)?))
    }

    /// The contents of a SET.
    #[inline(always)]
    #[tactic(auto, unfolding(crate::specs::Leaves::set, crate::specs::Primitives::contents_at))]
    pub fn set(&self) -> Result<Window<'a, L>, Refused<BerError, L>>
        ensures { ReadsWindow strict (is_constructed 17) (λ x. bytes_in x) (λ x. outside_in x) set L.adds (at self.now) (outside_of self.now) result }
    {
        Ok(self.window(self.constructed(Tag::Set)?))
    }

    /// What an explicit context tag of this number wraps (X.690, 8.14.2): a constructed element's contents.
    #[inline(always)]
    #[tactic(auto, unfolding(crate::specs::Leaves::explicit, crate::specs::Primitives::contents_at))]
    pub fn explicit(&self, number: u32) -> Result<Window<'a, L>, Refused<BerError, L>>
        ensures { ReadsWindow strict (is_explicit number) (λ x. bytes_in x) (λ x. outside_in x) (explicit number) L.adds (at self.now) (outside_of self.now)
            result }
    {
        let any = self.judge(self.element(Form::Strict))?;
        if !is_context(any.header(), number) || !any.header().constructed {
            return Err(self.refuse(Err::Error(BerError::InvalidTag)));
        }
        Ok(self.window(any.as_bytes()))
    }

    /// The contents of an element with this context tag (X.690, 8.14.3); whether it is constructed is left to the reader of the contents.
    #[inline(always)]
    #[tactic(auto, unfolding(crate::specs::Leaves::implicit, crate::specs::Primitives::contents_at))]
    pub fn implicit(&self, number: u32) -> Result<Window<'a, L>, Refused<BerError, L>>
        ensures { ReadsWindow strict (is_implicit number) (λ x. bytes_in x) (λ x. outside_in x) (implicit number) L.adds (at self.now) (outside_of self.now)
            result }
    {
        let any = self.judge(self.element(Form::Strict))?;
        if !is_context(any.header(), number) {
            return Err(self.refuse(Err::Error(BerError::InvalidTag)));
        }
        Ok(self.window(any.as_bytes()))
    }

    /// A BIT STRING under this context tag.
    #[inline(always)]
    #[tactic(auto, unfolding(crate::specs::Leaves::implicit_bits, crate::specs::Leaves::implicit))]
    pub fn implicit_bits(&self, number: u32) -> Result<BitString<'a>, Refused<BerError, L>>
        ensures { ReadsLeaf (λ x. bit_string x) (implicit_bits number) L.adds (at self.now) (outside_of self.now) result }
    {
        self.judge(bits(self.implicit(number)?.bytes))
    }

    /// A number of at most 32 bits under this context tag.
    #[inline(always)]
    #[tactic(auto, unfolding(crate::specs::Leaves::implicit_u32, crate::specs::Leaves::implicit))]
    pub fn implicit_u32(&self, number: u32) -> Result<u32, Refused<BerError, L>>
        ensures { ReadsLeaf (λ x. x) (implicit_u32 number) L.adds (at self.now) (outside_of self.now) result }
    {
        self.judge(u32_value(self.implicit(number)?.bytes))
    }
}
