//! Reading headers.

ghost use Rattle.std.specs.Prelude.{◌≡◌, ◌+◌, ◌/◌, ◌^◌, ◌≤◌, length, drop, slice_index, Ok, IfOk, ◌==◌, ◌<◌};
ghost use Rattle.x509_der.specs.Reading.{class_in, high_number_after, high_number_at, tag_at, u32_in, length_at, long_length_at, header_at, fewest, TriesOnce};
ghost use Rattle.std.specs.Int.Digits.{number_from_digits};
ghost use Rattle.x509_der.specs.declared.look.Form.{Form};
ghost use Rattle.x509_der.specs.Looks.{refusal_of, no_header, header_of, failure_in, seen_in, Spelled, wanted};

use crate::error::{BerError, Err};
use crate::header::{Class, Header, Tag};
use crate::tries::Tries;

/// Which length octets are taken.
#[derive(Clone, Copy)]
pub(crate) enum Form {
    /// The fewest octets.
    Strict,
    /// Any octets that spell the length.
    Loose,
}

/// Why the first octets are no header.
#[derive(Clone, Copy, Debug)]
pub(crate) enum HeaderError {
    CutShort,
    InvalidTag,
    InvalidLength,
}

impl HeaderError {
    #[inline(always)]
    pub(crate) fn refusal(self) -> Err<BerError>
        ensures { result ≡ refusal_of self }
    {
        match self {
            HeaderError::CutShort => Err::Incomplete,
            HeaderError::InvalidTag => Err::Error(BerError::InvalidTag),
            HeaderError::InvalidLength => Err::Error(BerError::InvalidLength),
        }
    }
}

/// A header as its octets spell it.
#[derive(Clone, Copy)]
pub(crate) struct Seen {
    /// The first octet: the class, the form, and a number below 31.
    pub(crate) octet: u8,
    pub(crate) tag: Tag,
    pub(crate) length: u32,
    /// Whether the length stands in the fewest octets.
    pub(crate) fewest: bool,
}

/// Whether an element with this first octet is of this universal type, whose number is below 31, in its primitive form.
#[inline(always)]
pub(crate) fn is_primitive(octet: u8, tag: Tag) -> bool
    ensures { result ≡ (octet == tag.0) }
{
    u32::from(octet) == tag.0
}

/// The same in its constructed form.
#[inline(always)]
pub(crate) fn is_constructed(octet: u8, tag: Tag) -> bool
    requires { tag.0 < 31 }
    ensures { result ≡ (octet == 32 + tag.0) }
{
    u32::from(octet) == 32 + tag.0
}

/// The number that the octets spell, most significant first, if it is a `u32`.
#[tactic(auto, using(crate::proofs::Numbers::numbers))]
pub(crate) fn number_of(octets: &[u8]) -> Option<u32>
    ensures { result ≡ u32_in octets.now }
{
    let mut number: u32 = 0;
    for octet in octets {
        if number >= 1 << 24 {
            return None;
        }
        number = number * 256 + u32::from(*octet);
    }
    Some(number)
}

#[inline(always)]
pub(crate) fn class_of(octet: u8) -> Class
    ensures { result ≡ class_in octet }
{
    match octet >> 6 {
        0 => Class::Universal,
        1 => Class::Application,
        2 => Class::ContextSpecific,
        _ => Class::Private,
    }
}

/// The number in base 128 that octets spell of which all but the last have bit 8 set, if it is a `u32`.
#[tactic(auto, unfolding(crate::specs::Reading::high_number_after))]
fn base_128(i: &[u8]) -> Result<(&[u8], u32), HeaderError>
    ensures { Spelled (λ x. (x.0.now, x.1)) result (high_number_after 0 i.now) }
{
    let mut number: u32 = 0;
    let mut rest = i;
    while let [octet, after @ ..] = rest {
        if number >= 1 << 25 {
            return Err(HeaderError::InvalidTag);
        }
        number = number * 128 + u32::from(*octet % 128);
        rest = after;
        if *octet < 128 {
            return Ok((rest, number));
        }
    }
    Err(HeaderError::CutShort)
}

#[tactic(auto, unfolding(crate::specs::Reading::high_number_at))]
fn high_number(i: &[u8]) -> Result<(&[u8], u32), HeaderError>
    ensures { Spelled (λ x. (x.0.now, x.1)) result (high_number_at i.now) }
{
    match i {
        [] => Err(HeaderError::CutShort),
        [0x80, ..] => Err(HeaderError::InvalidTag),
        [_, ..] => base_128(i),
    }
}

/// The tag number whose lowest five bits in the first octet are `low`.
#[inline(always)]
#[tactic(auto, unfolding(crate::specs::Reading::tag_at))]
fn tag_number(low: u8, i: &[u8]) -> Result<(&[u8], Tag), HeaderError>
    ensures { Spelled (λ x. (x.0.now, x.1.0)) result (tag_at low i.now) }
{
    if low != 31 {
        return Ok((i, Tag(u32::from(low))));
    }
    let (rest, number) = high_number(i)?;
    if number < 31 {
        return Err(HeaderError::InvalidTag);
    }
    Ok((rest, Tag(number)))
}

/// Whether these are the fewest octets for this length.
#[inline(always)]
fn is_fewest(octets: &[u8], length: u32) -> bool
    requires { length ≡ number_from_digits 256 octets.now }
    ensures { result ≡ fewest octets.now }
{
    match octets {
        [] => false,
        [first, ..] => *first > 0 && length >= 128,
    }
}

#[inline(always)]
#[tactic(auto, using(crate::proofs::Looks::forms), unfolding(crate::specs::Reading::long_length_at))]
fn seen_long_length(count: usize, i: &[u8]) -> Result<(&[u8], u32, bool), HeaderError>
    ensures { (form : Form) → long_length_at form count i.now ≡ wanted (λ x. (x.0.now, x.1)) (λ x. x.2) form result }
{
    if i.len() < count {
        return Err(HeaderError::CutShort);
    }
    let (octets, rest) = i.split_at(count);
    match number_of(octets) {
        Some(length) => Ok((rest, length, is_fewest(octets, length))),
        None => Err(HeaderError::InvalidLength),
    }
}

#[inline(always)]
#[tactic(auto, using(crate::proofs::Looks::forms), unfolding(crate::specs::Reading::length_at))]
fn seen_length(i: &[u8]) -> Result<(&[u8], u32, bool), HeaderError>
    ensures { (form : Form) → length_at form i.now ≡ wanted (λ x. (x.0.now, x.1)) (λ x. x.2) form result }
{
    match i {
        [] => Err(HeaderError::CutShort),
        [octet @ 0..0x80, rest @ ..] => Ok((rest, u32::from(*octet), true)),
        [0x80 | 0xff, ..] => Err(HeaderError::InvalidLength),
        // Nearly all long lengths stand in one octet or in two.
        [0x81, low, rest @ ..] => Ok((rest, u32::from(*low), *low >= 128)),
        [0x82, high, low, rest @ ..] => Ok((
            rest,
            u32::from(*high) * 256 + u32::from(*low),
            *high > 0,
        )),
        [octet, rest @ ..] => seen_long_length((*octet % 128) as usize, rest),
    }
}

/// The header at the front, whatever its octets, and whether its length stands in the fewest octets.
#[inline(always)]
#[tactic(auto, using(crate::proofs::Looks::forms), unfolding(crate::specs::Reading::header_at))]
fn spelled_header(i: &[u8]) -> Result<(&[u8], Seen), HeaderError>
    ensures exact { (form : Form) → header_at form i.now ≡ wanted (λ x. (x.0.now, header_of x.1)) (λ x. x.1.fewest) form result }
    ensures fits { IfOk result (λ x. x.1.length < 2 ^ 32) }
    ensures first { IfOk result (λ x. slice_index i.now 0 ≡ x.1.octet) }
{
    let [octet, rest @ ..] = i else {
        return Err(HeaderError::CutShort);
    };
    let (rest, tag) = tag_number(*octet % 32, rest)?;
    let (rest, length, fewest) = seen_length(rest)?;
    let seen = Seen {
        octet: *octet,
        tag,
        length,
        fewest,
    };
    Ok((rest, seen))
}

/// A header in two words, which a call gives in registers.
#[derive(Clone, Copy)]
pub(crate) struct Packed {
    // The tag number times 2^32, and the length; without a header, why there is none: 0 to 2.
    numbers: u64,
    // Twice the header's octets, and one more where its length stands in the fewest; 0 without a header.
    size: u64,
}

impl Packed {
    /// The header, whose first octet isn't packed.
    #[inline(always)]
    fn seen(self, octet: u8) -> Seen
        ensures { result ≡ seen_in self octet }
    {
        Seen {
            octet,
            tag: Tag((self.numbers / (1 << 32)) as u32),
            length: (self.numbers % (1 << 32)) as u32,
            fewest: self.size % 2 == 1,
        }
    }

    /// Why there is no header.
    #[inline(always)]
    fn failure(self) -> HeaderError
        ensures { result ≡ failure_in self }
    {
        match self.numbers {
            0 => HeaderError::CutShort,
            1 => HeaderError::InvalidTag,
            _ => HeaderError::InvalidLength,
        }
    }
}

/// The header at the front, whatever its octets.
#[inline(never)]
fn packed_header(i: &[u8]) -> Packed
    ensures found { 0 < result.size → (form : Form)
        → header_at form i.now ≡ wanted (λ s. (drop (result.size / 2) i.now, header_of s)) (λ s. s.fewest) form (Ok (seen_in result (slice_index i.now 0))) }
    ensures within { result.size / 2 ≤ length i.now }
    ensures refused { result.size ≡ 0 → (form : Form) → header_at form i.now ≡ no_header (failure_in result) }
{
    match spelled_header(i) {
        Ok((beyond, seen)) => {
            let numbers = u64::from(seen.tag.0) * (1 << 32) + u64::from(seen.length);
            let size = 2 * (i.len() - beyond.len()) as u64;
            if seen.fewest {
                Packed {
                    numbers,
                    size: size + 1,
                }
            } else {
                Packed { numbers, size }
            }
        }
        Err(HeaderError::CutShort) => Packed {
            numbers: 0,
            size: 0,
        },
        Err(HeaderError::InvalidTag) => Packed {
            numbers: 1,
            size: 0,
        },
        Err(HeaderError::InvalidLength) => Packed {
            numbers: 2,
            size: 0,
        },
    }
}

/// The header at the front, and whether its length stands in the fewest octets. One of two octets, as most are, is read
/// here, and every other one by a call.
#[inline(always)]
#[tactic(auto, using(crate::proofs::Looks::forms), unfolding(crate::specs::Reading::header_at, crate::specs::Reading::tag_at, crate::specs::Reading::length_at))]
pub(crate) fn seen_header<'a>(
    tries: &mut Tries,
    i: &'a [u8],
) -> Result<(&'a [u8], Seen), HeaderError>
    ensures exact { (form : Form) → header_at form i.now ≡ wanted (λ x. (x.0.now, header_of x.1)) (λ x. x.1.fewest) form result }
    ensures first { IfOk result (λ x. slice_index i.now 0 ≡ x.1.octet) }
    ensures tries { TriesOnce tries.old tries.new i.now }
{
    match i {
        [octet, length @ 0..0x80, beyond @ ..] if *octet % 32 != 31 => {
            tries.tick();
            let seen = Seen {
                octet: *octet,
                tag: Tag(u32::from(*octet % 32)),
                length: u32::from(*length),
                fewest: true,
            };
            Ok((beyond, seen))
        }
        [] => Err(HeaderError::CutShort),
        [octet, ..] => {
            tries.tick();
            let packed = packed_header(i);
            if packed.size == 0 {
                return Err(packed.failure());
            }
            Ok((&i[(packed.size / 2) as usize..], packed.seen(*octet)))
        }
    }
}
