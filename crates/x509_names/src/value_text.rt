//! The values of attributes as text.

ghost use Rattle.std.specs.Prelude.{◌≡◌, ◌<◌, ◌+◌, ◌/◌, ◌%◌, ◌==◌, ◌++◌, ◌∷◌, [], Some, None, IfSome, IfNone, length, is_some, unwrap_or, encode_utf8};
ghost use Rattle.std.specs.Prelude.{slice_index, string_bytes, if◌then◌else◌};
ghost use Rattle.std.specs.Fmt.{DisplaysOnOk};
ghost use Rattle.std.specs.Option.{option_map};
ghost use Rattle.hex.specs.Hex.{encode_upper, upper_digits};
ghost use Rattle.x509_der.specs.Reading.{Gives, element_of};
ghost use Rattle.x509_names.specs.Names.{utf8_in};
ghost use Rattle.x509_names.specs.NameTexts.{is_utf8_type, utf8_text, utf16_text, units, pair_char, value_text, octets_text, lossy_value_text, IsText};

use std::alloc::Global;
use std::{fmt, str};
use x509_der::{Any, Tag};
use x509_fields::X509Error;

/// Writes the text of a value; of one without, `#` and its contents in upper-case hex.
pub(crate) fn write_value<W: fmt::Write>(value: &Any<'_>, f: &mut fmt::Formatter<W>) -> fmt::Result
    ensures { DisplaysOnOk W.write_str_gives f.old result (Some (lossy_value_text (element_of value.now))) f.new }
{
    let tag = value.tag();
    if is_utf8_type(tag) {
        write_utf8_or_octets(value.as_bytes(), f)
    } else if tag == Tag::BmpString {
        write_utf16_or_octets(value.as_bytes(), f)
    } else {
        write_upper_hex(value.as_bytes(), f)
    }
}

/// Whether a value has a text.
pub(crate) fn has_text(value: &Any<'_>) -> bool
    ensures { result ≡ is_some (value_text (element_of value.now)) }
{
    let tag = value.tag();
    if is_utf8_type(tag) {
        utf8(value.as_bytes()).is_ok()
    } else if tag == Tag::BmpString {
        is_utf16(value.as_bytes())
    } else {
        true
    }
}

// Whether the contents of a value with this number are taken as UTF-8.
fn is_utf8_type(tag: Tag) -> bool
    ensures { result ≡ is_utf8_type tag.0 }
{
    matches!(
        tag,
        Tag::ObjectDescriptor
            | Tag::Utf8String
            | Tag::NumericString
            | Tag::PrintableString
            | Tag::T61String
            | Tag::VideotexString
            | Tag::Ia5String
            | Tag::GraphicString
            | Tag::VisibleString
            | Tag::GeneralString
    )
}

/// Octets as text: UTF-8.
///
/// # Errors
///
/// `InvalidAttributes` where they are none, and `OutOfMemory`.
pub fn utf8_text(alloc: Global, octets: &[u8]) -> Result<String, X509Error>
    ensures { IsText string_bytes (utf8_text octets.now) result }
{
    let text = utf8(octets)?;
    Ok(String::from_str(alloc, text)?)
}

/// Bytes as text.
///
/// # Errors
///
/// `InvalidAttributes` where they are not UTF-8.
pub(crate) fn utf8(octets: &[u8]) -> Result<&str, X509Error>
    ensures { Gives (λ s. s.now) result (utf8_in octets.now) }
{
    match str::from_utf8(octets) {
        Ok(text) => Ok(text),
        Err(_) => Err(X509Error::InvalidAttributes),
    }
}

fn write_utf8_or_octets<W: fmt::Write>(octets: &[u8], f: &mut fmt::Formatter<W>) -> fmt::Result
    ensures { DisplaysOnOk W.write_str_gives f.old result (Some (unwrap_or (utf8_text octets.now) (octets_text octets.now))) f.new }
{
    match utf8(octets) {
        Ok(text) => f.write_str(text),
        Err(_) => write_octets(octets, f),
    }
}

/// Octets as text: units of two, the more significant octet first (UTF-16).
///
/// # Errors
///
/// `InvalidAttributes` where an octet is left or a surrogate has no partner, and `OutOfMemory`.
pub fn utf16_text(alloc: Global, octets: &[u8]) -> Result<String, X509Error>
    ensures { IsText string_bytes (utf16_text octets.now) result }
{
    if is_utf16(octets) {
        let text = Utf16Text { octets };
        Ok(format!(in alloc; "{text}")?)
    } else {
        Err(X509Error::InvalidAttributes)
    }
}

// Octets that are shown as the text that they spell.
#[derive(Drop)]
struct Utf16Text<'a> {
    octets: &'a [u8],
}

impl fmt::Display for Utf16Text<'_> {
    ghost output = { λ text. utf16_text text.octets.now };

    fn fmt<W: fmt::Write>(&self, f: &mut fmt::Formatter<W>) -> fmt::Result {
        write_utf16(self.octets, f)
    }
}

// Whether they are whole units, each surrogate with its partner.
fn is_utf16(octets: &[u8]) -> bool
    ensures { result ≡ is_some (utf16_text octets.now) }
{
    let mut rest = octets;
    'chars: while let Some((_, behind)) = first_char(rest) {
        rest = behind;
    }
    rest.is_empty()
}

fn write_utf16_or_octets<W: fmt::Write>(octets: &[u8], f: &mut fmt::Formatter<W>) -> fmt::Result
    ensures { DisplaysOnOk W.write_str_gives f.old result (Some (unwrap_or (utf16_text octets.now) (octets_text octets.now))) f.new }
{
    if is_utf16(octets) {
        write_utf16(octets, f)
    } else {
        write_octets(octets, f)
    }
}

fn write_utf16<W: fmt::Write>(octets: &[u8], f: &mut fmt::Formatter<W>) -> fmt::Result
    ensures { DisplaysOnOk W.write_str_gives f.old result (utf16_text octets.now) f.new }
{
    let mut rest = octets;
    'chars: while let Some((character, behind)) = first_char(rest) {
        f.write_char(character)?;
        rest = behind;
    }
    Ok(())
}

// The first character, in one unit or in a pair, and the octets behind it.
fn first_char(octets: &[u8]) -> Option<(char, &[u8])>
    ensures some { IfSome result (λ x. utf16_text octets.now ≡ option_map (λ text. encode_utf8 x.0 ++ text) (utf16_text x.1.now)) }
    ensures shorter { IfSome result (λ x. length x.1.now < length octets.now) }
    ensures none { IfNone result (utf16_text octets.now ≡ (if length octets.now == 0 then Some [] else None)) }
{
    let (unit, after) = first_unit(octets)?;
    if let Some(character) = char::from_u32(unit) {
        return Some((character, after));
    }
    let (partner, behind) = first_unit(after)?;
    let character = pair_char(unit, partner)?;
    Some((character, behind))
}

// The first two octets, the more significant one first, and those behind them.
fn first_unit(octets: &[u8]) -> Option<(u32, &[u8])>
    ensures some { IfSome result (λ x. units octets.now ≡ x.0 ∷ units x.1.now) }
    ensures unit { IfSome result (λ x. x.0 < 0x10000) }
    ensures shorter { IfSome result (λ x. length octets.now ≡ length x.1.now + 2) }
    ensures none { IfNone result (length octets.now < 2) }
{
    match octets {
        [high, low, behind @ ..] => Some((u32::from(*high) * 256 + u32::from(*low), behind)),
        _ => None,
    }
}

// The character of a high surrogate and a low one.
fn pair_char(high: u32, low: u32) -> Option<char>
    requires high_unit { high < 0x10000 }
    requires low_unit { low < 0x10000 }
    ensures { result ≡ pair_char high low }
{
    if (0xd800..0xdc00).contains(&high) && (0xdc00..0xe000).contains(&low) {
        char::from_u32(0x1_0000 + (high - 0xd800) * 0x400 + (low - 0xdc00))
    } else {
        None
    }
}

// `#` and the octets in upper-case hex.
fn write_octets<W: fmt::Write>(octets: &[u8], f: &mut fmt::Formatter<W>) -> fmt::Result
    ensures { DisplaysOnOk W.write_str_gives f.old result (Some (octets_text octets.now)) f.new }
{
    f.write_str("#")?;
    write_upper_hex(octets, f)
}

fn write_upper_hex<W: fmt::Write>(octets: &[u8], f: &mut fmt::Formatter<W>) -> fmt::Result
    ensures { DisplaysOnOk W.write_str_gives f.old result (Some (encode_upper octets.now)) f.new }
{
    for octet in octets {
        write_pair(*octet, f)?;
    }
    Ok(())
}

fn write_pair<W: fmt::Write>(octet: u8, f: &mut fmt::Formatter<W>) -> fmt::Result
    ensures { DisplaysOnOk W.write_str_gives f.old result (Some (slice_index upper_digits (octet / 16) ∷ slice_index upper_digits (octet % 16) ∷ [])) f.new }
{
    f.write_char(upper_digit(octet / 16))?;
    f.write_char(upper_digit(octet % 16))
}

fn upper_digit(digit: u8) -> char
    requires { digit < 16 }
    ensures value { result ≡ slice_index upper_digits digit }
    ensures ascii { result < 128 }
{
    let code = if digit < 10 {
        b'0' + digit
    } else {
        b'A' + (digit - 10)
    };
    char::from(code)
}
