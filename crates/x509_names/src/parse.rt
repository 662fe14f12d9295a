//! From dotted text to octets.

ghost use Rattle.std.specs.Prelude.{◌≡◌, ◌≤◌, ◌++◌, Some, MatchResult, OnOk, decimal};
ghost use Rattle.std.specs.Char.{is_ascii_digit};
ghost use Rattle.std.specs.List.{list_all};
ghost use Rattle.x509_names.specs.Arcs.{IsDottedText, most_second, number_octets, leading_octets};
ghost use Rattle.x509_names.specs.DottedRefusals.{IsReason, arc_refusal, second_refusal, is_numeral, has_leading_zero};

use crate::parse_error::ParseOidError;
use std::alloc::{AllocError, Global};

// The octets of the identifier with this text. Memory is asked for where the first two arcs were read.
pub(crate) fn octets_of(alloc: Global, text: &str) -> Result<Vec<u8>, ParseOidError>
    ensures { MatchResult result (λ octets. IsDottedText text.now octets.items) (λ e. IsReason text.now e) }
{
    let mut parts = text.split('.');
    let (Some(first), Some(second)) = (parts.next(), parts.next()) else {
        return Err(ParseOidError::TooFewArcs);
    };
    let top = arc(first, 2, ParseOidError::FirstArcTooLarge)?;
    let next = second_arc(second, top)?;
    let mut octets = Vec::new(alloc);
    push_number(&mut octets, 40 * top + next)?;
    for part in parts {
        let number = arc(part, u64::MAX, ParseOidError::ArcTooLarge)?;
        push_number(&mut octets, number)?;
    }
    Ok(octets)
}

// The second arc, under this first one (X.690, 8.19.4).
fn second_arc(text: &str, first: u64) -> Result<u64, ParseOidError>
    ensures { MatchResult result (λ n. (text.now ≡ decimal n) × (n ≤ most_second first)) (λ e. second_refusal first text.now ≡ Some e) }
{
    if first < 2 {
        arc(text, 39, ParseOidError::SecondArcTooLarge)
    } else {
        arc(text, u64::MAX - 80, ParseOidError::ArcTooLarge)
    }
}

// The arc with this text, at most so great; else this error.
fn arc(text: &str, most: u64, above: ParseOidError) -> Result<u64, ParseOidError>
    ensures { MatchResult result (λ n. (text.now ≡ decimal n) × (n ≤ most)) (λ e. arc_refusal most above text.now ≡ Some e) }
{
    if !is_decimal(text) {
        return Err(ParseOidError::NotANumber);
    }
    if is_zero_padded(text) {
        return Err(ParseOidError::LeadingZero);
    }
    match text.parse::<u64>() {
        Ok(number) if number <= most => Ok(number),
        _ => Err(above),
    }
}

// Whether the text is one decimal digit or more, and nothing else.
fn is_decimal(text: &str) -> bool
    ensures { result ≡ is_numeral text.now }
{
    !text.is_empty() && are_digits(text.as_bytes())
}

fn are_digits(octets: &[u8]) -> bool
    ensures { result ≡ list_all is_ascii_digit octets.now }
{
    octets.iter().all(|octet| octet.is_ascii_digit())
}

// Whether a 0 stands in front of other digits.
fn is_zero_padded(text: &str) -> bool
    ensures { result ≡ has_leading_zero text.now }
{
    text.len() > 1 && text.as_bytes()[0] == b'0'
}

// Appends the octets of a number: its digits of base 128, with bit 8 set in each but the last (X.690, 8.19.2).
fn push_number(octets: &mut Vec<u8>, number: u64) -> Result<(), AllocError>
    ensures { OnOk result (octets.new.items ≡ octets.old.items ++ number_octets number) }
{
    push_leading(octets, number / 128)?;
    octets.push((number % 128) as u8)?;
    Ok(())
}

// Appends the digits of base 128 of a number, of which 0 has none, with bit 8 set in each.
fn push_leading(octets: &mut Vec<u8>, number: u64) -> Result<(), AllocError>
    ensures { OnOk result (octets.new.items ≡ octets.old.items ++ leading_octets number) }
{
    if number > 0 {
        push_leading(octets, number / 128)?;
        octets.push(0x80 + (number % 128) as u8)?;
    }
    Ok(())
}
