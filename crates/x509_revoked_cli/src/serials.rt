//! The serials that are asked for.

ghost use Rattle.std.specs.Prelude.{◌≡◌, MatchResult, MatchOption, Some, None};
ghost use Rattle.x509_der.specs.Unsigned.{unsigned_number};
ghost use Rattle.x509_revoked_cli.specs.Serials.{digits_in, serial_in, number_of};
ghost use Rattle.x509_revoked_cli.specs.declared.stop.Stop.TheVariants.{Memory};

use crate::stop::Stop;
use hex::FromHexError;
use std::alloc::Global;
use x509_der::UnsignedBytes;

/// A serial as it was written, and its octets.
#[derive(Drop)]
pub struct Serial<'w> {
    pub word: &'w str,
    octets: Vec<u8>,
}

impl Serial<'_> {
    /// The serial as an unsigned number.
    pub fn number(&self) -> UnsignedBytes<'_>
        ensures { unsigned_number result ≡ number_of self.now }
    {
        UnsignedBytes::new(self.octets.as_slice())
    }
}

/// The digits of a word, without the colons between them; one more, a zero in front, where their number is odd.
fn digits_in(alloc: Global, word: &str) -> Result<Vec<u8>, Stop>
    ensures { MatchResult result (λ digits. digits.items ≡ digits_in word.now) (λ stop. stop ≡ Memory) }
{
    let mut digits = Vec::new(alloc);
    for octet in word.as_bytes() {
        if *octet != b':' {
            digits.push(*octet)?;
        }
    }
    if digits.len() % 2 == 1 {
        digits.insert(0, b'0')?;
    }
    Ok(digits)
}

/// The serial that a word writes in hex digits, with colons between them or none; none where it writes none.
pub fn parse_serial<'w>(alloc: Global, word: &'w str) -> Result<Option<Serial<'w>>, Stop>
    ensures { MatchResult result
        (λ serial. MatchOption serial (serial_in word.now ≡ None) (λ s. (s.word.now ≡ word.now) × (serial_in word.now ≡ Some (number_of s))))
        (λ stop. stop ≡ Memory) }
{
    let digits = digits_in(alloc, word)?;
    if digits.is_empty() {
        return Ok(None);
    }
    match hex::decode(alloc, digits.as_slice()) {
        Ok(octets) => Ok(Some(Serial { word, octets })),
        Err(FromHexError::OutOfMemory) => Err(Stop::Memory),
        Err(_) => Ok(None),
    }
}
