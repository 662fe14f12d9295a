//! Bits by their numbers.

ghost use Rattle.std.specs.Prelude.{◌≡◌};
ghost use Rattle.x509_der.specs.Primitives.{bit_string};
ghost use Rattle.x509_fields.specs.Flags.{reversed, flags_in, has_bit};

use x509_der::BitString;

/// The first sixteen bits of a string of bits, of which bit 0, the most significant bit of the first octet, counts 1, and bit 15
/// 32,768 (X.690, 8.6.2). A bit that is missing is 0.
#[tactic(auto, unfolding(crate::specs::Flags::flags_in))]
pub fn flags_of(bits: &BitString<'_>) -> u16
    ensures { result ≡ flags_in (bit_string bits.now) }
{
    match bits.bytes {
        [] => 0,
        [first] => reversed(*first),
        [first, second, ..] => reversed(*first) + 256 * reversed(*second),
    }
}

// The octet from its other end.
fn reversed(octet: u8) -> u16
    ensures { result ≡ reversed octet }
{
    u16::from(octet.reverse_bits())
}

/// Whether the bit with this number is set.
pub fn is_set(flags: u16, bit: u32) -> bool
    ensures { result ≡ has_bit flags bit }
{
    match flags.checked_shr(bit) {
        Some(shifted) => shifted % 2 == 1,
        None => false,
    }
}
