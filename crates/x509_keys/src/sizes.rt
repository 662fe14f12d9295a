//! Sizes of keys.

ghost use Rattle.std.specs.Prelude.{◌≡◌};
ghost use Rattle.x509_keys.specs.Sizes.{bits_in};

/// The bits of so many octets, at most `usize::MAX`.
#[inline(always)]
pub(crate) fn bits_in(octets: usize) -> usize
    ensures { result ≡ bits_in octets }
{
    octets.saturating_mul(8)
}
