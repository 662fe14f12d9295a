//! Character sets.

ghost use Rattle.std.specs.Prelude.{◌≡◌};
ghost use Rattle.x509_validators.specs.Charset.{are_ascii};

/// Whether all octets are of ASCII.
pub(crate) fn are_ascii(octets: &[u8]) -> bool
    ensures { result ≡ are_ascii octets.now }
{
    octets.iter().all(|octet| *octet < 0x80)
}
