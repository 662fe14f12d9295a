//! Points of elliptic curves.

ghost use Rattle.std.specs.Prelude.{◌≡◌};
ghost use Rattle.x509_keys.specs.EcPoint.{point_bytes, point_size};

use crate::sizes::bits_in;

/// A public key of elliptic curve cryptography: a point of its curve (RFC 5480, section 2.2).
///
/// ```text
/// ECPoint ::= OCTET STRING
/// ```
///
/// The octets are `04`, x and y where the point is uncompressed, and `02` or `03` and x where it is compressed (SEC 1,
/// section 2.3.3). They are kept as they stand, and any are taken.
#[derive(Debug, Drop, PartialEq, Eq)]
pub struct ECPoint<'a> {
    bytes: &'a [u8],
}

impl<'a> ECPoint<'a> {
    /// The octets of the point.
    pub const fn bytes(&self) -> &'a [u8]
        ensures { result.now ≡ point_bytes self.now }
    {
        self.bytes
    }

    /// The size of a coordinate in bits: half of those behind `04`, all of those behind `02` and `03`, and 0 where the point
    /// has another form.
    ///
    /// The bits behind the first byte stop at `usize::MAX`.
    pub fn key_size(&self) -> usize
        ensures { result ≡ point_size (point_bytes self.now) }
    {
        match self.bytes {
            [4, coordinates @ ..] => bits_in(coordinates.len()) / 2,
            [2 | 3, x @ ..] => bits_in(x.len()),
            _ => 0,
        }
    }
}

/// The point with these octets.
impl<'a> From<&'a [u8]> for ECPoint<'a> {
    ghost from_gives = { λ bytes point. point_bytes point ≡ bytes.now };

    fn from(bytes: &'a [u8]) -> ECPoint<'a> {
        ECPoint { bytes }
    }
}
