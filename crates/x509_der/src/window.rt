//! Bytes that are read by themselves.

ghost use Rattle.std.specs.Prelude.{◌≡◌, length};
ghost use Rattle.x509_der.specs.Laws.{IsBytes};
ghost use Rattle.x509_der.specs.Plan.{stop_here};

use crate::error::{Err, Refused};
use crate::outside::{Nowhere, Outside};

/// Bytes that are read by themselves, as the contents of an element, and what a reader is told of the octets behind them.
#[derive(Debug, Drop)]
pub struct Window<'a, L> {
    pub(crate) bytes: &'a [u8],
    pub(crate) outside: L,
    ghost octets: { IsBytes bytes.now },
}

impl<'a> Window<'a, Nowhere> {
    ghost use Rattle.x509_der.specs.Place.{bytes_in};

    /// All that is read.
    #[inline(always)]
    pub fn whole(bytes: &'a [u8]) -> Window<'a, Nowhere>
        ensures { bytes_in result ≡ bytes.now }
    {
        Window {
            bytes,
            outside: Nowhere,
        }
    }
}

impl<'a> Window<'a, usize> {
    ghost use Rattle.x509_der.specs.Place.{bytes_in, outside_in};

    /// All that is read, where the place of a refusal is wanted.
    #[inline(always)]
    pub fn counted(bytes: &'a [u8]) -> Window<'a, usize>
        ensures bytes { bytes_in result ≡ bytes.now }
        ensures outside { outside_in result ≡ 0 }
    {
        Window { bytes, outside: 0 }
    }
}

impl<'a, L: Outside> Window<'a, L> {
    ghost use Rattle.x509_der.specs.Place.{bytes_in, outside_in};

    /// The bytes.
    #[inline(always)]
    pub fn bytes(&self) -> &'a [u8]
        ensures { result.now ≡ bytes_in self.now }
    {
        self.bytes
    }

    /// A window of some of the bytes, behind which this rest of them stands.
    #[inline(always)]
    pub fn inner(&self, bytes: &'a [u8], rest: &[u8]) -> Window<'a, L>
        ensures bytes { bytes_in result ≡ bytes.now }
        ensures outside { outside_in result ≡ L.adds (length rest.now) (outside_in self.now) }
    {
        Window {
            bytes,
            outside: self.outside.more(rest.len()),
        }
    }

    /// A refusal of the place from which on this rest of the bytes stands.
    #[inline(always)]
    pub fn refuse_at<E>(&self, rest: &[u8], why: Err<E>) -> Refused<E, L>
        ensures why { result.why ≡ why }
        ensures left { result.left ≡ stop_here L.adds rest.now (outside_in self.now) }
    {
        Refused {
            why,
            left: self.outside.more(rest.len()),
        }
    }
}
