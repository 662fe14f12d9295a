//! Objects that stand one behind another.

ghost use Rattle.std.specs.Prelude.{◌≡◌, ◌<◌, ◌+◌, ◌^◌, length};

use std::alloc::Global;

/// The objects that stand one behind another in DER. A refused one ends nothing: what comes next stands behind its element. Octets that are
/// no whole element are refused with all that stands behind them.
#[derive(Debug, Drop)]
pub struct ObjectIter<'a> {
    pub(crate) alloc: Global,
    pub(crate) left: &'a [u8],
    pub(crate) offset: usize,
    ghost within: { offset + length left.now < 2 ^ 64 },
}

/// The objects of these octets, from the first on.
pub fn objects_in(alloc: Global, octets: &[u8]) -> ObjectIter<'_>
    ensures left { result.left.now ≡ octets.now }
    ensures offset { result.offset ≡ 0 }
{
    ObjectIter {
        alloc,
        left: octets,
        offset: 0,
    }
}
