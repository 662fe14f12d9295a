//! What readers are told of the octets behind what they read.

ghost use Rattle.std.specs.Prelude.{◌≡◌, ℕ};

/// What a reader is told of the octets behind its window: their number, where it is to tell the places of its refusals, or
/// nothing, which takes no memory and no time.
pub trait Outside: Copy + Drop {
    /// The same with so many octets more.
    ghost adds: { ℕ → Self → Self };

    /// The same with so many octets more.
    fn more(self, count: usize) -> Self
        ensures { result ≡ adds count self };
}

/// Nothing is told.
#[derive(Clone, Copy, Debug, PartialEq, Eq)]
pub struct Nowhere;

impl Outside for Nowhere {
    ghost adds = { λ count outside. outside };

    #[inline(always)]
    fn more(self, _count: usize) -> Self {
        self
    }
}

impl Outside for usize {
    ghost use Rattle.x509_der.specs.Plan.{wrapped};

    ghost adds = { wrapped };

    #[inline(always)]
    fn more(self, count: usize) -> Self {
        count.wrapping_add(self)
    }
}
