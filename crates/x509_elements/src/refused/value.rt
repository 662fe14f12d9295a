//! The value of an extension.

ghost use Rattle.std.specs.Prelude.{◌≡◌, ◌-◌};
ghost use Rattle.x509_elements.specs.Walks.{window};

use crate::slices::{behind, first_of};

/// The contents of an element, in the octets of its object.
#[derive(Clone, Copy)]
pub(crate) struct Contents {
    /// How many octets stand before them.
    pub(crate) at: usize,
    /// How many octets stand before what is behind them.
    pub(crate) end: usize,
}

/// The value of an extension.
#[derive(Clone, Copy)]
pub(crate) struct Value {
    /// The contents of its extension's identifier.
    pub(crate) id: Contents,
    /// The contents of `extnValue`.
    pub(crate) contents: Contents,
}

impl Contents {
    /// How many octets they are.
    fn len(self) -> usize
        ensures { result ≡ self.end - self.at }
    {
        self.end.saturating_sub(self.at)
    }

    /// Of the octets of the object those that they are.
    pub(crate) fn of(self, octets: &[u8]) -> &[u8]
        ensures { result.now ≡ window octets.now self.at self.end }
    {
        first_of(behind(octets, self.at), self.len())
    }
}
