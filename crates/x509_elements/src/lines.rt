//! The lines of an object.

ghost use Rattle.std.specs.Prelude.{◌∷◌, length, reverse};
ghost use Rattle.x509_elements.specs.Nested.{AreNested, nested_once};

use crate::open::Open;

/// The lines of an object that are left. Memory is asked for where elements stand in one another, and used again.
#[derive(Debug, Drop)]
pub struct DumpLines<'a> {
    pub(crate) octets: &'a [u8],
    /// How many octets the lines so far hold.
    pub(crate) at: usize,
    /// The innermost element that is open; at first the octets themselves.
    pub(crate) innermost: Open,
    /// Those around it, the outermost first.
    pub(crate) outer: Vec<Open>,
    ghost nested: { AreNested at (innermost ∷ reverse outer.items) (length octets.now) } by { nested_once at (innermost ∷ reverse outer.items) (length octets.now) },
}
