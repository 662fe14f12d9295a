//! What a look-up of one kind of extension answers.

ghost use Rattle.std.specs.Prelude.{◌≡◌};

/// A value of an extension, and whether the extension is critical.
#[derive(Debug, Drop, PartialEq, Eq)]
pub struct BasicExtension<T> {
    /// Whether who doesn't know the extension must refuse the certificate.
    pub critical: bool,
    /// What the value says.
    pub value: T,
}

impl<T> BasicExtension<T> {
    /// This value, of an extension that is critical or isn't.
    pub fn new(critical: bool, value: T) -> Self
        ensures critical { result.critical ≡ critical }
        ensures value { result.value ≡ value }
    {
        BasicExtension { critical, value }
    }
}
