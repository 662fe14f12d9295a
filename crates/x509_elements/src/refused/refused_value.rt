//! A value that is refused.

use x509_der::Err;
use x509_fields::X509Error;

/// The value of an extension that the reader of its kind refuses.
#[derive(Clone, Copy, Debug, PartialEq)]
pub struct RefusedValue {
    /// How many octets of the object stand before the one at which the value is refused.
    pub at: usize,
    /// Why it is refused.
    pub why: Err<X509Error>,
    /// How many octets of the object stand before the value: the contents of its extension's `extnValue`.
    pub value_at: usize,
    /// How many octets the value has.
    pub value_size: usize,
}
