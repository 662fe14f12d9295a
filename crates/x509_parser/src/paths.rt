//! The names of the fields that lead to an octet, as that of a refusal.

pub use x509_elements::{ExtensionValue, Part, path_to};
