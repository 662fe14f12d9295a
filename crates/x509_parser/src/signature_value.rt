//! The values of signatures.

pub use x509_keys::EcdsaSigValue;
