//! Public keys (RFC 5280, section 4.1.2.7).

pub use x509_keys::{ECPoint, KeyAlgorithm, NamedCurve, PublicKey, RSAPublicKey};
