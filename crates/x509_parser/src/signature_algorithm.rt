//! Algorithms of signatures and their parameters (RFC 4055, sections 3.1 and 4.1).

pub use x509_keys::{
    HashAlgorithm, MaskGenAlgorithm, RsaAesOaepParams, RsaSsaPssParams, SignatureAlgorithm,
    signature_hash,
};
