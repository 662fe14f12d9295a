//! Attributes of certification requests (RFC 2986, section 4.1; RFC 2985, section 5.4).

pub use x509_requests::{
    ChallengePassword, CriAttributeIter, ExtensionRequest, ParsedCriAttribute, X509CriAttribute,
};
