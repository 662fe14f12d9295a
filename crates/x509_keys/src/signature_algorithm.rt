//! Algorithms of signatures.

ghost use Rattle.x509_der.specs.Reading.{Element};
ghost use Rattle.x509_fields.specs.Algorithm.{algorithm_of};
ghost use Rattle.x509_keys.specs.declared.signature_kind.SignatureKind.TheVariants as kinds;
ghost use Rattle.x509_keys.specs.RsaAesOaepParams.{oaep_fields};
ghost use Rattle.x509_keys.specs.RsaSsaPssParams.{pss_fields};
ghost use Rattle.x509_keys.specs.SignatureAlgorithm.{AnswersSignature, HasParameters, ReadsSignature, RSASSA_PSS, RSAAES_OAEP, signature};

use crate::rsa_aes_oaep_params::RsaAesOaepParams;
use crate::rsa_ssa_pss_params::RsaSsaPssParams;
use crate::signature_kind::SignatureKind;
use std::alloc::Global;
use x509_fields::{AlgorithmIdentifier, X509Error};

/// The kind of a signature's algorithm (RFC 5280, section 4.1.1.2), with the parameters of those kinds that have them.
#[allow(non_camel_case_types)]
#[derive(Debug, Drop, PartialEq)]
pub enum SignatureAlgorithm<'a> {
    /// pkcs-1, 1.2.840.113549.1.1, and those below it but the two that follow (RFC 4055, section 5).
    RSA,
    /// id-RSASSA-PSS, 1.2.840.113549.1.1.10 (RFC 4055, section 3.1).
    RSASSA_PSS(Box<RsaSsaPssParams<'a>>),
    /// id-RSAES-OAEP, 1.2.840.113549.1.1.7 (RFC 4055, section 4.1).
    RSAAES_OAEP(Box<RsaAesOaepParams<'a>>),
    /// 1.2.840.10040.4 and those below it (RFC 3279, section 2.2.2).
    DSA,
    /// id-ecSigType, 1.2.840.10045.4, and those below it (RFC 3279, section 2.2.3).
    ECDSA,
    /// id-Ed25519, 1.3.101.112 (RFC 8410, section 3).
    ED25519,
}

impl<'a> SignatureAlgorithm<'a> {
    /// The first of these kinds that the identifier fits: RSAES-OAEP, RSASSA-PSS, RSA, ECDSA, DSA, Ed25519. Where no
    /// parameters belong to the kind, those that are given are not looked at.
    ///
    /// # Errors
    ///
    /// `InvalidSignatureValue` where the identifier fits none, and where RSAES-OAEP or RSASSA-PSS stands without parameters or
    /// with such as cannot be read. `OutOfMemory`, for these two kinds alone.
    pub fn try_from(
        alloc: Global,
        value: &AlgorithmIdentifier<'a>,
    ) -> Result<SignatureAlgorithm<'a>, X509Error>
        ensures answer { AnswersSignature result (signature (algorithm_of value.now)) }
        ensures pss { (e : Element) → HasParameters kinds.Pss (algorithm_of value.now) e → ReadsSignature (λ p. RSASSA_PSS p) pss_fields e result }
        ensures oaep { (e : Element) → HasParameters kinds.Oaep (algorithm_of value.now) e → ReadsSignature (λ p. RSAAES_OAEP p) oaep_fields e result }
    {
        let Some(kind) = SignatureKind::of(value.algorithm.as_bytes()) else {
            return Err(X509Error::InvalidSignatureValue);
        };
        match kind {
            SignatureKind::Rsa => Ok(SignatureAlgorithm::RSA),
            SignatureKind::Dsa => Ok(SignatureAlgorithm::DSA),
            SignatureKind::Ecdsa => Ok(SignatureAlgorithm::ECDSA),
            SignatureKind::Ed25519 => Ok(SignatureAlgorithm::ED25519),
            SignatureKind::Pss => {
                let Some(given) = value.parameters else {
                    return Err(X509Error::InvalidSignatureValue);
                };
                let Ok(params) = RsaSsaPssParams::try_from(given) else {
                    return Err(X509Error::InvalidSignatureValue);
                };
                match Box::new(alloc, params) {
                    Ok(params) => Ok(SignatureAlgorithm::RSASSA_PSS(params)),
                    Err(_) => Err(X509Error::OutOfMemory),
                }
            }
            SignatureKind::Oaep => {
                let Some(given) = value.parameters else {
                    return Err(X509Error::InvalidSignatureValue);
                };
                let Ok(params) = RsaAesOaepParams::try_from(given) else {
                    return Err(X509Error::InvalidSignatureValue);
                };
                match Box::new(alloc, params) {
                    Ok(params) => Ok(SignatureAlgorithm::RSAAES_OAEP(params)),
                    Err(_) => Err(X509Error::OutOfMemory),
                }
            }
        }
    }
}
