//! Which kind of signature an algorithm makes.

ghost use Rattle.std.specs.Prelude.{◌≡◌};
ghost use Rattle.x509_keys.specs.SignatureKinds.{signature_kind_of};

use x509_names::{OID_PKCS1_RSASSAPSS, OID_SIG_ED25519};

/// id-RSAES-OAEP, 1.2.840.113549.1.1.7 (RFC 4055, section 4.1): the contents of the identifier.
const ID_RSAES_OAEP: &[u8] = &[0x2a, 0x86, 0x48, 0x86, 0xf7, 0x0d, 0x01, 0x01, 0x07];

/// pkcs-1, 1.2.840.113549.1.1 (RFC 4055, section 6): the contents of the identifier.
const PKCS_1: &[u8] = &[0x2a, 0x86, 0x48, 0x86, 0xf7, 0x0d, 0x01, 0x01];

/// id-ecSigType, 1.2.840.10045.4 (RFC 3279, section 2.2.3): the contents of the identifier.
const EC_SIGNATURES: &[u8] = &[0x2a, 0x86, 0x48, 0xce, 0x3d, 0x04];

/// 1.2.840.10040.4, below which id-dsa-with-sha1 stands (RFC 3279, section 2.2.2): the contents of the identifier.
const X9_ALGORITHMS: &[u8] = &[0x2a, 0x86, 0x48, 0xce, 0x38, 0x04];

/// The kinds of signatures, by the algorithm's identifier alone: [`SignatureAlgorithm`](crate::SignatureAlgorithm) has the parameters too.
#[derive(Clone, Copy, Debug, PartialEq, Eq)]
pub enum SignatureKind {
    /// pkcs-1 and those below it but the two that follow (RFC 4055, section 5).
    Rsa,
    /// id-RSASSA-PSS (RFC 4055, section 3.1).
    Pss,
    /// id-RSAES-OAEP (RFC 4055, section 4.1).
    Oaep,
    /// 1.2.840.10040.4 and those below it (RFC 3279, section 2.2.2).
    Dsa,
    /// id-ecSigType and those below it (RFC 3279, section 2.2.3).
    Ecdsa,
    /// id-Ed25519 (RFC 8410, section 3).
    Ed25519,
}

impl SignatureKind {
    /// The first of RSAES-OAEP, RSASSA-PSS, RSA, ECDSA, DSA and Ed25519 that the identifier fits, whose contents octets these are; none where it fits none.
    #[tactic(auto, unfolding(crate::specs::SignatureKinds::signature_kind_of))]
    pub fn of(octets: &[u8]) -> Option<SignatureKind>
        ensures { result ≡ signature_kind_of octets.now }
    {
        if octets == ID_RSAES_OAEP {
            Some(SignatureKind::Oaep)
        } else if octets == OID_PKCS1_RSASSAPSS {
            Some(SignatureKind::Pss)
        } else if octets.starts_with(PKCS_1) {
            Some(SignatureKind::Rsa)
        } else if octets.starts_with(EC_SIGNATURES) {
            Some(SignatureKind::Ecdsa)
        } else if octets.starts_with(X9_ALGORITHMS) {
            Some(SignatureKind::Dsa)
        } else if octets == OID_SIG_ED25519 {
            Some(SignatureKind::Ed25519)
        } else {
            None
        }
    }
}
