//! Which algorithm a key is for, and which curve it is on.

ghost use Rattle.std.specs.Prelude.{◌≡◌};
ghost use Rattle.x509_keys.specs.KeyAlgorithms.{key_algorithm_of, key_algorithm_word, named_curve_of, named_curve_word, field_bits};

use crate::rows::{Row, find_value};
use x509_names::{
    OID_GOST_R3410_2001, OID_KEY_TYPE_DSA, OID_KEY_TYPE_EC_PUBLIC_KEY,
    OID_KEY_TYPE_GOST_R3410_2012_256, OID_KEY_TYPE_GOST_R3410_2012_512, OID_PKCS1_RSAENCRYPTION,
    OID_PKCS1_RSASSAPSS, OID_SIG_ED25519,
};

/// What a key is for, by the identifier of its algorithm (RFC 5280, section 4.1.2.7).
#[derive(Clone, Copy, Debug, PartialEq, Eq)]
pub enum KeyAlgorithm {
    /// rsaEncryption (RFC 3279, section 2.3.1).
    Rsa,
    /// id-RSASSA-PSS: an RSA key for such signatures alone (RFC 4055, section 1.2).
    RsaPss,
    /// id-ecPublicKey: a point on a curve that the parameters name (RFC 5480, section 2.1.1).
    Ec,
    /// id-X25519 (RFC 8410, section 3).
    X25519,
    /// id-X448 (RFC 8410, section 3).
    X448,
    /// id-Ed25519 (RFC 8410, section 3).
    Ed25519,
    /// id-Ed448 (RFC 8410, section 3).
    Ed448,
    /// id-dsa (RFC 3279, section 2.3.2).
    Dsa,
    /// gostR3410-2001 (RFC 4491, section 2.3.2).
    GostR3410,
    /// gostR3410-2012-256 (RFC 9215, section 4).
    GostR3410_2012_256,
    /// gostR3410-2012-512 (RFC 9215, section 4).
    GostR3410_2012_512,
    /// Another algorithm.
    Unknown,
}

const KEY_ALGORITHMS: [Row<KeyAlgorithm>; 11] = [
    (OID_PKCS1_RSAENCRYPTION, KeyAlgorithm::Rsa),
    (OID_PKCS1_RSASSAPSS, KeyAlgorithm::RsaPss),
    (OID_KEY_TYPE_EC_PUBLIC_KEY, KeyAlgorithm::Ec),
    (&[0x2b, 0x65, 0x6e], KeyAlgorithm::X25519),
    (&[0x2b, 0x65, 0x6f], KeyAlgorithm::X448),
    (OID_SIG_ED25519, KeyAlgorithm::Ed25519),
    (&[0x2b, 0x65, 0x71], KeyAlgorithm::Ed448),
    (OID_KEY_TYPE_DSA, KeyAlgorithm::Dsa),
    (OID_GOST_R3410_2001, KeyAlgorithm::GostR3410),
    (
        OID_KEY_TYPE_GOST_R3410_2012_256,
        KeyAlgorithm::GostR3410_2012_256,
    ),
    (
        OID_KEY_TYPE_GOST_R3410_2012_512,
        KeyAlgorithm::GostR3410_2012_512,
    ),
];

impl KeyAlgorithm {
    /// What keys of the algorithm with this identifier's contents are for.
    #[tactic(auto, unfolding(crate::specs::KeyAlgorithms::key_algorithm_of))]
    pub fn of(octets: &[u8]) -> KeyAlgorithm
        ensures { result ≡ key_algorithm_of octets.now }
    {
        match find_value(&KEY_ALGORITHMS, octets) {
            Some(algorithm) => algorithm,
            None => KeyAlgorithm::Unknown,
        }
    }

    /// A word for it, for keys and columns: `rsa`, `rsa_pss`, `ec`, `x25519`, `x448`, `ed25519`, `ed448`, `dsa`,
    /// `gost_r3410_2001`, `gost_r3410_2012_256`, `gost_r3410_2012_512`, `unknown`.
    pub const fn word(&self) -> &'static str
        ensures { result.now ≡ key_algorithm_word self.now }
    {
        match self {
            KeyAlgorithm::Rsa => "rsa",
            KeyAlgorithm::RsaPss => "rsa_pss",
            KeyAlgorithm::Ec => "ec",
            KeyAlgorithm::X25519 => "x25519",
            KeyAlgorithm::X448 => "x448",
            KeyAlgorithm::Ed25519 => "ed25519",
            KeyAlgorithm::Ed448 => "ed448",
            KeyAlgorithm::Dsa => "dsa",
            KeyAlgorithm::GostR3410 => "gost_r3410_2001",
            KeyAlgorithm::GostR3410_2012_256 => "gost_r3410_2012_256",
            KeyAlgorithm::GostR3410_2012_512 => "gost_r3410_2012_512",
            KeyAlgorithm::Unknown => "unknown",
        }
    }
}

/// The curves that keys name (RFC 5480, section 2.1.1.1; SEC 2; RFC 5639).
#[derive(Clone, Copy, Debug, PartialEq, Eq)]
pub enum NamedCurve {
    /// secp192r1, also called P-192.
    Secp192r1,
    /// secp224r1, also called P-224.
    Secp224r1,
    /// secp256r1, also called P-256.
    Secp256r1,
    /// secp384r1, also called P-384.
    Secp384r1,
    /// secp521r1, also called P-521.
    Secp521r1,
    /// secp256k1 (SEC 2, section 2.4.1).
    Secp256k1,
    /// brainpoolP256r1 (RFC 5639, section 3.4).
    BrainpoolP256r1,
    /// brainpoolP384r1 (RFC 5639, section 3.6).
    BrainpoolP384r1,
    /// brainpoolP512r1 (RFC 5639, section 3.7).
    BrainpoolP512r1,
}

const NAMED_CURVES: [Row<NamedCurve>; 9] = [
    (
        &[0x2a, 0x86, 0x48, 0xce, 0x3d, 0x03, 0x01, 0x01],
        NamedCurve::Secp192r1,
    ),
    (&[0x2b, 0x81, 0x04, 0x00, 0x21], NamedCurve::Secp224r1),
    (
        &[0x2a, 0x86, 0x48, 0xce, 0x3d, 0x03, 0x01, 0x07],
        NamedCurve::Secp256r1,
    ),
    (&[0x2b, 0x81, 0x04, 0x00, 0x22], NamedCurve::Secp384r1),
    (&[0x2b, 0x81, 0x04, 0x00, 0x23], NamedCurve::Secp521r1),
    (&[0x2b, 0x81, 0x04, 0x00, 0x0a], NamedCurve::Secp256k1),
    (
        &[0x2b, 0x24, 0x03, 0x03, 0x02, 0x08, 0x01, 0x01, 0x07],
        NamedCurve::BrainpoolP256r1,
    ),
    (
        &[0x2b, 0x24, 0x03, 0x03, 0x02, 0x08, 0x01, 0x01, 0x0b],
        NamedCurve::BrainpoolP384r1,
    ),
    (
        &[0x2b, 0x24, 0x03, 0x03, 0x02, 0x08, 0x01, 0x01, 0x0d],
        NamedCurve::BrainpoolP512r1,
    ),
];

impl NamedCurve {
    /// The curve that the identifier with these contents names; None where it is another identifier.
    #[tactic(auto, unfolding(crate::specs::KeyAlgorithms::named_curve_of))]
    pub fn of(octets: &[u8]) -> Option<NamedCurve>
        ensures { result ≡ named_curve_of octets.now }
    {
        find_value(&NAMED_CURVES, octets)
    }

    /// Its name in the standards, as `secp256r1`.
    pub const fn word(&self) -> &'static str
        ensures { result.now ≡ named_curve_word self.now }
    {
        match self {
            NamedCurve::Secp192r1 => "secp192r1",
            NamedCurve::Secp224r1 => "secp224r1",
            NamedCurve::Secp256r1 => "secp256r1",
            NamedCurve::Secp384r1 => "secp384r1",
            NamedCurve::Secp521r1 => "secp521r1",
            NamedCurve::Secp256k1 => "secp256k1",
            NamedCurve::BrainpoolP256r1 => "brainpoolP256r1",
            NamedCurve::BrainpoolP384r1 => "brainpoolP384r1",
            NamedCurve::BrainpoolP512r1 => "brainpoolP512r1",
        }
    }

    /// The bits of a coordinate.
    pub const fn field_bits(&self) -> usize
        ensures { result ≡ field_bits self.now }
    {
        match self {
            NamedCurve::Secp192r1 => 192,
            NamedCurve::Secp224r1 => 224,
            NamedCurve::Secp256r1 | NamedCurve::Secp256k1 | NamedCurve::BrainpoolP256r1 => 256,
            NamedCurve::Secp384r1 | NamedCurve::BrainpoolP384r1 => 384,
            NamedCurve::BrainpoolP512r1 => 512,
            NamedCurve::Secp521r1 => 521,
        }
    }
}
