//! Which key an algorithm has.

ghost use Rattle.std.specs.Prelude.{◌≡◌};
ghost use Rattle.x509_keys.specs.KeyKinds.{kind_of};

use x509_names::{
    OID_GOST_R3410_2001, OID_KEY_TYPE_DSA, OID_KEY_TYPE_EC_PUBLIC_KEY,
    OID_KEY_TYPE_GOST_R3410_2012_256, OID_KEY_TYPE_GOST_R3410_2012_512, OID_PKCS1_RSAENCRYPTION,
};

/// The keys that are read, by the algorithm's identifier.
#[derive(Clone, Copy, Debug)]
pub(crate) enum KeyKind {
    RSA,
    EC,
    DSA,
    GostR3410,
    GostR3410_2012,
    Unknown,
}

impl KeyKind {
    /// The kind of key that the algorithm with this identifier has.
    #[tactic(auto, unfolding(crate::specs::KeyKinds::kind_of))]
    pub(crate) fn of(octets: &[u8]) -> KeyKind
        ensures { result ≡ kind_of octets.now }
    {
        if octets == OID_PKCS1_RSAENCRYPTION {
            KeyKind::RSA
        } else if octets == OID_KEY_TYPE_EC_PUBLIC_KEY {
            KeyKind::EC
        } else if octets == OID_KEY_TYPE_DSA {
            KeyKind::DSA
        } else if octets == OID_GOST_R3410_2001 {
            KeyKind::GostR3410
        } else if octets == OID_KEY_TYPE_GOST_R3410_2012_256 {
            KeyKind::GostR3410_2012
        } else if octets == OID_KEY_TYPE_GOST_R3410_2012_512 {
            KeyKind::GostR3410_2012
        } else {
            KeyKind::Unknown
        }
    }
}
