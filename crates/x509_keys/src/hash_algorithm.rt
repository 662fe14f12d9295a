//! The hashes that signatures are over.

ghost use Rattle.std.specs.Prelude.{◌≡◌};
ghost use Rattle.x509_fields.specs.Algorithm.{algorithm_of};
ghost use Rattle.x509_keys.specs.HashAlgorithms.{hash_algorithm_of, hash_word, hash_signed, signed_hash_of};

use crate::rows::{Row, find_value};
use crate::rsa_ssa_pss_params::RsaSsaPssParams;
use x509_fields::AlgorithmIdentifier;
use x509_names::{
    OID_HASH_SHA1, OID_PKCS1_RSASSAPSS, OID_PKCS1_SHA1WITHRSA, OID_PKCS1_SHA256WITHRSA,
    OID_SIG_ECDSA_WITH_SHA256,
};

/// A hash function.
#[derive(Clone, Copy, Debug, PartialEq, Eq)]
pub enum HashAlgorithm {
    /// MD2 (RFC 1319).
    Md2,
    /// MD5 (RFC 1321).
    Md5,
    /// SHA-1 (FIPS 180-4).
    Sha1,
    /// SHA-224 (FIPS 180-4).
    Sha224,
    /// SHA-256 (FIPS 180-4).
    Sha256,
    /// SHA-384 (FIPS 180-4).
    Sha384,
    /// SHA-512 (FIPS 180-4).
    Sha512,
    /// SHA-512/224 (FIPS 180-4).
    Sha512_224,
    /// SHA-512/256 (FIPS 180-4).
    Sha512_256,
}

const HASHES: [Row<HashAlgorithm>; 9] = [
    (
        &[0x2a, 0x86, 0x48, 0x86, 0xf7, 0x0d, 0x02, 0x02],
        HashAlgorithm::Md2,
    ),
    (
        &[0x2a, 0x86, 0x48, 0x86, 0xf7, 0x0d, 0x02, 0x05],
        HashAlgorithm::Md5,
    ),
    (OID_HASH_SHA1, HashAlgorithm::Sha1),
    (
        &[0x60, 0x86, 0x48, 0x01, 0x65, 0x03, 0x04, 0x02, 0x04],
        HashAlgorithm::Sha224,
    ),
    (
        &[0x60, 0x86, 0x48, 0x01, 0x65, 0x03, 0x04, 0x02, 0x01],
        HashAlgorithm::Sha256,
    ),
    (
        &[0x60, 0x86, 0x48, 0x01, 0x65, 0x03, 0x04, 0x02, 0x02],
        HashAlgorithm::Sha384,
    ),
    (
        &[0x60, 0x86, 0x48, 0x01, 0x65, 0x03, 0x04, 0x02, 0x03],
        HashAlgorithm::Sha512,
    ),
    (
        &[0x60, 0x86, 0x48, 0x01, 0x65, 0x03, 0x04, 0x02, 0x05],
        HashAlgorithm::Sha512_224,
    ),
    (
        &[0x60, 0x86, 0x48, 0x01, 0x65, 0x03, 0x04, 0x02, 0x06],
        HashAlgorithm::Sha512_256,
    ),
];

const SIGNED_HASHES: [Row<HashAlgorithm>; 17] = [
    (
        &[0x2a, 0x86, 0x48, 0x86, 0xf7, 0x0d, 0x01, 0x01, 0x02],
        HashAlgorithm::Md2,
    ),
    (
        &[0x2a, 0x86, 0x48, 0x86, 0xf7, 0x0d, 0x01, 0x01, 0x04],
        HashAlgorithm::Md5,
    ),
    (OID_PKCS1_SHA1WITHRSA, HashAlgorithm::Sha1),
    (OID_PKCS1_SHA256WITHRSA, HashAlgorithm::Sha256),
    (
        &[0x2a, 0x86, 0x48, 0x86, 0xf7, 0x0d, 0x01, 0x01, 0x0c],
        HashAlgorithm::Sha384,
    ),
    (
        &[0x2a, 0x86, 0x48, 0x86, 0xf7, 0x0d, 0x01, 0x01, 0x0d],
        HashAlgorithm::Sha512,
    ),
    (
        &[0x2a, 0x86, 0x48, 0x86, 0xf7, 0x0d, 0x01, 0x01, 0x0e],
        HashAlgorithm::Sha224,
    ),
    (
        &[0x2a, 0x86, 0x48, 0x86, 0xf7, 0x0d, 0x01, 0x01, 0x0f],
        HashAlgorithm::Sha512_224,
    ),
    (
        &[0x2a, 0x86, 0x48, 0x86, 0xf7, 0x0d, 0x01, 0x01, 0x10],
        HashAlgorithm::Sha512_256,
    ),
    (
        &[0x2a, 0x86, 0x48, 0xce, 0x3d, 0x04, 0x01],
        HashAlgorithm::Sha1,
    ),
    (
        &[0x2a, 0x86, 0x48, 0xce, 0x3d, 0x04, 0x03, 0x01],
        HashAlgorithm::Sha224,
    ),
    (OID_SIG_ECDSA_WITH_SHA256, HashAlgorithm::Sha256),
    (
        &[0x2a, 0x86, 0x48, 0xce, 0x3d, 0x04, 0x03, 0x03],
        HashAlgorithm::Sha384,
    ),
    (
        &[0x2a, 0x86, 0x48, 0xce, 0x3d, 0x04, 0x03, 0x04],
        HashAlgorithm::Sha512,
    ),
    (
        &[0x2a, 0x86, 0x48, 0xce, 0x38, 0x04, 0x03],
        HashAlgorithm::Sha1,
    ),
    (
        &[0x60, 0x86, 0x48, 0x01, 0x65, 0x03, 0x04, 0x03, 0x01],
        HashAlgorithm::Sha224,
    ),
    (
        &[0x60, 0x86, 0x48, 0x01, 0x65, 0x03, 0x04, 0x03, 0x02],
        HashAlgorithm::Sha256,
    ),
];

impl HashAlgorithm {
    /// The hash with this identifier's contents; None where it is another identifier.
    #[tactic(auto, unfolding(crate::specs::HashAlgorithms::hash_algorithm_of))]
    pub fn of(octets: &[u8]) -> Option<HashAlgorithm>
        ensures { result ≡ hash_algorithm_of octets.now }
    {
        find_value(&HASHES, octets)
    }

    /// The hash that signatures of the algorithm with this identifier are over, where the identifier tells it.
    #[tactic(auto, unfolding(crate::specs::HashAlgorithms::signed_hash_of))]
    fn signed_by(octets: &[u8]) -> Option<HashAlgorithm>
        ensures { result ≡ signed_hash_of octets.now }
    {
        find_value(&SIGNED_HASHES, octets)
    }

    /// Its name, for keys and columns: `md2`, `md5`, `sha1`, `sha224`, `sha256`, `sha384`, `sha512`, `sha512_224`, `sha512_256`.
    pub const fn word(&self) -> &'static str
        ensures { result.now ≡ hash_word self.now }
    {
        match self {
            HashAlgorithm::Md2 => "md2",
            HashAlgorithm::Md5 => "md5",
            HashAlgorithm::Sha1 => "sha1",
            HashAlgorithm::Sha224 => "sha224",
            HashAlgorithm::Sha256 => "sha256",
            HashAlgorithm::Sha384 => "sha384",
            HashAlgorithm::Sha512 => "sha512",
            HashAlgorithm::Sha512_224 => "sha512_224",
            HashAlgorithm::Sha512_256 => "sha512_256",
        }
    }
}

/// The hash that signatures of this algorithm are over (RFC 8017, appendix C; RFC 5758, sections 3.1 and 3.2; RFC 3279, sections 2.2.1 to
/// 2.2.3). That of RSASSA-PSS stands in the parameters, SHA-1 where they leave it out (RFC 4055, section 3.1).
///
/// None where the algorithm names no hash, as Ed25519, or isn't known, and where RSASSA-PSS stands without parameters or with such as
/// can't be read.
pub fn signature_hash(algorithm: &AlgorithmIdentifier<'_>) -> Option<HashAlgorithm>
    ensures { result ≡ hash_signed (algorithm_of algorithm.now) }
{
    let octets = algorithm.algorithm.as_bytes();
    if octets != OID_PKCS1_RSASSAPSS {
        return HashAlgorithm::signed_by(octets);
    }
    let Some(given) = algorithm.parameters else {
        return None;
    };
    match RsaSsaPssParams::try_from(given) {
        Ok(params) => HashAlgorithm::of(params.hash_algorithm_oid().as_bytes()),
        Err(_) => None,
    }
}
