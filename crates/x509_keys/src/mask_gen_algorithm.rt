//! Mask generation functions.

ghost use Rattle.std.specs.Prelude.{◌≡◌};
ghost use Rattle.x509_der.specs.Oid.{oid_bytes};
ghost use Rattle.x509_der.specs.Promises.{option_view};
ghost use Rattle.x509_der.specs.Reading.{Gives};
ghost use Rattle.x509_fields.specs.Algorithm.{algorithm_of};
ghost use Rattle.x509_keys.specs.MaskGenAlgorithm.{mask_gen_of, mask_gen_or_mgf1, hash_or_sha1};

use crate::public_key::first_place;
use x509_der::Oid;
use x509_fields::{AlgorithmIdentifier, X509Error};
use x509_names::OID_HASH_SHA1;

/// id-mgf1, 1.2.840.113549.1.1.8 (RFC 4055, section 2.2): the contents of the identifier.
const ID_MGF1: &[u8] = &[0x2a, 0x86, 0x48, 0x86, 0xf7, 0x0d, 0x01, 0x01, 0x08];

/// A mask generation function and its hash (RFC 4055, section 2.2).
#[derive(Debug, Drop, PartialEq, Eq)]
pub struct MaskGenAlgorithm<'a, 'b> {
    /// The identifier of the function: id-mgf1, 1.2.840.113549.1.1.8.
    pub mgf: Oid<'a>,
    /// The identifier of the hash that the function uses.
    pub hash: Oid<'b>,
}

impl<'a, 'b> MaskGenAlgorithm<'a, 'b> {
    /// The function with these identifiers.
    pub const fn new(mgf: Oid<'a>, hash: Oid<'b>) -> MaskGenAlgorithm<'a, 'b>
        ensures { mask_gen_of result ≡ record { mgf = oid_bytes mgf.entry; hash = oid_bytes hash.entry } }
    {
        MaskGenAlgorithm { mgf, hash }
    }
}

/// The identifier of a hash, or SHA-1 where none is given.
pub(crate) fn hash_or_default<'a>(given: &Option<AlgorithmIdentifier<'a>>) -> Oid<'a>
    ensures { oid_bytes result ≡ hash_or_sha1 (option_view algorithm_of given.now) }
{
    match given {
        Some(hash) => hash.algorithm,
        None => Oid::new(OID_HASH_SHA1),
    }
}

/// The mask generation function that is given, or id-mgf1 with SHA-1 where none is.
pub(crate) fn mask_gen_or_default<'a>(
    given: &Option<AlgorithmIdentifier<'a>>,
) -> Result<MaskGenAlgorithm<'a, 'a>, X509Error>
    ensures { Gives mask_gen_of result (mask_gen_or_mgf1 (option_view algorithm_of given.now)) }
{
    let Some(algorithm) = given else {
        return Ok(MaskGenAlgorithm::new(Oid::new(ID_MGF1), Oid::new(OID_HASH_SHA1)));
    };
    let Some(parameters) = algorithm.parameters else {
        return Err(X509Error::InvalidAlgorithmIdentifier);
    };
    match first_place(parameters.as_bytes()).oid() {
        Ok(hash) => Ok(MaskGenAlgorithm::new(algorithm.algorithm, hash)),
        Err(_) => Err(X509Error::InvalidAlgorithmIdentifier),
    }
}
