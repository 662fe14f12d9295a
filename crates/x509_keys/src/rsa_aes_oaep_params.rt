//! Parameters of RSAES-OAEP.

ghost use Rattle.std.specs.Prelude.{◌≡◌, unwrap_or};
ghost use Rattle.x509_der.specs.Oid.{oid_bytes};
ghost use Rattle.x509_der.specs.Promises.{option_view};
ghost use Rattle.x509_der.specs.Reading.{Gives, element_of};
ghost use Rattle.x509_fields.specs.Algorithm.{algorithm_of};
ghost use Rattle.x509_keys.specs.MaskGenAlgorithm.{hash_or_sha1, mask_gen_of, mask_gen_or_mgf1};
ghost use Rattle.x509_keys.specs.Parameters.{ReadsFields, ReadsParameters, fields_of, parameters};
ghost use Rattle.x509_keys.specs.RsaAesOaepParams.{oaep_fields, oaep_of, p_specified_empty};

use crate::mask_gen_algorithm::{MaskGenAlgorithm, hash_or_default, mask_gen_or_default};
use crate::parameters::tagged_algorithm_at;
use x509_der::{Any, BerError, Fields, Oid, Tag, Tries, Window};
use x509_fields::{AlgorithmIdentifier, X509Error};

/// id-pSpecified, 1.2.840.113549.1.1.9 (RFC 4055, section 4.1): the contents of the identifier.
const ID_P_SPECIFIED: &[u8] = &[0x2a, 0x86, 0x48, 0x86, 0xf7, 0x0d, 0x01, 0x01, 0x09];

/// The parameters of RSAES-OAEP (RFC 4055, section 4.1).
///
/// ```text
/// RSAES-OAEP-params  ::=  SEQUENCE  {
///     hashFunc     [0] AlgorithmIdentifier DEFAULT sha1Identifier,
///     maskGenFunc  [1] AlgorithmIdentifier DEFAULT mgf1SHA1Identifier,
///     pSourceFunc  [2] AlgorithmIdentifier DEFAULT pSpecifiedEmptyIdentifier  }
/// ```
///
/// A field is absent where an element of another class or number stands in its place. Bytes behind the last field are skipped,
/// as are those behind an algorithm in its tag. Nothing here takes memory.
#[derive(Debug, Drop, PartialEq)]
pub struct RsaAesOaepParams<'a> {
    hash_algorithm: Option<AlgorithmIdentifier<'a>>,
    mask_gen_algorithm: Option<AlgorithmIdentifier<'a>>,
    p_source_alg: Option<AlgorithmIdentifier<'a>>,
}

impl<'a> RsaAesOaepParams<'a> {
    /// The source of the label where none is given: id-pSpecified without parameters, for an empty label.
    pub fn empty() -> AlgorithmIdentifier<'a>
        ensures { algorithm_of result ≡ p_specified_empty }
    {
        AlgorithmIdentifier::new(Oid::new(ID_P_SPECIFIED), None)
    }

    /// The parameters that an element holds, as they stand in an [`AlgorithmIdentifier`]. Of its header only the number is
    /// looked at, which is that of a SEQUENCE.
    ///
    /// # Errors
    ///
    /// `Der(InvalidTag)` where the element has another number, or a field's tag is primitive; `Der(Incomplete)` where an element
    /// is cut short; `Der(InvalidLength)` where a length isn't in the fewest octets; `InvalidAlgorithmIdentifier` where an algorithm
    /// has no identifier. The first field in reading order that cannot be read decides.
    pub fn try_from(value: Any<'a>) -> Result<RsaAesOaepParams<'a>, X509Error>
        ensures reads { Gives oaep_of result (parameters oaep_fields (element_of value.entry)) }
        ensures exact { ReadsParameters oaep_of oaep_fields (element_of value.entry) result }
    {
        oaep_params(value.tag(), value.as_bytes())
    }

    /// The same of a borrowed element: see [`RsaAesOaepParams::try_from`].
    ///
    /// # Errors
    ///
    /// Those of [`RsaAesOaepParams::try_from`].
    pub fn try_from_ref(value: &Any<'a>) -> Result<RsaAesOaepParams<'a>, X509Error>
        ensures reads { Gives oaep_of result (parameters oaep_fields (element_of value.now)) }
        ensures exact { ReadsParameters oaep_of oaep_fields (element_of value.now) result }
    {
        oaep_params(value.tag(), value.as_bytes())
    }

    /// The hash of the label, where one is given.
    pub fn hash_algorithm(&self) -> Option<&AlgorithmIdentifier<'a>>
        ensures { option_view (λ a. algorithm_of a.now) result ≡ (oaep_of self.now).hash_algorithm }
    {
        self.hash_algorithm.as_ref()
    }

    /// The identifier of the hash of the label; SHA-1 where none is given.
    pub fn hash_algorithm_oid(&self) -> Oid<'a>
        ensures { oid_bytes result ≡ hash_or_sha1 (oaep_of self.now).hash_algorithm }
    {
        hash_or_default(&self.hash_algorithm)
    }

    /// The mask generation function as it stands, where one is given.
    pub fn mask_gen_algorithm_raw(&self) -> Option<&AlgorithmIdentifier<'a>>
        ensures { option_view (λ a. algorithm_of a.now) result ≡ (oaep_of self.now).mask_gen_algorithm }
    {
        self.mask_gen_algorithm.as_ref()
    }

    /// The mask generation function and its hash; id-mgf1 with SHA-1 where none is given.
    ///
    /// # Errors
    ///
    /// `InvalidAlgorithmIdentifier` where a function is given that has no parameters, or whose parameters' contents begin with
    /// no identifier.
    pub fn mask_gen_algorithm(&self) -> Result<MaskGenAlgorithm<'a, 'a>, X509Error>
        ensures { Gives mask_gen_of result (mask_gen_or_mgf1 (oaep_of self.now).mask_gen_algorithm) }
    {
        mask_gen_or_default(&self.mask_gen_algorithm)
    }

    /// The source of the label; [`RsaAesOaepParams::empty`] where none is given.
    pub fn p_source_alg(&self) -> AlgorithmIdentifier<'a>
        ensures { algorithm_of result ≡ unwrap_or (oaep_of self.now).p_source_alg p_specified_empty }
    {
        match self.p_source_alg {
            Some(source) => source,
            None => RsaAesOaepParams::empty(),
        }
    }
}

/// The parameters in an element with this number and these contents.
fn oaep_params<'a>(tag: Tag, contents: &'a [u8]) -> Result<RsaAesOaepParams<'a>, X509Error>
    ensures reads { Gives oaep_of result (fields_of oaep_fields tag.0 contents.now) }
    ensures exact { ReadsFields oaep_of oaep_fields tag.0 contents.now result }
{
    read_fields(tag, contents)
}

#[tactic(auto, unfolding(crate::specs::RsaAesOaepParams::oaep_fields))]
fn read_fields<'a>(tag: Tag, contents: &'a [u8]) -> Result<RsaAesOaepParams<'a>, X509Error>
    ensures { Gives oaep_of result (fields_of oaep_fields tag.0 contents.now) }
{
    if tag != Tag::Sequence {
        return Err(X509Error::Der(BerError::InvalidTag));
    }
    let mut tries = Tries::new();
    let fields = Fields::of(&mut tries, &Window::whole(contents));
    let (fields, hash_algorithm) = tagged_algorithm_at(&fields, &mut tries, 0)?;
    let (fields, mask_gen_algorithm) = tagged_algorithm_at(&fields, &mut tries, 1)?;
    let (_, p_source_alg) = tagged_algorithm_at(&fields, &mut tries, 2)?;
    Ok(RsaAesOaepParams {
        hash_algorithm,
        mask_gen_algorithm,
        p_source_alg,
    })
}
