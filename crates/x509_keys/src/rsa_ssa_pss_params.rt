//! Parameters of RSASSA-PSS.

ghost use Rattle.std.specs.Prelude.{◌≡◌, unwrap_or};
ghost use Rattle.x509_der.specs.Oid.{oid_bytes};
ghost use Rattle.x509_der.specs.Promises.{option_view};
ghost use Rattle.x509_der.specs.Reading.{Gives, element_of};
ghost use Rattle.x509_fields.specs.Algorithm.{algorithm_of};
ghost use Rattle.x509_keys.specs.MaskGenAlgorithm.{hash_or_sha1, mask_gen_of, mask_gen_or_mgf1};
ghost use Rattle.x509_keys.specs.Parameters.{ReadsFields, ReadsParameters, fields_of, parameters};
ghost use Rattle.x509_keys.specs.RsaSsaPssParams.{default_salt_length, default_trailer_field, pss_fields, pss_of};

use crate::mask_gen_algorithm::{MaskGenAlgorithm, hash_or_default, mask_gen_or_default};
use crate::parameters::{tagged_algorithm_at, tagged_u32_at};
use x509_der::{Any, BerError, Fields, Oid, Tag, Tries, Window};
use x509_fields::{AlgorithmIdentifier, X509Error};

/// The parameters of RSASSA-PSS (RFC 4055, section 3.1).
///
/// ```text
/// RSASSA-PSS-params  ::=  SEQUENCE  {
///     hashAlgorithm     [0] HashAlgorithm DEFAULT sha1Identifier,
///     maskGenAlgorithm  [1] MaskGenAlgorithm DEFAULT mgf1SHA1Identifier,
///     saltLength        [2] INTEGER DEFAULT 20,
///     trailerField      [3] INTEGER DEFAULT 1  }
/// ```
///
/// A field is absent where an element of another class or number stands in its place. Bytes behind the last field are skipped,
/// as are those behind a value in its tag. Nothing here takes memory.
#[derive(Debug, Drop, PartialEq)]
pub struct RsaSsaPssParams<'a> {
    hash_algorithm: Option<AlgorithmIdentifier<'a>>,
    mask_gen_algorithm: Option<AlgorithmIdentifier<'a>>,
    salt_length: Option<u32>,
    trailer_field: Option<u32>,
}

impl<'a> RsaSsaPssParams<'a> {
    /// The parameters that an element holds, as they stand in an [`AlgorithmIdentifier`]. Of its header only the number is
    /// looked at, which is that of a SEQUENCE.
    ///
    /// # Errors
    ///
    /// `Der(InvalidTag)` where the element has another number, or a field's tag is primitive; `Der(Incomplete)` where an element
    /// is cut short; `Der(InvalidLength)` where a length isn't in the fewest octets; `InvalidAlgorithmIdentifier` where an algorithm
    /// has no identifier; `Der(BerValueError)` where a number is below zero, above 4,294,967,295, or has no octet. The first
    /// field in reading order that cannot be read decides.
    pub fn try_from(value: Any<'a>) -> Result<RsaSsaPssParams<'a>, X509Error>
        ensures reads { Gives pss_of result (parameters pss_fields (element_of value.entry)) }
        ensures exact { ReadsParameters pss_of pss_fields (element_of value.entry) result }
    {
        pss_params(value.tag(), value.as_bytes())
    }

    /// The same of a borrowed element: see [`RsaSsaPssParams::try_from`].
    ///
    /// # Errors
    ///
    /// Those of [`RsaSsaPssParams::try_from`].
    pub fn try_from_ref(value: &Any<'a>) -> Result<RsaSsaPssParams<'a>, X509Error>
        ensures reads { Gives pss_of result (parameters pss_fields (element_of value.now)) }
        ensures exact { ReadsParameters pss_of pss_fields (element_of value.now) result }
    {
        pss_params(value.tag(), value.as_bytes())
    }

    /// The hash of the message, where one is given.
    pub fn hash_algorithm(&self) -> Option<&AlgorithmIdentifier<'a>>
        ensures { option_view (λ a. algorithm_of a.now) result ≡ (pss_of self.now).hash_algorithm }
    {
        self.hash_algorithm.as_ref()
    }

    /// The identifier of the hash of the message; SHA-1 where none is given.
    pub fn hash_algorithm_oid(&self) -> Oid<'a>
        ensures { oid_bytes result ≡ hash_or_sha1 (pss_of self.now).hash_algorithm }
    {
        hash_or_default(&self.hash_algorithm)
    }

    /// The mask generation function as it stands, where one is given.
    pub fn mask_gen_algorithm_raw(&self) -> Option<&AlgorithmIdentifier<'a>>
        ensures { option_view (λ a. algorithm_of a.now) result ≡ (pss_of self.now).mask_gen_algorithm }
    {
        self.mask_gen_algorithm.as_ref()
    }

    /// The mask generation function and its hash; id-mgf1 with SHA-1 where none is given.
    ///
    /// # Errors
    ///
    /// `InvalidAlgorithmIdentifier` where a function is given that has no parameters, or whose parameters' contents begin with
    /// no identifier.
    pub fn mask_gen_algorithm(&self) -> Result<MaskGenAlgorithm<'a, 'a>, X509Error>
        ensures { Gives mask_gen_of result (mask_gen_or_mgf1 (pss_of self.now).mask_gen_algorithm) }
    {
        mask_gen_or_default(&self.mask_gen_algorithm)
    }

    /// The length of the salt in bytes; 20 where none is given.
    pub fn salt_length(&self) -> u32
        ensures { result ≡ unwrap_or (pss_of self.now).salt_length default_salt_length }
    {
        self.salt_length.unwrap_or(20)
    }

    /// The number of the trailer field; 1, the only one that the standard has (RFC 4055, section 3.1), where none is given.
    pub fn trailer_field(&self) -> u32
        ensures { result ≡ unwrap_or (pss_of self.now).trailer_field default_trailer_field }
    {
        self.trailer_field.unwrap_or(1)
    }
}

/// The parameters in an element with this number and these contents.
fn pss_params<'a>(tag: Tag, contents: &'a [u8]) -> Result<RsaSsaPssParams<'a>, X509Error>
    ensures reads { Gives pss_of result (fields_of pss_fields tag.0 contents.now) }
    ensures exact { ReadsFields pss_of pss_fields tag.0 contents.now result }
{
    read_fields(tag, contents)
}

#[tactic(auto, unfolding(crate::specs::RsaSsaPssParams::pss_fields))]
fn read_fields<'a>(tag: Tag, contents: &'a [u8]) -> Result<RsaSsaPssParams<'a>, X509Error>
    ensures { Gives pss_of result (fields_of pss_fields tag.0 contents.now) }
{
    if tag != Tag::Sequence {
        return Err(X509Error::Der(BerError::InvalidTag));
    }
    let mut tries = Tries::new();
    let fields = Fields::of(&mut tries, &Window::whole(contents));
    let (fields, hash_algorithm) = tagged_algorithm_at(&fields, &mut tries, 0)?;
    let (fields, mask_gen_algorithm) = tagged_algorithm_at(&fields, &mut tries, 1)?;
    let (fields, salt_length) = tagged_u32_at(&fields, &mut tries, 2)?;
    let (_, trailer_field) = tagged_u32_at(&fields, &mut tries, 3)?;
    Ok(RsaSsaPssParams {
        hash_algorithm,
        mask_gen_algorithm,
        salt_length,
        trailer_field,
    })
}
