//! A part that is signed, with its signature.

ghost use Rattle.std.specs.Prelude.{◌≡◌, ◌≤◌, ◌+◌, ◌*◌, true, false, length, IfOk};
ghost use Rattle.x509_der.specs.Looks.{behind};
ghost use Rattle.x509_der.specs.Place.{at, outside_of};
ghost use Rattle.x509_der.specs.Primitives.{is_constructed, bit_string};
ghost use Rattle.x509_der.specs.Promises.{ReadsAt, ReadsLeaf};
ghost use Rattle.x509_der.specs.Reading.{strict};
ghost use Rattle.x509_fields.specs.Errors.{is_x509_memory};
ghost use Rattle.x509_fields.specs.Signed.{signed_of, signed_heads, signature_value, signed};

use crate::algorithm::AlgorithmIdentifier;
use crate::error::X509Error;
use crate::structure::sequence_at;
use std::alloc::Global;
use x509_der::{BitString, Fields, Outside, Place, Reader, Refused, Tries, named, ok};

/// A part that is signed, the algorithm of the signature and its bits.
///
/// ```text
/// SEQUENCE  {
///     tbs                 T,
///     signatureAlgorithm  AlgorithmIdentifier,
///     signatureValue      BIT STRING  }
/// ```
#[derive(Debug, Drop)]
pub struct Signed<'a, T> {
    /// The part that is signed.
    pub tbs: T,
    /// The algorithm of the signature.
    pub signature_algorithm: AlgorithmIdentifier<'a>,
    /// The bits of the signature.
    pub signature_value: BitString<'a>,
    /// The whole element, with its header.
    pub raw: &'a [u8],
}

/// Reads a signed structure at a place that was looked at, its part by this reader, and tells whether it stands plainly. Bits that
/// can't be read are `InvalidSignatureValue`.
#[inline(always)]
#[tactic(auto, unfolding(crate::specs::Signed::signed), using(x509_der::proofs::Marking::marks_of_readers))]
pub fn read_signed<'a, T: Drop, R: Reader<'a, X509Error, T>, L: Outside>(
    part: &R,
    alloc: Global,
    tries: &mut Tries,
    place: &Place<'a, L>,
) -> Result<(Signed<'a, T>, bool), Refused<X509Error, L>>
    ensures reads { ReadsAt is_x509_memory (R.grammar part.now).takes_memory strict (is_constructed 16) (signed_heads (R.grammar part.now).heads) (signed_of R.view) (signed (R.grammar part.now).plan)
        L.adds (at place.now) (outside_of place.now) tries.old tries.new result }
    ensures shallow { R.is_deep part.now ≡ false
        → IfOk result (λ x. tries.new + 9 + 8 * R.unread (R.view x.0.tbs) + 8 * length (behind (at place.now)) ≤ tries.old + 8 * length (at place.now)) }
{
    let contents = sequence_at(place)?;
    let first = Fields::of(tries, &contents);
    let (tbs, tbs_plain) = ok!(part.read_at(alloc, tries, &first.place));
    let fields = first.behind(tries, tbs_plain);
    let (fields, signature_algorithm) = match fields.field(alloc, tries) {
        Ok((fields, signature_algorithm)) => (fields, signature_algorithm),
        Err(e) => {
            let_go(tbs);
            return Err(e);
        }
    };
    let signature_value = match signature_value_at(&fields.place) {
        Ok(value) => value,
        Err(e) => {
            let_go(tbs);
            return Err(e);
        }
    };
    let bytes = place.bytes();
    let signed = Signed {
        tbs,
        signature_algorithm,
        signature_value,
        raw: &bytes[..bytes.len() - place.rest().len()],
    };
    Ok((signed, fields.ends_here()))
}

// Lets a part go at a place of its own. Else the part's own place would have an address, and what is accepted would be copied from
// there at each layer above.
#[inline(always)]
fn let_go<T: Drop>(_part: T) {}

/// The bits of a signature (RFC 5280, section 4.1.1.3).
///
/// # Errors
///
/// `InvalidSignatureValue` where no BIT STRING stands there.
#[inline(always)]
#[tactic(auto, unfolding(crate::specs::Signed::signature_value), using(x509_der::proofs::Marking::marks_of_readers))]
pub fn signature_value_at<'a, L: Outside>(
    place: &Place<'a, L>,
) -> Result<BitString<'a>, Refused<X509Error, L>>
    ensures reads { ReadsLeaf bit_string signature_value L.adds (at place.now) (outside_of place.now) result }
    ensures marks { signature_value.marks (at place.now) ≡ true }
{
    Ok(named!(place.bits(), X509Error::InvalidSignatureValue))
}
