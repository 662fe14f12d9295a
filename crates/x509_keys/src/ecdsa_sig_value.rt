//! The signatures of ECDSA.

ghost use Rattle.x509_der.specs.Grammar.{borrows, in_sequence};
ghost use Rattle.x509_keys.specs.EcdsaSigValue.{EcdsaValue, ecdsa_value_of, ecdsa_sig_value, ecdsa_value_heads, ecdsa_sig_value_laws};

use std::alloc::Global;
use x509_der::{BerError, Fields, FromDer, Integer, Outside, Place, Refused, Tries};

/// The value of an ECDSA signature (RFC 3279, section 2.2.3).
///
/// ```text
/// Ecdsa-Sig-Value ::= SEQUENCE {
///     r  INTEGER,
///     s  INTEGER }
/// ```
///
/// Bytes behind the second number are skipped. A refusal is that of the first element that cannot be read: `Incomplete` where it
/// is cut short, `InvalidTag`, or `InvalidLength`.
#[derive(Debug, Drop, PartialEq, Eq)]
pub struct EcdsaSigValue<'a> {
    pub r: Integer<'a>,
    pub s: Integer<'a>,
}

impl<'a> FromDer<'a, BerError> for EcdsaSigValue<'a> {
    ghost Value = { EcdsaValue };

    ghost view = { ecdsa_value_of };

    ghost grammar = { in_sequence ecdsa_sig_value ecdsa_sig_value_laws ecdsa_value_heads borrows };

    #[tactic(auto, unfolding(crate::specs::EcdsaSigValue::ecdsa_sig_value), using(x509_der::proofs::Marking::marks_of_readers))]
    fn read_at<L: Outside>(
        _alloc: Global,
        tries: &mut Tries,
        place: &Place<'a, L>,
    ) -> Result<(Self, bool), Refused<BerError, L>> {
        let contents = place.sequence()?;
        let fields = Fields::of(tries, &contents);
        let (fields, r) = fields.integer(tries)?;
        let s = fields.place.integer()?;
        Ok((EcdsaSigValue { r, s }, fields.ends_here()))
    }

    ghost never_memory = { ecdsa_sig_value_laws.laws.never_memory };
}
