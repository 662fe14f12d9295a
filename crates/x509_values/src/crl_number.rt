//! The number of a list of revoked certificates.

ghost use Rattle.std.specs.Prelude.{ℕ, List};
ghost use Rattle.x509_der.specs.Grammar.{in_primitive};
ghost use Rattle.x509_values.specs.CrlNumber.{crl_number_of, crl_number, crl_number_laws};

use std::alloc::Global;
use x509_der::{FromDer, Outside, Place, Refused, Tries, UnsignedBytes, converted};
use x509_fields::X509Error;

/// The number of a list of revoked certificates, which grows from list to list (RFC 5280, section 5.2.3).
///
/// ```text
/// CRLNumber ::= INTEGER (0..MAX)
/// ```
///
/// It may have any size. A number below zero and no octets at all are refused as `BerValueError`; leading zeros are ignored.
#[derive(Clone, Copy, Debug, PartialEq, Eq)]
pub struct CRLNumber<'a>(pub UnsignedBytes<'a>);

impl<'a> FromDer<'a, X509Error> for CRLNumber<'a> {
    ghost Value = { List ℕ };

    ghost view = { crl_number_of };

    ghost grammar = { in_primitive 2 crl_number crl_number_laws };

    #[tactic(auto, unfolding(crate::specs::CrlNumber::crl_number, x509_der::specs::Leaves::unsigned, x509_der::specs::Primitives::contents_at), using(x509_der::proofs::Marking::marks_of_readers))]
    fn read_at<L: Outside>(
        _alloc: Global,
        _tries: &mut Tries,
        place: &Place<'a, L>,
    ) -> Result<(Self, bool), Refused<X509Error, L>> {
        let number = converted!(place.unsigned());
        Ok((CRLNumber(number), true))
    }

    ghost never_memory = { crl_number_laws.laws.never_memory };
}
