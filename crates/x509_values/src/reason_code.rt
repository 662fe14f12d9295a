//! Why a certificate was revoked, as the extension of an entry says it.

ghost use Rattle.std.specs.Prelude.{ℕ};
ghost use Rattle.x509_der.specs.Grammar.{in_primitive};
ghost use Rattle.x509_values.specs.ReasonCode.{reason_code_of, reason_code, reason_code_laws};

use std::alloc::Global;
use x509_der::{BerError, Err, FromDer, Outside, Place, Refused, Tries, converted};
use x509_fields::{ReasonCode, X509Error};

/// Why a certificate was revoked, as the extension of an entry says it (RFC 5280, section 5.3.1).
///
/// ```text
/// CRLReason ::= ENUMERATED {
///     unspecified           (0),
///     keyCompromise         (1),
///     cACompromise          (2),
///     affiliationChanged    (3),
///     superseded            (4),
///     cessationOfOperation  (5),
///     certificateHold       (6),
///     removeFromCRL         (8),
///     privilegeWithdrawn    (9),
///     aACompromise         (10) }
/// ```
///
/// The number 7, which has no name, is read too. A number above 10 is refused as `BerValueError`.
#[derive(Clone, Copy, Debug, PartialEq, Eq)]
pub struct ReasonCodeValue(pub ReasonCode);

impl<'a> FromDer<'a, X509Error> for ReasonCodeValue {
    ghost Value = { ℕ };

    ghost view = { reason_code_of };

    ghost grammar = { in_primitive 10 reason_code reason_code_laws };

    #[tactic(auto, unfolding(crate::specs::ReasonCode::reason_code, crate::specs::ReasonCode::reason_number, x509_der::specs::Leaves::enumerated, x509_der::specs::Primitives::contents_at), using(x509_der::proofs::Marking::marks_of_readers))]
    fn read_at<L: Outside>(
        _alloc: Global,
        _tries: &mut Tries,
        place: &Place<'a, L>,
    ) -> Result<(Self, bool), Refused<X509Error, L>> {
        let number = converted!(place.enumerated());
        match u8::try_from(number) {
            Ok(code @ 0..=10) => Ok((ReasonCodeValue(ReasonCode(code)), true)),
            _ => Err(place.refuse(Err::Error(X509Error::Der(BerError::BerValueError)))),
        }
    }

    ghost never_memory = { reason_code_laws.laws.never_memory };
}
