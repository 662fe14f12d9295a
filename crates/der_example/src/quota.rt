//! Two numbers that may be absent, and nothing behind them.

ghost use Rattle.x509_der.specs.Grammar.{borrows, in_sequence};
ghost use Rattle.x509_der.specs.Leaves.{sequence};
ghost use Rattle.x509_der.specs.Promises.{OneTryEach};
ghost use Rattle.der_example.specs.Quota.{QuotaValue, quota_of, quota, quota_heads, quota_laws};

use std::alloc::Global;
use x509_der::{BerError, Err, ErrorKind, Fields, FromDer, Outside, Place, Refused, Tries};

/// How many each may have, and all together.
#[derive(Clone, Copy, Debug, PartialEq, Eq)]
pub struct Quota {
    pub each: Option<u32>,
    pub all: Option<u32>,
}

impl<'a> FromDer<'a, BerError> for Quota {
    ghost Value = { QuotaValue };

    ghost view = { quota_of };

    ghost grammar = { in_sequence quota quota_laws quota_heads borrows };

    ghost tight = { OneTryEach sequence };

    #[tactic(auto, unfolding(crate::specs::Quota::quota), using(x509_der::proofs::Marking::marks_of_readers))]
    fn read_at<L: Outside>(
        _alloc: Global,
        tries: &mut Tries,
        place: &Place<'a, L>,
    ) -> Result<(Self, bool), Refused<BerError, L>> {
        let contents = place.sequence()?;
        let fields = Fields::of(tries, &contents);
        let (fields, each) = fields.soft_implicit_u32(tries, 0);
        let (fields, all) = fields.soft_implicit_u32(tries, 1);
        if !fields.are_over() {
            return Err(
                fields
                    .place
                    .refuse(Err::Error(BerError::NomError(ErrorKind::Eof))),
            );
        }
        Ok((Quota { each, all }, true))
    }

    ghost never_memory = { quota_laws.laws.never_memory };
}
