//! Validators one after the other.

ghost use Rattle.std.specs.Prelude.{◌≡◌};

use crate::logger::Logger;
use crate::validator::Validator;
use std::alloc::Global;
use x509_fields::X509Error;

/// Two validators of the same items, one after the other.
#[derive(Debug, Drop)]
pub struct ChainValidator<A, B> {
    first: A,
    second: B,
}

/// The validator that runs both, whatever the first answers: it logs the messages of the first and then those of the
/// second, and an item is sound where both say so.
pub fn chain<'a, A: Validator<'a>, B: Validator<'a, Item = A::Item>>(
    first: A,
    second: B,
) -> ChainValidator<A, B>
    ensures { result ≡ record { first = first; second = second } }
{
    ChainValidator { first, second }
}

impl<'a, A: Validator<'a>, B: Validator<'a, Item = A::Item>> Validator<'a>
    for ChainValidator<A, B> {
    ghost use Rattle.std.specs.Prelude.{◌++◌, ◌&&◌};

    type Item = A::Item;

    ghost messages = { λ v x. A.messages v.first x ++ B.messages v.second x };

    ghost answer = { λ v x. A.answer v.first x && B.answer v.second x };

    #[tactic(auto, using(crate::proofs::Logs::logging))]
    fn validate<L: Logger>(
        &self,
        alloc: Global,
        item: &A::Item,
        logger: &mut L,
    ) -> Result<bool, X509Error> {
        let first = self.first.validate(alloc, item, logger)?;
        let second = self.second.validate(alloc, item, logger)?;
        Ok(first && second)
    }
}
