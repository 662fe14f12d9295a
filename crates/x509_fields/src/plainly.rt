//! Reading what stands plainly alone.

ghost use Rattle.std.specs.Prelude.{◌≡◌, true};
ghost use Rattle.x509_der.specs.declared.error.Err.TheVariants.{Error};
ghost use Rattle.x509_der.proofs.Marked.{plain_only_lawful, plain_only_marked, plain_only_never_memory};
ghost use Rattle.x509_der.specs.Plan.{got, plain_only};
ghost use Rattle.x509_fields.specs.declared.error.X509Error.TheVariants as x509;
ghost use Rattle.x509_der.proofs.Strict.{taken_loosely};

use crate::error::X509Error;
use std::alloc::Global;
use x509_der::{Err, FromDer, Outside, Place, Reader, Refused, Tries, ok};

/// Reads values of a type where they stand plainly, by no rule that is looser than the standard. One that doesn't is
/// `Error(Generic)`.
#[derive(Clone, Copy, Debug)]
pub struct Plainly;

impl<'a, T: FromDer<'a, X509Error> + Drop> Reader<'a, X509Error, T> for Plainly {
    ghost use Rattle.x509_fields.specs.Errors.{is_x509_memory};

    ghost Value = { T.Value };

    ghost view = { T.view };

    ghost grammar = { λ _. record {
      plan = plain_only (Error x509.Generic) T.grammar.plan;
      lawful = plain_only_lawful (Error x509.Generic) T.grammar.plan T.grammar.lawful T.grammar.marked;
      marked = plain_only_marked (Error x509.Generic) T.grammar.plan T.grammar.lawful T.grammar.marked;
      form = T.grammar.form;
      own_tag = T.grammar.own_tag;
      heads = T.grammar.heads;
      takes_memory = T.grammar.takes_memory;
    } };

    ghost unread = { λ _. 0 };

    // What is taken is a sentence of the type's grammar, with the same value.
    ghost stands = { λ _ bytes value rest. T.grammar.plan.read bytes ≡ got value rest };

    ghost stands_where = { λ _ bytes value rest _ read. taken_loosely true (Error x509.Generic) T.grammar.plan bytes value rest read };

    ghost refused_where = { λ _ _ _ _ _ _. tt };

    fn read_at<L: Outside>(
        &self,
        alloc: Global,
        tries: &mut Tries,
        place: &Place<'a, L>,
    ) -> Result<(T, bool), Refused<X509Error, L>> {
        let (value, plain) = ok!(T::read_at(alloc, tries, place));
        if !plain {
            return Err(place.refuse(Err::Error(X509Error::Generic)));
        }
        Ok((value, plain))
    }

    ghost never_memory = { λ _. plain_only_never_memory is_x509_memory x509.Generic T.grammar.plan T.never_memory };
}
