//! Algorithms.

ghost use Rattle.std.specs.Prelude.{◌≡◌};
ghost use Rattle.x509_der.specs.Grammar.{borrows, in_sequence};
ghost use Rattle.x509_der.specs.Oid.{oid_bytes};
ghost use Rattle.x509_der.specs.Leaves.{sequence};
ghost use Rattle.x509_der.specs.Promises.{option_view, OneTryEach};
ghost use Rattle.x509_der.specs.Reading.{element_of};
ghost use Rattle.x509_fields.specs.Algorithm.{Algorithm, algorithm_of, algorithm_heads, algorithm, algorithm_laws};

use crate::error::X509Error;
use crate::structure::sequence_at;
use std::alloc::Global;
use x509_der::{Any, Fields, FromDer, Oid, Outside, Place, Refused, Tries, named};

/// An algorithm and its parameters, where they stand (RFC 5280, section 4.1.1.2).
///
/// ```text
/// AlgorithmIdentifier  ::=  SEQUENCE  {
///     algorithm   OBJECT IDENTIFIER,
///     parameters  ANY DEFINED BY algorithm OPTIONAL  }
/// ```
///
/// Parameters that cannot be read are absent.
#[derive(Clone, Copy, Debug, PartialEq)]
pub struct AlgorithmIdentifier<'a> {
    pub algorithm: Oid<'a>,
    pub parameters: Option<Any<'a>>,
}

impl<'a> AlgorithmIdentifier<'a> {
    /// The algorithm with this identifier and these parameters.
    pub const fn new(algorithm: Oid<'a>, parameters: Option<Any<'a>>) -> AlgorithmIdentifier<'a>
        ensures { algorithm_of result ≡ record { algorithm = oid_bytes algorithm.entry; parameters = option_view element_of parameters.entry } }
    {
        AlgorithmIdentifier {
            algorithm,
            parameters,
        }
    }

    /// The identifier.
    pub const fn oid(&self) -> &Oid<'a>
        ensures { oid_bytes result.now ≡ (algorithm_of self.now).algorithm }
    {
        &self.algorithm
    }

    /// The parameters, where they stand and can be read.
    pub fn parameters(&self) -> Option<&Any<'a>>
        ensures { option_view (λ any. element_of any.now) result ≡ (algorithm_of self.now).parameters }
    {
        self.parameters.as_ref()
    }
}

impl<'a> FromDer<'a, X509Error> for AlgorithmIdentifier<'a> {
    ghost Value = { Algorithm };

    ghost view = { algorithm_of };

    ghost grammar = { in_sequence algorithm algorithm_laws algorithm_heads borrows };

    ghost tight = { OneTryEach sequence };

    #[inline(always)]
    #[tactic(auto, unfolding(crate::specs::Algorithm::algorithm), using(x509_der::proofs::Marking::marks_of_readers))]
    fn read_at<L: Outside>(
        _alloc: Global,
        tries: &mut Tries,
        place: &Place<'a, L>,
    ) -> Result<(Self, bool), Refused<X509Error, L>> {
        let contents = sequence_at(place)?;
        let fields = Fields::of(tries, &contents);
        let (fields, algorithm) = named!(fields.oid(tries), X509Error::InvalidAlgorithmIdentifier);
        let (parameters, plain) = match fields.place.any() {
            Ok(any) => (Some(any), fields.ends_here()),
            Err(_) => (None, fields.are_plain()),
        };
        let identifier = AlgorithmIdentifier {
            algorithm,
            parameters,
        };
        Ok((identifier, plain))
    }

    ghost never_memory = { algorithm_laws.laws.never_memory };
}
