//! Whether a subject is a certification authority, and how long the paths below it may be.

ghost use Rattle.std.specs.Prelude.{false};
ghost use Rattle.x509_der.specs.Grammar.{borrows, in_sequence};
ghost use Rattle.x509_der.specs.Leaves.{sequence};
ghost use Rattle.x509_der.specs.Promises.{OneTryEach};
ghost use Rattle.x509_values.specs.BasicConstraints.{BasicConstraintsValue, basic_constraints_of, basic_constraints, basic_constraints_heads};
ghost use Rattle.x509_values.specs.BasicConstraints.{basic_constraints_laws};

use std::alloc::Global;
use x509_der::{BerError, Err, Fields, FromDer, Outside, Place, Refused, Tries};
use x509_fields::{X509Error, sequence_at};

/// Whether the subject is a certification authority, and how long the paths below it may be (RFC 5280, section 4.2.1.9).
///
/// ```text
/// BasicConstraints ::= SEQUENCE {
///     cA                 BOOLEAN DEFAULT FALSE,
///     pathLenConstraint  INTEGER (0..MAX) OPTIONAL }
/// ```
///
/// Nothing else may stand in the SEQUENCE, and the number has at most 32 bits: other contents are refused as `BerValueError`,
/// also those that are cut short.
#[derive(Clone, Copy, Debug, PartialEq, Eq)]
pub struct BasicConstraints {
    /// Whether the subject is a certification authority; false where nothing is said.
    pub ca: bool,
    /// How many more certificates of authorities may follow in a path.
    pub path_len_constraint: Option<u32>,
}

impl<'a> FromDer<'a, X509Error> for BasicConstraints {
    ghost Value = { BasicConstraintsValue };

    ghost view = { basic_constraints_of };

    ghost grammar = { in_sequence basic_constraints basic_constraints_laws basic_constraints_heads borrows };

    ghost tight = { OneTryEach sequence };

    #[tactic(auto, unfolding(crate::specs::BasicConstraints::basic_constraints, crate::specs::BasicConstraints::basic_constraints_fields), using(x509_der::proofs::Marking::marks_of_readers))]
    fn read_at<L: Outside>(
        _alloc: Global,
        tries: &mut Tries,
        place: &Place<'a, L>,
    ) -> Result<(Self, bool), Refused<X509Error, L>> {
        let contents = sequence_at(place)?;
        let fields = Fields::of(tries, &contents);
        let (fields, ca) = fields.soft_bool(tries);
        let (fields, path_len_constraint) = fields.soft_u32(tries);
        if !fields.are_over() {
            return Err(
                fields
                    .place
                    .refuse(Err::Error(X509Error::Der(BerError::BerValueError))),
            );
        }
        let constraints = BasicConstraints {
            ca: ca.unwrap_or(false),
            path_len_constraint,
        };
        Ok((constraints, true))
    }

    ghost never_memory = { basic_constraints_laws.laws.never_memory };
}
