//! From where on a path needs a policy, and from where on policies may not be mapped.

ghost use Rattle.x509_der.specs.Grammar.{borrows, in_sequence};
ghost use Rattle.x509_der.specs.Leaves.{sequence};
ghost use Rattle.x509_der.specs.Promises.{OneTryEach};
ghost use Rattle.x509_values.specs.PolicyConstraints.{PolicyConstraintsValue, policy_constraints_of, policy_constraints, policy_constraints_heads};
ghost use Rattle.x509_values.specs.PolicyConstraints.{policy_constraints_laws};

use std::alloc::Global;
use x509_der::{BerError, Err, ErrorKind, Fields, FromDer, Outside, Place, Refused, Tries};
use x509_fields::{X509Error, sequence_at};

/// From where on a path needs a policy, and from where on policies may not be mapped (RFC 5280, section 4.2.1.11).
///
/// ```text
/// PolicyConstraints ::= SEQUENCE {
///     requireExplicitPolicy  [0] SkipCerts OPTIONAL,
///     inhibitPolicyMapping   [1] SkipCerts OPTIONAL }
///
/// SkipCerts ::= INTEGER (0..MAX)
/// ```
///
/// A number has at most 32 bits. Bytes behind the last number that can be read are refused as `NomError(Eof)`.
#[derive(Clone, Copy, Debug, PartialEq, Eq)]
pub struct PolicyConstraints {
    /// How many more certificates may stand in the path before each needs a policy.
    pub require_explicit_policy: Option<u32>,
    /// How many more certificates may stand in the path before policies may not be mapped.
    pub inhibit_policy_mapping: Option<u32>,
}

impl<'a> FromDer<'a, X509Error> for PolicyConstraints {
    ghost Value = { PolicyConstraintsValue };

    ghost view = { policy_constraints_of };

    ghost grammar = { in_sequence policy_constraints policy_constraints_laws policy_constraints_heads borrows };

    ghost tight = { OneTryEach sequence };

    #[tactic(auto, unfolding(crate::specs::PolicyConstraints::policy_constraints, crate::specs::PolicyConstraints::policy_constraints_fields), using(x509_der::proofs::Marking::marks_of_readers))]
    fn read_at<L: Outside>(
        _alloc: Global,
        tries: &mut Tries,
        place: &Place<'a, L>,
    ) -> Result<(Self, bool), Refused<X509Error, L>> {
        let contents = sequence_at(place)?;
        let fields = Fields::of(tries, &contents);
        let (fields, require_explicit_policy) = fields.soft_implicit_u32(tries, 0);
        let (fields, inhibit_policy_mapping) = fields.soft_implicit_u32(tries, 1);
        if !fields.are_over() {
            let why = BerError::NomError(ErrorKind::Eof);
            return Err(fields.place.refuse(Err::Error(X509Error::Der(why))));
        }
        let constraints = PolicyConstraints {
            require_explicit_policy,
            inhibit_policy_mapping,
        };
        Ok((constraints, true))
    }

    ghost never_memory = { policy_constraints_laws.laws.never_memory };
}
