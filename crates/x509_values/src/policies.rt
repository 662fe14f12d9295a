//! Policies that a certificate was issued under.

ghost use Rattle.std.specs.Prelude.{List, true};
ghost use Rattle.x509_der.specs.Grammar.{allocates, borrows, in_sequence};
ghost use Rattle.x509_values.specs.Policies.{PolicyQualifierValue, policy_qualifier_of, policy_qualifier, policy_qualifier_heads, policy_qualifier_laws};
ghost use Rattle.x509_values.specs.Policies.{policy_qualifiers_of, policy_qualifiers, policy_qualifiers_heads, policy_qualifiers_laws, PolicyValue, policy_of};
ghost use Rattle.x509_values.specs.Policies.{policy, policy_heads, policy_laws, policies_of, policies, policies_heads, policies_laws};

use std::alloc::Global;
use x509_der::{
    BerError, Fields, FromDer, Oid, Outside, Place, Refused, Sequence, Tries, converted, read_run1,
    read_to_end,
};
use x509_fields::{TryClone, X509Error, sequence_at};

/// What is said of a policy (RFC 5280, section 4.2.1.4).
///
/// ```text
/// PolicyQualifierInfo ::= SEQUENCE {
///     policyQualifierId  PolicyQualifierId,
///     qualifier          ANY DEFINED BY policyQualifierId }
///
/// PolicyQualifierId ::= OBJECT IDENTIFIER
/// ```
#[derive(Clone, Copy, Debug, PartialEq, Eq)]
pub struct PolicyQualifierInfo<'a> {
    /// The kind of the qualifier.
    pub policy_qualifier_id: Oid<'a>,
    /// All bytes behind the identifier, of which there may be none.
    pub qualifier: &'a [u8],
}

impl<'a> FromDer<'a, BerError> for PolicyQualifierInfo<'a> {
    ghost Value = { PolicyQualifierValue };

    ghost view = { policy_qualifier_of };

    ghost grammar = { in_sequence policy_qualifier policy_qualifier_laws policy_qualifier_heads borrows };

    #[tactic(auto, unfolding(crate::specs::Policies::policy_qualifier), using(x509_der::proofs::Marking::marks_of_readers))]
    fn read_at<L: Outside>(
        _alloc: Global,
        tries: &mut Tries,
        place: &Place<'a, L>,
    ) -> Result<(Self, bool), Refused<BerError, L>> {
        let contents = place.sequence()?;
        let fields = Fields::of(tries, &contents);
        let policy_qualifier_id = fields.place.oid()?;
        let info = PolicyQualifierInfo {
            policy_qualifier_id,
            qualifier: fields.place.rest(),
        };
        Ok((info, true))
    }

    ghost never_memory = { policy_qualifier_laws.laws.never_memory };
}

/// The qualifiers at the beginning of a SEQUENCE, at least one.
#[derive(Drop)]
pub(crate) struct PolicyQualifiers<'a> {
    pub(crate) list: Sequence<PolicyQualifierInfo<'a>>,
}

impl<'a> FromDer<'a, BerError> for PolicyQualifiers<'a> {
    ghost Value = { List PolicyQualifierValue };

    ghost view = { policy_qualifiers_of };

    ghost grammar = { in_sequence policy_qualifiers policy_qualifiers_laws policy_qualifiers_heads allocates };

    #[tactic(auto, unfolding(crate::specs::Policies::policy_qualifiers), using(x509_der::proofs::Marking::marks_of_readers))]
    fn read_at<L: Outside>(
        alloc: Global,
        tries: &mut Tries,
        place: &Place<'a, L>,
    ) -> Result<(Self, bool), Refused<BerError, L>> {
        let contents = place.sequence()?;
        let (tail, list, plain) = read_run1(alloc, tries, &contents)?;
        Ok((PolicyQualifiers { list }, plain & tail.is_empty()))
    }

    ghost never_memory = { policy_qualifiers_laws.laws.never_memory };
}

/// A policy, and what is said of it (RFC 5280, section 4.2.1.4).
///
/// ```text
/// PolicyInformation ::= SEQUENCE {
///     policyIdentifier  CertPolicyId,
///     policyQualifiers  SEQUENCE SIZE (1..MAX) OF PolicyQualifierInfo OPTIONAL }
///
/// CertPolicyId ::= OBJECT IDENTIFIER
/// ```
///
/// Bytes behind the last qualifier that can be read are skipped. Where none can be read, the qualifiers are absent.
#[derive(Debug, Drop, PartialEq, Eq)]
pub struct PolicyInformation<'a> {
    /// The policy.
    pub policy_id: Oid<'a>,
    /// What is said of it: at least one qualifier, in the order in which they stand.
    pub policy_qualifiers: Option<Sequence<PolicyQualifierInfo<'a>>>,
}

impl<'a> FromDer<'a, BerError> for PolicyInformation<'a> {
    ghost Value = { PolicyValue };

    ghost view = { policy_of };

    ghost grammar = { in_sequence policy policy_laws policy_heads allocates };

    #[tactic(auto, unfolding(crate::specs::Policies::policy), using(x509_der::proofs::Marking::marks_of_readers))]
    fn read_at<L: Outside>(
        alloc: Global,
        tries: &mut Tries,
        place: &Place<'a, L>,
    ) -> Result<(Self, bool), Refused<BerError, L>> {
        let contents = place.sequence()?;
        let fields = Fields::of(tries, &contents);
        let (fields, policy_id) = fields.oid(tries)?;
        let (fields, qualifiers) = fields.soft(alloc, tries)?;
        let policy_qualifiers = qualifiers.map(|q: PolicyQualifiers| q.list);
        let policy = PolicyInformation {
            policy_id,
            policy_qualifiers,
        };
        Ok((policy, fields.are_plain()))
    }

    ghost never_memory = { policy_laws.laws.never_memory };
}

impl TryClone for PolicyInformation<'_> {
    fn try_clone(&self) -> Result<Self, X509Error> {
        let policy_qualifiers = match &self.policy_qualifiers {
            Some(qualifiers) => Some(qualifiers.try_copy()?),
            None => None,
        };
        Ok(PolicyInformation {
            policy_id: self.policy_id,
            policy_qualifiers,
        })
    }
}

/// The policies, in the order in which they stand (RFC 5280, section 4.2.1.4).
pub type CertificatePolicies<'a> = Sequence<PolicyInformation<'a>>;

/// The policies that a certificate was issued under (RFC 5280, section 4.2.1.4).
///
/// ```text
/// CertificatePolicies ::= SEQUENCE SIZE (1..MAX) OF PolicyInformation
/// ```
///
/// The SEQUENCE may be empty. It is read to its end: where a member cannot be read, `NomError(Eof)`.
#[derive(Debug, Drop, PartialEq, Eq)]
pub struct PolicyList<'a> {
    pub policies: CertificatePolicies<'a>,
}

impl<'a> FromDer<'a, X509Error> for PolicyList<'a> {
    ghost Value = { List PolicyValue };

    ghost view = { policies_of };

    ghost grammar = { in_sequence policies policies_laws policies_heads allocates };

    #[tactic(auto, unfolding(crate::specs::Policies::policies, crate::specs::Policies::policy_run), using(x509_der::proofs::Marking::marks_of_readers))]
    fn read_at<L: Outside>(
        alloc: Global,
        tries: &mut Tries,
        place: &Place<'a, L>,
    ) -> Result<(Self, bool), Refused<X509Error, L>> {
        let contents = sequence_at(place)?;
        let (policies, plain) = converted!(read_to_end::<BerError, PolicyInformation<'a>, L>(
            alloc, tries, &contents,
        ));
        Ok((PolicyList { policies }, plain))
    }

    ghost never_memory = { policies_laws.laws.never_memory };
}

impl TryClone for PolicyList<'_> {
    fn try_clone(&self) -> Result<Self, X509Error> {
        let policies = self.policies.try_clone()?;
        Ok(PolicyList { policies })
    }
}
