//! Policies that two authorities hold for equivalent.

ghost use Rattle.std.specs.Prelude.{◌≡◌, List};
ghost use Rattle.x509_der.specs.Grammar.{allocates, borrows, in_sequence};
ghost use Rattle.x509_der.specs.Oid.{oid_bytes};
ghost use Rattle.x509_fields.specs.Groups.{MapsGroups, held, pointed};
ghost use Rattle.x509_values.specs.PolicyMapping.{PolicyMappingValue, policy_mapping_of, policy_mapping, policy_mapping_heads, policy_mapping_laws};
ghost use Rattle.x509_values.specs.PolicyMapping.{policy_mappings_of, policy_mappings, policy_mappings_heads, policy_mappings_laws, subjects};

use std::alloc::Global;
use std::collections::HashMap;
use std::hash::BuildHasher;
use x509_der::{
    BerError, Fields, FromDer, Oid, Outside, Place, Refused, Sequence, Tries, converted,
    read_to_end,
};
use x509_fields::{TryClone, X509Error, add_to_group, sequence_at};

/// A policy of the issuer, and the subject's that it holds for equivalent (RFC 5280, section 4.2.1.5).
///
/// ```text
/// SEQUENCE {
///     issuerDomainPolicy   CertPolicyId,
///     subjectDomainPolicy  CertPolicyId }
///
/// CertPolicyId ::= OBJECT IDENTIFIER
/// ```
///
/// Bytes behind the second identifier are skipped.
#[derive(Clone, Copy, Debug, PartialEq, Eq)]
pub struct PolicyMapping<'a> {
    pub issuer_domain_policy: Oid<'a>,
    pub subject_domain_policy: Oid<'a>,
}

impl<'a> PolicyMapping<'a> {
    /// The mapping of these two policies.
    pub const fn new(issuer_domain_policy: Oid<'a>, subject_domain_policy: Oid<'a>) -> Self
        ensures { policy_mapping_of result
            ≡ record { issuer_domain_policy = oid_bytes issuer_domain_policy.entry; subject_domain_policy = oid_bytes subject_domain_policy.entry } }
    {
        PolicyMapping {
            issuer_domain_policy,
            subject_domain_policy,
        }
    }
}

impl<'a> FromDer<'a, BerError> for PolicyMapping<'a> {
    ghost Value = { PolicyMappingValue };

    ghost view = { policy_mapping_of };

    ghost grammar = { in_sequence policy_mapping policy_mapping_laws policy_mapping_heads borrows };

    #[tactic(auto, unfolding(crate::specs::PolicyMapping::policy_mapping), using(x509_der::proofs::Marking::marks_of_readers))]
    fn read_at<L: Outside>(
        _alloc: Global,
        tries: &mut Tries,
        place: &Place<'a, L>,
    ) -> Result<(Self, bool), Refused<BerError, L>> {
        let contents = place.sequence()?;
        let fields = Fields::of(tries, &contents);
        let (fields, issuer_domain_policy) = fields.oid(tries)?;
        let subject_domain_policy = fields.place.oid()?;
        let mapping = PolicyMapping {
            issuer_domain_policy,
            subject_domain_policy,
        };
        Ok((mapping, fields.ends_here()))
    }

    ghost never_memory = { policy_mapping_laws.laws.never_memory };
}

/// Policies that are held for equivalent (RFC 5280, section 4.2.1.5).
///
/// ```text
/// PolicyMappings ::= SEQUENCE SIZE (1..MAX) OF SEQUENCE { .. }
/// ```
///
/// The SEQUENCE may be empty. It is read to its end: where a member cannot be read, `NomError(Eof)`.
#[derive(Debug, Drop, PartialEq, Eq)]
pub struct PolicyMappings<'a> {
    /// The mappings, in the order in which they stand.
    pub mappings: Sequence<PolicyMapping<'a>>,
}

impl<'a> PolicyMappings<'a> {
    /// The subject policies of each issuer policy, in source order, under the issuer policy.
    ///
    /// # Errors
    ///
    /// `OutOfMemory`.
    #[tactic(auto, using(x509_fields::proofs::Grouped::grouping))]
    pub fn as_hashmap<S: BuildHasher + Drop>(
        &self,
        alloc: Global,
        hasher: S,
    ) -> Result<HashMap<Oid<'a>, Vec<&Oid<'a>>, S>, X509Error>
        ensures { MapsGroups (λ m q. pointed (held m q)) (subjects self.now.mappings) result }
    {
        let mut map = HashMap::with_hasher(alloc, hasher);
        for mapping in self.mappings.as_slice() {
            add_to_group(
                alloc,
                &mut map,
                mapping.issuer_domain_policy,
                &mapping.subject_domain_policy,
            )?;
        }
        Ok(map)
    }

    /// The subject policies of each issuer policy, in source order, under the issuer policy.
    ///
    /// # Errors
    ///
    /// `OutOfMemory`; then the mappings are gone.
    #[tactic(auto, using(x509_fields::proofs::Grouped::grouping))]
    pub fn into_hashmap<S: BuildHasher + Drop>(
        self,
        alloc: Global,
        hasher: S,
    ) -> Result<HashMap<Oid<'a>, Vec<Oid<'a>>, S>, X509Error>
        ensures { MapsGroups (λ m q. held m q) (subjects self.entry.mappings) result }
    {
        let mut map = HashMap::with_hasher(alloc, hasher);
        for mapping in self.mappings.into_vec() {
            add_to_group(
                alloc,
                &mut map,
                mapping.issuer_domain_policy,
                mapping.subject_domain_policy,
            )?;
        }
        Ok(map)
    }
}

impl<'a> FromDer<'a, X509Error> for PolicyMappings<'a> {
    ghost Value = { List PolicyMappingValue };

    ghost view = { policy_mappings_of };

    ghost grammar = { in_sequence policy_mappings policy_mappings_laws policy_mappings_heads allocates };

    #[tactic(auto, unfolding(crate::specs::PolicyMapping::policy_mappings, crate::specs::PolicyMapping::policy_mapping_list), using(x509_der::proofs::Marking::marks_of_readers))]
    fn read_at<L: Outside>(
        alloc: Global,
        tries: &mut Tries,
        place: &Place<'a, L>,
    ) -> Result<(Self, bool), Refused<X509Error, L>> {
        let contents = sequence_at(place)?;
        let (mappings, plain) = converted!(read_to_end::<BerError, PolicyMapping<'a>, L>(
            alloc, tries, &contents,
        ));
        Ok((PolicyMappings { mappings }, plain))
    }

    ghost never_memory = { policy_mappings_laws.laws.never_memory };
}

impl TryClone for PolicyMappings<'_> {
    fn try_clone(&self) -> Result<Self, X509Error> {
        let mappings = self.mappings.try_copy()?;
        Ok(PolicyMappings { mappings })
    }
}
