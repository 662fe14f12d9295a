//! What a list of revoked certificates covers.

ghost use Rattle.x509_der.specs.Grammar.{allocates, in_sequence};
ghost use Rattle.x509_general_names.specs.IssuingDistributionPoint.{IssuingPoint, issuing_point_of, issuing_distribution_point, issuing_point_heads};
ghost use Rattle.x509_general_names.specs.IssuingDistributionPoint.{issuing_distribution_point_laws};

use crate::distribution_point_name::DistributionPointName;
use crate::implicit_bool::soft_bool;
use crate::reason_flags::{ReasonFlags, soft_reasons};
use std::alloc::Global;
use x509_der::{Fields, FromDer, Outside, Place, Refused, Tries};
use x509_fields::{TryClone, X509Error, sequence_at};

/// Where a list of revoked certificates is found, and what it covers (RFC 5280, section 5.2.5).
///
/// ```text
/// IssuingDistributionPoint ::= SEQUENCE {
///     distributionPoint           [0]  DistributionPointName OPTIONAL,
///     onlyContainsUserCerts       [1]  BOOLEAN DEFAULT FALSE,
///     onlyContainsCACerts         [2]  BOOLEAN DEFAULT FALSE,
///     onlySomeReasons             [3]  ReasonFlags OPTIONAL,
///     indirectCRL                 [4]  BOOLEAN DEFAULT FALSE,
///     onlyContainsAttributeCerts  [5]  BOOLEAN DEFAULT FALSE }
/// ```
///
/// A field that cannot be read is absent, and every later field is looked for where it stands. So a name under `[0]` that
/// cannot be read makes every flag behind it false: where a list's scope matters, ask also whether what was read stands
/// plainly ([`FromDer::read_marked`]).
#[derive(Debug, PartialEq, Drop)]
pub struct IssuingDistributionPoint<'a> {
    /// Where the list is found.
    pub distribution_point: Option<DistributionPointName<'a>>,
    /// Whether the list holds certificates of users alone; false where nothing is said.
    pub only_contains_user_certs: bool,
    /// Whether the list holds certificates of authorities alone; false where nothing is said.
    pub only_contains_ca_certs: bool,
    /// The reasons that the list covers; all where nothing is said.
    pub only_some_reasons: Option<ReasonFlags>,
    /// Whether the list holds certificates of other issuers too; false where nothing is said.
    pub indirect_crl: bool,
    /// Whether the list holds certificates of attributes alone; false where nothing is said.
    pub only_contains_attribute_certs: bool,
}

/// Refused is only what is no whole SEQUENCE, and want of memory. Bytes behind the last field are skipped.
impl<'a> FromDer<'a, X509Error> for IssuingDistributionPoint<'a> {
    ghost Value = { IssuingPoint };

    ghost view = { issuing_point_of };

    ghost grammar = { in_sequence issuing_distribution_point issuing_distribution_point_laws issuing_point_heads allocates };

    #[tactic(auto, unfolding(crate::specs::IssuingDistributionPoint::issuing_distribution_point), using(x509_der::proofs::Marking::marks_of_readers))]
    fn read_at<L: Outside>(
        alloc: Global,
        tries: &mut Tries,
        place: &Place<'a, L>,
    ) -> Result<(Self, bool), Refused<X509Error, L>> {
        let contents = sequence_at(place)?;
        let fields = Fields::of(tries, &contents);
        let (fields, distribution_point) = fields.soft(alloc, tries)?;
        let (fields, user_certs) = soft_bool(&fields, tries, 1);
        let (fields, ca_certs) = soft_bool(&fields, tries, 2);
        let (fields, only_some_reasons) = soft_reasons(&fields, tries, 3);
        let (fields, indirect_crl) = soft_bool(&fields, tries, 4);
        let (fields, attribute_certs) = soft_bool(&fields, tries, 5);
        let point = IssuingDistributionPoint {
            distribution_point,
            only_contains_user_certs: user_certs.unwrap_or(false),
            only_contains_ca_certs: ca_certs.unwrap_or(false),
            only_some_reasons,
            indirect_crl: indirect_crl.unwrap_or(false),
            only_contains_attribute_certs: attribute_certs.unwrap_or(false),
        };
        Ok((point, fields.are_plain()))
    }

    ghost never_memory = { issuing_distribution_point_laws.laws.never_memory };
}

impl TryClone for IssuingDistributionPoint<'_> {
    fn try_clone(&self) -> Result<Self, X509Error> {
        let distribution_point = self.distribution_point.try_clone()?;
        Ok(IssuingDistributionPoint {
            distribution_point,
            only_contains_user_certs: self.only_contains_user_certs,
            only_contains_ca_certs: self.only_contains_ca_certs,
            only_some_reasons: self.only_some_reasons,
            indirect_crl: self.indirect_crl,
            only_contains_attribute_certs: self.only_contains_attribute_certs,
        })
    }
}
