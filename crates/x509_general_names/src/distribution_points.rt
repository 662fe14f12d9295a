//! Where lists of revoked certificates are found.

ghost use Rattle.std.specs.Prelude.{◌≡◌, List};
ghost use Rattle.x509_der.specs.Grammar.{allocates, in_sequence};
ghost use Rattle.x509_general_names.specs.DistributionPoints.{Point, point_of, points_of, crl_distribution_point, crl_distribution_points, point_heads};
ghost use Rattle.x509_general_names.specs.DistributionPoints.{points_heads, crl_distribution_point_laws, crl_distribution_points_laws};

use crate::distribution_point_name::DistributionPointName;
use crate::general_name::GeneralName;
use crate::implicit_names::SomeNames;
use crate::reason_flags::{ReasonFlags, soft_reasons};
use std::alloc::Global;
use x509_der::{
    ErrorKind, Fields, FromDer, Outside, Place, Refused, Sequence, Tries, ok, read_run,
};
use x509_fields::{TryClone, X509Error, list_error, sequence_at};

/// Where a list of revoked certificates is found, which reasons it covers, and who issues it (RFC 5280, section 4.2.1.13).
///
/// ```text
/// DistributionPoint ::= SEQUENCE {
///     distributionPoint  [0]  DistributionPointName OPTIONAL,
///     reasons            [1]  ReasonFlags OPTIONAL,
///     cRLIssuer          [2]  GeneralNames OPTIONAL }
/// ```
///
/// A field that cannot be read is absent, and every later field is looked for where it stands: where `[0]` stands and cannot
/// be read, all three are absent.
#[derive(Debug, PartialEq, Drop)]
pub struct CRLDistributionPoint<'a> {
    /// Where the list is found.
    pub distribution_point: Option<DistributionPointName<'a>>,
    /// The reasons that the list covers; all where nothing is said.
    pub reasons: Option<ReasonFlags>,
    /// Who issues the list; the certificate's issuer where nothing is said. At least one name; what stands behind the last
    /// one in the field is skipped.
    pub crl_issuer: Option<Sequence<GeneralName<'a>>>,
}

/// Refused is only what is no whole SEQUENCE, and want of memory. Bytes behind the last field are skipped.
impl<'a> FromDer<'a, X509Error> for CRLDistributionPoint<'a> {
    ghost Value = { Point };

    ghost view = { point_of };

    ghost grammar = { in_sequence crl_distribution_point crl_distribution_point_laws point_heads allocates };

    #[tactic(auto, unfolding(crate::specs::DistributionPoints::crl_distribution_point), using(x509_der::proofs::Marking::marks_of_readers))]
    fn read_at<L: Outside>(
        alloc: Global,
        tries: &mut Tries,
        place: &Place<'a, L>,
    ) -> Result<(Self, bool), Refused<X509Error, L>> {
        let contents = sequence_at(place)?;
        let fields = Fields::of(tries, &contents);
        let (fields, distribution_point) = fields.soft(alloc, tries)?;
        let (fields, reasons) = soft_reasons(&fields, tries, 1);
        let (fields, crl_issuer) = ok!(fields.soft_by(&SomeNames { number: 2 }, alloc, tries));
        let point = CRLDistributionPoint {
            distribution_point,
            reasons,
            crl_issuer,
        };
        Ok((point, fields.are_plain()))
    }

    ghost never_memory = { crl_distribution_point_laws.laws.never_memory };
}

impl TryClone for CRLDistributionPoint<'_> {
    fn try_clone(&self) -> Result<Self, X509Error> {
        let distribution_point = self.distribution_point.try_clone()?;
        let crl_issuer = self.crl_issuer.try_clone()?;
        Ok(CRLDistributionPoint {
            distribution_point,
            reasons: self.reasons,
            crl_issuer,
        })
    }
}

/// Where lists of revoked certificates are found (RFC 5280, section 4.2.1.13).
///
/// ```text
/// CRLDistributionPoints ::= SEQUENCE SIZE (1..MAX) OF DistributionPoint
/// ```
#[derive(Debug, PartialEq, Drop)]
pub struct CRLDistributionPoints<'a> {
    /// The points, in order.
    pub points: Sequence<CRLDistributionPoint<'a>>,
}

impl<'a> CRLDistributionPoints<'a> {
    /// The points, in order.
    pub fn points(&self) -> &[CRLDistributionPoint<'a>]
        ensures { result.now ≡ self.now.points }
    {
        self.points.as_slice()
    }
}

/// The points fill the SEQUENCE, which may be empty; else they are `Error(Der(NomError(Eof)))`.
impl<'a> FromDer<'a, X509Error> for CRLDistributionPoints<'a> {
    ghost Value = { List Point };

    ghost view = { points_of };

    ghost grammar = { in_sequence crl_distribution_points crl_distribution_points_laws points_heads allocates };

    #[tactic(auto, unfolding(crate::specs::DistributionPoints::crl_distribution_points), using(x509_der::proofs::Marking::marks_of_readers))]
    fn read_at<L: Outside>(
        alloc: Global,
        tries: &mut Tries,
        place: &Place<'a, L>,
    ) -> Result<(Self, bool), Refused<X509Error, L>> {
        let contents = sequence_at(place)?;
        let (rest, points, plain) = place.judge(read_run(alloc, tries, contents.bytes()))?;
        if !rest.is_empty() {
            return Err(contents.refuse_at(rest, list_error(ErrorKind::Eof)));
        }
        Ok((CRLDistributionPoints { points }, plain))
    }

    ghost never_memory = { crl_distribution_points_laws.laws.never_memory };
}

impl TryClone for CRLDistributionPoints<'_> {
    fn try_clone(&self) -> Result<Self, X509Error> {
        let points = self.points.try_clone()?;
        Ok(CRLDistributionPoints { points })
    }
}
