//! What lists of revoked certificates cover.

ghost use Rattle.std.specs.Prelude.{◌≡◌, [], map};
ghost use Rattle.x509_general_names.specs.GeneralName.{general_name_of};
ghost use Rattle.x509_general_names.specs.IssuingDistributionPoint.{issuing_distribution_point, issuing_point_of};
ghost use Rattle.x509_c.specs.DistributionPoints.{full_names, name_kind};
ghost use Rattle.x509_c.specs.IssuingPoint.{IsIssuingPointRow, ShowsIssuingPoint};
ghost use Rattle.x509_c.specs.Options.{there_or};
ghost use Rattle.x509_c.specs.Tells.{Tells, Done};

use crate::general_names::GeneralNameRow;
use crate::options::is_some;
use crate::row_writer::put_rows;
use crate::status::{OK, refused};
use std::alloc::Global;
use x509_der::FromDer;
use x509_general_names::{DistributionPointName, GeneralName, IssuingDistributionPoint};

/// What a list covers: `rtv_issuing_distribution_point` of rushtrivet.h.
#[repr(C)]
#[derive(Clone, Copy)]
pub struct IssuingPointRow {
    /// How many full names the list's own point has.
    pub name_count: usize,
    /// 0 where it has no name, 1 where it has full names, 2 where its name stands relative to the issuer's.
    pub name_kind: u32,
    /// 1 where the list holds certificates of users alone, and else 0.
    pub only_user_certs: u32,
    /// 1 where the list holds certificates of authorities alone, and else 0.
    pub only_ca_certs: u32,
    /// 1 where the reasons are named that the list covers, and else 0.
    pub has_reasons: u32,
    /// The reasons: bit k is set where bit k of the BIT STRING is; 0 where none are named.
    pub reasons: u32,
    /// 1 where the list holds certificates of other issuers too, and else 0.
    pub indirect_crl: u32,
    /// 1 where the list holds certificates of attributes alone, and else 0.
    pub only_attribute_certs: u32,
}

fn name_kind(point: &IssuingDistributionPoint<'_>) -> u32
    ensures { result ≡ name_kind (issuing_point_of point.now).name }
{
    match &point.distribution_point {
        None => 0,
        Some(DistributionPointName::FullName(_)) => 1,
        Some(DistributionPointName::NameRelativeToCRLIssuer(_)) => 2,
    }
}

fn point_names<'v, 'a>(point: &'v IssuingDistributionPoint<'a>) -> &'v [GeneralName<'a>]
    ensures { map general_name_of result.now ≡ full_names (issuing_point_of point.now).name }
{
    match &point.distribution_point {
        Some(DistributionPointName::FullName(names)) => names.as_slice(),
        _ => &[],
    }
}

fn reasons(point: &IssuingDistributionPoint<'_>) -> u32
    ensures { result ≡ there_or 0 (issuing_point_of point.now).reasons }
{
    match point.only_some_reasons {
        Some(reasons) => u32::from(reasons.flags),
        None => 0,
    }
}

fn issuing_point_row(point: &IssuingDistributionPoint<'_>) -> IssuingPointRow
    ensures { IsIssuingPointRow result (issuing_point_of point.now) }
{
    IssuingPointRow {
        name_count: point_names(point).len(),
        name_kind: name_kind(point),
        only_user_certs: u32::from(point.only_contains_user_certs),
        only_ca_certs: u32::from(point.only_contains_ca_certs),
        has_reasons: is_some(&point.only_some_reasons),
        reasons: reasons(point),
        indirect_crl: u32::from(point.indirect_crl),
        only_attribute_certs: u32::from(point.only_contains_attribute_certs),
    }
}

/// Where a list is found and what it covers (RFC 5280, section 5.2.5). Its full names are written in order, as many as there are rows.
#[unsafe(no_mangle)]
pub extern "C" fn rtv_read_issuing_distribution_point<'a>(
    alloc: Global,
    value: &'a [u8],
    point: &mut IssuingPointRow,
    names: &mut [GeneralNameRow<'a>],
    at: &mut usize,
) -> u32
    ensures { Tells issuing_distribution_point value.now
        (λ read _. Done (ShowsIssuingPoint point.new names.new read))
        ((point.new ≡ point.old) × (names.new ≡ names.old))
        at.old at.new result }
{
    match IssuingDistributionPoint::from_der_located(alloc, value) {
        Ok((_, read)) => {
            *point = issuing_point_row(&read);
            put_rows(names, point_names(&read));
            OK
        }
        Err(refusal) => refused(refusal, at),
    }
}
