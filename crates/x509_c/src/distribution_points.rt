//! Where lists of revoked certificates are found.

ghost use Rattle.std.specs.Prelude.{◌≡◌, [], map};
ghost use Rattle.x509_general_names.specs.DistributionPoints.{Point, crl_distribution_points, point_of};
ghost use Rattle.x509_general_names.specs.GeneralName.{GeneralNameValue, general_name_of};
ghost use Rattle.x509_c.specs.DistributionPoints.{FindsPoint, IsPointNameRow, IsPointRow, full_names, issuers_of_points, name_kind, names_held};
ghost use Rattle.x509_c.specs.DistributionPoints.{names_of_points};
ghost use Rattle.x509_c.specs.Options.{there_or};
ghost use Rattle.x509_c.specs.Rows.{CountsAndShows};
ghost use Rattle.x509_c.specs.Tells.{Tells, Done};

use crate::general_names::GeneralNameRow;
use crate::options::is_some;
use crate::row_writer::{HasNumberedRow, HasRow, ItemsOf, put_rows, tell_items};
use crate::status::{NOT_FOUND, OK, refused};
use std::alloc::Global;
use x509_der::FromDer;
use x509_general_names::{
    CRLDistributionPoint, CRLDistributionPoints, DistributionPointName, GeneralName,
};

/// Where a list is found: `rtv_distribution_point` of rushtrivet.h.
#[repr(C)]
#[derive(Clone, Copy)]
pub struct PointRow {
    /// How many full names the point has.
    pub name_count: usize,
    /// How many names the issuer of the list has.
    pub issuer_count: usize,
    /// 0 where the point has no name, 1 where it has full names, 2 where its name stands relative to the issuer's.
    pub name_kind: u32,
    /// 1 where the reasons are named that the list covers, and else 0.
    pub has_reasons: u32,
    /// The reasons: bit k is set where bit k of the BIT STRING is; 0 where none are named.
    pub reasons: u32,
    /// 1 where the issuer of the list is named, and else 0.
    pub has_issuer: u32,
}

fn name_kind(point: &CRLDistributionPoint<'_>) -> u32
    ensures { result ≡ name_kind (point_of point.now).name }
{
    match &point.distribution_point {
        None => 0,
        Some(DistributionPointName::FullName(_)) => 1,
        Some(DistributionPointName::NameRelativeToCRLIssuer(_)) => 2,
    }
}

fn point_names<'v, 'a>(point: &'v CRLDistributionPoint<'a>) -> &'v [GeneralName<'a>]
    ensures own { result.now ≡ names_held point.now.distribution_point }
    ensures shown { map general_name_of result.now ≡ full_names (point_of point.now).name }
{
    match &point.distribution_point {
        Some(DistributionPointName::FullName(names)) => names.as_slice(),
        _ => &[],
    }
}

fn issuer_names<'v, 'a>(point: &'v CRLDistributionPoint<'a>) -> &'v [GeneralName<'a>]
    ensures own { result.now ≡ there_or [] point.now.crl_issuer }
    ensures shown { map general_name_of result.now ≡ there_or [] (point_of point.now).issuer }
{
    match &point.crl_issuer {
        Some(names) => names.as_slice(),
        None => &[],
    }
}

fn reasons(point: &CRLDistributionPoint<'_>) -> u32
    ensures { result ≡ there_or 0 (point_of point.now).reasons }
{
    match point.reasons {
        Some(reasons) => u32::from(reasons.flags),
        None => 0,
    }
}

fn point_row(point: &CRLDistributionPoint<'_>) -> PointRow
    ensures { IsPointRow result (point_of point.now) }
{
    PointRow {
        name_count: point_names(point).len(),
        issuer_count: issuer_names(point).len(),
        name_kind: name_kind(point),
        has_reasons: is_some(&point.reasons),
        reasons: reasons(point),
        has_issuer: is_some(&point.crl_issuer),
    }
}

/// Writes the point at a position with its names, or tells that none stands there.
fn find_point<'a>(
    points: &[CRLDistributionPoint<'a>],
    position: usize,
    point: &mut PointRow,
    names: &mut [GeneralNameRow<'a>],
    issuer: &mut [GeneralNameRow<'a>],
) -> u32
    ensures found { FindsPoint (map point_of points.now) position point.new names.new issuer.new result }
    ensures kept { (result ≡ 0 → ⊥) → (point.new ≡ point.old) × (names.new ≡ names.old) × (issuer.new ≡ issuer.old) }
{
    if position >= points.len() {
        return NOT_FOUND;
    }
    let found = &points[position];
    *point = point_row(found);
    put_rows(names, point_names(found));
    put_rows(issuer, issuer_names(found));
    OK
}

/// The distribution point at this position, from 0 on (RFC 5280, section 4.2.1.13): its full names and those of the issuer of its list
/// are written in order, as many as there are rows; 50 where no point stands there.
#[unsafe(no_mangle)]
pub extern "C" fn rtv_read_distribution_point<'a>(
    alloc: Global,
    value: &'a [u8],
    position: usize,
    point: &mut PointRow,
    names: &mut [GeneralNameRow<'a>],
    issuer: &mut [GeneralNameRow<'a>],
    at: &mut usize,
) -> u32
    ensures { Tells crl_distribution_points value.now
        (λ read _. FindsPoint read position point.new names.new issuer.new)
        ((point.new ≡ point.old) × (names.new ≡ names.old) × (issuer.new ≡ issuer.old))
        at.old at.new result }
{
    match CRLDistributionPoints::from_der_located(alloc, value) {
        Ok((_, read)) => find_point(read.points.as_slice(), position, point, names, issuer),
        Err(refusal) => refused(refusal, at),
    }
}

impl<'a> HasRow for CRLDistributionPoint<'a> {
    type Row = PointRow;

    ghost Value = { Point };

    ghost view = { point_of };

    ghost Shows = { IsPointRow };

    fn row(&self) -> PointRow {
        point_row(self)
    }
}

/// All distribution points (RFC 5280, section 4.2.1.13): they are written in order, as many as there are rows, and all of them are counted.
#[unsafe(no_mangle)]
pub extern "C" fn rtv_read_distribution_points(
    alloc: Global,
    value: &[u8],
    points: &mut [PointRow],
    count: &mut usize,
    at: &mut usize,
) -> u32
    ensures { Tells crl_distribution_points value.now
        (λ read _. Done (CountsAndShows IsPointRow points.new count.new read))
        ((points.new ≡ points.old) × (count.new ≡ count.old))
        at.old at.new result }
{
    match CRLDistributionPoints::from_der_located(alloc, value) {
        Ok((_, read)) => {
            let read = read.points.as_slice();
            put_rows(points, read);
            *count = read.len();
            OK
        }
        Err(refusal) => refused(refusal, at),
    }
}

/// A general name, and the position of its point: `rtv_point_name` of rushtrivet.h.
#[repr(C)]
#[derive(Clone, Copy)]
pub struct PointNameRow<'a> {
    /// The name.
    pub name: GeneralNameRow<'a>,
    /// The position of its point, from 0 on.
    pub point: usize,
}

impl<'a> HasNumberedRow for GeneralName<'a> {
    type Row = PointNameRow<'a>;

    ghost Value = { GeneralNameValue };

    ghost view = { general_name_of };

    ghost Shows = { IsPointNameRow };

    fn numbered_row(&self, number: usize) -> PointNameRow<'a> {
        PointNameRow {
            name: self.row(),
            point: number,
        }
    }
}

/// The full names of points.
struct PointNames;

impl<'a> ItemsOf<CRLDistributionPoint<'a>, GeneralName<'a>> for PointNames {
    ghost own = { λ point. names_held point.distribution_point };

    fn items<'v>(member: &'v CRLDistributionPoint<'a>) -> &'v [GeneralName<'a>] {
        point_names(member)
    }
}

/// The names of the issuers of points' lists.
struct PointIssuers;

impl<'a> ItemsOf<CRLDistributionPoint<'a>, GeneralName<'a>> for PointIssuers {
    ghost own = { λ point. there_or [] point.crl_issuer };

    fn items<'v>(member: &'v CRLDistributionPoint<'a>) -> &'v [GeneralName<'a>] {
        issuer_names(member)
    }
}

/// The full names of all distribution points (RFC 5280, section 4.2.1.13): they are written in order, as many as there are rows, each with
/// the position of its point, and all of them are counted.
#[unsafe(no_mangle)]
pub extern "C" fn rtv_read_point_names<'a>(
    alloc: Global,
    value: &'a [u8],
    names: &mut [PointNameRow<'a>],
    count: &mut usize,
    at: &mut usize,
) -> u32
    ensures { Tells crl_distribution_points value.now
        (λ read _. Done (CountsAndShows IsPointNameRow names.new count.new (names_of_points read)))
        ((names.new ≡ names.old) × (count.new ≡ count.old))
        at.old at.new result }
{
    match CRLDistributionPoints::from_der_located(alloc, value) {
        Ok((_, read)) => {
            let read = read.points.as_slice();
            tell_items::<GeneralName<'a>, _, PointNames>(names, count, read)
        }
        Err(refusal) => refused(refusal, at),
    }
}

/// The names of the issuers of all distribution points' lists (RFC 5280, section 4.2.1.13), as `rtv_read_point_names` has the full names.
#[unsafe(no_mangle)]
pub extern "C" fn rtv_read_point_issuers<'a>(
    alloc: Global,
    value: &'a [u8],
    names: &mut [PointNameRow<'a>],
    count: &mut usize,
    at: &mut usize,
) -> u32
    ensures { Tells crl_distribution_points value.now
        (λ read _. Done (CountsAndShows IsPointNameRow names.new count.new (issuers_of_points read)))
        ((names.new ≡ names.old) × (count.new ≡ count.old))
        at.old at.new result }
{
    match CRLDistributionPoints::from_der_located(alloc, value) {
        Ok((_, read)) => {
            let read = read.points.as_slice();
            tell_items::<GeneralName<'a>, _, PointIssuers>(names, count, read)
        }
        Err(refusal) => refused(refusal, at),
    }
}
