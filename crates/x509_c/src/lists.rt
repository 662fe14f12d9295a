//! Lists of revoked certificates.

ghost use Rattle.std.specs.Prelude.{◌≡◌, true};
ghost use Rattle.std.specs.Int.Digits.{number_from_digits};
ghost use Rattle.x509_der.specs.Promises.{ReadsWhere};
ghost use Rattle.x509_fields.specs.Errors.{is_x509_memory};
ghost use Rattle.x509_lists.specs.CertificateList.{certificate_list, list_of};
ghost use Rattle.x509_lists.specs.RevokedCertificate.{Revoked, revoked_of};
ghost use Rattle.x509_lists.specs.TbsCertList.{tbs_list_of};
ghost use Rattle.x509_c.specs.Lists.{IsListRow, IsRevokedRow, LooksUp, ShowsList, list_by, reason_given};
ghost use Rattle.x509_c.specs.Options.{is_there, there_or};
ghost use Rattle.x509_c.specs.Seconds.{AreSecondsOfSome};
ghost use Rattle.x509_c.specs.Tells.{Tells, Done};

use crate::extensions::ExtensionRow;
use crate::options::{is_some, or_zero};
use crate::row_writer::{HasRow, put_rows};
use crate::status::{NOT_FOUND, OK, refused};
use crate::times::seconds;
use std::alloc::Global;
use x509_der::{FromDer, Located, Reader, UnsignedBytes};
use x509_extensions::ParsedExtension;
use x509_fields::{Plainly, X509Error};
use x509_lists::{CertificateRevocationList, RevokedCertificate, TbsCertList};
use x509_names::OID_X509_EXT_REASON_CODE;
use x509_report_objects::first_parsed;

/// What a list of revoked certificates says: `rtv_list` of rushtrivet.h.
#[repr(C)]
#[derive(Clone, Copy)]
pub struct ListRow<'a> {
    /// The list, with its header.
    pub whole: &'a [u8],
    /// What stands behind it in the buffer.
    pub rest: &'a [u8],
    /// The octets that are signed, with their header.
    pub signed_part: &'a [u8],
    /// The name of who signed it, with its header.
    pub issuer: &'a [u8],
    /// The contents of the identifier of the signature's algorithm inside the signed part.
    pub signed_algorithm: &'a [u8],
    /// The same outside of it.
    pub signature_algorithm: &'a [u8],
    /// The octets of the signature's bits.
    pub signature: &'a [u8],
    /// When it was made, in seconds since 1970.
    pub this_update: i64,
    /// When the next one comes at the latest, in seconds since 1970; 0 where that isn't said.
    pub next_update: i64,
    /// How many certificates were revoked.
    pub revoked_count: usize,
    /// How many extensions there are.
    pub extension_count: usize,
    /// 1 where the next update is said, and else 0.
    pub has_next_update: u32,
    /// The number of the version: 1 is the second; 0 where none is written.
    pub version: u32,
    /// 1 where a version is written, and else 0.
    pub has_version: u32,
}

/// A revoked certificate: `rtv_revoked` of rushtrivet.h.
#[repr(C)]
#[derive(Clone, Copy)]
pub struct RevokedRow<'a> {
    /// The contents of the serial.
    pub serial: &'a [u8],
    /// When it was revoked, in seconds since 1970.
    pub revocation_date: i64,
    /// How many extensions the entry has.
    pub extension_count: usize,
    /// The number of the reason; 0 where none is given.
    pub reason: u32,
    /// 1 where a reason is given, and else 0.
    pub has_reason: u32,
}

/// Why the certificate was revoked (RFC 5280, section 5.3.1), as the first extension with that identifier says; none where its value
/// can't be read.
fn reason(revoked: &RevokedCertificate<'_>) -> Option<u32>
    ensures { result ≡ reason_given (revoked_of revoked.now) }
{
    match first_parsed(OID_X509_EXT_REASON_CODE, revoked.extensions()) {
        Some(ParsedExtension::ReasonCode(reason)) => Some(u32::from(reason.0)),
        _ => None,
    }
}

/// An entry as a row.
pub(crate) fn revoked_row<'a>(revoked: &RevokedCertificate<'a>) -> RevokedRow<'a>
    ensures { IsRevokedRow result (revoked_of revoked.now) }
{
    let reason = reason(revoked);
    RevokedRow {
        serial: revoked.raw_serial(),
        revocation_date: seconds(&revoked.revocation_date),
        extension_count: revoked.extensions().len(),
        reason: or_zero(reason),
        has_reason: is_some(&reason),
    }
}

/// When the next list comes, in seconds since 1970; 0 where that isn't said.
fn next_update(list: &TbsCertList<'_>) -> i64
    ensures { AreSecondsOfSome result (tbs_list_of list.now).next_update }
{
    match &list.next_update {
        Some(time) => seconds(time),
        None => 0,
    }
}

/// Whether the next list is named: 1, and else 0.
fn has_next_update(list: &TbsCertList<'_>) -> u32
    ensures { result ≡ is_there (tbs_list_of list.now).next_update }
{
    match list.next_update {
        Some(_) => 1,
        None => 0,
    }
}

/// The number of the version; 0 where none is written.
fn version(list: &TbsCertList<'_>) -> u32
    ensures { result ≡ there_or 0 (tbs_list_of list.now).version }
{
    match list.version {
        Some(version) => version.0,
        None => 0,
    }
}

/// Whether a version is written: 1, and else 0.
fn has_version(list: &TbsCertList<'_>) -> u32
    ensures { result ≡ is_there (tbs_list_of list.now).version }
{
    match list.version {
        Some(_) => 1,
        None => 0,
    }
}

fn list_row<'a>(list: &CertificateRevocationList<'a>, rest: &'a [u8]) -> ListRow<'a>
    ensures { IsListRow result (list_of list.now) rest.now }
{
    let part = &list.tbs_cert_list;
    ListRow {
        whole: list.as_raw(),
        rest,
        signed_part: part.as_ref(),
        issuer: part.issuer.as_raw(),
        signed_algorithm: part.signature.algorithm.as_bytes(),
        signature_algorithm: list.signature_algorithm.algorithm.as_bytes(),
        signature: list.signature_value.bytes,
        this_update: seconds(&part.this_update),
        next_update: next_update(part),
        revoked_count: part.revoked_certificates.as_slice().len(),
        extension_count: part.extensions().len(),
        has_next_update: has_next_update(part),
        version: version(part),
        has_version: has_version(part),
    }
}

impl<'a> HasRow for RevokedCertificate<'a> {
    type Row = RevokedRow<'a>;

    ghost Value = { Revoked };

    ghost view = { revoked_of };

    ghost Shows = { IsRevokedRow };

    fn row(&self) -> RevokedRow<'a> {
        revoked_row(self)
    }
}

/// Reads a list; a strict reading takes it only where it stands plainly.
fn read<'a>(
    alloc: Global,
    der: &'a [u8],
    strict: bool,
) -> Result<(&'a [u8], CertificateRevocationList<'a>), Located<X509Error>>
    ensures { ReadsWhere is_x509_memory true (λ x. (x.0.now, list_of x.1)) (list_by strict) der.now result }
{
    if strict {
        Plainly.parse_located(alloc, der)
    } else {
        CertificateRevocationList::from_der_located(alloc, der)
    }
}

/// Reads the list of revoked certificates at the front of the buffer. Its entries and its extensions are written in order, as many as
/// there are rows; the list says how many there are. A strict reading refuses what stands by a lenient rule, as 3.
#[unsafe(no_mangle)]
pub extern "C" fn rtv_read_list<'a>(
    alloc: Global,
    der: &'a [u8],
    strict: bool,
    list: &mut ListRow<'a>,
    revoked: &mut [RevokedRow<'a>],
    extensions: &mut [ExtensionRow<'a>],
    at: &mut usize,
) -> u32
    ensures { Tells (list_by strict) der.now
        (λ l rest. Done (ShowsList list.new revoked.new extensions.new l rest))
        ((list.new ≡ list.old) × (revoked.new ≡ revoked.old) × (extensions.new ≡ extensions.old))
        at.old at.new result }
{
    match read(alloc, der, strict) {
        Ok((rest, read)) => {
            *list = list_row(&read, rest);
            put_rows(revoked, read.tbs_cert_list.revoked_certificates.as_slice());
            put_rows(extensions, read.extensions());
            OK
        }
        Err(refusal) => refused(refusal, at),
    }
}

/// Looks a serial up on a list: writes the first entry of that number and its position, or tells that there is none.
fn look_up<'a>(
    list: &TbsCertList<'a>,
    serial: &[u8],
    row: &mut RevokedRow<'a>,
    position: &mut usize,
) -> u32
    ensures found { LooksUp (tbs_list_of list.now).revoked_certificates (number_from_digits 256 serial.now) row.new position.new result }
    ensures kept { (result ≡ 0 → ⊥) → (row.new ≡ row.old) × (position.new ≡ position.old) }
{
    match list.find_revoked(&UnsignedBytes::new(serial)) {
        Some(k) => {
            *row = revoked_row(&list.revoked_certificates.as_slice()[k]);
            *position = k;
            OK
        }
        None => NOT_FOUND,
    }
}

/// Reads the list at the front of the buffer, and looks a serial up on it as an unsigned number: writes the first entry of that number
/// and its position among all entries, from 0 on, or answers 50 where no entry has it.
#[unsafe(no_mangle)]
pub extern "C" fn rtv_find_revoked<'a>(
    alloc: Global,
    der: &'a [u8],
    serial: &[u8],
    row: &mut RevokedRow<'a>,
    position: &mut usize,
    at: &mut usize,
) -> u32
    ensures { Tells certificate_list der.now
        (λ list _. LooksUp list.tbs.revoked_certificates (number_from_digits 256 serial.now) row.new position.new)
        ((row.new ≡ row.old) × (position.new ≡ position.old))
        at.old at.new result }
{
    match CertificateRevocationList::from_der_located(alloc, der) {
        Ok((_, list)) => look_up(&list.tbs_cert_list, serial, row, position),
        Err(refusal) => refused(refusal, at),
    }
}
