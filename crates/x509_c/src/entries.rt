//! The entries of a list one by one, for lists of any length.

ghost use Rattle.std.specs.Prelude.{◌≡◌};
ghost use Rattle.x509_lists.specs.CertificateList.{certificate_list};
ghost use Rattle.x509_lists.specs.RevokedCertificate.{revoked};
ghost use Rattle.x509_c.specs.Entries.{HoldsEntries, ShowsEntry};
ghost use Rattle.x509_c.specs.Tells.{Tells, Done};

use crate::extensions::ExtensionRow;
use crate::lists::{RevokedRow, revoked_row};
use crate::octets::OctetsRow;
use crate::row_writer::put_rows;
use crate::status::{OK, refused};
use std::alloc::Global;
use x509_der::FromDer;
use x509_lists::{CertificateListEntries, RevokedCertificate};

/// Reads the list at the front of the buffer, and keeps none of its entries: it tells the octets in which they stand, one behind another
/// and nothing behind the last, and how many there are.
#[unsafe(no_mangle)]
pub extern "C" fn rtv_read_entries<'a>(
    alloc: Global,
    der: &'a [u8],
    entries: &mut OctetsRow<'a>,
    count: &mut usize,
    at: &mut usize,
) -> u32
    ensures { Tells certificate_list der.now
        (λ list _. Done (HoldsEntries entries.new count.new list.tbs.revoked_certificates))
        ((entries.new ≡ entries.old) × (count.new ≡ count.old))
        at.old at.new result }
{
    match CertificateListEntries::from_der_located(alloc, der) {
        Ok((_, list)) => {
            let read = list.tbs_cert_list.revoked_certificates;
            *entries = OctetsRow {
                octets: read.as_bytes(),
            };
            *count = read.len();
            OK
        }
        Err(refusal) => refused(refusal, at),
    }
}

/// Reads the entry at the front of the buffer, as of the octets that `rtv_read_entries` told, and tells what stands behind it. Its
/// extensions are written in order, as many as there are rows.
#[unsafe(no_mangle)]
pub extern "C" fn rtv_read_entry<'a>(
    alloc: Global,
    der: &'a [u8],
    row: &mut RevokedRow<'a>,
    extensions: &mut [ExtensionRow<'a>],
    behind: &mut OctetsRow<'a>,
    at: &mut usize,
) -> u32
    ensures { Tells revoked der.now
        (λ entry rest. Done (ShowsEntry row.new extensions.new behind.new entry rest))
        ((row.new ≡ row.old) × (extensions.new ≡ extensions.old) × (behind.new ≡ behind.old))
        at.old at.new result }
{
    match RevokedCertificate::from_der_located(alloc, der) {
        Ok((rest, entry)) => {
            *row = revoked_row(&entry);
            put_rows(extensions, entry.extensions());
            *behind = OctetsRow { octets: rest };
            OK
        }
        Err(refusal) => refused(refusal, at),
    }
}
