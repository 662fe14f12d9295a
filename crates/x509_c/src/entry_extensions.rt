//! The extensions of a list's entries.

ghost use Rattle.std.specs.Prelude.{◌≡◌};
ghost use Rattle.x509_extensions.specs.Extension.{Extension, extension_of};
ghost use Rattle.x509_lists.specs.CertificateList.{certificate_list};
ghost use Rattle.x509_c.specs.EntryExtensions.{IsEntryExtensionRow, entry_extensions};
ghost use Rattle.x509_c.specs.Rows.{CountsAndShows};
ghost use Rattle.x509_c.specs.Tells.{Tells, Done};

use crate::row_writer::{HasNumberedRow, ItemsOf, tell_items};
use crate::status::refused;
use std::alloc::Global;
use x509_der::FromDer;
use x509_extensions::X509Extension;
use x509_lists::{CertificateRevocationList, RevokedCertificate};

/// An extension of an entry: `rtv_entry_extension` of rushtrivet.h.
#[repr(C)]
#[derive(Clone, Copy)]
pub struct EntryExtensionRow<'a> {
    /// The contents of its identifier.
    pub oid: &'a [u8],
    /// The contents of the OCTET STRING that holds its value.
    pub value: &'a [u8],
    /// The position of its entry on the list, from 0 on.
    pub entry: usize,
    /// 1 where it is critical, and else 0.
    pub critical: u32,
}

impl<'a> HasNumberedRow for X509Extension<'a> {
    type Row = EntryExtensionRow<'a>;

    ghost Value = { Extension };

    ghost view = { extension_of };

    ghost Shows = { IsEntryExtensionRow };

    fn numbered_row(&self, number: usize) -> EntryExtensionRow<'a> {
        EntryExtensionRow {
            oid: self.oid.as_bytes(),
            value: self.value,
            entry: number,
            critical: u32::from(self.critical),
        }
    }
}

/// The extensions of entries.
struct EntryExtensions;

impl<'a> ItemsOf<RevokedCertificate<'a>, X509Extension<'a>> for EntryExtensions {
    ghost own = { λ r. r.extensions };

    fn items<'v>(member: &'v RevokedCertificate<'a>) -> &'v [X509Extension<'a>] {
        member.extensions()
    }
}

/// Reads the list at the front of the buffer. The extensions of all its entries are written in order, as many as there are rows, each with
/// the position of its entry, and all of them are counted.
#[unsafe(no_mangle)]
pub extern "C" fn rtv_read_entry_extensions<'a>(
    alloc: Global,
    der: &'a [u8],
    rows: &mut [EntryExtensionRow<'a>],
    count: &mut usize,
    at: &mut usize,
) -> u32
    ensures { Tells certificate_list der.now
        (λ list _. Done (CountsAndShows IsEntryExtensionRow rows.new count.new (entry_extensions list.tbs.revoked_certificates)))
        ((rows.new ≡ rows.old) × (count.new ≡ count.old))
        at.old at.new result }
{
    match CertificateRevocationList::from_der_located(alloc, der) {
        Ok((_, list)) => {
            let entries = list.tbs_cert_list.revoked_certificates.as_slice();
            tell_items::<X509Extension<'a>, _, EntryExtensions>(rows, count, entries)
        }
        Err(refusal) => refused(refusal, at),
    }
}
