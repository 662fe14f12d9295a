//! Reading whole lists.

ghost use Rattle.std.specs.Prelude.{◌≡◌, true, IfOk};
ghost use Rattle.x509_der.specs.Promises.{Answers, ReadsExactly, ReadsWhere};
ghost use Rattle.x509_fields.specs.Errors.{is_x509_memory};
ghost use Rattle.x509_lists.specs.CertificateList.{ListStands, list_of, certificate_list, plain_list};
ghost use Rattle.x509_lists.specs.ListEntries.{list_entries_of};

use crate::certificate_list::{CertificateListEntries, CertificateRevocationList};
use std::alloc::Global;
use x509_der::{Err, FromDer, Located, Reader, Tries};
use x509_fields::{Plainly, X509Error, X509Result};

/// Reads the list of revoked certificates at the front of the bytes (RFC 5280, section 5.1), and gives what stands behind it.
///
/// # Errors
///
/// Those of the first field in reading order that can't be read, and `Failure(OutOfMemory)`. Revoked certificates of which one
/// can't be read are refused all together: then the wrapper of the list's extensions is missed where they stand,
/// `Error(InvalidExtensions)`.
pub fn parse_x509_crl<'a>(
    alloc: Global,
    i: &'a [u8],
) -> X509Result<'a, CertificateRevocationList<'a>>
    ensures exact { ReadsExactly is_x509_memory true (λ x. (x.0.now, list_of x.1)) certificate_list i.now result }
    ensures stands { IfOk result (λ x. ListStands i.now (list_of x.1) x.0.now) }
{
    CertificateRevocationList::from_der(alloc, i)
}

/// The same as [`parse_x509_crl`]; a refusal has the offset, in octets from the front, of the place at which the grammar refuses
/// the bytes.
///
/// # Errors
///
/// Those of [`parse_x509_crl`], with their offset; want of memory has none.
pub fn parse_x509_crl_located<'a>(
    alloc: Global,
    i: &'a [u8],
) -> Result<(&'a [u8], CertificateRevocationList<'a>), Located<X509Error>>
    ensures exact { ReadsWhere is_x509_memory true (λ x. (x.0.now, list_of x.1)) certificate_list i.now result }
    ensures stands { IfOk result (λ x. ListStands i.now (list_of x.1) x.0.now) }
{
    CertificateRevocationList::from_der_located(alloc, i)
}

/// The same as [`parse_x509_crl`].
pub fn parse_crl_der<'a>(
    alloc: Global,
    i: &'a [u8],
) -> X509Result<'a, CertificateRevocationList<'a>>
    ensures exact { ReadsExactly is_x509_memory true (λ x. (x.0.now, list_of x.1)) certificate_list i.now result }
    ensures stands { IfOk result (λ x. ListStands i.now (list_of x.1) x.0.now) }
{
    parse_x509_crl(alloc, i)
}

/// Reads the list of revoked certificates at the front of the bytes where it stands plainly, by no rule that is looser than the
/// standard, and gives what stands behind it.
///
/// # Errors
///
/// Those of [`parse_x509_crl`], and `Error(Generic)` where a list is read that doesn't stand plainly.
pub fn parse_x509_crl_strict<'a>(
    alloc: Global,
    i: &'a [u8],
) -> X509Result<'a, CertificateRevocationList<'a>>
    ensures exact { ReadsExactly is_x509_memory true (λ x. (x.0.now, list_of x.1)) plain_list i.now result }
    ensures stands { IfOk result (λ x. ListStands i.now (list_of x.1) x.0.now) }
{
    Plainly.parse(alloc, i)
}

/// The same as [`parse_x509_crl`], and whether the list stands plainly: whether [`parse_x509_crl_strict`] would take it too. The
/// bytes are read once.
///
/// # Errors
///
/// Those of [`parse_x509_crl`].
pub fn parse_x509_crl_marked<'a>(
    alloc: Global,
    i: &'a [u8],
) -> Result<(&'a [u8], CertificateRevocationList<'a>, bool), Err<X509Error>>
    ensures reads { Answers is_x509_memory true (λ x. (x.0.now, list_of x.1)) result (certificate_list.read i.now) }
    ensures marks { IfOk result (λ x. x.2 ≡ certificate_list.marks i.now) }
{
    CertificateRevocationList::read_marked(alloc, &mut Tries::new(), i)
}

/// Reads the list of revoked certificates at the front of the bytes as [`parse_x509_crl`] does, and keeps none of its certificates: it
/// takes what that takes, with the same value, and refuses what that refuses, for the same reason. Each certificate is read again when
/// it is asked for.
///
/// # Errors
///
/// Those of [`parse_x509_crl`].
pub fn parse_x509_crl_entries<'a>(
    alloc: Global,
    i: &'a [u8],
) -> X509Result<'a, CertificateListEntries<'a>>
    ensures exact { ReadsExactly is_x509_memory true (λ x. (x.0.now, list_entries_of x.1)) certificate_list i.now result }
    ensures stands { IfOk result (λ x. ListStands i.now (list_entries_of x.1) x.0.now) }
{
    CertificateListEntries::from_der(alloc, i)
}

/// The same as [`parse_x509_crl_entries`]; a refusal has the offset, in octets from the front, of the place at which the grammar refuses
/// the bytes.
///
/// # Errors
///
/// Those of [`parse_x509_crl_located`].
pub fn parse_x509_crl_entries_located<'a>(
    alloc: Global,
    i: &'a [u8],
) -> Result<(&'a [u8], CertificateListEntries<'a>), Located<X509Error>>
    ensures exact { ReadsWhere is_x509_memory true (λ x. (x.0.now, list_entries_of x.1)) certificate_list i.now result }
    ensures stands { IfOk result (λ x. ListStands i.now (list_entries_of x.1) x.0.now) }
{
    CertificateListEntries::from_der_located(alloc, i)
}

/// Reads the list of revoked certificates at the front of the bytes as [`parse_x509_crl_strict`] does, where it stands plainly, by no
/// rule that is looser than the standard, and keeps none of its certificates.
///
/// # Errors
///
/// Those of [`parse_x509_crl_strict`].
pub fn parse_x509_crl_entries_strict<'a>(
    alloc: Global,
    i: &'a [u8],
) -> X509Result<'a, CertificateListEntries<'a>>
    ensures exact { ReadsExactly is_x509_memory true (λ x. (x.0.now, list_entries_of x.1)) plain_list i.now result }
    ensures stands { IfOk result (λ x. ListStands i.now (list_entries_of x.1) x.0.now) }
{
    Plainly.parse(alloc, i)
}
