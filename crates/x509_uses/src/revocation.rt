//! Looking up whether a certificate is revoked.

ghost use Rattle.std.specs.Prelude.{◌≡◌, ℕ, IfErr, IfOk, false, true};
ghost use Rattle.std.specs.Option.{option_map};
ghost use Rattle.x509_der.specs.Promises.{is_excused};
ghost use Rattle.x509_der.specs.Unsigned.{unsigned_number};
ghost use Rattle.x509_fields.specs.Errors.{is_x509_memory};
ghost use Rattle.x509_fields.specs.declared.error.X509Error.TheVariants.{OutOfMemory};
ghost use Rattle.x509_lists.specs.CertificateList.{certificate_list};
ghost use Rattle.x509_lists.specs.RevokedCertificate.{revoked_of};
ghost use Rattle.x509_lists.specs.TbsCertList.{tbs_list_of};
ghost use Rattle.x509_uses.specs.Revocation.{IsEntryIn, IsEntryOf, count_among};

use std::alloc::Global;
use x509_parser::der::{Err, UnsignedBytes};
use x509_parser::error::X509Error;
use x509_parser::parse_x509_crl_entries;
use x509_parser::revocation_list::{CertificateRevocationList, RevokedCertificate};
use x509_revoked::RevocationIndex;

#[cfg(test)]
mod tests;

/// The first entry of a serial, by looking at each.
pub fn entry_of<'l, 'a>(
    list: &'l CertificateRevocationList<'a>,
    serial: &UnsignedBytes<'_>,
) -> Option<&'l RevokedCertificate<'a>>
    ensures { IsEntryOf (tbs_list_of list.now.tbs_cert_list).revoked_certificates (unsigned_number serial.now) (option_map (λ r. revoked_of r.now) result) }
{
    let position = list.tbs_cert_list.find_revoked(serial)?;
    Some(&list.tbs_cert_list.revoked_certificates.as_slice()[position])
}

/// How many of these serials are on the list, by an index: a few comparisons for each.
pub fn count_revoked(
    list: &CertificateRevocationList<'_>,
    serials: &[UnsignedBytes<'_>],
) -> Result<usize, X509Error>
    ensures counted { IfOk result (λ count. count ≡ count_among (tbs_list_of list.now.tbs_cert_list).revoked_certificates serials.now) }
    ensures memory { IfErr result (λ e. e ≡ OutOfMemory) }
{
    let index = RevocationIndex::build(&list.tbs_cert_list)?;
    Ok(
        serials
            .iter()
            .filter(|serial| index.find(*serial).is_some())
            .count(),
    )
}

/// The position and the entry of a serial on a list of any length, which stays in its octets.
pub fn entry_in_octets<'a>(
    alloc: Global,
    octets: &'a [u8],
    serial: &UnsignedBytes<'_>,
) -> Result<Option<(usize, RevokedCertificate<'a>)>, Err<X509Error>>
    ensures found { IfOk result (IsEntryIn octets.now (unsigned_number serial.now)) }
    ensures refused { IfErr result (λ e. is_excused is_x509_memory true e ≡ false → (left : ℕ) × certificate_list.Refuses octets.now e left) }
{
    let (_, list) = parse_x509_crl_entries(alloc, octets)?;
    list.tbs_cert_list
        .revoked_certificates
        .find(alloc, serial)
        .map_err(Err::Failure)
}
