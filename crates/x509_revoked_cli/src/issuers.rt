//! Entries by the text of their issuers' names.

ghost use Rattle.std.specs.Prelude.{◌≡◌, true, map, MatchResult};
ghost use Rattle.std.specs.List.{list_any};
ghost use Rattle.x509_general_names.specs.GeneralName.{general_name_of};
ghost use Rattle.x509_lists.specs.EntryIssuers.{said_by};
ghost use Rattle.x509_lists.specs.ListEntries.{tbs_entries_of};
ghost use Rattle.x509_lists.specs.RevokedCertificate.{revoked_of};
ghost use Rattle.x509_names.specs.Names.{name_of};
ghost use Rattle.x509_revoked_cli.specs.Issuers.{are_readable, entries_under, has_text, is_named, is_readable, is_under};
ghost use Rattle.x509_revoked_cli.specs.Stops.{StopsFor};
ghost use Rattle.x509_revoked_cli.specs.declared.stop.Stop.TheVariants.{Memory};

use crate::stop::Stop;
use std::alloc::Global;
use x509_fields::X509Error;
use x509_general_names::GeneralName;
use x509_lists::{RevokedCertificate, TbsCertListEntries};
use x509_names::X509Name;

/// Whether a name is shown as this text.
fn has_text(alloc: Global, name: &X509Name<'_>, text: &str) -> Result<bool, Stop>
    ensures { MatchResult result (λ has. has ≡ has_text text.now (name_of name.now)) (λ stop. stop ≡ Memory) }
{
    let shown = format!(in alloc; "{name}")?;
    Ok(shown.as_str() == text)
}

/// Whether one of these is the name of a directory that is shown as this text.
fn is_any_named(alloc: Global, names: &[GeneralName<'_>], text: &str) -> Result<bool, Stop>
    ensures { MatchResult result (λ is. is ≡ list_any (is_named text.now) (map general_name_of names.now)) (λ stop. stop ≡ Memory) }
{
    for name in names {
        if let GeneralName::DirectoryName(name) = name {
            if has_text(alloc, name, text)? {
                return Ok(true);
            }
        }
    }
    Ok(false)
}

/// Whether an entry is of an issuer with this text, where the entry before it is, or isn't.
fn is_under(
    alloc: Global,
    entry: &RevokedCertificate<'_>,
    text: &str,
    before: bool,
) -> Result<bool, Stop>
    ensures { MatchResult result
        (λ is. (is_readable (said_by (revoked_of entry.now).extensions) ≡ true) × (is ≡ is_under text.now before (said_by (revoked_of entry.now).extensions)))
        (StopsFor (is_readable (said_by (revoked_of entry.now).extensions))) }
{
    match entry.certificate_issuer(alloc) {
        Ok(Some(names)) => is_any_named(alloc, names.as_slice(), text),
        Ok(None) => Ok(before),
        Err(X509Error::OutOfMemory) => Err(Stop::Memory),
        Err(_) => Err(Stop::Unclear),
    }
}

/// The entries of issuers with this text, in the list's order: one walk over the list.
pub fn entries_under<'a>(
    alloc: Global,
    tbs: &TbsCertListEntries<'a>,
    text: &str,
) -> Result<Vec<RevokedCertificate<'a>>, Stop>
    ensures { MatchResult result
        (λ entries. (are_readable (tbs_entries_of tbs.now).revoked_certificates ≡ true)
        × (map revoked_of entries.items ≡ entries_under text.now (tbs_entries_of tbs.now)))
        (StopsFor (are_readable (tbs_entries_of tbs.now).revoked_certificates)) }
{
    let mut entries = Vec::new(alloc);
    let mut ours = has_text(alloc, &tbs.issuer, text)?;
    for read in tbs.revoked_certificates.iter(alloc) {
        let entry = match read {
            Ok(entry) => entry,
            Err(_) => return Err(Stop::Memory),
        };
        ours = is_under(alloc, &entry, text, ours)?;
        if ours && entries.push(entry).is_err() {
            return Err(Stop::Memory);
        }
    }
    Ok(entries)
}
