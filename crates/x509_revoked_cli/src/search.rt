//! Where entries are looked for.

ghost use Rattle.std.specs.Prelude.{◌≡◌, MatchResult, map, option_map, slice_get};
ghost use Rattle.x509_der.specs.Unsigned.{unsigned_number};
ghost use Rattle.x509_lists.specs.RevokedCertificate.{revoked_of};
ghost use Rattle.x509_revoked_cli.specs.declared.stop.Stop.TheVariants.{Memory};

use crate::stop::Stop;
use std::alloc::Global;
use x509_der::UnsignedBytes;
use x509_fields::TryClone;
use x509_lists::{RevokedCertificate, RevokedEntries};
use x509_revoked::{EntriesIndex, RevocationIndex};

/// Where entries are looked for.
#[derive(Drop)]
pub enum Search<'a> {
    /// Among all entries, one after another.
    Scan(RevokedEntries<'a>),
    /// Among all entries, by their index.
    Index(EntriesIndex<'a>),
    /// Among the entries of an issuer, by their index.
    OfIssuer(Vec<RevokedCertificate<'a>>, RevocationIndex<'a>),
}

/// The entry at a position.
fn copy_at<'a>(
    entries: &[RevokedCertificate<'a>],
    position: usize,
) -> Result<Option<RevokedCertificate<'a>>, Stop>
    ensures { MatchResult result (λ entry. option_map revoked_of entry ≡ slice_get (map revoked_of entries.now) position) (λ stop. stop ≡ Memory) }
{
    match entries.get(position) {
        Some(entry) => match entry.try_clone() {
            Ok(entry) => Ok(Some(entry)),
            Err(_) => Err(Stop::Memory),
        },
        None => Ok(None),
    }
}

impl<'a> Search<'a> {
    ghost use Rattle.x509_revoked_cli.specs.Search.{found_in};

    /// The first entry of a serial.
    pub fn find(
        &self,
        alloc: Global,
        serial: &UnsignedBytes<'_>,
    ) -> Result<Option<RevokedCertificate<'a>>, Stop>
        ensures { MatchResult result (λ entry. option_map revoked_of entry ≡ found_in self.now (unsigned_number serial.now)) (λ stop. stop ≡ Memory) }
    {
        match self {
            Search::Scan(entries) => match entries.find(alloc, serial) {
                Ok(Some((_, entry))) => Ok(Some(entry)),
                Ok(None) => Ok(None),
                Err(_) => Err(Stop::Memory),
            },
            Search::Index(index) => match index.find(alloc, serial) {
                Ok(entry) => Ok(entry),
                Err(_) => Err(Stop::Memory),
            },
            Search::OfIssuer(entries, index) => match index.find(serial) {
                Some(position) => copy_at(entries.as_slice(), position),
                None => Ok(None),
            },
        }
    }
}
