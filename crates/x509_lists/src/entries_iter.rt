//! Reading the certificates of a list again, one after another.

ghost use Rattle.std.specs.Iterator.{item_count};
ghost use Rattle.x509_lists.specs.RevokedEntries.{GivesEntry, entries_left};

use crate::revoked_certificate::RevokedCertificate;
use crate::revoked_entries::RevokedEntries;
use std::alloc::Global;
use x509_der::{FromDer, Place, Tries, Window};
use x509_fields::X509Error;

/// The certificates that a list revokes, in order, each read when it is asked for. Where memory is wanting for the extensions of
/// one, that is what stands for it, and the next call gives the one behind it.
#[derive(Debug, Drop)]
pub struct EntriesIter<'a> {
    pub(crate) alloc: Global,
    pub(crate) left: RevokedEntries<'a>,
}

impl<'a> Iterator for EntriesIter<'a> {
    type Item = Result<RevokedCertificate<'a>, X509Error>;

    ghost next_gives = { GivesEntry };

    ghost remaining = { item_count entries_left };

    fn next(&mut self) -> Option<Result<RevokedCertificate<'a>, X509Error>> {
        if self.left.bytes.is_empty() {
            return None;
        }
        let mut tries = Tries::new();
        // compiled apart from the reader of a list that keeps its certificates, as in the pass over them
        let place = Place::inside(&mut tries, &Window::counted(self.left.bytes));
        self.left = self.left.behind_first(&place);
        match RevokedCertificate::read_at(self.alloc, &mut tries, &place) {
            Ok((certificate, _)) => Some(Ok(certificate)),
            Err(e) => Some(Err(X509Error::from(e.why))),
        }
    }
}
