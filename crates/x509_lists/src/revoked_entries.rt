//! The certificates of a list, left in their octets.

ghost use Rattle.std.specs.Prelude.{List};
ghost use Rattle.x509_der.specs.Grammar.{allocates, in_sequence};
ghost use Rattle.x509_lists.specs.EntriesIn.{HoldsEntries};
ghost use Rattle.x509_lists.specs.RevokedCertificate.{Revoked};
ghost use Rattle.x509_lists.specs.RevokedList.{revoked_list, revoked_list_heads, revoked_list_laws};

use crate::entries_iter::EntriesIter;
use crate::entries_run::read_entries;
use crate::tbs_parts::Entries;
use std::alloc::Global;
use x509_der::{Fields, FromDer, Outside, Place, Refused, Tries};
use x509_fields::{TryClone, X509Error, sequence_at};

/// The certificates that a list revokes, in order (RFC 5280, section 5.1.2.6), which stay in the octets that they were read from: each
/// was read once, and is read again when it is asked for, so they take no memory, however many there are. Equality goes by the octets.
#[derive(Clone, Copy, Debug, Drop, PartialEq)]
pub struct RevokedEntries<'a> {
    pub(crate) bytes: &'a [u8],
    pub(crate) count: usize,
    ghost holds: { HoldsEntries bytes.now count },
}

impl<'a> RevokedEntries<'a> {
    ghost use Rattle.std.specs.Prelude.{◌≡◌, ◌==◌, ◌<◌, [], ◌∷◌, length};
    ghost use Rattle.x509_der.specs.Looks.{behind};
    ghost use Rattle.x509_der.specs.Place.{at};
    ghost use Rattle.x509_der.specs.Plan.{got, members};
    ghost use Rattle.x509_lists.specs.RevokedCertificate.{revoked};
    ghost use Rattle.x509_lists.specs.RevokedEntries.{octets_of, entries_of, entries_left};

    /// How many certificates there are.
    pub fn len(&self) -> usize
        ensures { result ≡ length (entries_of self.now) }
    {
        self.count
    }

    /// Whether there is none.
    pub fn is_empty(&self) -> bool
        ensures { result ≡ (length (entries_of self.now) == 0) }
    {
        self.count == 0
    }

    /// The octets of the certificates, end to end, with nothing behind the last.
    pub fn as_bytes(&self) -> &'a [u8]
        ensures octets { result.now ≡ octets_of self.now }
        ensures holds { members revoked result.now ≡ ([], entries_of self.now) }
    {
        self.bytes
    }

    /// The certificates behind the first one, which stands at this place.
    pub(crate) fn behind_first<L: Outside>(&self, place: &Place<'a, L>) -> RevokedEntries<'a>
        requires some { 0 < length self.now.bytes.now }
        requires there { at place.now ≡ self.now.bytes.now }
        ensures { (entry : Revoked) × (revoked.read (at place.now) ≡ got entry (behind (at place.now))) × (entries_of self.now ≡ entry ∷ entries_of result)
            × (result.bytes.now ≡ behind (at place.now)) }
    {
        RevokedEntries {
            bytes: place.rest(),
            count: self.count - 1,
        }
    }

    /// Reads them again, one after another. The extensions of each take memory from here.
    pub fn iter(&self, alloc: Global) -> EntriesIter<'a>
        ensures { entries_left result ≡ entries_of self.now }
    {
        EntriesIter { alloc, left: *self }
    }
}

impl<'a> FromDer<'a, X509Error> for RevokedEntries<'a> {
    ghost use Rattle.x509_lists.specs.RevokedEntries.{entries_of};

    ghost Value = { List Revoked };

    ghost view = { entries_of };

    ghost grammar = { in_sequence revoked_list revoked_list_laws revoked_list_heads allocates };

    #[tactic(auto, unfolding(crate::specs::RevokedList::revoked_list), using(x509_der::proofs::Marking::marks_of_readers))]
    fn read_at<L: Outside>(
        alloc: Global,
        tries: &mut Tries,
        place: &Place<'a, L>,
    ) -> Result<(Self, bool), Refused<X509Error, L>> {
        let contents = sequence_at(place)?;
        let (entries, plain) = read_entries(alloc, tries, &contents)?;
        Ok((entries, plain))
    }

    ghost never_memory = { revoked_list_laws.laws.never_memory };
}

impl<'a> Entries<'a> for RevokedEntries<'a> {
    ghost use Rattle.x509_lists.specs.RevokedEntries.{entries_of};

    ghost entries = { entries_of };

    fn none(_alloc: Global) -> Self {
        RevokedEntries {
            bytes: &[],
            count: 0,
        }
    }

    fn read_next<L: Outside>(
        alloc: Global,
        tries: &mut Tries,
        fields: &Fields<'a, L>,
    ) -> Result<(Fields<'a, L>, Option<Self>), Refused<X509Error, L>> {
        fields.soft(alloc, tries)
    }
}

impl TryClone for RevokedEntries<'_> {
    fn try_clone(&self) -> Result<Self, X509Error> {
        Ok(*self)
    }
}
