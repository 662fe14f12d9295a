//! The certificates of a list.

ghost use Rattle.std.specs.Prelude.{List};
ghost use Rattle.x509_der.specs.Grammar.{allocates, in_sequence};
ghost use Rattle.x509_lists.specs.RevokedCertificate.{Revoked};
ghost use Rattle.x509_lists.specs.RevokedList.{revoked_list_of, revoked_list, revoked_list_heads, revoked_list_laws};

use crate::revoked_certificate::RevokedCertificate;
use crate::tbs_parts::Entries;
use std::alloc::Global;
use x509_der::{Fields, FromDer, Outside, Place, Refused, Sequence, Tries, read_to_end};
use x509_fields::{X509Error, sequence_at};

/// Certificates that were revoked, in order. All of them are read or none is: where what stands in the SEQUENCE is no such
/// certificate, `NomError(Eof)`.
#[derive(Drop)]
pub(crate) struct RevokedList<'a> {
    pub(crate) list: Sequence<RevokedCertificate<'a>>,
}

impl<'a> FromDer<'a, X509Error> for RevokedList<'a> {
    ghost Value = { List Revoked };

    ghost view = { revoked_list_of };

    ghost grammar = { in_sequence revoked_list revoked_list_laws revoked_list_heads allocates };

    #[tactic(auto, unfolding(crate::specs::RevokedList::revoked_list), using(x509_der::proofs::Marking::marks_of_readers))]
    fn read_at<L: Outside>(
        alloc: Global,
        tries: &mut Tries,
        place: &Place<'a, L>,
    ) -> Result<(Self, bool), Refused<X509Error, L>> {
        let contents = sequence_at(place)?;
        let (list, plain) = read_to_end(alloc, tries, &contents)?;
        Ok((RevokedList { list }, plain))
    }

    ghost never_memory = { revoked_list_laws.laws.never_memory };
}

impl<'a> Entries<'a> for Sequence<RevokedCertificate<'a>> {
    ghost use Rattle.std.specs.Prelude.{map};
    ghost use Rattle.x509_lists.specs.RevokedCertificate.{revoked_of};

    ghost entries = { λ list. map revoked_of list };

    fn none(alloc: Global) -> Self {
        Sequence::new(alloc)
    }

    fn read_next<L: Outside>(
        alloc: Global,
        tries: &mut Tries,
        fields: &Fields<'a, L>,
    ) -> Result<(Fields<'a, L>, Option<Self>), Refused<X509Error, L>> {
        let (fields, entries) = fields.soft(alloc, tries)?;
        match entries {
            Some(RevokedList { list }) => Ok((fields, Some(list))),
            None => Ok((fields, None)),
        }
    }
}
