//! A structure of two fields that may be absent and one that may not.

ghost use Rattle.x509_der.specs.Grammar.{allocates, in_sequence};
ghost use Rattle.der_example.specs.Notice.{NoticeValue, notice_of, notice, notice_heads, notice_laws};

use crate::topic::{Editions, Topics};
use std::alloc::Global;
use x509_der::{BerError, Fields, FromDer, Outside, Place, Refused, Tries};

/// A notice.
#[derive(Drop)]
pub struct Notice<'a> {
    pub topics: Option<Topics<'a>>,
    pub editions: Option<Editions<'a>>,
    pub limit: u32,
}

impl<'a> FromDer<'a, BerError> for Notice<'a> {
    ghost Value = { NoticeValue };

    ghost view = { notice_of };

    ghost grammar = { in_sequence notice notice_laws notice_heads allocates };

    #[tactic(auto, unfolding(crate::specs::Notice::notice), using(x509_der::proofs::Marking::marks_of_readers))]
    fn read_at<L: Outside>(
        alloc: Global,
        tries: &mut Tries,
        place: &Place<'a, L>,
    ) -> Result<(Self, bool), Refused<BerError, L>> {
        let contents = place.sequence()?;
        let fields = Fields::of(tries, &contents);
        let (fields, topics) = fields.soft(alloc, tries)?;
        let (fields, editions) = fields.soft(alloc, tries)?;
        let limit = fields.place.u32()?;
        let notice = Notice {
            topics,
            editions,
            limit,
        };
        Ok((notice, fields.ends_here()))
    }

    ghost never_memory = { notice_laws.laws.never_memory };
}
