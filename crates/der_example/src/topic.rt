//! Identifiers, and lists of them.

ghost use Rattle.std.specs.Prelude.{ℕ, List, true};
ghost use Rattle.x509_der.specs.Grammar.{allocates, in_primitive, in_sequence, in_set};
ghost use Rattle.der_example.specs.Topics.{topic_of, topics_of, editions_of, topic, topics, editions, list_heads, topic_laws, topics_laws, editions_laws};

use std::alloc::Global;
use x509_der::{
    BerError, FromDer, Oid, Outside, Place, Refused, Sequence, Tries, read_run1, read_to_end,
};

/// What a notice is about.
#[derive(Clone, Copy)]
pub struct Topic<'a> {
    pub id: Oid<'a>,
}

impl<'a> FromDer<'a, BerError> for Topic<'a> {
    ghost Value = { List ℕ };

    ghost view = { topic_of };

    ghost grammar = { in_primitive 6 topic topic_laws };

    #[tactic(auto, unfolding(crate::specs::Topics::topic, x509_der::specs::Leaves::oid, x509_der::specs::Primitives::contents_at), using(x509_der::proofs::Marking::marks_of_readers))]
    fn read_at<L: Outside>(
        _alloc: Global,
        _tries: &mut Tries,
        place: &Place<'a, L>,
    ) -> Result<(Self, bool), Refused<BerError, L>> {
        let id = place.oid()?;
        Ok((Topic { id }, true))
    }

    ghost never_memory = { topic_laws.laws.never_memory };
}

/// Topics in a SEQUENCE that they fill.
#[derive(Drop)]
pub struct Topics<'a> {
    pub list: Sequence<Topic<'a>>,
}

impl<'a> FromDer<'a, BerError> for Topics<'a> {
    ghost Value = { List (List ℕ) };

    ghost view = { topics_of };

    ghost grammar = { in_sequence topics topics_laws list_heads allocates };

    #[tactic(auto, unfolding(crate::specs::Topics::topics), using(x509_der::proofs::Marking::marks_of_readers))]
    fn read_at<L: Outside>(
        alloc: Global,
        tries: &mut Tries,
        place: &Place<'a, L>,
    ) -> Result<(Self, bool), Refused<BerError, L>> {
        let contents = place.sequence()?;
        let (list, plain) = read_to_end(alloc, tries, &contents)?;
        Ok((Topics { list }, plain))
    }

    ghost never_memory = { topics_laws.laws.never_memory };
}

/// Topics at the beginning of a SET, at least one.
#[derive(Drop)]
pub struct Editions<'a> {
    pub list: Sequence<Topic<'a>>,
}

impl<'a> FromDer<'a, BerError> for Editions<'a> {
    ghost Value = { List (List ℕ) };

    ghost view = { editions_of };

    ghost grammar = { in_set editions editions_laws list_heads allocates };

    #[tactic(auto, unfolding(crate::specs::Topics::editions), using(x509_der::proofs::Marking::marks_of_readers))]
    fn read_at<L: Outside>(
        alloc: Global,
        tries: &mut Tries,
        place: &Place<'a, L>,
    ) -> Result<(Self, bool), Refused<BerError, L>> {
        let contents = place.set()?;
        let (tail, list, plain) = read_run1(alloc, tries, &contents)?;
        Ok((Editions { list }, plain & tail.is_empty()))
    }

    ghost never_memory = { editions_laws.laws.never_memory };
}
