//! The trait of what is read from one element.

ghost use Rattle.std.specs.Prelude.{◌≡◌, ⊤, List, ℕ, IfOk};
ghost use Rattle.x509_der.specs.Grammar.{Grammar, ReadsBy, TriesBy};
ghost use Rattle.x509_der.specs.Laws.{NeverMemory};
ghost use Rattle.x509_der.specs.Place.{at, outside_of};
ghost use Rattle.x509_der.specs.Reading.{tried};
ghost use Rattle.x509_der.specs.Promises.{Answers, ReadsExactly, ReadsWhere};

use crate::error::{Err, Located, ReadError, Refused};
use crate::outside::Outside;
use crate::place::Place;
use crate::tries::Tries;
use std::alloc::Global;

/// What can be read from the first element of some bytes.
///
/// A type says what its values are apart from memory (`Value`, `view`) and gives its grammar: the plan with its laws and its
/// marks, and what readers need to know of it. Its `read_at` then answers what the plan reads, and [`FromDer::read_marked`],
/// [`FromDer::read`] and [`FromDer::from_der`] follow for every type at once.
pub trait FromDer<'a, E: ReadError>: Sized {
    /// What a value is, without where it lies in memory.
    ghost Value: { Type 0 };

    ghost view: { Self → Value };

    /// Its grammar, with the laws of it: its sentences, its refusals, and the one reading of the bytes.
    ghost grammar: { Grammar E Value };

    /// A sharper bound on the tries of these bytes beyond the look at them, for the types that have one: the counts before and after.
    ghost tight: { List ℕ → ℕ → ℕ → Type 0 } = { λ _ _ _. ⊤ };

    /// Reads the element at a place that was looked at, tells whether it stands plainly, and counts the headers that it tries
    /// beyond that look.
    fn read_at<L: Outside>(
        alloc: Global,
        tries: &mut Tries,
        place: &Place<'a, L>,
    ) -> Result<(Self, bool), Refused<E, L>>
        ensures reads { ReadsBy E.is_memory grammar view L.adds (at place.now) (outside_of place.now) tries.old tries.new result }
        ensures tight { tight (at place.now) tries.old tries.new };

    /// No refusal of the grammar is want of memory, so that is answered only where memory was refused.
    ghost never_memory: { NeverMemory E.is_memory grammar.plan };

    /// Reads the element at the front, tells whether it stands plainly, and counts the headers that it tries: at most eight
    /// for each byte.
    #[inline(always)]
    final fn read_marked(
        alloc: Global,
        tries: &mut Tries,
        i: &'a [u8],
    ) -> Result<(&'a [u8], Self, bool), Err<E>>
        ensures reads { Answers E.is_memory grammar.takes_memory (λ x. (x.0.now, view x.1)) result (grammar.plan.read i.now) }
        ensures marks { IfOk result (λ x. x.2 ≡ grammar.plan.marks i.now) }
        ensures tries { TriesBy grammar (λ x. (x.0.now, view x.1)) i.now tries.old tries.new result }
        ensures tight { tight i.now (tried tries.old i.now) tries.new }
    {
        let place = Place::look(tries, i);
        match Self::read_at(alloc, tries, &place) {
            Ok((value, plain)) => Ok((place.rest(), value, plain)),
            Err(e) => Err(e.why),
        }
    }

    /// The same without its mark.
    #[inline(always)]
    final fn read(alloc: Global, tries: &mut Tries, i: &'a [u8]) -> Result<(&'a [u8], Self), Err<E>>
        ensures reads { Answers E.is_memory grammar.takes_memory (λ x. (x.0.now, view x.1)) result (grammar.plan.read i.now) }
        ensures tries { TriesBy grammar (λ x. (x.0.now, view x.1)) i.now tries.old tries.new result }
        ensures tight { tight i.now (tried tries.old i.now) tries.new }
    {
        // not by `read_marked`: each layer that a value passes through is a copy of it
        let front = Place::look(tries, i);
        match Self::read_at(alloc, tries, &front) {
            Ok((value, _)) => Ok((front.rest(), value)),
            Err(e) => Err(e.why),
        }
    }

    /// Reads the element at the front: exactly where a front of the bytes is in the grammar, with its value and the rest.
    final fn from_der(alloc: Global, i: &'a [u8]) -> Result<(&'a [u8], Self), Err<E>>
        ensures { ReadsExactly E.is_memory grammar.takes_memory (λ x. (x.0.now, view x.1)) grammar.plan i.now result }
    {
        let mut tries = Tries::new();
        Self::read(alloc, &mut tries, i)
    }

    /// Reads the element at the front as [`FromDer::from_der`] does; a refusal has the offset of the place at which the
    /// grammar refuses the bytes.
    final fn from_der_located(alloc: Global, i: &'a [u8]) -> Result<(&'a [u8], Self), Located<E>>
        ensures { ReadsWhere E.is_memory grammar.takes_memory (λ x. (x.0.now, view x.1)) grammar.plan i.now result }
    {
        let mut tries = Tries::new();
        let place = Place::look_before(&mut tries, i, 0usize);
        match Self::read_at(alloc, &mut tries, &place) {
            Ok((value, _)) => Ok((place.rest(), value)),
            Err(e) => Err(e.located(i.len())),
        }
    }

    /// Reads the element at the front as [`FromDer::from_der_located`] does, and tells whether it stands plainly.
    final fn from_der_marked_located(
        alloc: Global,
        i: &'a [u8],
    ) -> Result<(&'a [u8], Self, bool), Located<E>>
        ensures exact { ReadsWhere E.is_memory grammar.takes_memory (λ x. (x.0.now, view x.1)) grammar.plan i.now result }
        ensures marks { IfOk result (λ x. x.2 ≡ grammar.plan.marks i.now) }
    {
        let mut tries = Tries::new();
        let place = Place::look_before(&mut tries, i, 0usize);
        match Self::read_at(alloc, &mut tries, &place) {
            Ok((value, plain)) => Ok((place.rest(), value, plain)),
            Err(refused) => Err(refused.located(i.len())),
        }
    }
}
