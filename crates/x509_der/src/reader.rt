//! Readers with settings.

ghost use Rattle.std.specs.Prelude.{◌≡◌, ◌≤◌, ◌+◌, ◌*◌, ⊤, Bool, true, false, List, ℕ, length, Err as Refusing, IfOk, IfErr};
ghost use Rattle.x509_der.specs.declared.error.Err.{Err as Refusal};
ghost use Rattle.x509_der.specs.Grammar.{Grammar, ReadsBy, TriesBy};
ghost use Rattle.x509_der.specs.Laws.{IsBytes, NeverMemory};
ghost use Rattle.x509_der.specs.Looks.{behind};
ghost use Rattle.x509_der.specs.Place.{at, outside_of};
ghost use Rattle.x509_der.specs.Plan.{got};
ghost use Rattle.x509_der.specs.Promises.{Answers, ReadsExactly, ReadsWhere, is_excused};
ghost use Rattle.x509_der.specs.Reading.{tried};

use crate::error::{Err, Located, ReadError, Refused};
use crate::from_der::FromDer;
use crate::outside::Outside;
use crate::place::Place;
use crate::tries::Tries;
use std::alloc::Global;

/// What reads one element by settings of its own: how deep it looks, whether it is strict, under which number the element stands.
///
/// It gives what [`FromDer`] gives for a type, by its settings; [`Reader::parse`], [`Reader::parse_located`], [`Reader::read`] and
/// [`Reader::read_marked`] follow for every reader at once.
pub trait Reader<'a, E: ReadError, X>: Sized {
    /// What a value is, without where it lies in memory.
    ghost Value: { Type 0 };

    ghost view: { X → Value };

    /// Its grammar by the settings, with the laws of it: its sentences, its refusals, and the one reading of the bytes.
    ghost grammar: { Self → Grammar E Value };

    /// As `tight` of a type.
    ghost tight: { List ℕ → ℕ → ℕ → Type 0 } = { λ _ _ _. ⊤ };

    /// Whether it looks at all that a value holds.
    ghost is_deep: { Self → Bool } = { λ _. true };

    /// How many octets of a value's element a reader that isn't deep leaves alone.
    ghost unread: { Value → ℕ };

    /// What is true of bytes, the value that was read from them, and the rest.
    ghost stands: { Self → List ℕ → Value → List ℕ → Type 0 };

    /// Of which readers `refused` speaks.
    ghost tells_refusals: { Self → Type 0 } = { λ _. ⊤ };

    /// What is true of bytes that were refused.
    ghost refused: { Self → List ℕ → Refusal E → Type 0 } = { λ _ _ _. ⊤ };

    ghost stands_where: { (reader : Self) (bytes : List ℕ) (value : Value) (rest : List ℕ) → IsBytes bytes
        → (grammar reader).plan.read bytes ≡ got value rest → stands reader bytes value rest };

    ghost refused_where: { (reader : Self) (bytes : List ℕ) (why : Refusal E) → tells_refusals reader → IsBytes bytes
        → (grammar reader).plan.read bytes ≡ Refusing why → refused reader bytes why };

    /// Reads the element at a place that was looked at, tells whether it stands plainly, and counts the headers that it tries
    /// beyond that look.
    fn read_at<L: Outside>(
        &self,
        alloc: Global,
        tries: &mut Tries,
        place: &Place<'a, L>,
    ) -> Result<(X, bool), Refused<E, L>>
        ensures reads { ReadsBy E.is_memory (grammar self.now) view L.adds (at place.now) (outside_of place.now) tries.old tries.new result }
        ensures tight { tight (at place.now) tries.old tries.new }
        // Eight for each byte that it looks at.
        ensures shallow { is_deep self.now ≡ false
            → IfOk result (λ x. tries.new + 9 + 8 * unread (view x.0) + 8 * length (behind (at place.now)) ≤ tries.old + 8 * length (at place.now)) };

    /// No refusal of the grammar is want of memory, so that is answered only where memory was refused.
    ghost never_memory: { (reader : Self) → NeverMemory E.is_memory (grammar reader).plan };

    /// Reads the element at the front, tells whether it stands plainly, and counts the headers that it tries: at most eight
    /// for each byte, of those alone that it looks at.
    #[inline(always)]
    final fn read_marked(
        &self,
        alloc: Global,
        tries: &mut Tries,
        i: &'a [u8],
    ) -> Result<(&'a [u8], X, bool), Err<E>>
        ensures reads { Answers E.is_memory (grammar self.now).takes_memory (λ x. (x.0.now, view x.1)) result ((grammar self.now).plan.read i.now) }
        ensures marks { IfOk result (λ x. x.2 ≡ (grammar self.now).plan.marks i.now) }
        ensures stands { IfOk result (λ x. stands self.now i.now (view x.1) x.0.now) }
        ensures refused { tells_refusals self.now
            → IfErr result (λ e. is_excused E.is_memory (grammar self.now).takes_memory e ≡ false → refused self.now i.now e) }
        ensures tries { TriesBy (grammar self.now) (λ x. (x.0.now, view x.1)) i.now tries.old tries.new result }
        ensures tight { tight i.now (tried tries.old i.now) tries.new }
        ensures shallow { is_deep self.now ≡ false
            → IfOk result (λ x. tries.new + 8 + 8 * unread (view x.1) + 8 * length x.0.now ≤ tries.old + 8 * length i.now) }
    {
        let place = Place::look(tries, i);
        match self.read_at(alloc, tries, &place) {
            Ok((value, plain)) => Ok((place.rest(), value, plain)),
            Err(e) => Err(e.why),
        }
    }

    /// The same without its mark.
    #[inline(always)]
    final fn read(
        &self,
        alloc: Global,
        tries: &mut Tries,
        i: &'a [u8],
    ) -> Result<(&'a [u8], X), Err<E>>
        ensures reads { Answers E.is_memory (grammar self.now).takes_memory (λ x. (x.0.now, view x.1)) result ((grammar self.now).plan.read i.now) }
        ensures stands { IfOk result (λ x. stands self.now i.now (view x.1) x.0.now) }
        ensures refused { tells_refusals self.now
            → IfErr result (λ e. is_excused E.is_memory (grammar self.now).takes_memory e ≡ false → refused self.now i.now e) }
        ensures tries { TriesBy (grammar self.now) (λ x. (x.0.now, view x.1)) i.now tries.old tries.new result }
        ensures tight { tight i.now (tried tries.old i.now) tries.new }
        ensures shallow { is_deep self.now ≡ false
            → IfOk result (λ x. tries.new + 8 + 8 * unread (view x.1) + 8 * length x.0.now ≤ tries.old + 8 * length i.now) }
    {
        // not by `read_marked`: each layer that a value passes through is a copy of it
        let front = Place::look(tries, i);
        match self.read_at(alloc, tries, &front) {
            Ok((value, _)) => Ok((front.rest(), value)),
            Err(e) => Err(e.why),
        }
    }

    /// Reads the element at the front: exactly where a front of the bytes is in the grammar, with its value and the rest.
    final fn parse(&self, alloc: Global, i: &'a [u8]) -> Result<(&'a [u8], X), Err<E>>
        ensures exact { ReadsExactly E.is_memory (grammar self.now).takes_memory (λ x. (x.0.now, view x.1)) (grammar self.now).plan i.now result }
        ensures stands { IfOk result (λ x. stands self.now i.now (view x.1) x.0.now) }
        ensures refused { tells_refusals self.now
            → IfErr result (λ e. is_excused E.is_memory (grammar self.now).takes_memory e ≡ false → refused self.now i.now e) }
    {
        let mut tries = Tries::new();
        self.read(alloc, &mut tries, i)
    }

    /// Reads the element at the front as [`Reader::parse`] does; a refusal has the offset of the place at which the grammar
    /// refuses the bytes.
    final fn parse_located(&self, alloc: Global, i: &'a [u8]) -> Result<(&'a [u8], X), Located<E>>
        ensures exact { ReadsWhere E.is_memory (grammar self.now).takes_memory (λ x. (x.0.now, view x.1)) (grammar self.now).plan i.now result }
        ensures stands { IfOk result (λ x. stands self.now i.now (view x.1) x.0.now) }
        ensures refused { tells_refusals self.now
            → IfErr result (λ e. is_excused E.is_memory (grammar self.now).takes_memory e.why ≡ false → refused self.now i.now e.why) }
    {
        let mut tries = Tries::new();
        let place = Place::look_before(&mut tries, i, 0usize);
        match self.read_at(alloc, &mut tries, &place) {
            Ok((value, _)) => Ok((place.rest(), value)),
            Err(e) => Err(e.located(i.len())),
        }
    }
}

/// The reader of a type, which has no settings.
#[derive(Clone, Copy, Debug)]
pub struct OfType;

impl<'a, E: ReadError, T: FromDer<'a, E>> Reader<'a, E, T> for OfType {
    ghost Value = { T.Value };

    ghost view = { T.view };

    ghost grammar = { λ _. T.grammar };

    ghost tight = { T.tight };

    ghost unread = { λ _. 0 };

    ghost stands = { λ _ _ _ _. ⊤ };

    ghost stands_where = { λ _ _ _ _ _ _. tt };

    ghost refused_where = { λ _ _ _ _ _ _. tt };

    fn read_at<L: Outside>(
        &self,
        alloc: Global,
        tries: &mut Tries,
        place: &Place<'a, L>,
    ) -> Result<(T, bool), Refused<E, L>> {
        T::read_at(alloc, tries, place)
    }

    ghost never_memory = { λ _. T.never_memory };
}
