//! The fields of a container, one behind the other, each looked at when the cursor comes to it.

ghost use Rattle.std.specs.Prelude.{◌≡◌, ◌≤◌, ◌+◌, ◌*◌, ◌&&◌, true, false, min, length, List, ℕ, IfOk};
ghost use Rattle.x509_der.specs.Cut.{Cut};
ghost use Rattle.x509_der.specs.Fields.{next_of, outer_of, plain_in, ahead, LooksOnce, ReadsLast, ReadsNext, ReadsSoft, StepsLeaf, StepsSoftLeaf};
ghost use Rattle.x509_der.specs.Integer.{integer_bytes};
ghost use Rattle.x509_der.specs.Leaves.{bool, bool_loose, u32, integer, implicit, implicit_u32, oid, octets};
ghost use Rattle.x509_der.specs.Looks.{behind, is_element, tried_behind};
ghost use Rattle.x509_der.specs.Oid.{oid_bytes};
ghost use Rattle.x509_der.specs.Place.{bytes_in, outside_in};
ghost use Rattle.x509_der.specs.Plan.{nothing_left};
ghost use Rattle.x509_der.specs.Promises.{option_view};
ghost use Rattle.x509_der.specs.Reading.{AddsAtLeast, Element, TriesOnce};

use crate::error::{BerError, ReadError, Refused};
use crate::from_der::FromDer;
use crate::integer::Integer;
use crate::oid::Oid;
use crate::outside::Outside;
use crate::place::Place;
use crate::reader::Reader;
use crate::tries::Tries;
use crate::window::Window;
use std::alloc::Global;

/// Where a reader stands in the fields of a container: the next field's place, whose header was looked at, and whether all
/// fields so far stand plainly.
#[derive(Debug, Drop)]
pub struct Fields<'a, L> {
    /// The next field's place.
    pub place: Place<'a, L>,
    pub(crate) plain: bool,
}

impl<'a, L: Outside> Fields<'a, L> {
    /// Before the first field of these contents.
    #[inline(always)]
    pub fn of(tries: &mut Tries, contents: &Window<'a, L>) -> Fields<'a, L>
        ensures place { next_of result ≡ bytes_in contents.now }
        ensures outer { outer_of result ≡ outside_in contents.now }
        ensures plain { plain_in result ≡ true }
        ensures tries { TriesOnce tries.old tries.new (bytes_in contents.now) }
        // One for each member of the contents at most, and one where they have a tail.
        ensures once { (members : List Element) (tail : List ℕ) → Cut (bytes_in contents.now) members tail
            → tries.new + ahead (next_of result) ≤ tries.old + length members + min 1 (length tail) }
    {
        Fields {
            place: Place::inside(tries, contents),
            plain: true,
        }
    }

    /// The same place.
    #[inline(always)]
    pub fn same(&self) -> Fields<'a, L>
        ensures place { next_of result ≡ next_of self.now }
        ensures outer { outer_of result ≡ outer_of self.now }
        ensures plain { plain_in result ≡ plain_in self.now }
    {
        Fields {
            place: self.place.same(),
            plain: self.plain,
        }
    }

    /// Behind the field that stands here, with its mark.
    #[inline(always)]
    pub fn behind(&self, tries: &mut Tries, plain: bool) -> Fields<'a, L>
        ensures place { next_of result ≡ behind (next_of self.now) }
        ensures outer { outer_of result ≡ outer_of self.now }
        ensures plain { plain_in result ≡ (plain_in self.now && plain) }
        ensures exact { tries.new ≡ tried_behind tries.old (next_of self.now) }
        ensures few_tries { tries.new ≤ tries.old + min (length (behind (next_of self.now))) 1 }
        ensures some { is_element (next_of self.now) ≡ true → AddsAtLeast (min (length (behind (next_of self.now))) 1) tries.old tries.new }
        ensures grows { tries.old ≤ tries.new }
        ensures once { LooksOnce (next_of self.now) (next_of result) tries.old tries.new }
    {
        Fields {
            place: self.place.next(tries),
            plain: self.plain & plain,
        }
    }

    /// The next field.
    #[inline(always)]
    pub fn field<E: ReadError, T: FromDer<'a, E>>(
        &self,
        alloc: Global,
        tries: &mut Tries,
    ) -> Result<(Fields<'a, L>, T), Refused<E, L>>
        ensures { ReadsNext E.is_memory T.grammar.takes_memory T.grammar.heads (λ x. (next_of x.0, T.view x.1)) (λ x. outer_of x.0) (λ x. plain_in x.0)
            T.grammar.plan T.tight (plain_in self.now) L.adds (next_of self.now) (outer_of self.now) tries.old tries.new result }
    {
        match T::read_at(alloc, tries, &self.place) {
            Ok((value, plain)) => Ok((self.behind(tries, plain), value)),
            Err(e) => Err(e),
        }
    }

    /// The last field, and whether all fields stand plainly, with nothing behind them. What stands behind it isn't looked at.
    #[inline(always)]
    pub fn last<E: ReadError, T: FromDer<'a, E>>(
        &self,
        alloc: Global,
        tries: &mut Tries,
    ) -> Result<(T, bool), Refused<E, L>>
        ensures { ReadsLast E.is_memory T.grammar.takes_memory T.grammar.heads T.view T.grammar.plan T.tight (plain_in self.now) L.adds
            (next_of self.now) (outer_of self.now) tries.old tries.new result }
    {
        match T::read_at(alloc, tries, &self.place) {
            Ok((value, plain)) => Ok((value, self.plain & (plain & self.place.rest().is_empty()))),
            Err(e) => Err(e),
        }
    }

    /// The next field, which may be absent: where it doesn't read, the cursor stays.
    #[inline(always)]
    pub fn soft<E: ReadError, T: FromDer<'a, E> + Drop>(
        &self,
        alloc: Global,
        tries: &mut Tries,
    ) -> Result<(Fields<'a, L>, Option<T>), Refused<E, L>>
        ensures { ReadsSoft E.is_memory T.grammar.form T.grammar.own_tag T.grammar.heads (λ x. (next_of x.0, option_view T.view x.1)) (λ x. outer_of x.0)
            (λ x. plain_in x.0) T.grammar.plan T.tight (plain_in self.now) L.adds (next_of self.now) (outer_of self.now) tries.old tries.new result }
    {
        match T::read_at(alloc, tries, &self.place) {
            Ok((value, plain)) => Ok((self.behind(tries, plain), Some(value))),
            Err(why) => {
                if why.is_out_of_memory() {
                    return Err(why);
                }
                Ok((self.same(), None))
            }
        }
    }

    /// The next field, by a reader with settings.
    #[inline(always)]
    pub fn field_by<E: ReadError, X, R: Reader<'a, E, X>>(
        &self,
        reader: &R,
        alloc: Global,
        tries: &mut Tries,
    ) -> Result<(Fields<'a, L>, X), Refused<E, L>>
        ensures next { ReadsNext E.is_memory (R.grammar reader.now).takes_memory (R.grammar reader.now).heads (λ x. (next_of x.0, R.view x.1))
            (λ x. outer_of x.0) (λ x. plain_in x.0) (R.grammar reader.now).plan R.tight (plain_in self.now) L.adds
            (next_of self.now) (outer_of self.now) tries.old tries.new result }
        ensures shallow { R.is_deep reader.now ≡ false
            → IfOk result (λ x. tries.new + 8 + 8 * R.unread (R.view x.1) + 8 * length (next_of x.0) ≤ tries.old + 8 * length (next_of self.now)) }
    {
        match reader.read_at(alloc, tries, &self.place) {
            Ok((value, plain)) => Ok((self.behind(tries, plain), value)),
            Err(e) => Err(e),
        }
    }

    /// The next field, by a reader with settings, which may be absent: where it doesn't read, the cursor stays.
    #[inline(always)]
    pub fn soft_by<E: ReadError, X: Drop, R: Reader<'a, E, X>>(
        &self,
        reader: &R,
        alloc: Global,
        tries: &mut Tries,
    ) -> Result<(Fields<'a, L>, Option<X>), Refused<E, L>>
        ensures { ReadsSoft E.is_memory (R.grammar reader.now).form (R.grammar reader.now).own_tag (R.grammar reader.now).heads
            (λ x. (next_of x.0, option_view R.view x.1)) (λ x. outer_of x.0) (λ x. plain_in x.0) (R.grammar reader.now).plan R.tight
            (plain_in self.now) L.adds (next_of self.now) (outer_of self.now) tries.old tries.new result }
    {
        match reader.read_at(alloc, tries, &self.place) {
            Ok((value, plain)) => Ok((self.behind(tries, plain), Some(value))),
            Err(why) => {
                if why.is_out_of_memory() {
                    return Err(why);
                }
                Ok((self.same(), None))
            }
        }
    }

    /// An object identifier.
    #[inline(always)]
    #[tactic(auto, using(crate::proofs::Marking::marks_of_readers))]
    pub fn oid(&self, tries: &mut Tries) -> Result<(Fields<'a, L>, Oid<'a>), Refused<BerError, L>>
        ensures { StepsLeaf (λ x. (next_of x.0, oid_bytes x.1)) (λ x. outer_of x.0) (λ x. plain_in x.0) oid (plain_in self.now) L.adds (next_of self.now)
            (outer_of self.now) tries.old tries.new result }
    {
        let value = self.place.oid()?;
        Ok((self.behind(tries, true), value))
    }

    /// An OCTET STRING in its primitive form.
    #[inline(always)]
    #[tactic(auto, using(crate::proofs::Marking::marks_of_readers))]
    pub fn octets(
        &self,
        tries: &mut Tries,
    ) -> Result<(Fields<'a, L>, &'a [u8]), Refused<BerError, L>>
        ensures { StepsLeaf (λ x. (next_of x.0, x.1.now)) (λ x. outer_of x.0) (λ x. plain_in x.0) octets (plain_in self.now) L.adds (next_of self.now)
            (outer_of self.now) tries.old tries.new result }
    {
        let value = self.place.octets()?;
        Ok((self.behind(tries, true), value))
    }

    /// An INTEGER from 0 to 4,294,967,295.
    #[inline(always)]
    #[tactic(auto, using(crate::proofs::Marking::marks_of_readers))]
    pub fn u32(&self, tries: &mut Tries) -> Result<(Fields<'a, L>, u32), Refused<BerError, L>>
        ensures { StepsLeaf (λ x. (next_of x.0, x.1)) (λ x. outer_of x.0) (λ x. plain_in x.0) u32 (plain_in self.now) L.adds (next_of self.now)
            (outer_of self.now) tries.old tries.new result }
    {
        let value = self.place.u32()?;
        Ok((self.behind(tries, true), value))
    }

    /// An INTEGER of any size.
    #[inline(always)]
    #[tactic(auto, using(crate::proofs::Marking::marks_of_readers))]
    pub fn integer(
        &self,
        tries: &mut Tries,
    ) -> Result<(Fields<'a, L>, Integer<'a>), Refused<BerError, L>>
        ensures { StepsLeaf (λ x. (next_of x.0, integer_bytes x.1)) (λ x. outer_of x.0) (λ x. plain_in x.0) integer (plain_in self.now) L.adds
            (next_of self.now) (outer_of self.now) tries.old tries.new result }
    {
        let value = self.place.integer()?;
        Ok((self.behind(tries, true), value))
    }

    /// A BOOLEAN that may be absent.
    #[inline(always)]
    #[tactic(auto, using(crate::proofs::Marking::marks_of_readers))]
    pub fn soft_bool(&self, tries: &mut Tries) -> (Fields<'a, L>, Option<bool>)
        ensures { StepsSoftLeaf (λ x. (next_of x.0, x.1)) (λ x. outer_of x.0) (λ x. plain_in x.0) bool (plain_in self.now) (next_of self.now)
            (outer_of self.now) tries.old tries.new result }
    {
        match self.place.bool() {
            Ok(value) => (self.behind(tries, true), Some(value)),
            Err(_) => (self.same(), None),
        }
    }

    /// A BOOLEAN by the basic rules that may be absent, and whether it is one by the strict rules too.
    #[inline(always)]
    #[tactic(auto, using(crate::proofs::Marking::marks_of_readers))]
    pub fn soft_bool_loose(&self, tries: &mut Tries) -> (Fields<'a, L>, Option<bool>)
        ensures { StepsSoftLeaf (λ x. (next_of x.0, x.1)) (λ x. outer_of x.0) (λ x. plain_in x.0) bool_loose (plain_in self.now) (next_of self.now)
            (outer_of self.now) tries.old tries.new result }
    {
        match self.place.bool_marked() {
            Ok((value, plain)) => (self.behind(tries, plain), Some(value)),
            Err(_) => (self.same(), None),
        }
    }

    /// An INTEGER from 0 to 4,294,967,295 that may be absent.
    #[inline(always)]
    #[tactic(auto, using(crate::proofs::Marking::marks_of_readers))]
    pub fn soft_u32(&self, tries: &mut Tries) -> (Fields<'a, L>, Option<u32>)
        ensures { StepsSoftLeaf (λ x. (next_of x.0, x.1)) (λ x. outer_of x.0) (λ x. plain_in x.0) u32 (plain_in self.now) (next_of self.now)
            (outer_of self.now) tries.old tries.new result }
    {
        match self.place.u32() {
            Ok(value) => (self.behind(tries, true), Some(value)),
            Err(_) => (self.same(), None),
        }
    }

    /// Octets under this context tag, in their primitive form, that may be absent.
    #[inline(always)]
    #[tactic(auto, using(crate::proofs::Marking::marks_of_readers))]
    pub fn soft_implicit(&self, tries: &mut Tries, number: u32) -> (Fields<'a, L>, Option<&'a [u8]>)
        ensures { StepsSoftLeaf (λ x. (next_of x.0, option_view (λ octets. octets.now) x.1)) (λ x. outer_of x.0) (λ x. plain_in x.0) (implicit number)
            (plain_in self.now) (next_of self.now) (outer_of self.now) tries.old tries.new result }
    {
        match self.place.implicit(number) {
            Ok(contents) => (self.behind(tries, true), Some(contents.bytes())),
            Err(_) => (self.same(), None),
        }
    }

    /// A number of at most 32 bits under this context tag that may be absent.
    #[inline(always)]
    #[tactic(auto, using(crate::proofs::Marking::marks_of_readers))]
    pub fn soft_implicit_u32(&self, tries: &mut Tries, number: u32) -> (Fields<'a, L>, Option<u32>)
        ensures { StepsSoftLeaf (λ x. (next_of x.0, x.1)) (λ x. outer_of x.0) (λ x. plain_in x.0) (implicit_u32 number) (plain_in self.now) (next_of self.now)
            (outer_of self.now) tries.old tries.new result }
    {
        match self.place.implicit_u32(number) {
            Ok(value) => (self.behind(tries, true), Some(value)),
            Err(_) => (self.same(), None),
        }
    }

    /// Whether all fields stand plainly, with nothing behind them.
    #[inline(always)]
    pub fn are_plain(&self) -> bool
        ensures { result ≡ (plain_in self.now && nothing_left (next_of self.now)) }
    {
        self.plain & self.place.bytes().is_empty()
    }

    /// The same where the last field stands here: nothing behind it is looked at.
    #[inline(always)]
    pub fn ends_here(&self) -> bool
        ensures { result ≡ (plain_in self.now && nothing_left (behind (next_of self.now))) }
    {
        self.plain & self.place.rest().is_empty()
    }

    /// Whether all fields so far stand plainly, whatever is left behind them.
    #[inline(always)]
    pub fn plain_so_far(&self) -> bool
        ensures { result ≡ plain_in self.now }
    {
        self.plain
    }

    /// Whether no field is left.
    #[inline(always)]
    pub fn are_over(&self) -> bool
        ensures { result ≡ nothing_left (next_of self.now) }
    {
        self.place.bytes().is_empty()
    }
}
