//! Members of sets, of which one alone takes no memory.

ghost use Rattle.std.specs.Prelude.{◌≡◌, ◌∷◌, [], map, drop, cond, true, IfOk, IfErr, IsOk};
ghost use Rattle.x509_der.specs.Place.{bytes_in, outside_in};
ghost use Rattle.x509_der.specs.Plan.{run, run1, stop_here};
ghost use Rattle.x509_der.specs.Promises.{ReadsRun, ReadsList, empty_run, is_excused};

use crate::error::{Err, ErrorKind, ReadError, Refused};
use crate::from_der::FromDer;
use crate::list::Sequence;
use crate::outside::Outside;
use crate::run::read_run;
use crate::tries::Tries;
use crate::window::Window;
use std::alloc::{AllocError, AllocFailed, Global};
use std::marker::Model;

/// Members of a SET OF, in the order in which they were read (X.690, 8.12). One member alone takes no memory.
#[derive(Debug, Drop)]
pub struct SetOf<T> {
    held: Held<T>,
}

#[derive(Debug, Drop)]
pub(crate) enum Held<T> {
    One([T; 1]),
    Many(Sequence<T>),
}

impl<T> Model for SetOf<T> {
    ghost use Rattle.std.specs.Prelude.{List};
    ghost use Rattle.x509_der.specs.Sets.{members_in};

    ghost Value = { List T };

    ghost view = { λ s. members_in s.held };
}

/// Equality goes by the members, in order.
impl<T: PartialEq> PartialEq for SetOf<T> {
    ghost use Rattle.std.proofs.Common.{rules};
    ghost use Rattle.std.specs.Cmp.Lexicographic.{pointwise};
    ghost use Rattle.std.specs.Cmp.Rules.{comparing};

    ghost eq = { pointwise T.eq };

    ghost laws = { Prim.search (comparing, rules, T.laws) };

    fn eq(&self, other: &Self) -> bool {
        self.as_slice() == other.as_slice()
    }
}

impl<T> SetOf<T> {
    /// The members of a vector, which takes no memory.
    pub fn from_vec(items: Vec<T>) -> Self
        ensures { result ≡ items.items }
    {
        SetOf {
            held: Held::Many(Sequence::from_vec(items)),
        }
    }

    /// The members.
    pub fn as_slice(&self) -> &[T]
        ensures { result.now ≡ self.now }
    {
        match &self.held {
            Held::One(members) => members.as_slice(),
            Held::Many(members) => members.as_slice(),
        }
    }
}

impl<T: Drop> SetOf<T> {
    /// A first member, and those behind it.
    ///
    /// # Errors
    ///
    /// The first member where memory is wanting, which it never is for one member alone.
    pub fn with_first(first: T, others: Sequence<T>) -> Result<Self, AllocFailed<T>>
        ensures members { IfOk result (λ set. set ≡ first ∷ others) }
        ensures alone { others ≡ [] → IsOk result }
        ensures refused { IfErr result (λ e. e.value ≡ first) }
    {
        if others.is_empty() {
            return Ok(SetOf {
                held: Held::One([first]),
            });
        }
        let mut items = others.into_vec();
        items.insert(0, first)?;
        Ok(SetOf::from_vec(items))
    }
}

impl<T: Copy> SetOf<T> {
    /// The same members: of more than one, in memory of their own, which is asked for once.
    ///
    /// # Errors
    ///
    /// `AllocError` where that request is refused.
    pub fn try_copy(&self) -> Result<Self, AllocError>
        ensures { IfOk result (λ copy. copy ≡ self.now) }
    {
        let held = match &self.held {
            Held::One(members) => Held::One(*members),
            Held::Many(members) => Held::Many(members.try_copy()?),
        };
        Ok(SetOf { held })
    }
}

/// The longest run of members, of which there is at least one, and its mark.
#[inline(always)]
pub fn read_set_of<'a, E: ReadError, T: FromDer<'a, E> + Drop, L: Outside>(
    alloc: Global,
    tries: &mut Tries,
    i: &Window<'a, L>,
) -> Result<(&'a [u8], SetOf<T>, bool), Refused<E, L>>
    ensures { ReadsList E.is_memory T.grammar.form T.grammar.own_tag T.grammar.heads (λ x. (x.0.now, map T.view x.1)) (λ x. x.2)
        (run1 (empty_run E.of_list) T.grammar.plan) L.adds (bytes_in i.now) (outside_in i.now) tries.old tries.new result }
{
    let (rest, first, plain) = match T::read_marked(alloc, tries, i.bytes) {
        Ok(read) => read,
        Err(e) => return Err(no_first(e, i)),
    };
    if rest.is_empty() {
        let held = Held::One([first]);
        return Ok((rest, SetOf { held }, plain));
    }
    match read_behind(alloc, tries, first, rest) {
        Ok((rest, set, marked)) => Ok((rest, set, plain & marked)),
        Err(why) => Err(Refused {
            why,
            left: i.outside,
        }),
    }
}

/// Why there is no set where its first member is refused so: want of memory is no other refusal.
fn no_first<E: ReadError, L: Outside>(e: Err<E>, i: &Window<'_, L>) -> Refused<E, L>
    ensures { cond (is_excused E.is_memory true e) (result.why ≡ e)
        ((result.why ≡ empty_run E.of_list) × (stop_here L.adds (bytes_in i.now) (outside_in i.now) ≡ result.left)) }
{
    if e.is_out_of_memory() {
        return Refused {
            why: e,
            left: i.outside,
        };
    }
    i.refuse_at(i.bytes, Err::Error(E::from_list(ErrorKind::Many1)))
}

/// A first member with those that can be read behind it, and whether these stand plainly: seldom called, so apart from
/// what reads one member alone.
#[inline(never)]
fn read_behind<'a, E: ReadError, T: FromDer<'a, E> + Drop>(
    alloc: Global,
    tries: &mut Tries,
    first: T,
    i: &'a [u8],
) -> Result<(&'a [u8], SetOf<T>, bool), Err<E>>
    ensures first { IfOk result (λ x. map T.view x.1 ≡ T.view first ∷ drop 1 (map T.view x.1)) }
    ensures others { ReadsRun E.is_memory T.grammar.form T.grammar.own_tag T.grammar.heads (λ x. (x.0.now, drop 1 (map T.view x.1))) (λ x. x.2)
        (run T.grammar.plan) i.now tries.old tries.new result }
{
    let (rest, others, marked) = read_run(alloc, tries, i)?;
    match SetOf::with_first(first, others) {
        Ok(set) => Ok((rest, set, marked)),
        Err(_) => Err(Err::out_of_memory()),
    }
}
