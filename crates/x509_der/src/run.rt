//! Lists of any type that is read from one element, with their marks.

ghost use Rattle.std.specs.Prelude.{[], ℕ, List, map, length, IfOk};
ghost use Rattle.x509_der.specs.Cut.{Cut, IsBehind};
ghost use Rattle.x509_der.specs.Place.{bytes_in, outside_in};
ghost use Rattle.x509_der.specs.Plan.{run, run1, to_end};
ghost use Rattle.x509_der.specs.Reading.{Element};
ghost use Rattle.x509_der.specs.Promises.{ReadsRun, ReadsList, ended_early, empty_run};

use crate::error::{Err, ErrorKind, ReadError, Refused};
use crate::from_der::FromDer;
use crate::list::Sequence;
use crate::outside::Outside;
use crate::tries::Tries;
use crate::window::Window;
use std::alloc::Global;

/// The longest run of members at the front, and whether all of them stand plainly. What behind it cannot be read stays
/// unread.
pub fn read_run<'a, E: ReadError, T: FromDer<'a, E> + Drop>(
    alloc: Global,
    tries: &mut Tries,
    i: &'a [u8],
) -> Result<(&'a [u8], Sequence<T>, bool), Err<E>>
    ensures reads { ReadsRun E.is_memory T.grammar.form T.grammar.own_tag T.grammar.heads (λ x. (x.0.now, map T.view x.1)) (λ x. x.2) (run T.grammar.plan)
        i.now tries.old tries.new result }
    // The members are the first elements of the window, and the rest begins where the next one does.
    ensures elements { IfOk result (λ x. (members : List Element) (tail : List ℕ) → Cut i.now members tail → IsBehind i.now members (length x.1) x.0.now) }
{
    let mut members = Sequence::new(alloc);
    if members.reserve_within(i.len()).is_err() {
        return Err(Err::out_of_memory());
    }
    let mut rest = i;
    let mut plain = true;
    loop {
        match T::read_marked(alloc, tries, rest) {
            Ok((after, member, marked)) => {
                if members.push(member).is_err() {
                    return Err(Err::out_of_memory());
                }
                plain &= marked;
                rest = after;
            }
            Err(e) => {
                if e.is_out_of_memory() {
                    return Err(e);
                }
                return Ok((rest, members, plain));
            }
        }
    }
}

/// Members up to the end of the bytes, and their mark.
#[tactic(auto, using(crate::proofs::RunLoop::ending, crate::proofs::Marked::and_true))]
pub fn read_to_end<'a, E: ReadError, T: FromDer<'a, E> + Drop, L: Outside>(
    alloc: Global,
    tries: &mut Tries,
    i: &Window<'a, L>,
) -> Result<(Sequence<T>, bool), Refused<E, L>>
    ensures { ReadsList E.is_memory T.grammar.form T.grammar.own_tag T.grammar.heads (λ x. ([], map T.view x.0)) (λ x. x.1)
        (to_end (ended_early E.of_list) (run T.grammar.plan)) L.adds (bytes_in i.now) (outside_in i.now) tries.old tries.new result }
{
    let (rest, members, plain) = match read_run(alloc, tries, i.bytes) {
        Ok(read) => read,
        Err(why) => return Err(Refused {
            why,
            left: i.outside,
        }),
    };
    if !rest.is_empty() {
        return Err(Refused {
            why: Err::Error(E::from_list(ErrorKind::Eof)),
            left: i.outside.more(rest.len()),
        });
    }
    Ok((members, plain))
}

/// The longest run of members, of which there is at least one, and its mark.
#[tactic(auto, using(crate::proofs::RunLoop::ending, crate::proofs::MarkLoop::marks_of_some))]
pub fn read_run1<'a, E: ReadError, T: FromDer<'a, E> + Drop, L: Outside>(
    alloc: Global,
    tries: &mut Tries,
    i: &Window<'a, L>,
) -> Result<(&'a [u8], Sequence<T>, bool), Refused<E, L>>
    ensures { ReadsList E.is_memory T.grammar.form T.grammar.own_tag T.grammar.heads (λ x. (x.0.now, map T.view x.1)) (λ x. x.2)
        (run1 (empty_run E.of_list) T.grammar.plan) L.adds (bytes_in i.now) (outside_in i.now) tries.old tries.new result }
{
    let (rest, members, plain) = match read_run(alloc, tries, i.bytes) {
        Ok(read) => read,
        Err(why) => return Err(Refused {
            why,
            left: i.outside,
        }),
    };
    if members.is_empty() {
        return Err(Refused {
            why: Err::Error(E::from_list(ErrorKind::Many1)),
            left: i.outside.more(rest.len()),
        });
    }
    Ok((rest, members, plain))
}
