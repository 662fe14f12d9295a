//! The first elements of a window, cut once.

ghost use Rattle.std.specs.Prelude.{◌≡◌, ◌<◌, ◌≤◌, ◌+◌, ◌*◌, ◌++◌, ◌↔◌, ℕ, suc, nat_eq, true, false, get_or, min, length, List, IsSome, IfSome, Ok};
ghost use Rattle.x509_der.specs.declared.children.Entry.{Entry as EntryOf};
ghost use Rattle.x509_der.specs.Cut.{Cut, IsBehind};
ghost use Rattle.x509_der.specs.Entries.{IsEntry};
ghost use Rattle.x509_der.specs.Laws.{IsBytes};
ghost use Rattle.x509_der.specs.Looks.{behind, is_element, place_at, is_some_reading};
ghost use Rattle.x509_der.specs.Reading.{AddsAtLeast, Element, element_at, strict, loose};

use crate::child::{Child, Stop};
use crate::header::Tag;
use crate::look::Seen;
use crate::outside::Nowhere;
use crate::place::Place;
use crate::tries::Tries;

/// A header that was seen, and where it and what stands behind it begin in the window.
#[derive(Clone, Copy, Debug)]
pub(crate) struct Entry {
    pub(crate) start: usize,
    pub(crate) beyond: usize,
    pub(crate) octet: u8,
    pub(crate) tag: Tag,
    pub(crate) length: u32,
    pub(crate) fewest: bool,
}

const NO_ENTRY: Entry = Entry {
    start: 0,
    beyond: 0,
    octet: 0,
    tag: Tag(0),
    length: 0,
    fewest: false,
};

/// The first elements of a window, at most `N`, each looked at once, and the place behind them.
#[derive(Debug, Drop)]
pub struct Elements<'a, const N: usize> {
    window: &'a [u8],
    entries: [Entry; N],
    count: usize,
    end: Place<'a, Nowhere>,
    ghost octets: { IsBytes window.now },
    ghost few: { count ≤ N },
    ghost each: { (k : ℕ) (other : EntryOf) → k < count → IsEntry window.now (place_at window.now k) (get_or entries k other) },
    ghost elements: { (k : ℕ) → k < count → is_element (place_at window.now k) ≡ true },
    ghost last: { end.bytes.now ≡ place_at window.now count },
    ghost stops: { count < N → is_element (place_at window.now count) ≡ false },
}

/// The first elements of a window, at most twelve.
pub type Children<'a> = Elements<'a, 12>;

impl<'a, const N: usize> Elements<'a, N> {
    ghost use Rattle.x509_der.specs.Place.{at};
    ghost use Rattle.x509_der.specs.Children.{window_of, count_of, child_element, IsStop};

    /// Looks at one element after the other: one try for each, and at most one more.
    #[inline(always)]
    pub fn cut(tries: &mut Tries, window: &'a [u8]) -> Elements<'a, N>
        ensures window { window_of result ≡ window.now }
        ensures tries { tries.new ≤ tries.old + count_of result + min 1 (length (place_at (window_of result) (count_of result))) }
        ensures sizes { 2 * count_of result + length (place_at (window_of result) (count_of result)) ≤ length window.now }
        ensures few { tries.new ≤ tries.old + N + 1 }
        ensures grows { tries.old ≤ tries.new }
        ensures least { AddsAtLeast (count_of result) tries.old tries.new }
        ensures each { AddsAtLeast (count_of result + min 1 (length (place_at (window_of result) (count_of result)))) tries.old tries.new }
        // One for each member of the window's cut at most, and one where it has a tail.
        ensures bound { (members : List Element) (tail : List ℕ) → Cut window.now members tail → tries.new ≤ tries.old + length members + min 1 (length tail) }
        // The first members of the window's cut.
        ensures first { (members : List Element) (tail : List ℕ) → Cut window.now members tail
            → (count_of result ≡ min (length members) N) × IsBehind window.now members (count_of result) (place_at window.now (count_of result)) }
    {
        let mut end = Place::look(tries, window);
        let mut entries = [NO_ENTRY; N];
        let mut count = 0;
        while count < N {
            let Some(rest) = end.behind_element() else {
                break;
            };
            entries[count] = Entry {
                start: window.len() - end.bytes.len(),
                beyond: window.len() - end.beyond.len(),
                octet: end.octet,
                tag: end.tag,
                length: end.length,
                fewest: end.fewest,
            };
            count += 1;
            end = Place::look(tries, rest);
        }
        Elements {
            window,
            entries,
            count,
            end,
        }
    }

    /// How many elements were cut.
    pub fn count(&self) -> usize
        ensures count { result ≡ count_of self.now }
        ensures few { result ≤ N }
    {
        self.count
    }

    /// The place behind this many elements; behind the last one, the last place.
    #[inline(always)]
    pub fn at(&self, k: usize) -> Place<'a, Nowhere>
        requires { k ≤ N }
        ensures place { at result ≡ place_at (window_of self.now) k }
        ensures there { is_element (at result) ≡ true → k < N → k < count_of self.now }
        ensures next { place_at (window_of self.now) (k + 1) ≡ behind (at result) }
    {
        if k < self.count {
            let entry = self.entries[k];
            let seen = Seen {
                octet: entry.octet,
                tag: entry.tag,
                length: entry.length,
                fewest: entry.fewest,
            };
            Place::again(
                &self.window[entry.start..],
                Nowhere,
                &self.window[entry.beyond..],
                seen,
            )
        } else {
            self.end.same()
        }
    }

    /// The element with this number.
    pub fn get(&self, k: usize) -> Option<Child<'a>>
        ensures variant { IsSome result ↔ (k < count_of self.now) }
        ensures element { IfSome result
            (λ c. element_at loose (place_at (window_of self.now) k) ≡ Ok (place_at (window_of self.now) (suc k), child_element c)) }
        ensures whole { IfSome result (λ c. place_at (window_of self.now) k ≡ c.whole.now ++ place_at (window_of self.now) (suc k)) }
        ensures strict { IfSome result (λ c. c.strict ≡ is_some_reading (element_at strict (place_at (window_of self.now) k))) }
    {
        if k < self.count {
            self.at(k).child()
        } else {
            None
        }
    }

    /// All bytes behind the last element that was cut.
    pub fn tail(&self) -> &'a [u8]
        ensures { result.now ≡ place_at (window_of self.now) (count_of self.now) }
    {
        self.end.bytes()
    }

    /// Why no more elements were cut.
    pub fn stop(&self) -> Stop<'a>
        ensures { IsStop (nat_eq (count_of self.now) N) (place_at (window_of self.now) (count_of self.now)) result }
    {
        if self.end.bytes().is_empty() {
            return Stop::Nothing;
        }
        if self.count == N {
            return Stop::Full;
        }
        self.end.stop()
    }
}
