//! The walk down the elements of an object.

ghost use Rattle.std.specs.Prelude.{◌≡◌, ◌∷◌, [], ◌+◌, ◌-◌, ◌<◌, ◌≤◌, IfErr, IfOk, MatchOption, Ok, Err, length};
ghost use Rattle.std.specs.Iterator.{at_most};
ghost use Rattle.x509_elements.specs.Elements.{ArePlaced, elements_of, line_of, octets_of};
ghost use Rattle.x509_elements.specs.Fronts.{front_at, front_of};
ghost use Rattle.x509_elements.specs.Walks.{IsNext, left, window};
ghost use Rattle.x509_elements.specs.Cursors.{standing_of};

use crate::cursor::{Called, Cursor};
use crate::front::{Front, front_element};
use crate::line::{DumpLine, What};
use crate::lines::DumpLines;
use crate::open::Open;
use crate::part::Part;
use std::alloc::{AllocError, Global};
use x509_der::{BerError, Err as Refusal};

/// The elements of these octets, a line each, of which the first is such a part, and octets that are none. Behind a refused request for
/// memory no line comes.
pub fn dump(alloc: Global, object: Part, octets: &[u8]) -> DumpLines<'_>
    // The lines are the tree of elements, in order.
    ensures lines { left result ≡ elements_of object octets.now }
    // Each octet is in exactly one line: those of the lines, one behind another, are the input.
    ensures once { octets_of (left result) ≡ octets.now }
    // A line's offset is how many octets stand before it.
    ensures placed { ArePlaced 0 (left result) }
{
    DumpLines {
        octets,
        at: 0,
        innermost: Open {
            end: octets.len(),
            cursor: Cursor::alone(object),
        },
        outer: Vec::new(alloc),
    }
}

impl<'a> DumpLines<'a> {
    /// Leaves the elements that end here.
    fn leave(&mut self)
        ensures left { left self.new ≡ left self.old }
        ensures octets { self.new.octets.now ≡ self.old.octets.now }
        ensures at { self.new.at ≡ self.old.at }
        ensures over { self.new.innermost.end ≤ self.new.at → left self.new ≡ [] }
    {
        while self.innermost.end <= self.at {
            let Some(open) = self.outer.pop() else {
                return;
            };
            self.innermost = open;
        }
    }

    /// No line comes any more.
    fn end(&mut self)
        ensures left { left self.new ≡ [] }
        ensures octets { self.new.octets.now ≡ self.old.octets.now }
        ensures at { self.new.at ≡ length self.old.octets.now }
    {
        self.at = self.octets.len();
        self.innermost.end = self.at;
        self.outer.clear();
    }

    /// The line of octets at which no header stands: all that is left of the innermost element.
    fn refuse(&mut self, why: Refusal<BerError>) -> DumpLine<'a>
        requires some { self.old.at < self.old.innermost.end }
        requires front { front_at (standing_of self.old.innermost.cursor) (window self.old.octets.now self.old.at self.old.innermost.end) ≡ Err why }
        ensures line { left self.old ≡ line_of result ∷ left self.new }
        ensures octets { self.new.octets.now ≡ self.old.octets.now }
        ensures more { self.old.at < self.new.at }
    {
        let octets = &self.octets[self.at..self.innermost.end];
        let line = DumpLine {
            offset: self.at,
            depth: self.outer.len(),
            called: Called {
                name: "",
                number: None,
                alternative: "",
                part: Part::Unknown,
            },
            what: What::Refused(why),
            octets,
        };
        self.at = self.innermost.end;
        line
    }

    /// The line of the element at the front of what is left of the innermost element.
    fn enter(&mut self, front: &Front) -> Result<DumpLine<'a>, AllocError>
        requires some { self.old.at < self.old.innermost.end }
        requires front { front_at (standing_of self.old.innermost.cursor) (window self.old.octets.now self.old.at self.old.innermost.end)
            ≡ Ok (front_of front.now) }
        requires own { 0 < front.now.own }
        requires within { front.now.own ≤ front.now.size + front.now.there }
        requires whole { front.now.size + front.now.there ≤ self.old.innermost.end - self.old.at }
        ensures line { IfOk result (λ line. left self.old ≡ line_of line ∷ left self.new) }
        ensures none { IfErr result (λ _. left self.new ≡ []) }
        ensures octets { self.new.octets.now ≡ self.old.octets.now }
        ensures more { self.old.at < self.new.at }
    {
        let line = DumpLine {
            offset: self.at,
            depth: self.outer.len(),
            called: front.called,
            what: What::Element {
                header: front.header,
                size: front.size,
                there: front.there,
            },
            octets: &self.octets[self.at..self.at + front.own],
        };
        let around = Open {
            end: self.innermost.end,
            cursor: front.next,
        };
        let inner = Open {
            end: self.at + front.size + front.there,
            cursor: Cursor::of(front.called.part),
        };
        if self.outer.push(around).is_err() {
            self.end();
            return Err(AllocError);
        }
        self.at += front.own;
        self.innermost = inner;
        Ok(line)
    }
}

impl<'a> Iterator for DumpLines<'a> {
    type Item = Result<DumpLine<'a>, AllocError>;

    ghost next_gives = { λ s r t. MatchOption r (left s ≡ []) (λ found. IsNext s found t) };

    ghost remaining = { λ s. at_most (length s.octets.now - s.at) };

    fn next(&mut self) -> Option<Result<DumpLine<'a>, AllocError>> {
        self.leave();
        if self.innermost.end <= self.at {
            return None;
        }
        match front_element(
            self.innermost.cursor,
            &self.octets[self.at..self.innermost.end],
        ) {
            Ok(front) => Some(self.enter(&front)),
            Err(why) => Some(Ok(self.refuse(why))),
        }
    }
}
