//! A place of a window, and what stands there.

ghost use Rattle.std.specs.Prelude.{◌≡◌, ◌<◌, ◌≤◌, ◌+◌, ◌++◌, ◌↔◌, IfOk, IfSome, IsSome, IsNone, Ok, true, false, min, length, slice_index};
ghost use Rattle.x509_der.specs.declared.look.Form.{Form};
ghost use Rattle.x509_der.specs.Laws.{IsBytes};
ghost use Rattle.x509_der.specs.Leaves.{any_header, any_loose};
ghost use Rattle.x509_der.specs.Looks.{wanted, header_of, found_or, behind, is_element, is_some_reading, tried_behind};
ghost use Rattle.x509_der.specs.Plan.{stop_here};
ghost use Rattle.x509_der.specs.Reading.{Gives, TriesOnce, AddsAtLeast, header_at, element_at, element_of, only_strict, strict, loose};

use crate::any::Any;
use crate::child::{Child, Stop};
use crate::error::{BerError, Err, Refused};
use crate::header::{Header, Tag};
use crate::look::{Form, HeaderError, Seen, class_of, seen_header};
use crate::outside::{Nowhere, Outside};
use crate::tries::Tries;
use crate::window::Window;

/// A place of a window whose first header was looked at.
#[derive(Debug, Drop)]
pub struct Place<'a, L> {
    pub(crate) bytes: &'a [u8],
    // What is told of the octets behind the window.
    pub(crate) outside: L,
    pub(crate) beyond: &'a [u8],
    // The header that stands there; of no meaning where none was found.
    pub(crate) octet: u8,
    pub(crate) tag: Tag,
    pub(crate) length: u32,
    pub(crate) fewest: bool,
    pub(crate) found: bool,
    // Why none was found.
    pub(crate) why: HeaderError,
    ghost octets: { IsBytes bytes.now },
    ghost looked: { (form : Form)
        → header_at form bytes.now ≡ wanted (λ s. (beyond.now, header_of s)) (λ s. s.fewest) form (found_or found (record { octet = octet; tag = tag; length = length; fewest = fewest }) why) },
    ghost first: { found ≡ true → slice_index bytes.now 0 ≡ octet },
}

impl<'a> Place<'a, Nowhere> {
    ghost use Rattle.x509_der.specs.Place.{at};

    /// Looks at the first header of the bytes: one try, where there is a byte.
    #[inline(always)]
    pub fn look(tries: &mut Tries, bytes: &'a [u8]) -> Place<'a, Nowhere>
        ensures bytes { at result ≡ bytes.now }
        ensures tries { TriesOnce tries.old tries.new bytes.now }
    {
        Place::look_before(tries, bytes, Nowhere)
    }
}

impl<'a, L: Outside> Place<'a, L> {
    ghost use Rattle.x509_der.specs.Place.{at, seen_at, outside_of, bytes_in, outside_in};
    ghost use Rattle.x509_der.specs.Promises.{GivesAt, JudgedAt};
    ghost use Rattle.x509_der.specs.Children.{child_element, IsStop};

    /// Looks at the first header of a window: one try, where there is a byte.
    #[inline(always)]
    pub fn inside(tries: &mut Tries, window: &Window<'a, L>) -> Place<'a, L>
        ensures bytes { at result ≡ bytes_in window.now }
        ensures outside { outside_of result ≡ outside_in window.now }
        ensures tries { TriesOnce tries.old tries.new (bytes_in window.now) }
    {
        Place::look_before(tries, window.bytes, window.outside)
    }

    /// Looks at the first header of the bytes, behind whose window so many octets stand.
    #[inline(always)]
    pub(crate) fn look_before(tries: &mut Tries, bytes: &'a [u8], outside: L) -> Place<'a, L>
        ensures bytes { at result ≡ bytes.now }
        ensures outside { outside_of result ≡ outside }
        ensures tries { TriesOnce tries.old tries.new bytes.now }
    {
        match seen_header(tries, bytes) {
            Ok(
                (
                    beyond,
                    Seen {
                        octet,
                        tag,
                        length,
                        fewest,
                    },
                ),
            ) => Place {
                bytes,
                outside,
                beyond,
                octet,
                tag,
                length,
                fewest,
                found: true,
                why: HeaderError::CutShort,
            },
            Err(why) => Place {
                bytes,
                outside,
                beyond: bytes,
                octet: 0,
                tag: Tag(0),
                length: 0,
                fewest: false,
                found: false,
                why,
            },
        }
    }

    /// A place whose header was seen before.
    #[inline(always)]
    pub(crate) fn again(bytes: &'a [u8], outside: L, beyond: &'a [u8], seen: Seen) -> Place<'a, L>
        requires looked { (form : Form) → header_at form bytes.now ≡ wanted (λ s. (beyond.now, header_of s)) (λ s. s.fewest) form (Ok seen) }
        requires first { slice_index bytes.now 0 ≡ seen.octet }
        ensures bytes { at result ≡ bytes.now }
        ensures outside { outside_of result ≡ outside }
    {
        Place {
            bytes,
            outside,
            beyond,
            octet: seen.octet,
            tag: seen.tag,
            length: seen.length,
            fewest: seen.fewest,
            found: true,
            why: HeaderError::CutShort,
        }
    }

    /// What stands behind the element there.
    #[inline(always)]
    #[tactic(auto, unfolding(crate::specs::Looks::behind, crate::specs::Looks::is_element, crate::specs::Reading::element_at))]
    pub(crate) fn behind_element(&self) -> Option<&'a [u8]>
        ensures looked { IfSome result
            (λ _. (form : Form)
            → header_at form (at self.now) ≡ wanted (λ s. (self.now.beyond.now, header_of s)) (λ s. s.fewest) form (Ok (seen_at self.now))) }
        ensures first { IfSome result (λ _. slice_index (at self.now) 0 ≡ (seen_at self.now).octet) }
        ensures some { IfSome result (λ x. (is_element (at self.now) ≡ true) × (x.now ≡ behind (at self.now))) }
        ensures none { IsNone result → is_element (at self.now) ≡ false }
    {
        let length = self.length as usize;
        if !self.found || self.beyond.len() < length {
            return None;
        }
        Some(&self.beyond[length..])
    }

    /// The same place.
    #[inline(always)]
    pub fn same(&self) -> Place<'a, L>
        ensures bytes { at result ≡ at self.now }
        ensures outside { outside_of result ≡ outside_of self.now }
    {
        Place {
            bytes: self.bytes,
            outside: self.outside,
            beyond: self.beyond,
            octet: self.octet,
            tag: self.tag,
            length: self.length,
            fewest: self.fewest,
            found: self.found,
            why: self.why,
        }
    }

    /// Looks at what stands behind the element; where no element stands, the place stays. One try, where there is a byte.
    #[inline(always)]
    pub fn next(&self, tries: &mut Tries) -> Place<'a, L>
        ensures place { at result ≡ behind (at self.now) }
        ensures outside { outside_of result ≡ outside_of self.now }
        ensures exact { tries.new ≡ tried_behind tries.old (at self.now) }
        ensures few_tries { tries.new ≤ tries.old + min (length (behind (at self.now))) 1 }
        ensures some { is_element (at self.now) ≡ true → AddsAtLeast (min (length (behind (at self.now))) 1) tries.old tries.new }
        ensures grows { tries.old ≤ tries.new }
    {
        match self.behind_element() {
            Some(rest) => Place::look_before(tries, rest, self.outside),
            None => self.same(),
        }
    }

    /// A refusal of this place.
    #[inline(always)]
    pub fn refuse<E>(&self, why: Err<E>) -> Refused<E, L>
        ensures why { result.why ≡ why }
        ensures left { result.left ≡ stop_here L.adds (at self.now) (outside_of self.now) }
    {
        Refused {
            why,
            left: self.outside.more(self.bytes.len()),
        }
    }

    /// What is left of the place's window where this rest of its bytes stands.
    #[inline(always)]
    pub fn left(&self, rest: &'a [u8]) -> Window<'a, L>
        ensures bytes { bytes_in result ≡ rest.now }
        ensures outside { outside_in result ≡ outside_of self.now }
    {
        Window {
            bytes: rest,
            outside: self.outside,
        }
    }

    /// What was judged at this place: its refusals are of this place.
    #[inline(always)]
    pub fn judge<T, E>(&self, judged: Result<T, Err<E>>) -> Result<T, Refused<E, L>>
        ensures { JudgedAt L.adds judged (at self.now) (outside_of self.now) result }
    {
        match judged {
            Ok(value) => Ok(value),
            Err(why) => Err(self.refuse(why)),
        }
    }

    /// The element there, with its mark.
    #[tactic(auto, unfolding(crate::specs::Looks::behind, crate::specs::Looks::is_element))]
    pub(crate) fn child(&self) -> Option<Child<'a>>
        ensures variant { IsSome result ↔ (is_element (at self.now) ≡ true) }
        ensures element { IfSome result (λ c. element_at loose (at self.now) ≡ Ok (behind (at self.now), child_element c)) }
        ensures whole { IfSome result (λ c. at self.now ≡ c.whole.now ++ behind (at self.now)) }
        ensures strict { IfSome result (λ c. c.strict ≡ is_some_reading (element_at strict (at self.now))) }
    {
        match self.element_and_rest(Form::Loose) {
            Ok((rest, any)) => Some(Child {
                header: any.header(),
                strict: self.element_and_rest(Form::Strict).is_ok(),
                whole: &self.bytes[..self.bytes.len() - rest.len()],
                bytes: any.as_bytes(),
            }),
            Err(_) => None,
        }
    }

    /// Why no element stands there, where bytes are left.
    #[tactic(auto, unfolding(crate::specs::Looks::is_element, crate::specs::Reading::element_at))]
    pub(crate) fn stop(&self) -> Stop<'a>
        requires some { 0 < length (at self.now) }
        requires none { is_element (at self.now) ≡ false }
        ensures { IsStop false (at self.now) result }
    {
        if self.found {
            return Stop::Short {
                header: self.head(),
                strict: self.fewest,
                bytes: self.beyond,
            };
        }
        match self.why {
            HeaderError::CutShort => Stop::Bad(BerError::Incomplete),
            HeaderError::InvalidTag => Stop::Bad(BerError::InvalidTag),
            HeaderError::InvalidLength => Stop::Bad(BerError::InvalidLength),
        }
    }

    /// The bytes from the place to the end of its window.
    #[inline(always)]
    pub fn bytes(&self) -> &'a [u8]
        ensures { result.now ≡ at self.now }
    {
        self.bytes
    }

    /// The header, and what stands behind it.
    #[inline(always)]
    pub(crate) fn header_in(&self, form: Form) -> Result<(&'a [u8], Header), Err<BerError>>
        ensures reading { Gives (λ x. (x.0.now, x.1)) result (header_at form (at self.now)) }
        ensures first { IfOk result (λ _. slice_index (at self.now) 0 ≡ (seen_at self.now).octet) }
    {
        if !self.found {
            return Err(self.why.refusal());
        }
        if !self.fewest && matches!(form, Form::Strict) {
            return Err(Err::Error(BerError::InvalidLength));
        }
        Ok((self.beyond, self.head()))
    }

    /// The first octet of the header; of no meaning where none was found.
    #[inline(always)]
    pub(crate) fn octet(&self) -> u8
        ensures { result ≡ (seen_at self.now).octet }
    {
        self.octet
    }

    /// The header that was seen; of no meaning where none was found.
    #[inline(always)]
    fn head(&self) -> Header
        ensures { result ≡ header_of (seen_at self.now) }
    {
        Header {
            class: class_of(self.octet),
            constructed: self.octet / 32 % 2 == 1,
            tag: self.tag,
            length: self.length,
        }
    }

    /// The strict header, and what stands behind it.
    #[inline(always)]
    #[tactic(auto, unfolding(crate::specs::Leaves::any_header))]
    pub fn header(&self) -> Result<(&'a [u8], Header), Refused<BerError, L>>
        ensures reading { GivesAt (λ x. (x.0.now, x.1)) any_header L.adds (at self.now) (outside_of self.now) result }
        ensures sizes { IfOk result (λ x. length x.0.now + 2 ≤ length (at self.now)) }
    {
        self.judge(self.header_in(Form::Strict))
    }

    /// The element and what stands behind it.
    #[inline(always)]
    #[tactic(auto, unfolding(crate::specs::Reading::element_at))]
    pub(crate) fn element_and_rest(&self, form: Form) -> Result<(&'a [u8], Any<'a>), Err<BerError>>
        ensures first { IfOk result (λ _. slice_index (at self.now) 0 ≡ (seen_at self.now).octet) }
        ensures reading { Gives (λ x. (x.0.now, element_of x.1)) result (element_at form (at self.now)) }
        ensures sizes { IfOk result (λ x. length x.0.now + length (element_of x.1).contents + 2 ≤ length (at self.now)) }
    {
        let (rest, header) = self.header_in(form)?;
        let length = header.length as usize;
        if rest.len() < length {
            return Err(Err::Incomplete);
        }
        let (contents, rest) = rest.split_at(length);
        Ok((rest, Any::new(header, contents)))
    }

    /// The element.
    #[inline(always)]
    #[tactic(auto, using(crate::proofs::Looks::element_any))]
    pub(crate) fn element(&self, form: Form) -> Result<Any<'a>, Err<BerError>>
        ensures first { IfOk result (λ _. slice_index (at self.now) 0 ≡ (seen_at self.now).octet) }
        ensures reading { Gives (λ x. (behind (at self.now), element_of x)) result (element_at form (at self.now)) }
        ensures there { IfOk result (λ _. is_element (at self.now) ≡ true) }
        ensures sizes { IfOk result (λ x. length (behind (at self.now)) + length (element_of x).contents + 2 ≤ length (at self.now)) }
    {
        match self.element_and_rest(form) {
            Ok((_, any)) => Ok(any),
            Err(e) => Err(e),
        }
    }

    /// The element, its length in any octets, what stands behind it, and whether they are the fewest.
    #[inline(always)]
    #[tactic(auto, unfolding(crate::specs::Reading::element_at))]
    fn marked_and_rest(&self) -> Result<(&'a [u8], Any<'a>, bool), Err<BerError>>
        ensures first { IfOk result (λ _. slice_index (at self.now) 0 ≡ (seen_at self.now).octet) }
        ensures reading { Gives (λ x. (x.0.now, element_of x.1)) result (element_at loose (at self.now)) }
        ensures strictly { IfOk result (λ x. element_at strict (at self.now) ≡ only_strict x.2 (x.0.now, element_of x.1)) }
        ensures sizes { IfOk result (λ x. length x.0.now + length (element_of x.1).contents + 2 ≤ length (at self.now)) }
    {
        let (rest, any) = self.element_and_rest(Form::Loose)?;
        Ok((rest, any, self.fewest))
    }

    /// The element, its length in any octets, and whether they are the fewest: then it is the strict element too.
    #[inline(always)]
    #[tactic(auto, unfolding(crate::specs::Leaves::any_loose))]
    pub fn any_marked(&self) -> Result<(Any<'a>, bool), Refused<BerError, L>>
        ensures first { IfOk result (λ _. slice_index (at self.now) 0 ≡ (seen_at self.now).octet) }
        ensures reading { GivesAt (λ x. (behind (at self.now), element_of x.0)) any_loose L.adds (at self.now) (outside_of self.now) result }
        ensures strictly { IfOk result (λ x. element_at strict (at self.now) ≡ only_strict x.1 (behind (at self.now), element_of x.0)) }
        ensures there { IfOk result (λ _. is_element (at self.now) ≡ true) }
        ensures sizes { IfOk result (λ x. length (behind (at self.now)) + length (element_of x.0).contents + 2 ≤ length (at self.now)) }
    {
        match self.marked_and_rest() {
            Ok((_, any, strict)) => Ok((any, strict)),
            Err(e) => Err(self.refuse(e)),
        }
    }

    /// What stands behind the element; where none stands, the bytes of the place.
    #[inline(always)]
    #[tactic(auto, unfolding(crate::specs::Looks::behind, crate::specs::Looks::is_element))]
    pub fn rest(&self) -> &'a [u8]
        ensures behind { result.now ≡ behind (at self.now) }
        ensures sizes { is_element (at self.now) ≡ true → length result.now + 2 ≤ length (at self.now) }
    {
        match self.element_and_rest(Form::Loose) {
            Ok((rest, _)) => rest,
            Err(_) => self.bytes,
        }
    }

    /// Whether an element stands there, its length in any octets.
    #[inline(always)]
    #[tactic(auto, unfolding(crate::specs::Looks::is_element))]
    pub fn is_element(&self) -> bool
        ensures { result ≡ is_element (at self.now) }
    {
        self.element_and_rest(Form::Loose).is_ok()
    }
}
