//! Readers of extensions in their SEQUENCE, and of those that close a structure.

ghost use Rattle.std.specs.Prelude.{◌≡◌, ◌≤◌, ◌+◌, ◌-◌, ◌*◌, [], true, false, IfOk, IsErr, map, min, length, sum_by};
ghost use Rattle.x509_der.specs.Place.{at, outside_of, bytes_in, outside_in};
ghost use Rattle.x509_der.specs.Plan.{run, to_end, marks_of_members};
ghost use Rattle.x509_der.specs.Primitives.{is_constructed};
ghost use Rattle.x509_der.specs.Promises.{Answers, TriesBounded, ended_early, AnswersAt, GivesAt, ReadsAt};
ghost use Rattle.x509_der.specs.Reading.{AddsAtLeast, strict};
ghost use Rattle.x509_fields.specs.declared.error.X509Error.TheVariants as x509;
ghost use Rattle.x509_fields.specs.Errors.{is_x509_memory};
ghost use Rattle.x509_extensions.specs.Adding.{ReadsMembers};
ghost use Rattle.x509_extensions.specs.Extension.{extension_of, value_bytes, extension_heads, extension};
ghost use Rattle.x509_extensions.specs.ExtensionList.{extensions_heads, wrapped_heads, extensions, closes, wrapper_header, wrapped_extensions};
ghost use Rattle.x509_der.specs.Looks.{behind};

use crate::extension::X509Extension;
use crate::parser::X509ExtensionParser;
use crate::reading_depth::{Deep, Depth, Shallow};
use std::alloc::Global;
use x509_der::{Class, Err, ErrorKind, Header, Outside, Place, Refused, Sequence, Tries, Window};
use x509_fields::{X509Error, sequence_at};

impl X509ExtensionParser {
    /// Reads a SEQUENCE that extensions fill (RFC 5280, section 4.1.2.9).
    ///
    /// # Errors
    ///
    /// Those of the SEQUENCE; `NomError(Eof)` where what stands in it is no extension; `Failure(OutOfMemory)`.
    pub fn read_list<'a>(
        &self,
        alloc: Global,
        tries: &mut Tries,
        i: &'a [u8],
    ) -> Result<(&'a [u8], Sequence<X509Extension<'a>>, bool), Err<X509Error>>
        ensures marks { IfOk result (λ x. x.2 ≡ (extensions self.now.deep_parse_extensions).marks i.now) }
        ensures reads { Answers is_x509_memory true (λ x. (x.0.now, map extension_of x.1)) result ((extensions self.now.deep_parse_extensions).read i.now) }
        ensures tries { TriesBounded strict (is_constructed 16) extensions_heads (λ x. (x.0.now, map extension_of x.1)) i.now tries.old tries.new result }
        ensures shallow { self.now.deep_parse_extensions ≡ false
            → IfOk result (λ x. tries.new + 8 + 8 * value_bytes (map extension_of x.1) + 8 * length x.0.now ≤ tries.old + 8 * length i.now) }
    {
        let place = Place::look(tries, i);
        let (list, plain) = self.list_at(alloc, tries, &place)?;
        Ok((place.rest(), list, plain))
    }

    /// The same at a place that was looked at.
    #[tactic(auto, unfolding(crate::specs::ExtensionList::extensions), using(x509_der::proofs::Marking::marks_of_readers))]
    #[inline(always)]
    pub(crate) fn list_at<'a, L: Outside>(
        &self,
        alloc: Global,
        tries: &mut Tries,
        place: &Place<'a, L>,
    ) -> Result<(Sequence<X509Extension<'a>>, bool), Refused<X509Error, L>>
        ensures reads { ReadsAt is_x509_memory true strict (is_constructed 16) extensions_heads (λ x. map extension_of x)
            (extensions self.now.deep_parse_extensions) L.adds (at place.now) (outside_of place.now) tries.old tries.new result }
        ensures shallow { self.now.deep_parse_extensions ≡ false
            → IfOk result
            (λ x. tries.new + 9 + 8 * value_bytes (map extension_of x.0) + 8 * length (behind (at place.now)) ≤ tries.old + 8 * length (at place.now)) }
    {
        let contents = sequence_at(place)?;
        self.read_to_end(alloc, tries, &contents)
    }

    /// Reads the extensions that close a structure: none where nothing is left, else a wrapper with this tag number and
    /// the SEQUENCE of extensions, to the end of the bytes.
    ///
    /// Of the wrapper the number alone is looked at, as other readers do: its class is free, and so is the length that it
    /// says, in the fewest octets, which the end of the structure makes superfluous.
    ///
    /// # Errors
    ///
    /// `InvalidExtensions` for the wrapper's header; `NomError(Eof)` where the extensions end before the bytes do; else
    /// those of [`X509ExtensionParser::read_list`].
    #[tactic(auto, unfolding(crate::specs::ExtensionList::wrapped_extensions, crate::specs::ExtensionList::wrapped), using(x509_der::proofs::Marking::marks_of_readers))]
    pub fn read_wrapped<'a>(
        &self,
        alloc: Global,
        tries: &mut Tries,
        number: u32,
        i: &'a [u8],
    ) -> Result<(Sequence<X509Extension<'a>>, bool), Err<X509Error>>
        ensures reads { Answers is_x509_memory true (λ x. ([], map extension_of x.0)) result
            ((wrapped_extensions number self.now.deep_parse_extensions).read i.now) }
        ensures marks { IfOk result (λ x. x.1 ≡ (wrapped_extensions number self.now.deep_parse_extensions).marks i.now) }
        ensures grows { tries.old ≤ tries.new }
        ensures count { tries.new ≤ tries.old + 8 * length i.now }
        ensures least { IfOk result (λ x. AddsAtLeast (wrapped_heads (map extension_of x.0)) tries.old tries.new) }
        ensures shallow { self.now.deep_parse_extensions ≡ false
            → IfOk result (λ x. tries.new + 8 * value_bytes (map extension_of x.0) ≤ tries.old + 8 * length i.now) }
    {
        let place = Place::look(tries, i);
        match self.read_wrapped_at(alloc, tries, number, &place) {
            Ok(read) => Ok(read),
            Err(e) => Err(e.why),
        }
    }

    /// The same at a place that was looked at.
    #[tactic(auto, unfolding(crate::specs::ExtensionList::wrapped_extensions, crate::specs::ExtensionList::wrapped), using(x509_der::proofs::Marking::marks_of_readers))]
    #[inline(always)]
    pub fn read_wrapped_at<'a, L: Outside>(
        &self,
        alloc: Global,
        tries: &mut Tries,
        number: u32,
        place: &Place<'a, L>,
    ) -> Result<(Sequence<X509Extension<'a>>, bool), Refused<X509Error, L>>
        ensures reads { AnswersAt is_x509_memory true (λ x. ([], map extension_of x.0)) (wrapped_extensions number self.now.deep_parse_extensions) L.adds
            (at place.now) (outside_of place.now) result }
        ensures marks { IfOk result (λ x. x.1 ≡ (wrapped_extensions number self.now.deep_parse_extensions).marks (at place.now)) }
        ensures grows { tries.old ≤ tries.new }
        ensures count { tries.new ≤ tries.old + (8 * length (at place.now) - 8) }
        // A header of another number is tried no more.
        ensures foreign { IsErr ((wrapper_header number).read (at place.now)) → tries.new ≤ tries.old }
        ensures least { IfOk result (λ x. AddsAtLeast (wrapped_heads (map extension_of x.0) - min 1 (length (at place.now))) tries.old tries.new) }
        ensures shallow { self.now.deep_parse_extensions ≡ false
            → IfOk result (λ x. tries.new + 8 * value_bytes (map extension_of x.0) + min 1 (length (at place.now)) ≤ tries.old + 8 * length (at place.now)) }
    {
        if place.bytes().is_empty() {
            return Ok((Sequence::new(alloc), true));
        }
        let (inner, header) = wrapper_of(place, number)?;
        let closes = closes(number, header, inner);
        let inside = place.left(inner);
        let sequence = Place::inside(tries, &inside);
        let (list, plain) = self.list_at(alloc, tries, &sequence)?;
        let rest = sequence.rest();
        if !rest.is_empty() {
            let why = Err::Error(X509Error::NomError(ErrorKind::Eof));
            return Err(inside.refuse_at(rest, why));
        }
        Ok((list, closes & plain))
    }

    /// Extensions up to the end of the bytes.
    #[inline(always)]
    #[tactic(auto, using(x509_der::proofs::RunLoop::ending, x509_der::proofs::Marked::and_true))]
    pub(crate) fn read_to_end<'a, L: Outside>(
        &self,
        alloc: Global,
        tries: &mut Tries,
        contents: &Window<'a, L>,
    ) -> Result<(Sequence<X509Extension<'a>>, bool), Refused<X509Error, L>>
        ensures marks { IfOk result (λ x. x.1 ≡ marks_of_members (extension self.now.deep_parse_extensions) (bytes_in contents.now)) }
        ensures reads { AnswersAt is_x509_memory true (λ x. ([], map extension_of x.0))
            (to_end (ended_early x509.NomError) (run (extension self.now.deep_parse_extensions))) L.adds (bytes_in contents.now) (outside_in contents.now)
            result }
        ensures grows { tries.old ≤ tries.new }
        ensures count { tries.new ≤ tries.old + 8 * length (bytes_in contents.now) }
        ensures least { IfOk result (λ x. AddsAtLeast (sum_by extension_heads (map extension_of x.0)) tries.old tries.new) }
        ensures shallow { self.now.deep_parse_extensions ≡ false
            → IfOk result (λ x. tries.new + 8 * value_bytes (map extension_of x.0) ≤ tries.old + 8 * length (bytes_in contents.now)) }
    {
        let (rest, list, plain) = match self.read_members(alloc, tries, contents.bytes()) {
            Ok(read) => read,
            Err(why) => return Err(contents.refuse_at(contents.bytes(), why)),
        };
        if !rest.is_empty() {
            let why = Err::Error(X509Error::NomError(ErrorKind::Eof));
            return Err(contents.refuse_at(rest, why));
        }
        Ok((list, plain))
    }

    // As many extensions as stand at the front, and what stands behind them. The loops are told of no octets outside: a program has each once,
    // whoever asks for the place of a refusal.
    #[inline(always)]
    fn read_members<'a>(
        &self,
        alloc: Global,
        tries: &mut Tries,
        i: &'a [u8],
    ) -> Result<(&'a [u8], Sequence<X509Extension<'a>>, bool), Err<X509Error>>
        ensures { ReadsMembers self.now.deep_parse_extensions i.now tries.old tries.new result }
    {
        if self.deep_parse_extensions {
            members::<Deep>(alloc, tries, i)
        } else {
            members::<Shallow>(alloc, tries, i)
        }
    }
}

// The loop over extensions at one depth. Room is asked for first: for one in each 24 bytes, and for eight at most.
#[inline(never)]
fn members<'a, D: Depth<'a>>(
    alloc: Global,
    tries: &mut Tries,
    i: &'a [u8],
) -> Result<(&'a [u8], Sequence<X509Extension<'a>>, bool), Err<X509Error>>
    ensures { ReadsMembers D.deep i.now tries.old tries.new result }
{
    let mut list = match Vec::with_capacity(alloc, i.len().div_ceil(24).min(8)) {
        Ok(room) => Sequence::from_vec(room),
        Err(_) => return Err(Err::out_of_memory()),
    };
    let mut rest = i;
    let mut plain = true;
    while !rest.is_empty() {
        let place = Place::look(tries, rest);
        match D::add_at(alloc, tries, &place, &mut list) {
            Ok(marked) => {
                plain &= marked;
                rest = place.rest();
            }
            Err(e) => {
                if e.is_out_of_memory() {
                    return Err(e);
                }
                return Ok((rest, list, plain));
            }
        }
    }
    Ok((rest, list, plain))
}

/// Whether the wrapper is a constructed element of context class with this number, and ends where what is left of the structure does.
#[inline(always)]
pub fn closes(number: u32, header: Header, left: &[u8]) -> bool
    ensures { result ≡ closes number header left.now }
{
    match header {
        Header {
            class: Class::ContextSpecific,
            constructed: true,
            tag,
            length,
        } => tag.0 == number && left.len() == length as usize,
        _ => false,
    }
}

// What stands behind a header with this tag number, whatever its class and its length.
#[inline(always)]
#[tactic(auto, unfolding(crate::specs::ExtensionList::wrapper_header, x509_der::specs::Leaves::any_header))]
fn wrapper_of<'a, L: Outside>(
    place: &Place<'a, L>,
    number: u32,
) -> Result<(&'a [u8], Header), Refused<X509Error, L>>
    ensures reads { GivesAt (λ x. (x.0.now, x.1)) (wrapper_header number) L.adds (at place.now) (outside_of place.now) result }
    ensures marks { (wrapper_header number).marks (at place.now) ≡ true }
    ensures sizes { IfOk result (λ x. length x.0.now + 2 ≤ length (at place.now)) }
{
    match place.header() {
        Ok((inner, header)) if header.tag.0 == number => Ok((inner, header)),
        _ => Err(place.refuse(Err::Error(X509Error::InvalidExtensions))),
    }
}
