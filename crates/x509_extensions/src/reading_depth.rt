//! How far extensions are read: with what their values say, or without.

ghost use Rattle.std.specs.Prelude.{◌≡◌, ◌≤◌, ◌+◌, ◌-◌, ◌*◌, ◌++◌, ◌∷◌, ⊤, [], Bool, true, false, cond, Err as Refusing, IfOk, IfErr, map, length};
ghost use Rattle.x509_der.specs.Place.{at};
ghost use Rattle.x509_der.specs.Promises.{is_excused};
ghost use Rattle.x509_fields.specs.Errors.{is_x509_memory};
ghost use Rattle.x509_extensions.specs.Adding.{Adds};
ghost use Rattle.x509_extensions.specs.Extension.{extension_of, extension};

use crate::extension::X509Extension;
use crate::parsed::{ParsedExtension, parse_value};
use crate::parser::read_envelope;
use std::alloc::Global;
use x509_der::{Err, Outside, Place, Sequence, Tries, ok};
use x509_fields::X509Error;

/// A depth at which extensions are read.
pub(crate) trait Depth<'a>: Sized {
    /// Whether values are looked at.
    ghost deep: { Bool };

    /// Puts the extension at a place that was looked at behind those of the list, and tells whether it stands plainly.
    fn add_at<L: Outside>(
        alloc: Global,
        tries: &mut Tries,
        place: &Place<'a, L>,
        list: &mut Sequence<X509Extension<'a>>,
    ) -> Result<bool, Err<X509Error>>
        ensures added { IfOk result
            (λ plain. Adds deep (at place.now) (map extension_of list.old) (map extension_of list.new) plain tries.old tries.new) }
        ensures refused { IfErr result (λ e. cond (is_excused is_x509_memory true e) ⊤ ((extension deep).read (at place.now) ≡ Refusing e)) }
        ensures kept { IfErr result (λ e. cond (is_excused is_x509_memory true e) ⊤ (list.new ≡ list.old)) }
        ensures grows { tries.old ≤ tries.new }
        ensures few { tries.new ≤ tries.old + (8 * length (at place.now) - 8) };
}

/// What values say is read too.
pub(crate) struct Deep;

/// Values are left alone.
pub(crate) struct Shallow;

impl<'a> Depth<'a> for Deep {
    ghost deep = { true };

    #[inline(always)]
    #[tactic(auto, unfolding(crate::specs::Extension::extension))]
    fn add_at<L: Outside>(
        alloc: Global,
        tries: &mut Tries,
        place: &Place<'a, L>,
        list: &mut Sequence<X509Extension<'a>>,
    ) -> Result<bool, Err<X509Error>> {
        let (envelope, envelope_plain) = match read_envelope::<Deep, L>(tries, place) {
            Ok(read) => read,
            Err(e) => return Err(e.why),
        };
        let (value, value_plain) = ok!(parse_value(alloc, tries, &envelope.oid, envelope.value));
        ok!(put(list, envelope.with_value(value)));
        Ok(value_plain & envelope_plain)
    }
}

impl<'a> Depth<'a> for Shallow {
    ghost deep = { false };

    #[inline(always)]
    #[tactic(auto, unfolding(crate::specs::Extension::extension))]
    fn add_at<L: Outside>(
        _alloc: Global,
        tries: &mut Tries,
        place: &Place<'a, L>,
        list: &mut Sequence<X509Extension<'a>>,
    ) -> Result<bool, Err<X509Error>> {
        let (envelope, plain) = match read_envelope::<Shallow, L>(tries, place) {
            Ok(read) => read,
            Err(e) => return Err(e.why),
        };
        ok!(put(list, envelope.with_value(ParsedExtension::Unparsed)));
        Ok(plain)
    }
}

// One more extension at the end of the list; the refusal is want of memory.
#[inline(always)]
fn put<'a>(
    list: &mut Sequence<X509Extension<'a>>,
    extension: X509Extension<'a>,
) -> Result<(), Err<X509Error>>
    ensures put { IfOk result (λ _. map extension_of list.new ≡ map extension_of list.old ++ extension_of extension.entry ∷ []) }
    ensures refused { IfErr result (λ e. is_excused is_x509_memory true e ≡ true) }
{
    if list.push(extension).is_err() {
        return Err(Err::out_of_memory());
    }
    Ok(())
}
