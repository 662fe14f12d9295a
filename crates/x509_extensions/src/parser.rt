//! Readers of extensions, which look at the values or leave them alone.

ghost use Rattle.std.specs.Prelude.{◌≡◌, ◌-◌, ⊤, true, length};
ghost use Rattle.x509_der.specs.Grammar.{allocates, in_sequence};
ghost use Rattle.x509_der.specs.Place.{at, outside_of};
ghost use Rattle.x509_der.specs.Primitives.{is_constructed};
ghost use Rattle.x509_der.specs.Promises.{OneTryEach, ReadsParts};
ghost use Rattle.x509_der.specs.Leaves.{sequence as leaf_sequence};
ghost use Rattle.x509_der.specs.Reading.{strict};
ghost use Rattle.x509_extensions.specs.Extension.{Extension, extension_of, extension_heads, extension_laws, envelope_of, envelope_fields, envelope, extension};
ghost use Rattle.x509_extensions.specs.Extension.{with_parsed};
ghost use Rattle.x509_extensions.specs.Parsed.{parsed_of};

use crate::extension::X509Extension;
use crate::parsed::{ParsedExtension, parse_value};
use crate::reading_depth::Deep;
use std::alloc::Global;
use x509_der::{Fields, Oid, Outside, Place, Reader, Refused, Tries, converted, named};
use x509_fields::{X509Error, sequence_at};

/// Reads extensions, with or without what their values say.
///
/// A new one is deep: it reads each value whose identifier it knows, and says [`ParsedExtension::ParseError`] where that
/// can't be read. A shallow one leaves every value [`ParsedExtension::Unparsed`] and tries no header inside it.
#[derive(Clone, Copy, Debug)]
pub struct X509ExtensionParser {
    pub(crate) deep_parse_extensions: bool,
}

impl Default for X509ExtensionParser {
    ghost is_default = { λ p. p.deep_parse_extensions ≡ true };

    fn default() -> X509ExtensionParser {
        X509ExtensionParser::new()
    }
}

impl X509ExtensionParser {
    /// A reader that looks at values.
    pub const fn new() -> X509ExtensionParser
        ensures { result.deep_parse_extensions ≡ true }
    {
        X509ExtensionParser {
            deep_parse_extensions: true,
        }
    }

    /// The reader that looks at values, or doesn't.
    pub const fn with_deep_parse_extensions(
        self,
        deep_parse_extensions: bool,
    ) -> X509ExtensionParser
        ensures { result.deep_parse_extensions ≡ deep_parse_extensions }
    {
        X509ExtensionParser {
            deep_parse_extensions,
        }
    }
}

/// Reads an extension, `Error(InvalidExtensions)` where none stands; a shallow reader tries no header inside its value.
impl<'a> Reader<'a, X509Error, X509Extension<'a>> for X509ExtensionParser {
    ghost Value = { Extension };

    ghost view = { extension_of };

    ghost grammar = { λ p. in_sequence (extension p.deep_parse_extensions) (extension_laws p.deep_parse_extensions) extension_heads allocates };

    ghost is_deep = { λ p. p.deep_parse_extensions };

    ghost unread = { λ x. length x.value };

    ghost stands = { λ _ _ _ _. ⊤ };

    ghost stands_where = { λ _ _ _ _ _ _. tt };

    ghost refused_where = { λ _ _ _ _ _ _. tt };

    #[inline(always)]
    #[tactic(auto, unfolding(crate::specs::Extension::extension))]
    fn read_at<L: Outside>(
        &self,
        alloc: Global,
        tries: &mut Tries,
        place: &Place<'a, L>,
    ) -> Result<(X509Extension<'a>, bool), Refused<X509Error, L>> {
        let (envelope, envelope_plain) = read_envelope::<Deep, L>(tries, place)?;
        if !self.deep_parse_extensions {
            return Ok((
                envelope.with_value(ParsedExtension::Unparsed),
                envelope_plain,
            ));
        }
        let (value, value_plain) = place.judge(parse_value(
            alloc,
            tries,
            &envelope.oid,
            envelope.value,
        ))?;
        Ok((envelope.with_value(value), value_plain & envelope_plain))
    }

    ghost never_memory = { λ p. (extension_laws p.deep_parse_extensions).laws.never_memory };
}

/// An extension whose value isn't looked at.
#[derive(Clone, Copy)]
pub(crate) struct Envelope<'a> {
    pub(crate) oid: Oid<'a>,
    critical: bool,
    pub(crate) value: &'a [u8],
}

impl<'a> Envelope<'a> {
    // The extension whose value says this.
    #[inline(always)]
    pub(crate) fn with_value(self, parsed_extension: ParsedExtension<'a>) -> X509Extension<'a>
        ensures { extension_of result ≡ with_parsed (envelope_of self.entry) (parsed_of parsed_extension.entry) }
    {
        X509Extension {
            oid: self.oid,
            critical: self.critical,
            value: self.value,
            parsed_extension,
        }
    }
}

// The three fields of an extension, with the refusals of each; for a depth, so that each loop over extensions has a reader of its own, which LLVM
// writes into it.
#[inline(always)]
#[tactic(auto, unfolding(crate::specs::Extension::envelope_fields), using(x509_der::proofs::Steps::marks_of_fields))]
fn read_envelope_fields<'a, D, L: Outside>(
    tries: &mut Tries,
    place: &Place<'a, L>,
) -> Result<(Envelope<'a>, bool), Refused<X509Error, L>>
    ensures parts { ReadsParts strict (is_constructed 16) (λ e. extension_heads e - 1) envelope_of (λ envelope. length envelope.value.now) envelope_fields L.adds (at place.now)
        (outside_of place.now) tries.old tries.new result }
    // Each child of the envelope is looked at once.
    ensures once { OneTryEach leaf_sequence (at place.now) tries.old tries.new }
{
    let contents = sequence_at(place)?;
    let fields = Fields::of(tries, &contents);
    let (fields, oid) = converted!(fields.oid(tries));
    let (fields, critical) = fields.soft_bool_loose(tries);
    let value = converted!(fields.place.octets());
    let envelope = Envelope {
        oid,
        critical: critical.unwrap_or(false),
        value,
    };
    Ok((envelope, fields.ends_here()))
}

// The same, with one refusal for all.
#[inline(always)]
#[tactic(auto, unfolding(crate::specs::Extension::envelope))]
pub(crate) fn read_envelope<'a, D, L: Outside>(
    tries: &mut Tries,
    place: &Place<'a, L>,
) -> Result<(Envelope<'a>, bool), Refused<X509Error, L>>
    ensures { ReadsParts strict (is_constructed 16) (λ e. extension_heads e - 1) envelope_of (λ envelope. length envelope.value.now) envelope L.adds (at place.now)
        (outside_of place.now) tries.old tries.new result }
{
    Ok(named!(
        read_envelope_fields::<D, L>(tries, place),
        X509Error::InvalidExtensions
    ))
}
