//! Names as text.

ghost use Rattle.std.specs.Prelude.{◌≡◌, [], Some, IsSome, IfOk, string_bytes, if◌then◌else◌};
ghost use Rattle.std.specs.List.{list_all};
ghost use Rattle.std.specs.Fmt.{DisplaysOnOk};
ghost use Rattle.std.specs.Option.{option_copied};
ghost use Rattle.x509_der.specs.Oid.{oid_bytes};
ghost use Rattle.x509_der.specs.Reading.{element_of};
ghost use Rattle.x509_names.specs.Names.{attribute_of, relative_name_of, name_of};
ghost use Rattle.x509_names.specs.Objects.{registered_name};
ghost use Rattle.x509_names.specs.Registry.{name_by};
ghost use Rattle.x509_names.specs.NameTexts.{lossy_value_text, type_text, lossy_attribute_text, have_texts, lossy_relative_name_text, name_text};
ghost use Rattle.x509_names.specs.NameTexts.{lossy_name_text, shown_name, called_by, IsText};

use crate::name::{AttributeTypeAndValue, RelativeDistinguishedName, X509Name};
use crate::objects::registered_name;
use crate::oid_names::oid2abbrev;
use crate::registry::OidRegistry;
use crate::value_text::{has_text, write_value};
use std::alloc::{AllocError, Global};
use std::fmt;
use x509_der::{Any, Oid};
use x509_fields::X509Error;

/// Each attribute as its type, `=` and its value; ` + ` between the attributes of a relative name and `, ` between relative
/// names, each where text stands before it.
///
/// A type is shown by its abbreviation, else by its short name, else as `OID(1.2.3)`. A value is shown as the text that the
/// number of its tag says, else in upper-case hex. If a text is bad, all of the name is `<X509Error: Invalid X.509 name>`.
impl fmt::Display for X509Name<'_> {
    ghost output = { λ n. Some (shown_name (name_of n)) };

    fn fmt<W: fmt::Write>(&self, f: &mut fmt::Formatter<W>) -> fmt::Result {
        if all_have_texts(self) {
            write_name(self, None, f)
        } else {
            f.write_str("<X509Error: Invalid X.509 name>")
        }
    }
}

impl<'a> X509Name<'a> {
    /// The text that `Display` writes, but that a type without an abbreviation is shown by its short name in the registry.
    ///
    /// # Errors
    ///
    /// `InvalidAttributes` where the text of a value is bad, and `OutOfMemory`.
    pub fn to_string_with_registry(
        &self,
        alloc: Global,
        registry: &OidRegistry<'a>,
    ) -> Result<String, X509Error>
        ensures { IsText string_bytes (name_text (name_by registry.now) (name_of self.now)) result }
    {
        if all_have_texts(self) {
            let text = NameText {
                name: self,
                registry: Some(registry),
            };
            Ok(format!(in alloc; "{text}")?)
        } else {
            Err(X509Error::InvalidAttributes)
        }
    }

    /// The text that `Display` writes, but that a value whose text is bad is shown as `#` and its contents in upper-case hex, which is
    /// the form of RFC 4514, section 2.4, without the header of the value. So every name has such a text, and where no value is bad it
    /// is that of `Display`. It is for people to read, since a string may be spelled as such contents are.
    ///
    /// # Errors
    ///
    /// `AllocError` where memory is refused.
    pub fn to_text_lossy(&self, alloc: Global) -> Result<String, AllocError>
        ensures text { IfOk result (λ s. string_bytes s ≡ lossy_name_text registered_name (name_of self.now)) }

        // Where no text of a value is bad, `Display` writes the same.
        ensures displayed { IfOk result (λ s.
            IsSome (name_text registered_name (name_of self.now)) → string_bytes s ≡ shown_name (name_of self.now)) }
    {
        let text = NameText {
            name: self,
            registry: None,
        };
        format!(in alloc; "{text}")
    }
}

impl AttributeTypeAndValue<'_> {
    /// The text of the value, without the type: what the text of a name shows of it. By the number of the tag that is a string, as UTF-8 or,
    /// of a BMPString, as UTF-16, and else the contents in upper-case hex; where the contents are no such string, `#` and the contents in
    /// upper-case hex, which is the form of RFC 4514, section 2.4, without the header of the value.
    ///
    /// # Errors
    ///
    /// `AllocError` where memory is refused.
    pub fn to_text_lossy(&self, alloc: Global) -> Result<String, AllocError>
        ensures { IfOk result (λ s. string_bytes s ≡ lossy_value_text (attribute_of self.now).attr_value) }
    {
        let text = ValueText {
            value: &self.attr_value,
        };
        format!(in alloc; "{text}")
    }
}

#[derive(Drop)]
struct ValueText<'v, 'a> {
    value: &'v Any<'a>,
}

impl fmt::Display for ValueText<'_, '_> {
    ghost output = { λ t. Some (lossy_value_text (element_of t.value.now)) };

    fn fmt<W: fmt::Write>(&self, f: &mut fmt::Formatter<W>) -> fmt::Result {
        write_value(self.value, f)
    }
}

// A name whose types are called by a registry or, with none, by what is known here.
#[derive(Drop)]
struct NameText<'n, 'a> {
    name: &'n X509Name<'a>,
    registry: Option<&'n OidRegistry<'a>>,
}

impl fmt::Display for NameText<'_, '_> {
    ghost output = { λ t. Some (lossy_name_text (called_by (option_copied t.registry)) (name_of t.name.now)) };

    fn fmt<W: fmt::Write>(&self, f: &mut fmt::Formatter<W>) -> fmt::Result {
        write_name(self.name, self.registry, f)
    }
}

// Whether each value in a name has a text.
fn all_have_texts(name: &X509Name<'_>) -> bool
    ensures { result ≡ list_all have_texts (name_of name.now).relative }
{
    for relative in name.rdn_seq.as_slice() {
        if !have_texts(relative) {
            return false;
        }
    }
    true
}

fn have_texts(name: &RelativeDistinguishedName<'_>) -> bool
    ensures { result ≡ have_texts (relative_name_of name.now) }
{
    for attribute in name.set.as_slice() {
        if !has_text(&attribute.attr_value) {
            return false;
        }
    }
    true
}

// The text of a name, its types by a registry or, with none, by what is known here; a value whose text is bad by its contents.
fn write_name<'a, W: fmt::Write>(
    name: &X509Name<'a>,
    registry: Option<&OidRegistry<'a>>,
    f: &mut fmt::Formatter<W>,
) -> fmt::Result
    ensures { DisplaysOnOk W.write_str_gives f.old result
        (Some (lossy_name_text (called_by (option_copied registry.entry)) (name_of name.now))) f.new }
{
    let mut nothing_yet = true;
    for relative in name.rdn_seq.as_slice() {
        write_separator(nothing_yet, ", ", f)?;
        write_relative_name(relative, registry, f)?;
        nothing_yet &= relative.set.as_slice().is_empty();
    }
    Ok(())
}

fn write_relative_name<'a, W: fmt::Write>(
    name: &RelativeDistinguishedName<'a>,
    registry: Option<&OidRegistry<'a>>,
    f: &mut fmt::Formatter<W>,
) -> fmt::Result
    ensures { DisplaysOnOk W.write_str_gives f.old result
        (Some (lossy_relative_name_text (called_by (option_copied registry.entry)) (relative_name_of name.now))) f.new }
{
    let mut nothing_yet = true;
    for attribute in name.set.as_slice() {
        write_separator(nothing_yet, " + ", f)?;
        write_attribute(attribute, registry, f)?;
        nothing_yet = false;
    }
    Ok(())
}

// Writes a separator, unless no text stands before it.
fn write_separator<W: fmt::Write>(
    nothing_yet: bool,
    separator: &str,
    f: &mut fmt::Formatter<W>,
) -> fmt::Result
    ensures { DisplaysOnOk W.write_str_gives f.old result (Some (if nothing_yet then [] else separator.now)) f.new }
{
    if nothing_yet {
        Ok(())
    } else {
        f.write_str(separator)
    }
}

fn write_attribute<'a, W: fmt::Write>(
    attribute: &AttributeTypeAndValue<'a>,
    registry: Option<&OidRegistry<'a>>,
    f: &mut fmt::Formatter<W>,
) -> fmt::Result
    ensures { DisplaysOnOk W.write_str_gives f.old result
        (Some (lossy_attribute_text (called_by (option_copied registry.entry)) (attribute_of attribute.now))) f.new }
{
    write_type(&attribute.attr_type, registry, f)?;
    f.write_str("=")?;
    write_value(&attribute.attr_value, f)
}

fn write_type<'a, W: fmt::Write>(
    attr_type: &Oid<'a>,
    registry: Option<&OidRegistry<'a>>,
    f: &mut fmt::Formatter<W>,
) -> fmt::Result
    ensures { DisplaysOnOk W.write_str_gives f.old result (Some (type_text (called_by (option_copied registry.entry)) (oid_bytes attr_type.now))) f.new }
{
    match called(attr_type, registry) {
        Some(name) => f.write_str(name),
        None => write!(f, "{attr_type:?}"),
    }
}

// What a type is called, if it is called anything.
fn called<'r, 'a>(attr_type: &Oid<'a>, registry: Option<&'r OidRegistry<'a>>) -> Option<&'r str>
    ensures { option_copied result ≡ called_by (option_copied registry.entry) (oid_bytes attr_type.now) }
{
    match registry {
        Some(registry) => oid2abbrev(attr_type, registry).ok(),
        None => registered_name(attr_type.as_bytes()),
    }
}
