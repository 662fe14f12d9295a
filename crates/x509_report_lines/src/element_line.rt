//! The line of an element.

ghost use Rattle.std.specs.Prelude.{◌≡◌, ◌++◌, [], codes, option_copied, option_map};
ghost use Rattle.std.specs.List.{list_all};
ghost use Rattle.x509_der.specs.Hex.{hex_text};
ghost use Rattle.x509_elements.specs.Elements.{line_of};
ghost use Rattle.x509_report_lines.specs.Texts.{called_text, cells, columns, cut_text, element_text, form_text, holds_text, identifier_text, indent, is_identifier};
ghost use Rattle.x509_report_lines.specs.Texts.{is_printable, line_text, may_be_text, name_text, number_text, octets_text, raw_text, refused_text};
ghost use Rattle.x509_report_lines.specs.Texts.{tag_text, text_in, truth_word, universal_word, value_shown, value_text};
ghost use Rattle.x509_elements.specs.Cursors.{called_of};
ghost use Rattle.x509_report_lines.specs.Escape.{NoControls, escaped};
ghost use Rattle.x509_report_lines.specs.Kept.{Grows};

use crate::escape::push_escaped;
use crate::text::Text;
use std::str;
use x509_der::{BerError, Class, Err, Header, HexPairs, Oid, Tag};
use x509_elements::{Called, DumpLine, What, behind, first_of};
use x509_names::registered_name;

/// How many octets of a value are shown in hex.
const SHOWN: usize = 32;

/// How many octets an identifier has at most that is shown in dotted decimal.
const DOTTED: usize = 64;

/// How far a line is indented at most.
const INDENTED: usize = 128;

/// What a universal type is called (X.680, section 8.4), as `openssl asn1parse` writes it.
fn universal_word(number: u32) -> Option<&'static str>
    ensures { option_copied result ≡ universal_word number }
{
    match number {
        0 => Some("EOC"),
        1 => Some("BOOLEAN"),
        2 => Some("INTEGER"),
        3 => Some("BIT STRING"),
        4 => Some("OCTET STRING"),
        5 => Some("NULL"),
        6 => Some("OBJECT"),
        7 => Some("OBJECT DESCRIPTOR"),
        8 => Some("EXTERNAL"),
        9 => Some("REAL"),
        10 => Some("ENUMERATED"),
        12 => Some("UTF8STRING"),
        16 => Some("SEQUENCE"),
        17 => Some("SET"),
        18 => Some("NUMERICSTRING"),
        19 => Some("PRINTABLESTRING"),
        20 => Some("T61STRING"),
        21 => Some("VIDEOTEXSTRING"),
        22 => Some("IA5STRING"),
        23 => Some("UTCTIME"),
        24 => Some("GENERALIZEDTIME"),
        25 => Some("GRAPHICSTRING"),
        26 => Some("VISIBLESTRING"),
        27 => Some("GENERALSTRING"),
        28 => Some("UNIVERSALSTRING"),
        30 => Some("BMPSTRING"),
        _ => None,
    }
}

/// Adds the class and the number of a tag, or the name of a universal type (X.680, section 8.4) as `openssl asn1parse` writes it.
pub fn push_tag(text: &mut Text, header: &Header)
    ensures { Grows text.old text.new (tag_text header.now) }
{
    let number = header.tag.0;
    match header.class {
        Class::Universal => match universal_word(number) {
            Some(word) => text.push_str(word),
            None => text.display(&format_args!("<ASN1 {number}>")),
        },
        Class::Application => text.display(&format_args!("appl [ {number} ]")),
        Class::ContextSpecific => text.display(&format_args!("cont [ {number} ]")),
        Class::Private => text.display(&format_args!("priv [ {number} ]")),
    }
}

/// Adds a name behind a space; nothing where there is no name.
fn push_name(text: &mut Text, name: &str)
    ensures { Grows text.old text.new (name_text name.now) }
{
    if !name.is_empty() {
        text.display(&format_args!(" {name}"));
    }
}

/// Adds the number of a member of a list, behind a space.
fn push_number(text: &mut Text, number: Option<usize>)
    ensures { Grows text.old text.new (number_text number) }
{
    if let Some(number) = number {
        text.display(&format_args!(" [{number}]"));
    }
}

/// Adds what an element is called, each behind a space: the name of its field, its number in a list, and its alternative of a choice.
pub fn push_called(text: &mut Text, called: &Called)
    ensures { Grows text.old text.new (called_text (called_of called.now)) }
{
    push_name(text, called.name);
    push_number(text, called.number);
    push_name(text, called.alternative);
}

/// Adds a space for each level.
fn push_indent(text: &mut Text, depth: usize)
    ensures { Grows text.old text.new (indent depth) }
{
    for _level in 0..depth.min(INDENTED) {
        text.push_str(" ");
    }
}

/// Adds octets in hex.
fn push_hex(text: &mut Text, bytes: &[u8])
    ensures { Grows text.old text.new (hex_text [] bytes.now) }
{
    let separator = "";
    text.display(&HexPairs { bytes, separator });
}

/// Adds octets in hex, of more than 32 the first 32 and two dots.
pub fn push_octets(text: &mut Text, octets: &[u8])
    ensures { Grows text.old text.new (octets_text octets.now) }
{
    if octets.len() > SHOWN {
        push_hex(text, first_of(octets, SHOWN));
        text.push_str("..");
    } else {
        push_hex(text, octets);
    }
}

/// Adds an identifier, and what it is called where the registry knows it.
fn push_identifier(text: &mut Text, octets: &[u8])
    ensures { Grows text.old text.new (identifier_text octets.now) }
{
    text.display(&Oid::new(octets));
    if let Some(name) = registered_name(octets) {
        text.display(&format_args!(" {name}"));
    }
}

/// The word of a BOOLEAN (X.690, sections 8.2 and 11.1).
fn truth_word(header: &Header, contents: &[u8]) -> Option<&'static str>
    ensures { option_copied result ≡ truth_word header.now contents.now }
{
    if !matches!(header.class, Class::Universal) || header.tag.0 != 1 {
        return None;
    }
    match contents {
        [0x00] => Some("FALSE"),
        [0xff] => Some("TRUE"),
        _ => None,
    }
}

/// Whether an element is an identifier.
fn is_identifier(header: &Header) -> bool
    ensures { result ≡ is_identifier header.now }
{
    matches!(header.class, Class::Universal) && header.tag == Tag::Oid
}

/// Whether an element is of a type of strings or times.
fn holds_text(header: &Header) -> bool
    ensures { result ≡ holds_text header.now }
{
    let number = header.tag.0;
    matches!(header.class, Class::Universal) && (number == 12 || (18 <= number && number <= 27))
}

/// Whether all octets are printable characters of ASCII.
fn is_printable(octets: &[u8]) -> bool
    ensures { result ≡ list_all is_printable octets.now }
{
    octets.iter().all(|b| 0x20 <= *b && *b <= 0x7e)
}

/// Whether the contents may be text.
fn may_be_text(header: &Header, contents: &[u8]) -> bool
    ensures { result ≡ may_be_text header.now contents.now }
{
    holds_text(header) || (matches!(header.class, Class::ContextSpecific) && is_printable(contents))
}

/// The contents as text, where they are text.
#[tactic(auto, using(crate::proofs::Joined::texts))]
fn text_in<'a>(header: &Header, contents: &'a [u8]) -> Option<&'a str>
    ensures { option_map (λ s. s.now) result ≡ text_in header.now contents.now }
{
    if !may_be_text(header, contents) {
        return None;
    }
    match str::from_utf8(contents) {
        Ok(text) => Some(text),
        Err(_) => None,
    }
}

/// Adds octets in hex behind a colon.
fn push_octets_behind(text: &mut Text, octets: &[u8])
    ensures { Grows text.old text.new (codes ": " ++ octets_text octets.now) }
{
    text.push_str(": ");
    push_octets(text, octets);
}

/// Adds a value that has an octet.
fn push_shown(text: &mut Text, header: &Header, contents: &[u8])
    ensures { Grows text.old text.new (value_shown header.now contents.now) }
{
    if is_identifier(header) && contents.len() <= DOTTED {
        push_identifier(text, contents);
    } else if let Some(word) = truth_word(header, contents) {
        text.push_str(word);
    } else if let Some(shown) = text_in(header, contents) {
        text.display(&format_args!("\"{shown}\""));
    } else {
        push_octets(text, contents);
    }
}

/// Adds the value of an element behind a colon, where the line holds an octet of it: an identifier with its name, a truth value, a text in
/// quotes as it stands, and all else in hex.
pub fn push_value(text: &mut Text, header: &Header, contents: &[u8])
    ensures { Grows text.old text.new (value_text header.now contents.now) }
{
    if !contents.is_empty() {
        text.push_str(": ");
        push_shown(text, header, contents);
    }
}

/// Adds how many octets of the contents are there, where the header announces more.
pub fn push_cut(text: &mut Text, header: &Header, there: usize)
    ensures { Grows text.old text.new (cut_text header.now there) }
{
    if there < header.length as usize {
        text.display(&format_args!(" !cut, {there} octets are there"));
    }
}

/// Adds the columns that stand in each line.
fn push_cells(text: &mut Text, line: &DumpLine<'_>, size: usize, length: usize, form: &str)
    ensures { Grows text.old text.new (cells (line_of line.now) size length form.now) }
{
    let offset = line.offset;
    let depth = line.depth;
    text.display(&format_args!("{offset:>5}:d={depth:<2} hl={size} l={length:>4} {form}: "));
}

/// Adds the columns that stand in each line, and its indent.
fn push_columns(text: &mut Text, line: &DumpLine<'_>, size: usize, length: usize, form: &str)
    ensures { Grows text.old text.new (columns (line_of line.now) size length form.now) }
{
    push_cells(text, line, size, length, form);
    push_indent(text, line.depth);
}

/// Whether the contents of an element are elements, in a word.
fn form_word(header: &Header) -> &'static str
    ensures { result.now ≡ form_text header.now }
{
    if header.constructed { "cons" } else { "prim" }
}

/// Adds what an element tells.
fn push_element(text: &mut Text, line: &DumpLine<'_>, header: &Header, size: usize, there: usize)
    ensures { Grows text.old text.new (element_text (line_of line.now) header.now size there) }
{
    push_columns(text, line, size, header.length as usize, form_word(header));
    push_tag(text, header);
    push_called(text, &line.called);
    push_cut(text, header, there);
    push_value(text, header, behind(line.octets, size));
}

/// Adds what is told of octets that are no element.
fn push_refused(text: &mut Text, line: &DumpLine<'_>, why: &Err<BerError>)
    ensures { Grows text.old text.new (refused_text (line_of line.now) why.now) }
{
    push_columns(text, line, 0, line.octets.len(), "bad!");
    text.push_str(why.word());
    push_octets_behind(text, line.octets);
}

/// Adds what a line tells, as it stands.
#[tactic(auto, unfolding(crate::specs::Texts::raw_text))]
fn push_raw(text: &mut Text, line: &DumpLine<'_>)
    ensures { Grows text.old text.new (raw_text (line_of line.now)) }
{
    match line.what {
        What::Element {
            header,
            size,
            there,
        } => push_element(text, line, &header, size, there),
        What::Refused(why) => push_refused(text, line, &why),
    }
}

/// Adds a line: in columns as `openssl asn1parse -i` writes them its offset, its depth, how many octets its header and its contents have,
/// and whether these are elements; then what type it is, what it is called, and its value. Characters that could forge a line or hide text
/// are shown by number.
#[tactic(auto, unfolding(crate::specs::Texts::line_text), using(crate::proofs::Joined::texts))]
pub fn push_line(out: &mut Text, line: &DumpLine<'_>)
    ensures text { Grows out.old out.new (line_text (line_of line.now)) }
    // No control, nothing that hides text or sets its direction: no text can make a line.
    ensures shown { NoControls (escaped (raw_text (line_of line.now))) }
{
    let mut text = Text::new(out.alloc());
    push_raw(&mut text, line);
    match text.as_str() {
        Ok(text) => push_escaped(out, text),
        Err(_) => out.stop(),
    }
    out.push_str("\n");
}
