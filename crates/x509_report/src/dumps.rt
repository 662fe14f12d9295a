//! The elements of an object, a line each, with marks where a reader refuses it and where values of extensions are refused: for people, or as a
//! part of a page.

ghost use Rattle.std.specs.Prelude.{◌≡◌, ◌∷◌, [], ◌++◌, ◌+◌, ◌≤◌, length, nat_lt, IfOk, string_bytes};
ghost use Rattle.x509_elements.specs.Elements.{elements_of, line_of};
ghost use Rattle.x509_report_lines.specs.Kept.{Grows};
ghost use Rattle.x509_report_objects.specs.Attempts.{wishes_of};
ghost use Rattle.x509_report.specs.Dumps.{count_in, dump_lines, dump_told, element_line, end_told, held, holds, mark, mark_behind};
ghost use Rattle.x509_report.specs.Dumps.{mark_in, marked_lines, marks_behind, open_told, refusal_words, section_end, section_page};
ghost use Rattle.x509_report.specs.Dumps.{value_marks, value_words};
ghost use Rattle.x509_report.specs.Told.{Prints, alone};
ghost use Rattle.x509_report.specs.Views.{part_of, view_of};

use crate::options::Form;
use crate::printer::Printer;
use crate::views::{View, part_of, part_word, view_of};
use std::alloc::{AllocError, Global};
use std::io::Write;
use x509_der::Located;
use x509_elements::{DumpLine, Part, RefusedValue, behind, dump, refused_values};
use x509_fields::X509Error;
use x509_report_lines::html::{push_closings, push_element, push_mark, push_octets};
use x509_report_lines::{Text, push_line};
use x509_report_objects::Wishes;

/// Why a reader refuses, in words.
fn refusal_words(
    alloc: Global,
    part: Part,
    refusal: &Located<X509Error>,
) -> Result<String, AllocError>
    ensures { IfOk result (λ text. string_bytes text ≡ refusal_words part refusal.now) }
{
    let kind = part_word(part);
    let word = refusal.why.word();
    format!(in alloc; "no {kind}: {word}")
}

/// Why a value is refused, in words.
fn value_words(alloc: Global, value: &RefusedValue) -> Result<String, AllocError>
    ensures { IfOk result (λ text. string_bytes text ≡ value_words value.now) }
{
    let word = value.why.word();
    format!(in alloc; "no extension value: {word}")
}

/// Adds a mark at an octet, with these words: in a page an element, else a line of its own.
fn push_mark_at(form: Form, text: &mut Text, at: usize, words: &str)
    ensures { Grows text.old text.new (mark form at words.now) }
{
    match form {
        Form::Html => push_mark(text, at, words),
        Form::Json | Form::Text => text.display(&format_args!("{at:>5}:^ {words}\n")),
    }
}

/// Adds the mark of a reader's refusal.
fn push_refusal(form: Form, text: &mut Text, part: Part, refusal: &Located<X509Error>)
    ensures { Grows text.old text.new (mark form refusal.now.at (refusal_words part refusal.now)) }
{
    match refusal_words(text.alloc(), part, refusal) {
        Ok(words) => push_mark_at(form, text, refusal.at, words.as_str()),
        Err(_) => text.stop(),
    }
}

/// Whether a line holds an octet.
fn holds(line: &DumpLine<'_>, at: usize) -> bool
    ensures { result ≡ holds (line_of line.now) at }
{
    line.offset <= at && at - line.offset < line.octets.len()
}

/// Adds the mark of the reader's refusal, where the line holds the octet.
fn push_mark_in(form: Form, text: &mut Text, view: &View, line: &DumpLine<'_>)
    ensures { Grows text.old text.new (mark_in form view.now (line_of line.now)) }
{
    if let View::Refused(part, refusal) = view {
        if holds(line, refusal.at) {
            push_refusal(form, text, *part, refusal);
        }
    }
}

/// Adds that mark behind the last line, where the octet is none of the object.
fn push_mark_behind(form: Form, text: &mut Text, view: &View, octets: &[u8])
    ensures { Grows text.old text.new (mark_behind form view.now octets.now) }
{
    if let View::Refused(part, refusal) = view {
        if octets.len() <= refusal.at {
            push_refusal(form, text, *part, refusal);
        }
    }
}

/// The octet below whose line a value is marked: that at which it is refused, and where it ends before that the one before.
fn held(value: &RefusedValue) -> usize
    ensures { result ≡ held value.now }
{
    if value.at.saturating_sub(value.value_at) < value.value_size {
        value.at
    } else {
        value.at.saturating_sub(1)
    }
}

/// Whether an octet stands before the end of a line.
fn is_before(octet: usize, line: &DumpLine<'_>) -> bool
    ensures { result ≡ nat_lt octet ((line_of line.now).offset + length (line_of line.now).octets) }
{
    octet < line.offset || octet - line.offset < line.octets.len()
}

/// How many of the values, from the first on, are marked below a line.
fn count_in(values: &[RefusedValue], line: &DumpLine<'_>) -> usize
    ensures count { result ≡ count_in (line_of line.now) values.now }
    ensures within { result ≤ length values.now }
{
    let mut count = 0;
    for value in values {
        if !is_before(held(value), line) {
            return count;
        }
        count += 1;
    }
    count
}

/// Adds the mark of a value that is refused.
fn push_value_mark(form: Form, text: &mut Text, value: &RefusedValue)
    ensures { Grows text.old text.new (mark form value.now.at (value_words value.now)) }
{
    match value_words(text.alloc(), value) {
        Ok(words) => push_mark_at(form, text, value.at, words.as_str()),
        Err(_) => text.stop(),
    }
}

/// Adds a mark for each value.
fn push_value_marks(form: Form, text: &mut Text, values: &[RefusedValue])
    ensures { Grows text.old text.new (value_marks form values.now) }
{
    for value in values {
        push_value_mark(form, text, value);
    }
}

/// Adds the line of an element, where so many parts of a page are open. Tells how many are open behind it.
fn push_told(form: Form, text: &mut Text, opened: usize, line: &DumpLine<'_>) -> usize
    ensures text { Grows text.old text.new (element_line form opened (line_of line.now)) }
    ensures opened { result ≡ open_told form (line_of line.now) }
{
    match form {
        Form::Html => push_element(text, opened, line),
        Form::Json | Form::Text => {
            push_line(text, line);
            0
        }
    }
}

/// Adds the marks behind the last line: of values that are left, and of the object where the octet is none of it.
#[tactic(auto, unfolding(crate::specs::Dumps::marks_behind))]
fn push_marks_behind(
    form: Form,
    text: &mut Text,
    view: &View,
    octets: &[u8],
    values: &[RefusedValue],
)
    ensures { Grows text.old text.new (marks_behind form view.now octets.now values.now) }
{
    push_value_marks(form, text, values);
    push_mark_behind(form, text, view, octets);
}

/// Adds what stands behind the last line of a page, where so many parts are open and these values are left.
#[tactic(auto, unfolding(crate::specs::Dumps::section_end))]
fn push_end(page: &mut Text, view: &View, octets: &[u8], values: &[RefusedValue], opened: usize)
    ensures { Grows page.old page.new (section_end view.now octets.now values.now opened) }
{
    push_closings(page, opened);
    push_marks_behind(Form::Html, page, view, octets, values);
    push_octets(page, octets);
    page.push_str("</section>\n");
}

/// Adds what stands behind the last line.
fn push_behind(
    form: Form,
    text: &mut Text,
    view: &View,
    octets: &[u8],
    values: &[RefusedValue],
    opened: usize,
)
    ensures { Grows text.old text.new (end_told form view.now octets.now values.now opened) }
{
    match form {
        Form::Html => push_end(text, view, octets, values, opened),
        Form::Json | Form::Text => push_marks_behind(form, text, view, octets, values),
    }
}

/// The line of an element, where so many parts are open, and below it the mark of the object and those of values. Tells how many parts are
/// open behind it.
fn report_line<W: Write>(
    printer: &mut Printer<W>,
    form: Form,
    view: &View,
    values: &[RefusedValue],
    opened: usize,
    line: &DumpLine<'_>,
) -> usize
    ensures lines { Prints printer.old printer.new (alone ((element_line form opened (line_of line.now)
        ++ (mark_in form view.now (line_of line.now) ++ value_marks form values.now)) ∷ [])) }
    ensures opened { result ≡ open_told form (line_of line.now) }
{
    let mut text = Text::new(printer.alloc());
    let open = push_told(form, &mut text, opened, line);
    push_mark_in(form, &mut text, view, line);
    push_value_marks(form, &mut text, values);
    printer.put_text(&text);
    open
}

/// What stands behind the last line.
fn report_end<W: Write>(
    printer: &mut Printer<W>,
    form: Form,
    view: &View,
    octets: &[u8],
    values: &[RefusedValue],
    opened: usize,
)
    ensures { Prints printer.old printer.new (alone (end_told form view.now octets.now values.now opened ∷ [])) }
{
    let mut text = Text::new(printer.alloc());
    push_behind(form, &mut text, view, octets, values, opened);
    printer.put_text(&text);
}

/// The lines of the elements, and what stands behind the last.
fn report_lines<W: Write>(
    printer: &mut Printer<W>,
    form: Form,
    view: &View,
    values: &[RefusedValue],
    octets: &[u8],
)
    ensures { Prints printer.old printer.new
        (alone (marked_lines form view.now octets.now values.now 0 (elements_of (part_of view.now) octets.now))) }
{
    let mut left = values;
    let mut opened = 0;
    for found in dump(printer.alloc(), part_of(view), octets) {
        if printer.has_stopped() {
            return;
        }
        let Ok(line) = found else {
            return printer.stop();
        };
        let count = count_in(left, &line);
        opened = report_line(printer, form, view, &left[..count], opened, &line);
        left = behind(left, count);
    }
    report_end(printer, form, view, octets, left, opened);
}

/// The elements of an object as it is seen.
#[tactic(auto, using(crate::proofs::Prints::printing))]
fn report_view<W: Write>(printer: &mut Printer<W>, form: Form, view: &View, octets: &[u8])
    ensures { Prints printer.old printer.new (alone (dump_lines form view.now octets.now)) }
{
    if printer.has_stopped() {
        return;
    }
    match refused_values(printer.alloc(), part_of(view), octets) {
        Ok(values) => report_lines(printer, form, view, values.as_slice(), octets),
        Err(_) => printer.stop(),
    }
}

/// The same, as a section of a page.
#[tactic(auto, using(crate::proofs::Prints::printing), unfolding(crate::specs::Dumps::section_page))]
fn report_section<W: Write>(printer: &mut Printer<W>, view: &View, octets: &[u8])
    ensures { Prints printer.old printer.new (alone (section_page view.now octets.now)) }
{
    printer.write(b"<section>\n");
    report_view(printer, Form::Html, view, octets);
}

/// The elements of an object, named by the reader that it is seen by, and a mark where that refuses it.
#[tactic(auto, using(crate::proofs::Prints::printing))]
pub fn report_dump<W: Write>(printer: &mut Printer<W>, form: Form, wishes: &Wishes, octets: &[u8])
    ensures { Prints printer.old printer.new (alone (dump_told form (view_of (wishes_of wishes.now) octets.now) octets.now)) }
{
    if printer.has_stopped() {
        return;
    }
    let Ok(view) = view_of(printer.alloc(), wishes, octets) else {
        return printer.stop();
    };
    match form {
        Form::Html => report_section(printer, &view, octets),
        Form::Json | Form::Text => report_view(printer, form, &view, octets),
    }
}
