//! The elements of an object in a page.

ghost use Rattle.std.specs.Prelude.{◌≡◌, codes, false};
ghost use Rattle.x509_elements.specs.Elements.{line_of};
ghost use Rattle.x509_report_lines.specs.Kept.{Grows};
ghost use Rattle.x509_report_lines.specs.Texts.{called_text};
ghost use Rattle.x509_report_lines.specs.PageEscape.{framed};
ghost use Rattle.x509_report_lines.specs.PageElements.{attribute, closings, contents_text, element_page, fold_page, folds, holds_elements, leaf_page, level};
ghost use Rattle.x509_report_lines.specs.PageElements.{mark_page, number_page, open_behind, place_page};
ghost use Rattle.x509_report_lines.specs.PageElements.{rest_of, row_page, size_of, summary_page, tag_page, type_text};

use crate::element_line::{push_called, push_cut, push_octets, push_tag, push_value};
use crate::html::escape::push_framed;
use crate::text::Text;
use x509_elements::{DumpLine, What, behind};

/// How deep parts stand in one another at most; what stands deeper folds with those around it.
const DEEPEST: usize = 64;

/// Ends so many parts that fold.
#[tactic(auto, unfolding(crate::specs::PageElements::closings))]
pub fn push_closings(out: &mut Text, count: usize)
    ensures { Grows out.old out.new (closings count) }
{
    for _part in 0..count {
        out.push_str("</details>");
    }
}

/// How many octets the header of an element has; none of octets that are no element.
fn size_of(what: &What) -> usize
    ensures { result ≡ size_of what.now }
{
    match what {
        What::Element { size, .. } => *size,
        What::Refused(_) => 0,
    }
}

/// How many octets stand behind the header.
fn rest_of(line: &DumpLine<'_>) -> usize
    ensures { result ≡ rest_of (line_of line.now) }
{
    match line.what {
        What::Element { there, .. } => there,
        What::Refused(_) => line.octets.len(),
    }
}

/// In how many parts a line stands.
fn level(line: &DumpLine<'_>) -> usize
    ensures { result ≡ level (line_of line.now) }
{
    line.depth.min(DEEPEST)
}

/// Whether elements with lines of their own stand in this one.
fn holds_elements(line: &DumpLine<'_>) -> bool
    ensures { result ≡ holds_elements (line_of line.now) }
{
    line.octets.len().saturating_sub(size_of(&line.what)) < rest_of(line)
}

/// Whether a line begins a part that folds.
fn folds(line: &DumpLine<'_>) -> bool
    ensures { result ≡ folds (line_of line.now) }
{
    line.depth < DEEPEST && holds_elements(line)
}

/// Adds what type an element has.
fn push_type(out: &mut Text, what: &What)
    ensures { Grows out.old out.new (type_text what.now) }
{
    match what {
        What::Element { header, .. } => push_tag(out, header),
        What::Refused(why) => {
            out.push_str("bad: ");
            out.push_str(why.word());
        }
    }
}

/// Adds the value of an element, or the octets that are none.
fn push_contents(out: &mut Text, line: &DumpLine<'_>)
    ensures { Grows out.old out.new (contents_text (line_of line.now)) }
{
    match line.what {
        What::Element {
            header,
            size,
            there,
        } => {
            push_cut(out, &header, there);
            push_value(out, &header, behind(line.octets, size));
        }
        What::Refused(_) => {
            out.push_str(": ");
            push_octets(out, line.octets);
        }
    }
}

/// Adds a text that was written apart, as a page shows it, between two pieces of markup.
fn push_apart(out: &mut Text, before: &str, text: &Text, behind: &str)
    ensures { out.new.stopped ≡ false → (text.now.stopped ≡ false) × Grows out.old out.new (framed before.now text.now.so_far behind.now) }
{
    match text.as_str() {
        Ok(text) => push_framed(out, before, text, behind),
        Err(_) => out.stop(),
    }
}

/// Adds what type an element has, as a page shows it.
fn push_kind(out: &mut Text, what: &What)
    ensures { Grows out.old out.new (framed (codes "<code>") (type_text what.now) (codes "</code>")) }
{
    let mut text = Text::new(out.alloc());
    push_type(&mut text, what);
    push_apart(out, "<code>", &text, "</code>");
}

/// Adds what it is called, as a page shows it.
fn push_names(out: &mut Text, line: &DumpLine<'_>)
    ensures { Grows out.old out.new (framed (codes "<i>") (called_text (line_of line.now).called) (codes "</i>")) }
{
    let mut text = Text::new(out.alloc());
    push_called(&mut text, &line.called);
    push_apart(out, "<i>", &text, "</i>");
}

/// Adds its value, as a page shows it.
fn push_shown(out: &mut Text, line: &DumpLine<'_>)
    ensures { Grows out.old out.new (framed (codes "<span>") (contents_text (line_of line.now)) (codes "</span>")) }
{
    let mut text = Text::new(out.alloc());
    push_contents(&mut text, line);
    push_apart(out, "<span>", &text, "</span>");
}

/// Adds a number as an attribute.
#[tactic(auto, unfolding(crate::specs::PageElements::attribute))]
fn push_attribute(out: &mut Text, name: &str, n: usize)
    ensures { Grows out.old out.new (attribute name.now n) }
{
    out.display(&format_args!(" data-{name}=\"{n}\""));
}

/// Adds which octets a line is about, as attributes of its element.
#[tactic(auto, unfolding(crate::specs::PageElements::place_page))]
fn push_place(out: &mut Text, line: &DumpLine<'_>)
    ensures { Grows out.old out.new (place_page (line_of line.now)) }
{
    push_attribute(out, "at", line.offset);
    push_attribute(out, "size", size_of(&line.what));
    push_attribute(out, "rest", rest_of(line));
}

/// Adds the offset that a line begins with.
#[tactic(auto, unfolding(crate::specs::PageElements::number_page))]
fn push_number(out: &mut Text, n: usize)
    ensures { Grows out.old out.new (number_page n) }
{
    out.display(&format_args!("<b>{n}</b> "));
}

/// Adds what a line tells: its offset, the type, the name and the value.
#[tactic(auto, unfolding(crate::specs::PageElements::row_page))]
fn push_row(out: &mut Text, line: &DumpLine<'_>)
    ensures { Grows out.old out.new (row_page (line_of line.now)) }
{
    push_number(out, line.offset);
    push_kind(out, &line.what);
    push_names(out, line);
    push_shown(out, line);
}

/// Adds what is seen of a part that is folded.
#[tactic(auto, unfolding(crate::specs::PageElements::summary_page))]
fn push_summary(out: &mut Text, line: &DumpLine<'_>)
    ensures { Grows out.old out.new (summary_page (line_of line.now)) }
{
    out.push_str("<summary>");
    push_row(out, line);
    out.push_str("</summary>");
}

/// Adds the tag of a line, whose words these are.
#[tactic(auto, unfolding(crate::specs::PageElements::tag_page))]
fn push_tag_of(out: &mut Text, words: &str, line: &DumpLine<'_>)
    ensures { Grows out.old out.new (tag_page words.now (line_of line.now)) }
{
    out.push_str("<");
    out.push_str(words);
    push_place(out, line);
    out.push_str(">");
}

/// Adds the part that begins with a line, up to what stands in it.
fn push_fold(out: &mut Text, line: &DumpLine<'_>)
    ensures { Grows out.old out.new (fold_page (line_of line.now)) }
{
    push_tag_of(out, "details open", line);
    push_summary(out, line);
}

/// Adds a line in which no other stands.
#[tactic(auto, unfolding(crate::specs::PageElements::leaf_page))]
fn push_leaf(out: &mut Text, line: &DumpLine<'_>)
    ensures { Grows out.old out.new (leaf_page (line_of line.now)) }
{
    push_tag_of(out, "div", line);
    push_row(out, line);
    out.push_str("</div>");
}

/// Adds a line of a dump, where so many parts are open: those that it doesn't stand in end before it, and where elements stand in it, it
/// begins one that folds. Tells how many are open behind it.
#[tactic(auto, unfolding(crate::specs::PageElements::element_page))]
pub fn push_element(out: &mut Text, opened: usize, line: &DumpLine<'_>) -> usize
    ensures page { Grows out.old out.new (element_page opened (line_of line.now)) }
    ensures open { result ≡ open_behind (line_of line.now) }
{
    let level = level(line);
    push_closings(out, opened.saturating_sub(level));
    if folds(line) {
        push_fold(out, line);
        level + 1
    } else {
        push_leaf(out, line);
        level
    }
}

/// Adds a mark at an octet, and the words of what is wrong there.
#[tactic(auto, unfolding(crate::specs::PageElements::mark_page))]
pub fn push_mark(out: &mut Text, at: usize, words: &str)
    ensures { Grows out.old out.new (mark_page at words.now) }
{
    out.push_str("<p");
    push_attribute(out, "at", at);
    out.push_str(">");
    push_number(out, at);
    push_framed(out, "<strong>", words, "</strong></p>");
}
