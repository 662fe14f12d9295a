//! Texts in a page.

ghost use Rattle.std.specs.Prelude.{◌≡◌};
ghost use Rattle.std.specs.Str.{chars};
ghost use Rattle.x509_report_lines.specs.Kept.{Grows};
ghost use Rattle.x509_report_lines.specs.PageEscape.{framed, html, html_char, html_chars, is_markup};

use crate::escape::push_escaped;
use crate::text::Text;

/// Whether a character could begin or end a tag, an attribute or a reference, or is a control.
fn is_markup(c: char) -> bool
    ensures { result ≡ is_markup c }
{
    let c = u32::from(c);
    c < 0x20 || c == 0x22 || c == 0x26 || c == 0x27 || c == 0x3c || c == 0x3e
}

/// Adds a character, by its number where it is markup.
#[tactic(auto, unfolding(crate::specs::PageEscape::html_char))]
fn push_char(out: &mut Text, c: char)
    ensures { Grows out.old out.new (html_char c) }
{
    if is_markup(c) {
        let number = u32::from(c);
        out.display(&format_args!("&#{number};"));
    } else {
        out.push(c);
    }
}

/// Adds the characters of a text, markup by its number.
fn push_chars(out: &mut Text, text: &str)
    ensures { Grows out.old out.new (html_chars (chars text.now)) }
{
    for c in text.chars() {
        push_char(out, c);
    }
}

/// Adds a text as a page shows it: what could forge a line or hide text by number, as lines for people have it, and what is markup as a
/// reference (HTML living standard, section 13.1.4), so that no text ends the element that it stands in.
pub fn push_html(out: &mut Text, text: &str)
    ensures { Grows out.old out.new (html text.now) }
{
    let mut shown = Text::new(out.alloc());
    push_escaped(&mut shown, text);
    match shown.as_str() {
        Ok(shown) => push_chars(out, shown),
        Err(_) => out.stop(),
    }
}

/// Adds a text as a page shows it, between two pieces of markup.
#[tactic(auto, unfolding(crate::specs::PageEscape::framed))]
pub(crate) fn push_framed(out: &mut Text, before: &str, text: &str, behind: &str)
    ensures { Grows out.old out.new (framed before.now text.now behind.now) }
{
    out.push_str(before);
    push_html(out, text);
    out.push_str(behind);
}
