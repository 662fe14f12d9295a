//! Texts that can't forge a line.

ghost use Rattle.std.specs.Prelude.{◌≡◌};
ghost use Rattle.x509_report_lines.specs.Escape.{escaped, escaped_char, is_hidden};
ghost use Rattle.x509_report_lines.specs.Kept.{Grows};

use crate::text::Text;

/// Whether a character could forge a line or hide text.
fn is_hidden(c: char) -> bool
    ensures { result ≡ is_hidden c }
{
    let c = u32::from(c);
    c < 0x20
        || c == 0x5c
        || (0x7f <= c && c <= 0x9f)
        || c == 0xad
        || c == 0x61c
        || (0x180b <= c && c <= 0x180f)
        || (0x200b <= c && c <= 0x200f)
        || (0x2028 <= c && c <= 0x202e)
        || (0x2060 <= c && c <= 0x206f)
        || c == 0xfeff
        || (0xfff0 <= c && c <= 0xfffb)
        || (0xe0000 <= c && c <= 0xe0fff)
}

/// Adds a character as it is shown.
#[tactic(auto, unfolding(crate::specs::Escape::escaped_char))]
fn push_char(out: &mut Text, c: char)
    ensures { Grows out.old out.new (escaped_char c) }
{
    if is_hidden(c) {
        let number = u32::from(c);
        out.display(&format_args!("\\u{{{number:x}}}"));
    } else {
        out.push(c);
    }
}

/// Adds a text as it is shown: each character that could forge a line or hide text by its number.
pub fn push_escaped(out: &mut Text, text: &str)
    ensures { Grows out.old out.new (escaped text.now) }
{
    for c in text.chars() {
        push_char(out, c);
    }
}
