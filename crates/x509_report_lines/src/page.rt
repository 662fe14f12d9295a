//! Lines of the tokens of a JSON text.

ghost use Rattle.std.specs.Prelude.{◌≡◌, ◌+◌, ◌-◌, ◌*◌, true, ◌++◌, ◌∷◌, [], IfOk, string_bytes, min};
ghost use Rattle.std.specs.List.{list_all};
ghost use Rattle.json.specs.Lex.{tokens};
ghost use Rattle.json.specs.Reads.{token_of};
ghost use Rattle.x509_report_lines.specs.Kept.{Becomes, Grows, Kept};
ghost use Rattle.x509_report_lines.specs.Lines.{Page, step, text_of, lead, indent, is_long_hex, is_hex_digit, break_before, broken, with_hex};
ghost use Rattle.x509_report_lines.specs.Lines.{with_text, with_value, opened, closed, after_key};
ghost use Rattle.x509_report_lines.specs.Escape.{escaped};

use crate::escape::push_escaped;
use crate::text::Text;
use json::{Reader, Scratch, Token};
use std::alloc::{AllocError, Global};
use std::marker::Model;

/// The text so far, and where on a line the next token stands.
#[derive(Drop)]
struct Lines {
    text: Text,
    depth: u8,
    keyed: bool,
}

impl Model for Lines {
    ghost Value = { Kept Page };

    ghost view = { λ p. record { so_far = record { text = p.text.so_far; depth = p.depth; keyed = p.keyed }; stopped = p.text.stopped } };
}

/// Adds two spaces for each level.
fn push_indent(text: &mut Text, depth: u8)
    ensures { Grows text.old text.new (indent depth) }
{
    for _level in 0..depth {
        text.push_str("  ");
    }
}

/// Whether an octet is a digit of lower-case hex.
fn is_hex_digit(octet: u8) -> bool
    ensures { result ≡ is_hex_digit octet }
{
    matches!(octet, b'0'..=b'9' | b'a'..=b'f')
}

/// Whether all octets are digits of lower-case hex.
fn is_hex(octets: &[u8]) -> bool
    ensures { result ≡ list_all is_hex_digit octets.now }
{
    for octet in octets {
        if !is_hex_digit(*octet) {
            return false;
        }
    }
    true
}

/// Whether a text is hex alone, and longer than a line.
fn is_long_hex(text: &str) -> bool
    ensures { result ≡ is_long_hex text.now }
{
    text.len() > 64 && is_hex(text.as_bytes())
}

/// Begins a line at this depth, where this digit is the first of 64.
fn push_break(text: &mut Text, depth: u8, n: usize)
    ensures { Grows text.old text.new (break_before depth n) }
{
    if n % 64 == 0 {
        text.push_str("\n");
        push_indent(text, depth);
    }
}

/// Adds a digit.
fn push_digit(text: &mut Text, digit: u8)
    requires { is_hex_digit digit ≡ true }
    ensures { Grows text.old text.new (digit ∷ []) }
{
    text.push(char::from(digit));
}

/// Adds digits in lines of 64, at this depth.
fn push_broken(text: &mut Text, depth: u8, digits: &[u8])
    requires { list_all is_hex_digit digits.now ≡ true }
    ensures { Grows text.old text.new (broken depth 0 digits.now) }
{
    for (n, digit) in digits.iter().enumerate() {
        push_break(text, depth, n);
        push_digit(text, *digit);
    }
}

impl Lines {
    fn lead(&mut self)
        ensures { Becomes self.old self.new
            (λ p. record { text = p.text ++ lead p.keyed p.depth; depth = p.depth; keyed = p.keyed }) }
    {
        if self.keyed {
            self.text.push_str(" ");
        } else {
            push_indent(&mut self.text, self.depth);
            self.text.push_str("- ");
        }
    }

    fn value(&mut self, shown: &str)
        ensures { Becomes self.old self.new (λ p. with_value p shown.now) }
    {
        self.lead();
        self.text.push_str(shown);
        self.text.push_str("\n");
        self.keyed = false;
    }

    fn opened(&mut self)
        ensures { Becomes self.old self.new opened }
    {
        if self.keyed {
            self.text.push_str("\n");
        } else {
            push_indent(&mut self.text, self.depth);
            self.text.push_str("-\n");
        }
        self.depth = deeper(self.depth);
        self.keyed = false;
    }

    fn closed(&mut self)
        ensures { Becomes self.old self.new closed }
    {
        self.depth = self.depth.saturating_sub(1);
        self.keyed = false;
    }

    fn key(&mut self, name: &str)
        ensures { Becomes self.old self.new (λ p. after_key p name.now) }
    {
        push_indent(&mut self.text, self.depth);
        push_escaped(&mut self.text, name);
        self.text.push_str(":");
        self.keyed = true;
    }

    fn escaped_value(&mut self, text: &str)
        ensures { Becomes self.old self.new (λ p. with_value p (escaped text.now)) }
    {
        self.lead();
        push_escaped(&mut self.text, text);
        self.text.push_str("\n");
        self.keyed = false;
    }

    fn hex(&mut self, digits: &str)
        requires { list_all is_hex_digit digits.now ≡ true }
        ensures { Becomes self.old self.new (λ p. with_hex p digits.now) }
    {
        if !self.keyed {
            push_indent(&mut self.text, self.depth);
            self.text.push_str("-");
        }
        push_broken(&mut self.text, deeper(self.depth), digits.as_bytes());
        self.text.push_str("\n");
        self.keyed = false;
    }

    fn text(&mut self, text: &str)
        ensures { Becomes self.old self.new (λ p. with_text p text.now) }
    {
        if is_long_hex(text) {
            self.hex(text);
        } else {
            self.escaped_value(text);
        }
    }

    #[tactic(auto, unfolding(crate::specs::Lines::step))]
    fn token(&mut self, token: Token<'_>)
        ensures { Becomes self.old self.new (λ p. step p (token_of token.entry)) }
    {
        match token {
            Token::BeginObject => self.opened(),
            Token::EndObject => self.closed(),
            Token::BeginArray => self.opened(),
            Token::EndArray => self.closed(),
            Token::Key(name) => self.key(name),
            Token::String(text) => self.text(text),
            Token::Number(text) => self.escaped_value(text),
            Token::Bool(b) => self.value(if b { "yes" } else { "no" }),
            Token::Null => self.value("none"),
            Token::Bad => {}
        }
    }
}

/// One level deeper, to level 128.
fn deeper(depth: u8) -> u8
    ensures { result ≡ min (depth + 1) 128 }
{
    if depth < 128 { depth + 1 } else { 128 }
}

/// The lines of a JSON text, for people: of an object an empty line, and then its members, each under its key.
///
/// # Errors
///
/// `AllocError`.
pub fn lines_of_json(alloc: Global, json: &str) -> Result<String, AllocError>
    ensures { IfOk result (λ s. string_bytes s ≡ text_of (tokens json.now)) }
{
    let mut scratch = Scratch::new(alloc);
    let mut reader = Reader::new(json, &mut scratch)?;
    let mut lines = Lines {
        text: Text::new(alloc),
        depth: 0,
        keyed: true,
    };
    'tokens: while let Some(token) = reader.next() {
        lines.token(token);
    }
    let Lines { text, .. } = lines;
    text.into_string()
}
