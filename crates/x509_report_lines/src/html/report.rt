//! A report in a page.

ghost use Rattle.std.specs.Prelude.{◌≡◌, IfOk, codes, string_bytes};
ghost use Rattle.json.specs.Lex.{tokens};
ghost use Rattle.json.specs.Reads.{token_of};
ghost use Rattle.x509_report_lines.specs.Kept.{Becomes, Kept};
ghost use Rattle.x509_report_lines.specs.PageEscape.{html};
ghost use Rattle.x509_report_lines.specs.PageReports.{Members, begun, closed, ended, opened, report_page, step, under_key, valued};

use crate::html::escape::{push_framed, push_html};
use crate::text::Text;
use json::{Reader, Scratch, Token};
use std::alloc::{AllocError, Global};
use std::marker::Model;

/// The page so far, and the key of the next value.
#[derive(Drop)]
struct Folds {
    page: Text,
    key: String,
}

impl Model for Folds {
    ghost Value = { Kept Members };

    ghost view = { λ f. record { so_far = record { page = f.page.so_far; key = string_bytes f.key }; stopped = f.page.stopped } };
}

impl Folds {
    /// Begins a part that folds, under its key.
    fn open(&mut self)
        ensures { Becomes self.old self.new opened }
    {
        push_framed(
            &mut self.page,
            "<details open><summary>",
            self.key.as_str(),
            "</summary>",
        );
        self.key.clear();
    }

    /// Ends the part that began last.
    fn close(&mut self)
        ensures { Becomes self.old self.new closed }
    {
        self.page.push_str("</details>");
        self.key.clear();
    }

    /// Keeps a key.
    fn under(&mut self, key: &str)
        ensures { Becomes self.old self.new (λ m. under_key m key.now) }
    {
        self.key.clear();
        if self.key.push_str(key).is_err() {
            self.page.stop();
        }
    }

    /// Begins a value behind its key.
    fn begin_value(&mut self)
        ensures { Becomes self.old self.new begun }
    {
        push_framed(&mut self.page, "<div><b>", self.key.as_str(), "</b> <span>");
    }

    /// Ends the value.
    fn end_value(&mut self)
        ensures { Becomes self.old self.new ended }
    {
        self.page.push_str("</span></div>");
        self.key.clear();
    }

    /// Adds a value that is a text, behind its key.
    fn value(&mut self, text: &str)
        ensures { Becomes self.old self.new (λ m. valued m (html text.now)) }
    {
        self.begin_value();
        push_html(&mut self.page, text);
        self.end_value();
    }

    /// Adds that there is no value, behind its key.
    fn none(&mut self)
        ensures { Becomes self.old self.new (λ m. valued m (codes "<i>none</i>")) }
    {
        self.begin_value();
        self.page.push_str("<i>none</i>");
        self.end_value();
    }

    #[tactic(auto, unfolding(crate::specs::PageReports::step))]
    fn token(&mut self, token: Token<'_>)
        ensures { Becomes self.old self.new (λ m. step m (token_of token.entry)) }
    {
        match token {
            Token::BeginObject => self.open(),
            Token::EndObject => self.close(),
            Token::BeginArray => self.open(),
            Token::EndArray => self.close(),
            Token::Key(name) => self.under(name),
            Token::String(text) => self.value(text),
            Token::Number(text) => self.value(text),
            Token::Bool(b) => self.value(if b { "yes" } else { "no" }),
            Token::Null => self.none(),
            Token::Bad => {}
        }
    }
}

/// The page of a JSON text: objects and lists are parts that fold under their keys, and each other value stands behind its key.
///
/// # Errors
///
/// `AllocError`.
pub fn report_of_json(alloc: Global, json: &str) -> Result<String, AllocError>
    ensures { IfOk result (λ s. string_bytes s ≡ report_page (tokens json.now)) }
{
    let mut scratch = Scratch::new(alloc);
    let mut reader = Reader::new(json, &mut scratch)?;
    let mut folds = Folds {
        page: Text::new(alloc),
        key: String::new(alloc),
    };
    'tokens: while let Some(token) = reader.next() {
        folds.token(token);
    }
    let Folds { page, .. } = folds;
    page.into_string()
}
