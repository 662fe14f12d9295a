//! A text that remembers whether memory was refused.

ghost use Rattle.std.specs.Prelude.{◌≡◌, [], IfOk, IfSome, OnErr, OnOk, false, true, encode_utf8, string_bytes};
ghost use Rattle.x509_report_lines.specs.Kept.{Grows, kept};

use std::alloc::{AllocError, Global};
use std::fmt;
use std::marker::Model;

/// A text as far as it is written. Where memory is refused it stops: nothing is added any more, and who takes the text is told. A clause sees
/// its octets, and whether it stopped.
#[derive(Drop)]
pub struct Text {
    alloc: Global,
    text: String,
    stopped: bool,
}

impl Model for Text {
    ghost use Rattle.std.specs.Prelude.{List, ℕ, string_bytes};
    ghost use Rattle.std.specs.Coded.{coded_list, coded_ℕ};
    ghost use Rattle.x509_report_lines.specs.Kept.{Kept, kept_code};

    ghost Value = { Kept (List ℕ) };

    ghost coded = { kept_code (coded_list coded_ℕ) };

    ghost view = { λ t. record { so_far = string_bytes t.text; stopped = t.stopped } };
}

impl Text {
    /// A text with nothing in it.
    pub fn new(alloc: Global) -> Text
        ensures { result ≡ kept [] }
    {
        Text {
            alloc,
            text: String::new(alloc),
            stopped: false,
        }
    }

    /// Where its memory comes from.
    pub fn alloc(&self) -> Global {
        self.alloc
    }

    /// Memory was refused: nothing is added any more.
    pub fn stop(&mut self)
        ensures { self.new.stopped ≡ true }
    {
        self.stopped = true;
    }

    /// Whether all stands there that was added.
    ///
    /// # Errors
    ///
    /// `AllocError` where memory was refused.
    pub fn finish(&self) -> Result<(), AllocError>
        ensures whole { OnOk result (self.now.stopped ≡ false) }
        ensures refused { OnErr result (self.now.stopped ≡ true) }
    {
        if self.stopped {
            Err(AllocError)
        } else {
            Ok(())
        }
    }

    /// Adds a text.
    pub fn push_str(&mut self, text: &str)
        ensures { Grows self.old self.new text.now }
    {
        if !self.stopped {
            self.stopped = self.text.push_str(text).is_err();
        }
    }

    /// Adds a character.
    pub fn push(&mut self, c: char)
        ensures { Grows self.old self.new (encode_utf8 c) }
    {
        if !self.stopped {
            self.stopped = self.text.push(c).is_err();
        }
    }

    /// Adds what a value shows.
    pub fn display<T: fmt::Display>(&mut self, value: &T)
        ensures { IfSome (T.output value.now) (λ shown. Grows self.old self.new shown) }
    {
        if !self.stopped {
            self.stopped = write!(self.text, "{value}").is_err();
        }
    }

    /// The text so far, where all of it stands there.
    ///
    /// # Errors
    ///
    /// `AllocError` where memory was refused.
    pub fn as_str(&self) -> Result<&str, AllocError>
        ensures whole { IfOk result (λ text. self.now ≡ kept text.now) }
        ensures refused { OnErr result (self.now.stopped ≡ true) }
    {
        self.finish()?;
        Ok(self.text.as_str())
    }

    /// The same, as a text of its own.
    ///
    /// # Errors
    ///
    /// `AllocError` where memory was refused.
    pub fn into_string(self) -> Result<String, AllocError>
        ensures whole { IfOk result (λ text. self ≡ kept (string_bytes text)) }
        ensures refused { OnErr result (self.stopped ≡ true) }
    {
        let Text { text, stopped, .. } = self;
        if stopped { Err(AllocError) } else { Ok(text) }
    }
}
