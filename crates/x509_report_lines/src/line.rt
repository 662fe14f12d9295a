//! A line of a report.

ghost use Rattle.std.specs.Prelude.{◌≡◌, [], IfOk, OnErr, OnOk, decimal, false, true};
ghost use Rattle.std.specs.Fmt.{signed_decimal};
ghost use Rattle.std.specs.Str.{IsUtf8};
ghost use Rattle.json.specs.Token.{begin_object, end_object, begin_array, end_array, key, string, number, boolean, null};
ghost use Rattle.json.specs.Lex.{tokens};
ghost use Rattle.json.specs.Print.{print};
ghost use Rattle.x509_report_lines.specs.Kept.{kept};
ghost use Rattle.x509_report_lines.specs.Says.{Adds};

use json::Writer;
use std::alloc::{AllocError, Global};
use std::marker::Model;

/// A line of a report as far as it is written. Where memory is refused it stops: nothing is added any more, and [`Line::finish`] tells it, so
/// that who writes has no failure to look at. A clause sees its tokens, and whether it stopped.
#[derive(Drop)]
pub struct Line {
    alloc: Global,
    writer: Writer,
    stopped: bool,
}

impl Model for Line {
    ghost use Rattle.std.specs.Prelude.{[], ◌≡◌, List};
    ghost use Rattle.json.specs.Token.{Token, tokens_code};
    ghost use Rattle.x509_report_lines.specs.Kept.{Kept, kept_code};

    ghost Value = { Kept (List Token) };

    ghost coded = { kept_code tokens_code };

    ghost view = { λ l. record { so_far = l.writer.tokens; stopped = l.stopped } };

    ghost invariant = { λ l. l.writer.before ≡ [] };
}

impl Line {
    /// A line with nothing on it.
    pub fn new(alloc: Global) -> Line
        ensures { result ≡ kept [] }
    {
        Line::over(alloc, Vec::new(alloc))
    }

    /// A line with nothing on it, in the memory of a text that is needed no more.
    pub fn over(alloc: Global, text: Vec<u8>) -> Line
        ensures { result ≡ kept [] }
    {
        let mut text = text;
        text.clear();
        Line {
            alloc,
            writer: Writer::new(text),
            stopped: false,
        }
    }

    /// Where its memory comes from.
    pub fn alloc(&self) -> Global {
        self.alloc
    }

    /// Memory was refused: nothing is added any more.
    pub fn stop(&mut self)
        ensures { self.new.stopped ≡ true }
    {
        self.stopped = true;
    }

    /// Whether all stands there that was said.
    ///
    /// # Errors
    ///
    /// `AllocError` where memory was refused.
    pub fn finish(&self) -> Result<(), AllocError>
        ensures whole { OnOk result (self.now.stopped ≡ false) }
        ensures refused { OnErr result (self.now.stopped ≡ true) }
    {
        if self.stopped {
            Err(AllocError)
        } else {
            Ok(())
        }
    }

    /// The text of the line, without a newline, where all of it stands there.
    ///
    /// # Errors
    ///
    /// `AllocError` where memory was refused.
    pub fn into_text(self) -> Result<Vec<u8>, AllocError>
        ensures whole { OnOk result (self.stopped ≡ false) }
        ensures text { IfOk result (λ text. text.items ≡ print self.so_far) }
        ensures reads_back { IfOk result (λ text. tokens text.items ≡ self.so_far) }
        ensures utf8 { IfOk result (λ text. IsUtf8 text.items) }
        ensures refused { OnErr result (self.stopped ≡ true) }
    {
        let Line {
            writer,
            stopped,
            ..
        } = self;
        if stopped {
            Err(AllocError)
        } else {
            Ok(writer.into_inner())
        }
    }

    /// An object begins: keys and values follow, up to its end.
    pub fn begin_object(&mut self)
        ensures { Adds self.old self.new begin_object }
    {
        if !self.stopped {
            self.stopped = self.writer.begin_object().is_err();
        }
    }

    /// The object that began last ends.
    pub fn end_object(&mut self)
        ensures { Adds self.old self.new end_object }
    {
        if !self.stopped {
            self.stopped = self.writer.end_object().is_err();
        }
    }

    /// An array begins: values follow, up to its end.
    pub fn begin_array(&mut self)
        ensures { Adds self.old self.new begin_array }
    {
        if !self.stopped {
            self.stopped = self.writer.begin_array().is_err();
        }
    }

    /// The array that began last ends.
    pub fn end_array(&mut self)
        ensures { Adds self.old self.new end_array }
    {
        if !self.stopped {
            self.stopped = self.writer.end_array().is_err();
        }
    }

    /// The key of the next value.
    pub fn key(&mut self, name: &str)
        ensures { Adds self.old self.new (key name.now) }
    {
        if !self.stopped {
            self.stopped = self.writer.key(name).is_err();
        }
    }

    /// A text, escaped as JSON wants it.
    pub fn string(&mut self, text: &str)
        ensures { Adds self.old self.new (string text.now) }
    {
        if !self.stopped {
            self.stopped = self.writer.string(text).is_err();
        }
    }

    /// A number.
    pub fn u64(&mut self, n: u64)
        ensures { Adds self.old self.new (number (decimal n)) }
    {
        if !self.stopped {
            self.stopped = self.writer.u64(n).is_err();
        }
    }

    /// A number that may be below zero.
    pub fn i64(&mut self, n: i64)
        ensures { Adds self.old self.new (number (signed_decimal n)) }
    {
        if !self.stopped {
            self.stopped = self.writer.i64(n).is_err();
        }
    }

    /// `true` or `false`.
    pub fn boolean(&mut self, b: bool)
        ensures { Adds self.old self.new (boolean b) }
    {
        if !self.stopped {
            self.stopped = self.writer.boolean(b).is_err();
        }
    }

    /// `null`.
    pub fn null(&mut self)
        ensures { Adds self.old self.new null }
    {
        if !self.stopped {
            self.stopped = self.writer.null().is_err();
        }
    }
}
