//! What is written of values.

use std::alloc::{AllocError, Global};
use std::fmt;
use x509_der::{Err, HexPairs, ReadError};

/// The text of an answer. Where memory is refused, nothing is added behind it, so that who adds has no failure to look at.
#[derive(Drop)]
pub struct Answer {
    alloc: Global,
    text: String,
    stopped: bool,
}

impl Answer {
    /// No text yet.
    pub fn new(alloc: Global) -> Answer {
        Answer {
            alloc,
            text: String::new(alloc),
            stopped: false,
        }
    }

    /// Where the text lies.
    pub fn alloc(&self) -> Global {
        self.alloc
    }

    /// The text.
    pub fn as_str(&self) -> &str {
        self.text.as_str()
    }

    /// Whether memory was refused, so that the text isn't whole.
    pub fn is_stopped(&self) -> bool {
        self.stopped
    }

    /// An error where memory was refused.
    pub fn finish(&self) -> Result<(), AllocError> {
        if self.stopped {
            Err(AllocError)
        } else {
            Ok(())
        }
    }

    /// Memory was refused.
    pub fn stop(&mut self) {
        self.stopped = true;
    }

    /// Adds text.
    pub fn add(&mut self, text: &str) {
        if !self.stopped {
            self.stopped = self.text.push_str(text).is_err();
        }
    }

    /// Adds what another answer has, whose text isn't whole where memory was refused to it.
    pub fn append(&mut self, other: &Answer) {
        self.add(other.as_str());
        if other.is_stopped() {
            self.stop();
        }
    }

    /// Adds the text of a value.
    pub fn display<T: fmt::Display>(&mut self, value: &T) {
        if !self.stopped {
            self.stopped = write!(self.text, "{value}").is_err();
        }
    }

    /// Adds the debug text of a value.
    pub fn debug<T: fmt::Debug>(&mut self, value: &T) {
        if !self.stopped {
            self.stopped = write!(self.text, "{value:?}").is_err();
        }
    }

    /// Adds bytes in hex.
    pub fn hex(&mut self, bytes: &[u8]) {
        let separator = "";
        self.display(&HexPairs { bytes, separator });
    }

    /// Adds the text of a value in hex.
    pub fn display_hex<T: fmt::Display>(&mut self, value: &T) {
        match format!(in self.alloc; "{value}") {
            Ok(text) => self.hex(text.as_bytes()),
            Err(_) => self.stop(),
        }
    }

    /// Adds the debug text of a value in hex.
    pub fn debug_hex<T: fmt::Debug>(&mut self, value: &T) {
        match format!(in self.alloc; "{value:?}") {
            Ok(text) => self.hex(text.as_bytes()),
            Err(_) => self.stop(),
        }
    }

    /// Adds a text that was made, in hex, or the name of the error. Want of memory is the program's own, and no answer.
    pub fn made_hex<E: fmt::Debug + ReadError>(&mut self, made: Result<String, E>) {
        match made {
            Ok(text) => self.hex(text.as_bytes()),
            Err(kind) => self.error(&kind),
        }
    }

    /// Adds a truth.
    pub fn truth(&mut self, truth: bool) {
        self.add(if truth { "true" } else { "false" });
    }

    /// Adds the name of an error. Want of memory is the program's own, and no answer.
    pub fn error<E: fmt::Debug + ReadError>(&mut self, kind: &E) {
        if kind.is_out_of_memory() {
            self.stop();
        } else {
            self.debug(kind);
        }
    }

    /// Adds that it is an error, and its name.
    pub fn named_error<E: fmt::Debug + ReadError>(&mut self, kind: &E) {
        if kind.is_out_of_memory() {
            self.stop();
        } else {
            self.add("error ");
            self.debug(kind);
        }
    }

    /// Adds that a value that was asked for can't be read.
    pub fn refused<E: ReadError>(&mut self, refusal: &Err<E>) {
        if refusal.is_out_of_memory() {
            self.stop();
        } else {
            self.add("refused");
        }
    }

    /// Adds a refusal and its word. Want of memory is the program's own, and no answer.
    pub fn refusal<E: fmt::Debug + ReadError>(&mut self, refusal: &Err<E>) {
        if refusal.is_out_of_memory() {
            self.stop();
        } else {
            self.refusal_text(refusal);
        }
    }

    /// Adds the text of a refusal and its word, whichever it is.
    pub fn refusal_text<E: fmt::Debug + ReadError>(&mut self, refusal: &Err<E>) {
        match refusal {
            Err::Incomplete => self.add("incomplete"),
            Err::Error(kind) => {
                self.add("error ");
                self.debug(kind);
            }
            Err::Failure(kind) => {
                self.add("failure ");
                self.debug(kind);
            }
        }
        self.add(" (");
        self.add(refusal.word());
        self.add(")");
    }
}
