//! Where lines are written.

ghost use Rattle.std.specs.Prelude.{◌≡◌, ℕ, List, ◌∷◌, [], IfOk, None, OnErr, OnOk, is_some, map, string_bytes, true};
ghost use Rattle.std.specs.Io.KnownBytes.{Keeps};
ghost use Rattle.std.specs.Str.{IsUtf8};
ghost use Rattle.json.specs.Lex.{tokens};
ghost use Rattle.x509_report_lines.specs.Kept.{kept};
ghost use Rattle.x509_report_lines.specs.Lines.{text_of};
ghost use Rattle.x509_report.specs.Texts.{around, article_page, begun, line_text, object_lines};
ghost use Rattle.x509_report.specs.Told.{Holds, Prints, alone, halted, outcome};

use crate::options::Form;
use crate::stop::Stop;
use std::alloc::{AllocError, Global};
use std::io::Write;
use std::marker::Model;
use std::{io, mem, str};
use x509_report_lines::html::report_of_json;
use x509_report_lines::{Line, Text, lines_of_json};

/// Where lines are written. Where memory is refused or a write fails it stops: nothing is written any more, and [`Printer::finish`] tells
/// why, so that who writes has no failure to look at. It remembers too whether an object was refused. The memory of a line that was written
/// is that of the next.
#[derive(Drop)]
pub struct Printer<W: Write> {
    alloc: Global,
    out: W,
    memory: Vec<u8>,
    taken: bool,
    stopped: Option<Stop>,
}

impl<W: Write> Model for Printer<W> {
    ghost use Rattle.x509_report.specs.Told.{Printed};

    ghost Value = { Printed };

    ghost view = { λ p. record { written = W.contents p.out; taken = p.taken; stopped = p.stopped } };
}

/// The part of a page that a JSON text is.
fn article_of(alloc: Global, json: &[u8]) -> Result<String, AllocError>
    requires { IsUtf8 json.now }
    ensures { IfOk result (λ s. string_bytes s ≡ article_page (tokens json.now)) }
{
    let Ok(json) = str::from_utf8(json) else {
        return Err(AllocError);
    };
    let mut page = String::new(alloc);
    page.push_str("<article>")?;
    page.push_str(report_of_json(alloc, json)?.as_str())?;
    page.push_str("</article>\n")?;
    Ok(page)
}

/// The lines for people of a JSON text.
fn lines_of(alloc: Global, json: &[u8]) -> Result<String, AllocError>
    requires { IsUtf8 json.now }
    ensures { IfOk result (λ s. string_bytes s ≡ text_of (tokens json.now)) }
{
    match str::from_utf8(json) {
        Ok(json) => lines_of_json(alloc, json),
        Err(_) => Err(AllocError),
    }
}

impl<W: Write> Printer<W> {
    /// A printer that has written nothing.
    pub fn new(alloc: Global, out: W) -> Printer<W>
        ensures { result ≡ record { written = W.contents out; taken = true; stopped = None } }
    {
        Printer {
            alloc,
            out,
            memory: Vec::new(alloc),
            taken: true,
            stopped: None,
        }
    }

    /// Where its memory comes from.
    pub fn alloc(&self) -> Global {
        self.alloc
    }

    /// A file begins, of which no object was refused yet.
    pub fn begin_file(&mut self)
        ensures { self.new ≡ record self.old { taken = true } }
    {
        self.taken = true;
    }

    /// Whether it has stopped.
    pub fn has_stopped(&self) -> bool
        ensures { result ≡ is_some self.now.stopped }
    {
        self.stopped.is_some()
    }

    /// Memory was refused: nothing is written any more.
    pub fn stop(&mut self)
        ensures { self.new ≡ halted self.old }
    {
        if self.stopped.is_none() {
            self.stopped = Some(Stop::Memory);
        }
    }

    /// Whether every object of the file was taken.
    ///
    /// # Errors
    ///
    /// Why it has stopped.
    pub fn finish(&self) -> Result<bool, Stop>
        ensures { result ≡ outcome self.now }
    {
        match self.stopped {
            None => Ok(self.taken),
            Some(why) => Err(why),
        }
    }

    /// A line with nothing on it.
    pub fn line(&mut self) -> Line
        ensures empty { result ≡ kept [] }
        ensures same { self.new ≡ self.old }
    {
        let memory = mem::replace(&mut self.memory, Vec::new(self.alloc));
        Line::over(self.alloc, memory)
    }

    /// Writes octets as they stand.
    pub fn write(&mut self, octets: &[u8])
        ensures { Prints self.old self.new (alone (octets.now ∷ [])) }
    {
        if self.stopped.is_none() && self.out.write_all(octets).is_err() {
            self.stopped = Some(Stop::Write);
        }
    }

    /// Writes a text, where all of it stands there.
    pub fn put_text(&mut self, text: &Text)
        ensures { (all : List ℕ) → Holds text.now all → Prints self.old self.new (alone (all ∷ [])) }
    {
        match text.as_str() {
            Ok(text) => self.write(text.as_bytes()),
            Err(_) => self.stop(),
        }
    }

    /// Writes a line in a form. Where memory is refused for it, nothing is written.
    fn put_json(&mut self, form: Form, line: Line) -> Result<(), AllocError>
        ensures written { OnOk result (Prints self.old self.new (alone (line_text form line.so_far ∷ []))) }
        ensures refused { OnErr result (self.new ≡ self.old) }
    {
        let mut text = line.into_text()?;
        match form {
            Form::Json => {
                text.push(b'\n')?;
                self.write(&text);
            }
            Form::Text => self.write(lines_of(self.alloc, &text)?.as_bytes()),
            Form::Html => self.write(article_of(self.alloc, &text)?.as_bytes()),
        }
        self.memory = text;
        Ok(())
    }

    /// Writes a line in a form.
    #[tactic(auto, using(crate::proofs::Prints::printing))]
    pub fn put(&mut self, form: Form, line: Line)
        ensures { Prints self.old self.new (alone (line_text form line.so_far ∷ [])) }
    {
        if self.put_json(form, line).is_err() {
            self.stop();
        }
    }

    /// Begins an object.
    #[tactic(auto, using(crate::proofs::Prints::printing))]
    fn begin(&mut self, form: Form)
        ensures { Prints self.old self.new (alone (begun form)) }
    {
        match form {
            Form::Html => self.write(b"<li>\n"),
            Form::Json | Form::Text => {}
        }
    }

    /// Writes the line of an object that was taken or wasn't, with which its item of a page begins.
    #[tactic(auto, using(crate::proofs::Prints::printing))]
    pub fn put_object(&mut self, form: Form, line: Line, taken: bool)
        ensures { Prints self.old self.new (record { taken = taken; lines = object_lines form line.so_far }) }
    {
        self.begin(form);
        self.put(form, line);
        self.taken &= taken;
    }

    /// Writes pieces, one behind another.
    fn write_each(&mut self, pieces: &[&str])
        ensures { Prints self.old self.new (alone (map (λ piece. piece.now) pieces.now)) }
    {
        for piece in pieces {
            self.write(piece.as_bytes());
        }
    }

    /// Writes pieces that stand around the objects of a page, where a page is written.
    #[tactic(auto, using(crate::proofs::Prints::printing))]
    pub fn put_around(&mut self, form: Form, pieces: &[&str])
        ensures { Prints self.old self.new (alone (around form (map (λ piece. piece.now) pieces.now))) }
    {
        match form {
            Form::Html => self.write_each(pieces),
            Form::Json | Form::Text => {}
        }
    }

    /// Writes what is held back.
    ///
    /// # Errors
    ///
    /// That of the write.
    pub fn flush(&mut self) -> io::Result<()>
        ensures same { (self.new.taken ≡ self.old.taken) × (self.new.stopped ≡ self.old.stopped) }
        ensures kept { Keeps self.old.written self.new.written }
    {
        self.out.flush()
    }
}
