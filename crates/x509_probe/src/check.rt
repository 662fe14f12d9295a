//! Files of rows with their answers.

use crate::lines::{Line, kind_of, put_expected, put_line};
use crate::rows;
use crate::work::Work;
use std::alloc::{AllocError, Global};
use std::io;
use std::io::Write;
use x509_probe_answers::Answer;

/// How many rows there were, how many of them differ from what is expected, can't be read, or had no memory.
#[derive(Clone, Copy)]
pub struct Tally {
    /// All rows.
    pub rows: u64,
    /// Those with another answer than expected, or with none expected.
    pub differ: u64,
    /// Those that can't be read.
    pub bad: u64,
    /// Those to which memory was refused.
    pub refused: u64,
}

impl Tally {
    /// No row.
    pub fn new() -> Tally {
        Tally {
            rows: 0,
            differ: 0,
            bad: 0,
            refused: 0,
        }
    }
}

/// A row, the number of its line, its answer, and whether it can be read.
#[derive(Drop)]
struct Row {
    line: u64,
    text: Vec<u8>,
    answer: Answer,
    good: bool,
}

/// The row that a line is.
fn row_of(alloc: Global, line: u64, text: &[u8]) -> Result<Row, AllocError> {
    let mut kept = Vec::new(alloc);
    kept.extend_from_slice(text)?;
    let mut answer = Answer::new(alloc);
    let good = rows::answer(text, &mut answer);
    answer.finish()?;
    Ok(Row {
        line,
        text: kept,
        answer,
        good,
    })
}

/// Writes a row whose answer isn't what is expected.
fn put_difference<W: Write>(
    writer: &mut W,
    path: &str,
    row: &Row,
    expected: &[u8],
) -> io::Result<()> {
    let line = row.line;
    write!(writer, "{path}:{line}: ")?;
    put_line(writer, &row.text)?;
    writer.write_all(b"  want ")?;
    put_line(writer, expected)?;
    writer.write_all(b"  got ")?;
    put_line(writer, row.answer.as_str().as_bytes())
}

/// Counts a row, and writes it where its answer isn't what is expected.
fn judge<W: Write>(
    writer: &mut W,
    path: &str,
    row: &Row,
    expected: Option<&[u8]>,
    tally: &mut Tally,
) -> io::Result<()> {
    tally.rows = tally.rows.saturating_add(1);
    if !row.good {
        tally.bad = tally.bad.saturating_add(1);
    }
    match expected {
        Some(answer) => {
            if row.good && answer == row.answer.as_str().as_bytes() {
                return Ok(());
            }
            tally.differ = tally.differ.saturating_add(1);
            put_difference(writer, path, row, answer)
        }
        None => {
            tally.differ = tally.differ.saturating_add(1);
            put_difference(writer, path, row, b"an answer, of which none is written")
        }
    }
}

/// Counts an answer behind no row, and writes it.
fn stray<W: Write>(writer: &mut W, path: &str, line: u64, tally: &mut Tally) -> io::Result<()> {
    tally.bad = tally.bad.saturating_add(1);
    writeln!(writer, "{path}:{line}: an answer behind no row")
}

/// Counts the row that waits for its answer, where one does: no answer is written.
fn close<W: Write>(
    writer: &mut W,
    path: &str,
    waiting: Option<Row>,
    tally: &mut Tally,
) -> io::Result<()> {
    match waiting {
        Some(row) => judge(writer, path, &row, None, tally),
        None => Ok(()),
    }
}

/// Counts the row that waits for this answer, which stands in the line of that number.
fn expect<W: Write>(
    writer: &mut W,
    path: &str,
    line: u64,
    waiting: Option<Row>,
    answer: &[u8],
    tally: &mut Tally,
) -> io::Result<()> {
    match waiting {
        Some(row) => judge(writer, path, &row, Some(answer), tally),
        None => stray(writer, path, line, tally),
    }
}

/// Answers each row of a file, and writes those whose answers aren't what the file expects, and how many rows there are.
#[derive(Drop)]
pub struct Checking {
    /// The rows so far.
    pub tally: Tally,
    /// How many of them stand in files before this one.
    before: u64,
    /// The row that waits for its answer.
    waiting: Option<Row>,
}

impl Checking {
    /// No row yet.
    pub fn new() -> Checking {
        Checking {
            tally: Tally::new(),
            before: 0,
            waiting: None,
        }
    }
}

impl Work for Checking {
    fn line<W: Write>(
        &mut self,
        alloc: Global,
        path: &str,
        number: u64,
        line: &[u8],
        writer: &mut W,
    ) -> io::Result<()> {
        let waiting = self.waiting.take();
        let tally = &mut self.tally;
        match kind_of(line) {
            Line::Remark => close(writer, path, waiting, tally),
            Line::Expected(answer) => expect(writer, path, number, waiting, answer, tally),
            Line::Row => {
                close(writer, path, waiting, tally)?;
                self.waiting = Some(row_of(alloc, number, line)?);
                Ok(())
            }
        }
    }

    fn end<W: Write>(&mut self, path: &str, writer: &mut W) -> io::Result<()> {
        close(writer, path, self.waiting.take(), &mut self.tally)?;
        let rows = self.tally.rows.wrapping_sub(self.before);
        self.before = self.tally.rows;
        writeln!(writer, "{path}: {rows} rows")
    }
}

/// The answer to a row, which is counted.
fn answer_of(alloc: Global, row: &[u8], tally: &mut Tally) -> Answer {
    let mut answer = Answer::new(alloc);
    tally.rows = tally.rows.saturating_add(1);
    if !rows::answer(row, &mut answer) && !answer.is_stopped() {
        tally.bad = tally.bad.saturating_add(1);
    }
    answer
}

/// Writes a row and its answer.
fn put_filled<W: Write>(writer: &mut W, row: &[u8], answer: &Answer) -> io::Result<()> {
    answer.finish()?;
    put_line(writer, row)?;
    put_expected(writer, answer.as_str().as_bytes())
}

/// Writes a file with the program's own answers behind its rows, in the place of those that stand there.
#[derive(Clone, Copy)]
pub struct Filling(pub Tally);

impl Work for Filling {
    fn line<W: Write>(
        &mut self,
        alloc: Global,
        _path: &str,
        _number: u64,
        line: &[u8],
        writer: &mut W,
    ) -> io::Result<()> {
        match kind_of(line) {
            Line::Remark => put_line(writer, line),
            Line::Expected(_) => Ok(()),
            Line::Row => put_filled(writer, line, &answer_of(alloc, line, &mut self.0)),
        }
    }

    fn end<W: Write>(&mut self, _path: &str, _writer: &mut W) -> io::Result<()> {
        Ok(())
    }
}

/// Writes an answer: where memory is refused, what was said before it, and that it was.
fn put_answer<W: Write>(writer: &mut W, answer: &Answer, tally: &mut Tally) -> io::Result<()> {
    let text = answer.as_str().as_bytes();
    if !answer.is_stopped() {
        return put_line(writer, text);
    }
    tally.refused = tally.refused.saturating_add(1);
    writer.write_all(text)?;
    writer.write_all(b"... out of memory\n")
}

/// Writes the answer to each row that a reader gives. Where memory is refused to one, the next is answered all the same.
#[derive(Clone, Copy)]
pub struct Answering(pub Tally);

impl Work for Answering {
    fn line<W: Write>(
        &mut self,
        alloc: Global,
        _path: &str,
        _number: u64,
        line: &[u8],
        writer: &mut W,
    ) -> io::Result<()> {
        let answer = answer_of(alloc, line, &mut self.0);
        put_answer(writer, &answer, &mut self.0)
    }

    fn end<W: Write>(&mut self, _path: &str, _writer: &mut W) -> io::Result<()> {
        Ok(())
    }
}
