//! Rows whose octets are changed one at a time, and their fronts: what holds whatever is answered.

use crate::answers;
use crate::lines::{Line, kind_of, put_line};
use crate::promises::{self, Finding, Promise};
use crate::rows::{NoRow, Row, row_of};
use crate::work::Work;
use std::alloc::{AllocError, Global};
use std::io;
use std::io::Write;
use x509_probe_answers::Answer;

/// How many inputs were made, how many of them are taken, and which promises were broken.
#[derive(Clone, Copy)]
pub struct Changes {
    /// All rows.
    pub rows: u64,
    /// All changed inputs.
    pub inputs: u64,
    /// Those that are taken.
    pub taken: u64,
    /// Of each promise, the inputs at which it is broken.
    pub broken: [u64; 13],
    /// Rows that can't be read.
    pub bad: u64,
}

impl Changes {
    /// Nothing yet.
    pub fn new() -> Changes {
        Changes {
            rows: 0,
            inputs: 0,
            taken: 0,
            broken: [0; 13],
            bad: 0,
        }
    }

    /// At how many inputs this one is broken.
    fn count_of(&self, promise: Promise) -> u64 {
        match self.broken.get(promise.place()) {
            Some(count) => *count,
            None => 0,
        }
    }

    /// Counts it once more.
    fn count(&mut self, promise: Promise) {
        if let Some(count) = self.broken.get_mut(promise.place()) {
            *count = count.saturating_add(1);
        }
    }

    /// Whether all was found as it should be.
    pub fn is_sound(&self) -> bool {
        self.broken.iter().all(|count| *count == 0)
    }
}

// The number behind the first of these words in an answer.
fn number_behind(text: &str, word: &str) -> Option<u64> {
    let (_, behind) = text.split_once(word)?;
    let digits = match behind.split_once(' ') {
        Some((digits, _)) => digits,
        None => behind,
    };
    digits.parse().ok()
}

// What can be seen of a reader's answer.
fn told(i: &[u8], answer: &str) -> Result<(), Finding> {
    if answer.contains("! tries=") {
        return Err(Finding::Broken(Promise::Rest));
    }
    if answer.contains(" READ ") {
        return Err(Finding::Broken(Promise::Readers));
    }
    let length = u64::try_from(i.len()).unwrap_or(u64::MAX);
    match number_behind(answer, " tries=") {
        Some(tries) if tries / 8 > length => Err(Finding::Broken(Promise::Tries)),
        _ => Ok(()),
    }
}

// An answer without its count: of a refusal all, of what is taken that it is.
fn refusal_in(answer: &str) -> &str {
    if answer.starts_with("ok ") {
        return "ok";
    }
    match answer.split_once(" tries=") {
        Some((refusal, _)) => refusal,
        None => answer,
    }
}

// What can be seen of the answer of the reader that tells the place of a refusal, beside that of the other.
fn placed(i: &[u8], answer: &str, located: &str) -> Result<(), Finding> {
    let broken = Err(Finding::Broken(Promise::Places));
    let same = match located.split_once(" at=") {
        Some((refusal, place)) => match place.parse::<usize>() {
            Ok(at) if at <= i.len() => refusal == refusal_in(answer),
            _ => return broken,
        },
        None => located.starts_with("ok ") && answer.starts_with("ok "),
    };
    if same { Ok(()) } else { broken }
}

// The same, where the word has such a reader.
fn place_of(word: &str, i: &[u8], answer: &Answer) -> Result<(), Finding> {
    let mut name = Answer::new(answer.alloc());
    name.add("where_");
    name.add(word);
    name.finish()?;
    let mut located = Answer::new(answer.alloc());
    if !answers::answer(name.as_str(), i, &[], &mut located) {
        return Ok(());
    }
    located.finish()?;
    placed(i, answer.as_str(), located.as_str())
}

// The same of the reader that leaves a list's entries in their octets, where the word has one: it answers the same.
fn entries_of(word: &str, i: &[u8], answer: &Answer) -> Result<(), Finding> {
    let mut name = Answer::new(answer.alloc());
    name.add(word);
    name.add("_entries");
    name.finish()?;
    let mut other = Answer::new(answer.alloc());
    if !answers::answer(name.as_str(), i, &[], &mut other) {
        return Ok(());
    }
    other.finish()?;
    if other.as_str() == answer.as_str() {
        Ok(())
    } else {
        Err(Finding::Broken(Promise::Entries))
    }
}

// What is promised of the structure that a word names.
fn structure(alloc: Global, word: &str, i: &[u8]) -> Result<(), Finding> {
    match word {
        "certificate"
        | "certificate_shallow"
        | "certificate_strict"
        | "certificate_strict_shallow"
        | "parse"
        | "parse_certificate_strict" => promises::certificate(alloc, i),
        "crl" | "parse_crl" | "parse_crl_strict" => promises::list(alloc, i),
        "csr" | "parse_csr_strict" => promises::request(alloc, i),
        "extension" | "extension_shallow" => promises::extension(alloc, i),
        "name" => promises::name(alloc, i),
        "read_any" | "read_any_loose" => promises::element(i),
        _ => Ok(()),
    }
}

// Looks at what was answered to an input, and whether the input is taken.
fn seen(word: &str, i: &[u8], answer: &Answer) -> Result<bool, Finding> {
    answer.finish()?;
    told(i, answer.as_str())?;
    place_of(word, i, answer)?;
    entries_of(word, i, answer)?;
    structure(answer.alloc(), word, i)?;
    Ok(answer.as_str().starts_with("ok"))
}

// Looks at what a row's word says of an input, and whether it is taken.
fn look(alloc: Global, row: &Row<'_>, i: &[u8]) -> Result<bool, Finding> {
    let mut answer = Answer::new(alloc);
    answers::answer(row.word, i, &row.second, &mut answer);
    seen(row.word, i, &answer)
}

// A row with another input, as a line.
fn line_of(alloc: Global, row: &Row<'_>, i: &[u8]) -> Answer {
    let mut line = Answer::new(alloc);
    line.add(row.word);
    line.add(" ");
    line.hex(i);
    if !row.second.is_empty() {
        line.add(" ");
        line.hex(&row.second);
    }
    line
}

// Writes a line at which a promise is broken.
fn put_broken<W: Write>(writer: &mut W, line: &Answer, promise: Promise) -> io::Result<()> {
    line.finish()?;
    put_line(writer, line.as_str().as_bytes())?;
    writer.write_all(b"  ")?;
    put_line(writer, promise.broken().as_bytes())
}

// Counts an input, and writes the first one at which a promise is broken.
fn try_input<W: Write>(
    alloc: Global,
    writer: &mut W,
    row: &Row<'_>,
    i: &[u8],
    changes: &mut Changes,
) -> io::Result<()> {
    changes.inputs = changes.inputs.saturating_add(1);
    let promise = match look(alloc, row, i) {
        Ok(taken) => {
            changes.taken = changes.taken.saturating_add(u64::from(taken));
            return Ok(());
        }
        Err(Finding::Memory) => Promise::Memory,
        Err(Finding::Broken(promise)) => promise,
    };
    changes.count(promise);
    if changes.count_of(promise) == 1 {
        return put_broken(writer, &line_of(alloc, row, i), promise);
    }
    Ok(())
}

// Sets the octet at a place, where there is one.
fn set(octets: &mut [u8], place: usize, octet: u8) {
    if let Some(held) = octets.get_mut(place) {
        *held = octet;
    }
}

// The row's input with each octet changed in turn, and each of its fronts.
fn try_octets<W: Write>(
    alloc: Global,
    writer: &mut W,
    row: &Row<'_>,
    input: &mut [u8],
    changes: &mut Changes,
) -> io::Result<()> {
    for (k, octet) in row.first.iter().enumerate() {
        let next = octet.wrapping_add(1);
        let previous = octet.wrapping_sub(1);
        for other in [0x00, 0x80, 0xff, next, previous] {
            if other != *octet {
                set(input, k, other);
                try_input(alloc, writer, row, input, changes)?;
            }
        }
        set(input, k, *octet);
        if let Some(front) = row.first.get(..k) {
            try_input(alloc, writer, row, front, changes)?;
        }
    }
    Ok(())
}

// Changes a row's input, which is counted.
fn try_changes<W: Write>(
    alloc: Global,
    writer: &mut W,
    row: &Row<'_>,
    changes: &mut Changes,
) -> io::Result<()> {
    changes.rows = changes.rows.saturating_add(1);
    let mut input = Vec::new(alloc);
    input.extend_from_slice(&row.first)?;
    try_octets(alloc, writer, row, &mut input, changes)
}

// Changes the input of the row that a line is.
fn change_row<W: Write>(
    alloc: Global,
    writer: &mut W,
    line: &[u8],
    changes: &mut Changes,
) -> io::Result<()> {
    match row_of(alloc, line) {
        Ok(row) => try_changes(alloc, writer, &row, changes),
        Err(NoRow::Bad(_)) => {
            changes.bad = changes.bad.saturating_add(1);
            Ok(())
        }
        Err(NoRow::Memory) => Err(AllocError.into()),
    }
}

/// Changes the input of each row, and writes the first input of each promise that is broken.
impl Work for Changes {
    fn line<W: Write>(
        &mut self,
        alloc: Global,
        _path: &str,
        _number: u64,
        line: &[u8],
        writer: &mut W,
    ) -> io::Result<()> {
        match kind_of(line) {
            Line::Row => change_row(alloc, writer, line, self),
            _ => Ok(()),
        }
    }

    fn end<W: Write>(&mut self, _path: &str, _writer: &mut W) -> io::Result<()> {
        Ok(())
    }
}

/// Writes what was counted.
pub fn put_changes<W: Write>(writer: &mut W, changes: &Changes) -> io::Result<()> {
    let Changes {
        rows,
        inputs,
        taken,
        bad,
        ..
    } = *changes;
    writeln!(
        writer,
        "{rows} rows, {inputs} changed inputs, {taken} of them taken"
    )?;
    if bad != 0 {
        writeln!(writer, "{bad} rows can't be read")?;
    }
    for promise in Promise::ALL {
        let count = changes.count_of(promise);
        if count != 0 {
            let words = promise.broken();
            writeln!(writer, "{count} times: {words}")?;
        }
    }
    writer.flush()
}
