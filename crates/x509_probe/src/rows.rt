//! Rows: a word, and the bytes that it is asked of, in hex.

use crate::answers;
use hex::FromHexError;
use std::alloc::{AllocError, Global};
use x509_probe_answers::Answer;

/// A row: a word, and what it is asked of.
#[derive(Drop)]
pub struct Row<'t> {
    /// What is asked.
    pub word: &'t str,
    /// The first bytes.
    pub first: Vec<u8>,
    /// The second, for words that take two.
    pub second: Vec<u8>,
}

/// Why a line is no row, or no answer can be given.
#[derive(Clone, Copy)]
pub enum NoRow {
    /// A line that can't be read, and why.
    Bad(&'static str),
    /// Memory was refused.
    Memory,
}

impl From<AllocError> for NoRow {
    fn from(_error: AllocError) -> NoRow {
        NoRow::Memory
    }
}

/// The text before the first space, and the text behind it.
fn split(text: &str) -> (&str, &str) {
    match text.split_once(' ') {
        Some(parts) => parts,
        None => (text, ""),
    }
}

/// The bytes that are written in hex; `-` is none.
fn bytes_of(alloc: Global, text: &str) -> Result<Vec<u8>, NoRow> {
    if text == "-" {
        return Ok(Vec::new(alloc));
    }
    match hex::decode(alloc, text) {
        Ok(bytes) => Ok(bytes),
        Err(FromHexError::OutOfMemory) => Err(NoRow::Memory),
        Err(FromHexError::OddLength) => Err(NoRow::Bad("odd hex")),
        Err(_) => Err(NoRow::Bad("no hex")),
    }
}

/// The row of a line.
pub fn row_of(alloc: Global, line: &[u8]) -> Result<Row<'_>, NoRow> {
    let Ok(line) = str::from_utf8(line) else {
        return Err(NoRow::Bad("no text"));
    };
    let (word, operands) = split(line);
    let (first, second) = split(operands);
    let first = bytes_of(alloc, first)?;
    let second = bytes_of(alloc, second)?;
    Ok(Row {
        word,
        first,
        second,
    })
}

/// Adds the answer to the row of a line.
fn put_answer(line: &[u8], out: &mut Answer) -> Result<(), NoRow> {
    match row_of(out.alloc(), line) {
        Ok(row) => {
            if answers::answer(row.word, &row.first, &row.second, out) {
                Ok(())
            } else {
                Err(NoRow::Bad("no such word"))
            }
        }
        Err(no_row) => Err(no_row),
    }
}

/// Adds the answer to the row of a line, and tells whether the row can be read.
pub fn answer(line: &[u8], out: &mut Answer) -> bool {
    match put_answer(line, out) {
        Ok(()) => true,
        Err(NoRow::Bad(why)) => {
            out.add("bad row: ");
            out.add(why);
            false
        }
        Err(NoRow::Memory) => {
            out.stop();
            false
        }
    }
}
