//! The lines of files of rows.

use std::io;
use std::io::{BufRead, Write};

/// What a line of a file is.
#[derive(Clone, Copy)]
pub enum Line<'a> {
    /// A remark, or nothing.
    Remark,
    /// The answer that the row before it is to have.
    Expected(&'a [u8]),
    /// A row.
    Row,
}

/// Puts the next line, without its end, in the place of what was held; false where there is none.
pub fn next_line<R: BufRead>(reader: &mut R, line: &mut Vec<u8>) -> io::Result<bool> {
    line.clear();
    if reader.read_until(b'\n', line)? == 0 {
        return Ok(false);
    }
    if line.ends_with(b"\n") {
        line.pop();
    }
    Ok(true)
}

/// What a line is.
pub fn kind_of(line: &[u8]) -> Line<'_> {
    match line {
        [] | [b'#', ..] => Line::Remark,
        [b'='] => Line::Expected(&[]),
        [b'=', b' ', expected @ ..] => Line::Expected(expected),
        _ => Line::Row,
    }
}

/// Writes a line.
pub fn put_line<W: Write>(writer: &mut W, line: &[u8]) -> io::Result<()> {
    writer.write_all(line)?;
    writer.write_all(b"\n")
}

/// Writes the line of an answer that is wanted.
pub fn put_expected<W: Write>(writer: &mut W, answer: &[u8]) -> io::Result<()> {
    if answer.is_empty() {
        return writer.write_all(b"=\n");
    }
    writer.write_all(b"= ")?;
    put_line(writer, answer)
}
