//! What is done with the lines of files of rows, from opening them on.

use crate::lines::next_line;
use std::alloc::Global;
use std::fs::File;
use std::io;
use std::io::{BufRead, BufReader, BufWriter, Write};

/// What is done with files of rows.
pub trait Work {
    /// Looks at a line of that number, and writes what there is to write.
    fn line<W: Write>(
        &mut self,
        alloc: Global,
        path: &str,
        number: u64,
        line: &[u8],
        writer: &mut W,
    ) -> io::Result<()>;

    /// Writes what there is to write behind the last line of a file.
    fn end<W: Write>(&mut self, path: &str, writer: &mut W) -> io::Result<()>;
}

// Does it with each line of a reader.
fn over_lines<K: Work, R: BufRead, W: Write>(
    alloc: Global,
    path: &str,
    reader: &mut R,
    writer: &mut W,
    line: &mut Vec<u8>,
    work: &mut K,
) -> io::Result<()> {
    for number in 1..u64::MAX {
        if !next_line(reader, line)? {
            break;
        }
        work.line(alloc, path, number, line, writer)?;
    }
    work.end(path, writer)?;
    writer.flush()
}

// Does it with a reader, and writes to standard output.
fn to_output<K: Work, R: BufRead>(
    rt: &HostRuntime,
    path: &str,
    reader: &mut R,
    work: &mut K,
) -> io::Result<()> {
    let alloc = rt.alloc();
    let mut writer = BufWriter::new(alloc, io::writer(rt))?;
    let mut line = Vec::new(alloc);
    over_lines(alloc, path, reader, &mut writer, &mut line, work)
}

/// Does it with standard input.
pub fn over_input<K: Work>(rt: &HostRuntime, work: &mut K) -> io::Result<()> {
    let mut reader = BufReader::new(rt.alloc(), rt.reader())?;
    to_output(rt, "standard input", &mut reader, work)
}

/// Does it with a file.
pub fn over_file<K: Work>(rt: &HostRuntime, path: &str, work: &mut K) -> io::Result<()> {
    let mut reader = BufReader::new(rt.alloc(), File::open(rt, path)?)?;
    to_output(rt, path, &mut reader, work)
}
