//! The blocks of a PEM text (RFC 7468), wherever they stand in it.
ghost use Rattle.std.specs.Prelude.{◌≡◌, ◌++◌, IfOk, OnOk, Ok, codes, map, option_map, option_to_list};
ghost use Rattle.std.specs.Str.Lines.{strip_carriage_return};
ghost use Rattle.x509_report_lines.specs.Blocks.{Pem, Reading, behind_line, label_after, step, lines_of, blocks_of, ended, with_line};
ghost use Rattle.x509_report_lines.specs.Blocks.{symbols_of};

use std::alloc::{AllocError, Global};
use std::marker::Model;

/// A block: what stood between its BEGIN line and its END line, without spaces and line ends.
#[derive(Drop)]
pub struct Block<'a> {
    at: u64,
    label: &'a [u8],
    symbols: Vec<u8>,
    whole: bool,
}

impl<'a> Model for Block<'a> {
    ghost Value = { Pem };

    ghost view = { λ b. record { at = b.at; label = b.label.now; symbols = b.symbols.items; whole = b.whole } };
}

impl<'a> Block<'a> {
    /// Where its BEGIN line begins: how many octets of the text stand before it.
    pub fn at(&self) -> u64
        ensures { result ≡ self.now.at }
    {
        self.at
    }

    /// Its label, as in `CERTIFICATE`.
    pub fn label(&self) -> &'a [u8]
        ensures { result.now ≡ self.now.label }
    {
        self.label
    }

    /// The base64 text.
    pub fn symbols(&self) -> &[u8]
        ensures { result.now ≡ self.now.symbols }
    {
        &self.symbols
    }

    /// Whether an END line with the same label closed it.
    pub fn is_whole(&self) -> bool
        ensures { result ≡ self.now.whole }
    {
        self.whole
    }

    fn ended(self, label: &[u8]) -> Block<'a>
        ensures { result ≡ ended label.now self.entry }
    {
        let whole = self.label == label;
        Block {
            at: self.at,
            label: self.label,
            symbols: self.symbols,
            whole,
        }
    }

    fn add_line(&mut self, line: &[u8]) -> Result<(), AllocError>
        ensures { OnOk result (self.new ≡ with_line line.now self.old) }
    {
        push_symbols(&mut self.symbols, line)
    }
}

/// Adds every octet of a line but spaces and controls.
fn push_symbols(symbols: &mut Vec<u8>, line: &[u8]) -> Result<(), AllocError>
    ensures { OnOk result (symbols.new.items ≡ symbols.old.items ++ symbols_of line.now) }
{
    for octet in line {
        if *octet > b' ' {
            symbols.push(*octet)?;
        }
    }
    Ok(())
}

const BEGIN: &[u8] = b"-----BEGIN ";

const END: &[u8] = b"-----END ";

const DASHES: &[u8] = b"-----";

fn begin_label(line: &[u8]) -> Option<&[u8]>
    ensures { option_map (λ s. s.now) result ≡ label_after (codes "-----BEGIN ") line.now }
{
    line.strip_prefix(BEGIN)?.strip_suffix(DASHES)
}

fn end_label(line: &[u8]) -> Option<&[u8]>
    ensures { option_map (λ s. s.now) result ≡ label_after (codes "-----END ") line.now }
{
    line.strip_prefix(END)?.strip_suffix(DASHES)
}

/// Where the next line begins, what was found before it, and the block that is open.
#[derive(Drop)]
struct Blocks<'a> {
    at: u64,
    found: Vec<Block<'a>>,
    held: Option<Block<'a>>,
}

impl<'a> Model for Blocks<'a> {
    ghost Value = { Reading };

    ghost view = { λ b. record { at = b.at; found = b.found.items; held = b.held } };
}

/// What an END line with this label makes of the open block.
fn end_held<'a>(held: Option<Block<'a>>, label: &[u8]) -> Option<Block<'a>>
    ensures { result ≡ option_map (ended label.now) held.entry }
{
    match held {
        Some(block) => Some(block.ended(label)),
        None => None,
    }
}

/// Adds a block, where there is one.
fn push_some<'a>(found: &mut Vec<Block<'a>>, block: Option<Block<'a>>) -> Result<(), AllocError>
    ensures { OnOk result (found.new.items ≡ found.old.items ++ option_to_list block.entry) }
{
    if let Some(block) = block {
        found.push(block)?;
    }
    Ok(())
}

impl<'a> Blocks<'a> {
    #[tactic(auto, unfolding(crate::specs::Blocks::step))]
    fn take_line(&mut self, alloc: Global, line: &'a [u8]) -> Result<(), AllocError>
        ensures { OnOk result (self.new ≡ step self.old line.entry.now) }
    {
        let at = self.at;
        self.at = behind_line(at, line);
        let line = without_return(line);
        if let Some(label) = begin_label(line) {
            push_some(&mut self.found, self.held.take())?;
            self.held = Some(Block {
                at,
                label,
                symbols: Vec::new(alloc),
                whole: false,
            });
        } else if let Some(label) = end_label(line) {
            push_some(&mut self.found, end_held(self.held.take(), label))?;
        } else if let Some(block) = &mut self.held {
            block.add_line(line)?;
        }
        Ok(())
    }
}

/// The lines of a text, without their newlines.
fn lines_of<'a>(alloc: Global, text: &'a [u8]) -> Result<Vec<&'a [u8]>, AllocError>
    ensures { IfOk result (λ v. map (λ s. s.now) v.items ≡ lines_of text.now) }
{
    text.split(|octet| *octet == b'\n').collect(alloc)
}

/// Where the next line begins, behind a line that begins here.
fn behind_line(at: u64, line: &[u8]) -> u64
    ensures { result ≡ behind_line at line.now }
{
    at.saturating_add(line.len() as u64).saturating_add(1)
}

/// A line without the carriage return at its end.
fn without_return(line: &[u8]) -> &[u8]
    ensures { result.now ≡ strip_carriage_return line.now }
{
    match line.strip_suffix(b"\r".as_slice()) {
        Some(front) => front,
        None => line,
    }
}

/// The blocks of a text, in order. The only error is want of memory.
pub fn find_blocks<'a>(alloc: Global, text: &'a [u8]) -> Result<Vec<Block<'a>>, AllocError>
    ensures { IfOk result (λ v. v.items ≡ blocks_of text.now) }
{
    let lines = lines_of(alloc, text)?;
    let mut blocks = Blocks {
        at: 0,
        found: Vec::new(alloc),
        held: None,
    };
    for line in &lines {
        blocks.take_line(alloc, line)?;
    }
    let Blocks {
        mut found,
        held,
        ..
    } = blocks;
    push_some(&mut found, held)?;
    Ok(found)
}
