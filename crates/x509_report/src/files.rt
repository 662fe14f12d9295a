//! The objects of a file, in PEM or DER.

ghost use Rattle.std.specs.Prelude.{◌≡◌, ◌++◌, ◌<◌, ◌^◌, IfOk, IfErr, IfSome, Some, flat_map, length, map};
ghost use Rattle.x509_report.specs.Files.{StopsInFile, TellsFile, blocks_told, choice, der_told, elements_told, may_be_der, neither_told, other_told};
ghost use Rattle.x509_report.specs.Files.{rest_told, task_of};
ghost use Rattle.x509_report.specs.Told.{Prints};
ghost use Rattle.x509_report.specs.declared.stop.Stop.{Stop};

use crate::blocks::report_block;
use crate::options::Asked;
use crate::printer::Printer;
use crate::reports::{report_failed, report_object};
use crate::stop::Stop;
use std::alloc::Global;
use std::io;
use std::io::{Read, Write};
use x509_report_lines::{Block, find_blocks, split_elements};
use x509_report_objects::Found;

/// All octets that a reader gives, to its end.
pub fn read_all<R: Read>(alloc: Global, reader: &mut R) -> io::Result<Vec<u8>>
    ensures { IfOk result (λ v. IfSome (R.remaining reader.old) (λ octets. v.items ≡ octets)) }
{
    let mut octets = Vec::new(alloc);
    reader.read_to_end(&mut octets)?;
    Ok(octets)
}

/// The first octet of a SEQUENCE (X.690, 8.9.1), as every object of DER is one.
const SEQUENCE: u8 = 0x30;

/// Whether the first octet is that of a SEQUENCE.
fn may_be_der(octets: &[u8]) -> bool
    ensures { result ≡ may_be_der octets.now }
{
    match octets {
        [first, ..] => *first == SEQUENCE,
        [] => false,
    }
}

/// The objects that stand one behind another, each in one of the elements.
fn report_elements<W: Write>(
    printer: &mut Printer<W>,
    asked: &Asked,
    file: &str,
    elements: &[&[u8]],
)
    requires { length (flat_map (λ e. e.now) elements.now) < 2 ^ 64 }
    ensures { Prints printer.old printer.new (elements_told (task_of asked.now file.now) 0 0 (map (λ e. e.now) elements.now)) }
{
    let mut offset = 0_u64;
    for (index, element) in elements.iter().enumerate() {
        if printer.has_stopped() {
            return;
        }
        let place = Found {
            file,
            index: index as u64,
            offset,
            label: None,
        };
        report_object(printer, asked, &place, element);
        offset = offset.saturating_add(element.len() as u64);
    }
}

/// What is left of a file behind this many elements, as an object that is refused.
fn report_rest<W: Write>(
    printer: &mut Printer<W>,
    asked: &Asked,
    file: &str,
    count: usize,
    offset: usize,
    rest: &[u8],
)
    ensures { Prints printer.old printer.new (rest_told (task_of asked.now file.now) count offset rest.now) }
{
    if rest.is_empty() {
        return;
    }
    let place = Found {
        file,
        index: count as u64,
        offset: offset as u64,
        label: None,
    };
    report_object(printer, asked, &place, rest);
}

/// The objects of a file of DER: those of its elements, and what is left behind them.
fn report_der<W: Write>(
    printer: &mut Printer<W>,
    asked: &Asked,
    file: &str,
    octets: &[u8],
    elements: &[&[u8]],
    rest: &[u8],
)
    requires parts { flat_map (λ e. e.now) elements.now ++ rest.now ≡ octets.now }
    ensures { Prints printer.old printer.new (der_told (task_of asked.now file.now) octets.now (map (λ e. e.now) elements.now) rest.now) }
{
    report_elements(printer, asked, file, elements);
    let offset = octets.len() - rest.len();
    report_rest(printer, asked, file, elements.len(), offset, rest);
}

/// The objects of the blocks.
fn report_blocks<W: Write>(
    printer: &mut Printer<W>,
    asked: &Asked,
    file: &str,
    blocks: &[Block<'_>],
)
    ensures { Prints printer.old printer.new (blocks_told (task_of asked.now file.now) 0 blocks.now) }
{
    for (index, block) in blocks.iter().enumerate() {
        if printer.has_stopped() {
            return;
        }
        report_block(printer, asked, file, index, block);
    }
}

/// That the octets are neither PEM nor DER.
fn report_neither<W: Write>(printer: &mut Printer<W>, asked: &Asked, file: &str, octets: &[u8])
    ensures { Prints printer.old printer.new (neither_told (task_of asked.now file.now) octets.now) }
{
    let place = Found {
        file,
        index: 0,
        offset: 0,
        label: None,
    };
    report_failed(
        printer,
        asked,
        &place,
        octets,
        "file",
        "neither PEM nor DER",
    )
}

/// The lines of a file in which no element is whole: in PEM, where a block stands in it.
fn report_other<W: Write>(printer: &mut Printer<W>, asked: &Asked, file: &str, octets: &[u8])
    ensures { Prints printer.old printer.new (other_told (task_of asked.now file.now) octets.now) }
{
    let Ok(blocks) = find_blocks(printer.alloc(), octets) else {
        return printer.stop();
    };
    if !blocks.is_empty() {
        report_blocks(printer, asked, file, blocks.as_slice());
    } else if may_be_der(octets) {
        report_der(printer, asked, file, octets, &[], octets);
    } else {
        report_neither(printer, asked, file, octets);
    }
}

/// The lines of a file whose elements and rest these are.
fn report_parts<W: Write>(
    printer: &mut Printer<W>,
    asked: &Asked,
    file: &str,
    octets: &[u8],
    elements: &[&[u8]],
    rest: &[u8],
)
    requires parts { flat_map (λ e. e.now) elements.now ++ rest.now ≡ octets.now }
    ensures { Prints printer.old printer.new (choice (task_of asked.now file.now) octets.now (map (λ e. e.now) elements.now) rest.now) }
{
    if may_be_der(octets) && !elements.is_empty() {
        report_der(printer, asked, file, octets, elements, rest)
    } else {
        report_other(printer, asked, file, octets)
    }
}

/// The lines of all objects of a file: in DER, where its first octet is that of a SEQUENCE and a whole element or no PEM block stands in
/// it, else in PEM. Tells whether none was refused.
pub fn report_file<W: Write>(
    printer: &mut Printer<W>,
    asked: &Asked,
    file: &str,
    octets: &[u8],
) -> Result<bool, Stop>
    ensures told { IfOk result (TellsFile (task_of asked.now file.now) octets.now printer.old.written printer.new.written) }
    ensures stopped { IfErr result (λ stop. stop ≡ Stop.Memory → StopsInFile (task_of asked.now file.now) octets.now
        printer.old.written printer.new.written) }
    ensures reason { IfErr result (λ stop. printer.new.stopped ≡ Some stop) }
{
    printer.begin_file();
    let Ok((elements, rest)) = split_elements(printer.alloc(), octets) else {
        printer.stop();
        return printer.finish();
    };
    report_parts(printer, asked, file, octets, elements.as_slice(), rest);
    printer.finish()
}
