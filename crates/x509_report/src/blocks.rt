//! The objects of PEM blocks (RFC 7468).

ghost use Rattle.std.specs.Prelude.{◌≡◌, option_map};
ghost use Rattle.x509_report_objects.specs.Attempts.{found_of, wishes_of};
ghost use Rattle.x509_report.specs.Files.{block_told, kind_told, symbols_told, task_of, whole_told};
ghost use Rattle.x509_report.specs.Labels.{kind_in, kind_labelled, label_text, only, wants_any};
ghost use Rattle.x509_report.specs.Objects.{asks_of};
ghost use Rattle.x509_report.specs.Told.{Prints};

use crate::options::Asked;
use crate::printer::Printer;
use crate::reports::{report_failed, report_object, report_skipped};
use base64::DecodeAllocError;
use base64::engine::general_purpose::STANDARD;
use std::io::Write;
use std::str;
use x509_report_lines::Block;
use x509_report_objects::{Found, Kind, Wishes};

/// A label, where it is text.
#[tactic(auto, using(crate::proofs::Labels::labels))]
fn label_text(label: &[u8]) -> Option<&str>
    ensures { option_map (λ s. s.now) result ≡ label_text label.now }
{
    match str::from_utf8(label) {
        Ok(label) => Some(label),
        Err(_) => None,
    }
}

/// What a block with this label holds.
fn kind_of(label: &str) -> Option<Kind>
    ensures { result ≡ kind_labelled label.now }
{
    match label {
        "CERTIFICATE" | "X509 CERTIFICATE" | "TRUSTED CERTIFICATE" => Some(Kind::Certificate),
        "X509 CRL" => Some(Kind::List),
        "CERTIFICATE REQUEST" | "NEW CERTIFICATE REQUEST" => Some(Kind::Request),
        _ => None,
    }
}

/// What a block with this label holds, where it has one that is text.
fn kind_in(label: Option<&str>) -> Option<Kind>
    ensures { result ≡ kind_in (option_map (λ s. s.now) label.entry) }
{
    match label {
        Some(label) => kind_of(label),
        None => None,
    }
}

/// The wishes, of which only objects of this kind are left.
fn only(wishes: &Wishes, kind: Kind) -> Wishes
    ensures { wishes_of result ≡ only (wishes_of wishes.now) kind }
{
    Wishes {
        certificates: wishes.certificates && kind == Kind::Certificate,
        lists: wishes.lists && kind == Kind::List,
        requests: wishes.requests && kind == Kind::Request,
        strict: wishes.strict,
        fingerprints: wishes.fingerprints,
    }
}

/// Whether an object of any kind is wanted.
fn wants_any(wishes: &Wishes) -> bool
    ensures { result ≡ wants_any (wishes_of wishes.now) }
{
    wishes.certificates || wishes.lists || wishes.requests
}

/// The object whose base64 text this is.
#[tactic(auto, using(crate::proofs::Prints::printing))]
fn report_symbols<W: Write>(
    printer: &mut Printer<W>,
    asked: &Asked,
    place: &Found<'_>,
    symbols: &[u8],
)
    ensures { Prints printer.old printer.new (symbols_told (asks_of asked.now) (found_of place.now) symbols.now) }
{
    match STANDARD.decode(printer.alloc(), symbols) {
        Ok(octets) => report_object(printer, asked, place, &octets),
        Err(DecodeAllocError::OutOfMemory) => printer.stop(),
        Err(_) => report_failed(printer, asked, place, symbols, "base64", "not base64"),
    }
}

/// The object of a block, where one of its kind is wanted.
fn report_wanted<W: Write>(
    printer: &mut Printer<W>,
    asked: &Asked,
    place: &Found<'_>,
    block: &Block<'_>,
)
    ensures { Prints printer.old printer.new (whole_told (asks_of asked.now) (found_of place.now) block.now) }
{
    let symbols = block.symbols();
    if !wants_any(&asked.wishes) {
        report_skipped(printer, asked, place, symbols)
    } else if block.is_whole() {
        report_symbols(printer, asked, place, symbols)
    } else {
        report_failed(printer, asked, place, symbols, "pem", "no END line")
    }
}

/// The line of a block that holds this. One that holds no object is told and passed over.
fn report_kind<W: Write>(
    printer: &mut Printer<W>,
    asked: &Asked,
    place: &Found<'_>,
    block: &Block<'_>,
    kind: Option<Kind>,
)
    ensures { Prints printer.old printer.new (kind_told (asks_of asked.now) (found_of place.now) block.now kind) }
{
    match kind {
        Some(kind) => {
            let asked = Asked {
                wishes: only(&asked.wishes, kind),
                ..*asked
            };
            report_wanted(printer, &asked, place, block)
        }
        None => report_skipped(printer, asked, place, block.symbols()),
    }
}

/// The line of a block. One whose label is that of no object that is wanted is told and passed over.
pub fn report_block<W: Write>(
    printer: &mut Printer<W>,
    asked: &Asked,
    file: &str,
    index: usize,
    block: &Block<'_>,
)
    ensures { Prints printer.old printer.new (block_told (task_of asked.now file.now) index block.now) }
{
    let label = label_text(block.label());
    let place = Found {
        file,
        index: index as u64,
        offset: block.at(),
        label,
    };
    let kind = kind_in(label);
    report_kind(printer, asked, &place, block, kind)
}
