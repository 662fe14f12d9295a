//! The lines of an object.

ghost use Rattle.std.specs.Prelude.{◌≡◌, ◌∷◌, [], map};
ghost use Rattle.x509_lists.specs.RevokedCertificate.{revoked_of};
ghost use Rattle.x509_report_objects.specs.Attempts.{found_of};
ghost use Rattle.x509_report_objects.specs.Lists.{entry_report};
ghost use Rattle.x509_report.specs.Files.{failed, skipped};
ghost use Rattle.x509_report.specs.Objects.{asks_of, dump_behind, entry_lines, fingerprint_of, lines_behind, lines_of_object, list_lines, members_behind};
ghost use Rattle.x509_report.specs.Texts.{said};
ghost use Rattle.x509_report.specs.Told.{Prints, alone};

use crate::dumps::report_dump;
use crate::options::{Asked, Form};
use crate::printer::Printer;
use sha2::{Digest, Sha256};
use std::io::Write;
use x509_lists::{RevokedCertificate, parse_x509_crl_marked};
use x509_report_objects::{Found, Kind, entry_line, failed_line, object_line, skipped_line};

/// The line of an entry of a list.
#[tactic(auto, using(crate::proofs::Prints::printing))]
fn report_entry<W: Write>(
    printer: &mut Printer<W>,
    form: Form,
    place: &Found<'_>,
    fingerprint: &Option<[u8; 32]>,
    number: u64,
    entry: &RevokedCertificate<'_>,
)
    ensures { Prints printer.old printer.new
        (alone (said form (entry_report (found_of place.now) fingerprint.now number (revoked_of entry.now)) ∷ [])) }
{
    let mut line = printer.line();
    match entry_line(&mut line, place, fingerprint, number, entry) {
        Ok(()) => printer.put(form, line),
        Err(_) => printer.stop(),
    }
}

/// A line for each of the entries.
fn report_each<W: Write>(
    printer: &mut Printer<W>,
    form: Form,
    place: &Found<'_>,
    fingerprint: &Option<[u8; 32]>,
    entries: &[RevokedCertificate<'_>],
)
    ensures { Prints printer.old printer.new (alone (entry_lines form (found_of place.now) fingerprint.now 0 (map revoked_of entries.now))) }
{
    for (number, entry) in entries.iter().enumerate() {
        if printer.has_stopped() {
            return;
        }
        report_entry(printer, form, place, fingerprint, number as u64, entry);
    }
}

/// The SHA-256 fingerprint, where fingerprints are wanted.
fn fingerprint(wanted: bool, octets: &[u8]) -> Option<[u8; 32]>
    ensures { result ≡ fingerprint_of wanted octets.now }
{
    if wanted {
        Some(Sha256::digest(octets))
    } else {
        None
    }
}

/// A line for each entry of a list.
#[tactic(auto, using(crate::proofs::Prints::printing))]
fn report_entries<W: Write>(
    printer: &mut Printer<W>,
    form: Form,
    fingerprints: bool,
    place: &Found<'_>,
    octets: &[u8],
)
    ensures { Prints printer.old printer.new (alone (list_lines form fingerprints (found_of place.now) octets.now)) }
{
    if printer.has_stopped() {
        return;
    }
    let fingerprint = fingerprint(fingerprints, octets);
    match parse_x509_crl_marked(printer.alloc(), octets) {
        Ok((_, list, _)) => {
            let entries = list.tbs_cert_list.revoked_certificates.as_slice();
            report_each(printer, form, place, &fingerprint, entries);
        }
        Err(refusal) => if refusal.is_out_of_memory() {
            printer.stop();
        },
    }
}

/// What is told of the members of an object of this kind: where that is asked for, the lines of a list's entries.
#[tactic(auto, using(crate::proofs::Prints::printing))]
fn report_members<W: Write>(
    printer: &mut Printer<W>,
    asked: &Asked,
    place: &Found<'_>,
    octets: &[u8],
    kind: Option<Kind>,
)
    ensures { Prints printer.old printer.new (alone (members_behind (asks_of asked.now) (found_of place.now) octets.now kind)) }
{
    match kind {
        Some(Kind::List) => if asked.entries {
            let fingerprints = asked.wishes.fingerprints;
            report_entries(printer, asked.form, fingerprints, place, octets);
        },
        Some(Kind::Certificate) | Some(Kind::Request) | None => {}
    }
}

/// The elements of the octets, where that is asked for.
#[tactic(auto, using(crate::proofs::Prints::printing))]
fn report_elements_of<W: Write>(printer: &mut Printer<W>, asked: &Asked, octets: &[u8])
    ensures { Prints printer.old printer.new (alone (dump_behind (asks_of asked.now) octets.now)) }
{
    if asked.dump {
        report_dump(printer, asked.form, &asked.wishes, octets);
    }
}

/// What stands behind the line of an object of this kind: the lines of a list's entries, and the elements of the object.
#[tactic(auto, using(crate::proofs::Prints::printing))]
fn report_behind<W: Write>(
    printer: &mut Printer<W>,
    asked: &Asked,
    place: &Found<'_>,
    octets: &[u8],
    kind: Option<Kind>,
)
    ensures { Prints printer.old printer.new (alone (lines_behind (asks_of asked.now) (found_of place.now) octets.now kind)) }
{
    report_members(printer, asked, place, octets, kind);
    report_elements_of(printer, asked, octets);
}

/// The line of the object at the front of the octets, and where that is asked for those of its entries and of its elements.
#[tactic(auto, using(crate::proofs::Prints::printing), unfolding(crate::specs::Objects::lines_of_object))]
pub fn report_object<W: Write>(
    printer: &mut Printer<W>,
    asked: &Asked,
    place: &Found<'_>,
    octets: &[u8],
)
    ensures { Prints printer.old printer.new (lines_of_object (asks_of asked.now) (found_of place.now) octets.now) }
{
    let mut line = printer.line();
    match object_line(&mut line, &asked.wishes, place, octets) {
        Ok(kind) => {
            printer.put_object(asked.form, line, kind.is_some());
            report_behind(printer, asked, place, octets, kind);
        }
        Err(_) => printer.stop(),
    }
}

/// The line of octets that can't be read as objects, with what was tried and why it failed: no object was taken.
#[tactic(auto, using(crate::proofs::Prints::printing))]
pub fn report_failed<W: Write>(
    printer: &mut Printer<W>,
    asked: &Asked,
    place: &Found<'_>,
    octets: &[u8],
    kind: &str,
    word: &str,
)
    ensures { Prints printer.old printer.new (failed (asks_of asked.now) (found_of place.now) octets.now kind.now word.now) }
{
    let mut line = printer.line();
    match failed_line(&mut line, &asked.wishes, place, octets, kind, word) {
        Ok(()) => printer.put_object(asked.form, line, false),
        Err(_) => printer.stop(),
    }
}

/// The line of a block that holds none of the objects that are wanted: none is refused.
#[tactic(auto, using(crate::proofs::Prints::printing))]
pub fn report_skipped<W: Write>(
    printer: &mut Printer<W>,
    asked: &Asked,
    place: &Found<'_>,
    octets: &[u8],
)
    ensures { Prints printer.old printer.new (skipped (asks_of asked.now) (found_of place.now) octets.now) }
{
    let mut line = printer.line();
    match skipped_line(&mut line, &asked.wishes, place, octets) {
        Ok(()) => printer.put_object(asked.form, line, true),
        Err(_) => printer.stop(),
    }
}
