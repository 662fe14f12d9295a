//! Whether a list of revoked certificates has the certificates with these serials: `x509_revoked LIST SERIAL..`, a line for each.
#![tactic(auto)]

mod answers;
mod issuers;
mod looking;
mod options;
mod report;
mod search;
mod serials;
mod stop;

ghost use Rattle.std.specs.Prelude.{List, MatchResult, map, option_map, string_bytes, ℕ};
ghost use Rattle.x509_revoked_cli.specs.Runs.{Answered, Stopped, Unanswered};
ghost use Rattle.x509_revoked_cli.specs.Serials.{AreSerialsOf};
ghost use Rattle.x509_revoked_cli.specs.declared.serials.Serial.{Serial};

use crate::looking::{STOPPED, lines_of_list, stopped};
use crate::options::{Options, parse_options};
use crate::serials::{Serial, parse_serial};
use crate::stop::Stop;
use std::alloc::Global;
use std::io::{BufRead, Write};
use std::process::ExitCode;
use std::{env, fs, io};

/// The command line has other words.
const WORDS: u8 = 2;

/// The words for serials: those of the command line, and where `-` stands, those on standard input, one a line.
fn words_of(rt: &HostRuntime, options: &Options<'_>) -> io::Result<Vec<String>> {
    let alloc: Global = rt.alloc();
    let mut words = Vec::new(alloc);
    for word in &options.serials {
        if *word == "-" {
            for line in io::BufReader::new(alloc, rt.reader())?.lines(alloc) {
                let line = line?;
                if !line.trim().is_empty() {
                    words.push(String::from_str(alloc, line.trim())?)?;
                }
            }
        } else {
            words.push(String::from_str(alloc, word)?)?;
        }
    }
    Ok(words)
}

/// The serials that words write.
fn serials_of<'w>(rt: &HostRuntime, words: &'w [String]) -> Result<Vec<Serial<'w>>, u8>
    ensures { MatchResult result (λ serials. AreSerialsOf (map string_bytes words.now) serials.items) Unanswered }
{
    let alloc: Global = rt.alloc();
    let mut serials = Vec::new(alloc);
    for word in words {
        match parse_serial(alloc, word.as_str()) {
            Ok(Some(serial)) => {
                if serials.push(serial).is_err() {
                    return Err(stopped(rt, word, &Stop::Memory.why()));
                }
            }
            Ok(None) => {
                let _ = eprintln!(rt; "x509_revoked: {word}: no serial in hex");
                return Err(WORDS);
            }
            Err(stop) => return Err(stopped(rt, word, &stop.why())),
        }
    }
    Ok(serials)
}

/// Writes the lines of serials by the list at the front of the octets, and gives the status.
fn answer_serials(
    rt: &HostRuntime,
    options: &Options<'_>,
    octets: &[u8],
    serials: &[Serial<'_>],
) -> Result<u8, u8>
    ensures { MatchResult result (Answered (option_map (λ text. text.now) options.now.issuer) octets.now serials.now) Stopped }
{
    let report = lines_of_list(rt, options, octets, serials)?;
    match io::writer(rt).write_all(report.text.as_bytes()) {
        Ok(()) => Ok(report.status()),
        Err(why) => Err(stopped(rt, "standard output", &why)),
    }
}

/// Answers all serials, and gives the status.
fn answer(rt: &HostRuntime, options: &Options<'_>) -> Result<u8, u8>
    ensures { MatchResult result
        (λ status. (input : List ℕ) × (serials : List Serial) × Answered (option_map (λ text. text.now) options.now.issuer) input serials status) Unanswered }
{
    let words = match words_of(rt, options) {
        Ok(words) => words,
        Err(why) => return Err(stopped(rt, "-", &why)),
    };
    let serials = serials_of(rt, words.as_slice())?;
    match fs::read(rt, options.list) {
        Ok(octets) => answer_serials(rt, options, octets.as_slice(), serials.as_slice()),
        Err(why) => Err(stopped(rt, options.list, &why)),
    }
}

fn main(rt: HostRuntime) -> ExitCode {
    let alloc: Global = rt.alloc();
    let words: Vec<String> = match env::args(&rt) {
        Ok(words) => match words.collect(alloc) {
            Ok(words) => words,
            Err(_) => return ExitCode::from(STOPPED),
        },
        Err(why) => {
            let _ = eprintln!(rt; "x509_revoked: {why}");
            return ExitCode::from(WORDS);
        }
    };
    match parse_options(alloc, words.as_slice()) {
        Ok(options) => match answer(&rt, &options) {
            Ok(status) => ExitCode::from(status),
            Err(status) => ExitCode::from(status),
        },
        Err(why) => {
            let _ = why.print(&rt);
            ExitCode::from(why.exit_code() as u8)
        }
    }
}
