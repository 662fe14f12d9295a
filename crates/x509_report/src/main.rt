//! Tells everything that certificates, lists of revoked certificates and requests say, of any number of files in PEM or DER: for people, or
//! as one line of JSON an object.
#![tactic(auto)]

mod blocks;
mod dumps;
mod files;
mod options;
mod printer;
mod progress;
mod reports;
mod stop;
mod views;

use crate::files::{read_all, report_file};
use crate::options::{Options, parse_options};
use crate::printer::Printer;
use crate::progress::Progress;
use std::alloc::Global;
use std::fs::File;
use std::io::BufWriter;
use std::process::ExitCode;
use std::{env, io};
use x509_report_lines::html::{FOOT, HEAD};

/// Every object was taken.
const TAKEN: u8 = 0;
/// An object was refused.
const REFUSED: u8 = 1;
/// Reading, writing or memory failed.
const STOPPED: u8 = 3;

/// All octets of a file; `-` is standard input.
fn read(rt: &HostRuntime, file: &str) -> io::Result<Vec<u8>> {
    if file == "-" {
        read_all(rt.alloc(), &mut rt.reader())
    } else {
        read_all(rt.alloc(), &mut File::open(rt, file)?)
    }
}

/// Reports the objects of all files, one file after another.
fn report_files(rt: &HostRuntime, options: &Options<'_>) -> io::Result<u8> {
    let alloc: Global = rt.alloc();
    let out = BufWriter::new(alloc, Progress::new(rt, io::writer(rt)))?;
    let mut printer = Printer::new(alloc, out);
    let form = options.asked.form;
    printer.put_around(form, &HEAD);
    let mut status = TAKEN;
    for file in &options.files {
        let octets = match read(rt, file) {
            Ok(octets) => octets,
            Err(error) => {
                let _ = eprintln!(rt; "x509_report: {file}: {error}");
                status = STOPPED;
                continue;
            }
        };
        match report_file(&mut printer, &options.asked, file, &octets) {
            Ok(true) => {}
            Ok(false) => {
                if status == TAKEN {
                    status = REFUSED;
                }
            }
            Err(stop) => {
                let why = stop.why();
                let _ = eprintln!(rt; "x509_report: {file}: {why}");
                return Ok(STOPPED);
            }
        }
    }
    printer.put_around(form, &FOOT);
    printer.flush()?;
    match printer.finish() {
        Ok(_) => Ok(status),
        Err(stop) => {
            let why = stop.why();
            let _ = eprintln!(rt; "x509_report: {why}");
            Ok(STOPPED)
        }
    }
}

fn main(rt: HostRuntime) -> ExitCode {
    let alloc: Global = rt.alloc();
    let words: Vec<String> = match env::args(&rt) {
        Ok(words) => match words.collect(alloc) {
            Ok(words) => words,
            Err(_) => return ExitCode::from(STOPPED),
        },
        Err(error) => {
            let _ = eprintln!(rt; "x509_report: {error}");
            return ExitCode::from(2);
        }
    };
    match parse_options(alloc, words.as_slice()) {
        Ok(options) => match report_files(&rt, &options) {
            Ok(status) => ExitCode::from(status),
            Err(error) => {
                let _ = eprintln!(rt; "x509_report: {error}");
                ExitCode::from(STOPPED)
            }
        },
        Err(error) => {
            let _ = error.print(&rt);
            ExitCode::from(error.exit_code() as u8)
        }
    }
}
