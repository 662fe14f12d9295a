//! Shows what is in the DER that standard input gives: `x509_show COMMAND`, where the command is `der`, `cert`,
//! `crl`, `csr`, `cert-strict`, `crl-strict` or `csr-strict`.
#![tactic(auto)]

mod certificate_report;
mod commands;
mod element_report;
mod front_report;
mod lines;
mod list_report;
mod parts;
mod report;
mod request_report;
mod runs;
mod stop;
mod streams;
#[cfg(test)]
mod tests;
mod words;

use crate::runs::{STOPPED, cause, run};
use crate::stop::Stop;
use crate::streams::{ReaderSource, WriterSink};
use crate::words::only_word;
use std::alloc::Global;
use std::io::ErrorKind;
use std::process::ExitCode;
use std::{env, io};

/// The one word of the command line, or the empty text where there is none, more than one, or one that is not UTF-8.
/// The only error is want of memory.
fn command(rt: &HostRuntime) -> io::Result<String> {
    let alloc: Global = rt.alloc();
    match env::args(rt) {
        Ok(words) => Ok(only_word(words).unwrap_or(String::new(alloc))),
        Err(e) if e.kind() == ErrorKind::InvalidData => Ok(String::new(alloc)),
        Err(e) => Err(e),
    }
}

/// Says on standard error why the program stopped, where that can be written, and gives its exit status.
fn stopped(rt: &impl Eprint, stop: &Stop) -> ExitCode {
    let why = stop.why();
    let _ = eprintln!(rt; "x509_show: {why}");
    ExitCode::from(STOPPED)
}

/// Answers the command line over the standard streams, and exits with the status of [`run`].
fn main(rt: HostRuntime) -> ExitCode {
    let Ok(command) = command(&rt) else {
        return stopped(&rt, &Stop::Memory);
    };
    let mut reader = ReaderSource::new(rt.reader());
    let mut writer = WriterSink::new(io::writer(&rt));
    let status = run(rt.alloc(), command.as_str(), &mut reader, &mut writer);
    if status == STOPPED {
        return stopped(&rt, &cause(&reader, &writer));
    }
    ExitCode::from(status)
}
