//! Five small programs over the reader, a command each: `x509_examples COMMAND FILE [ARGUMENT]`. Further commands may follow, each behind a
//! `+`. Files are in DER.
//!
//! | Command | Argument | Tells |
//! |---|---|---|
//! | `inventory` | seconds since 1970 | a line for each of the certificates that stand one behind another |
//! | `revocation` | serials in hex, with commas between them | whether the list has each of them, since when and why |
//! | `lint` | | what is wrong with a certificate |
//! | `timestamps` | | the timestamps of transparency logs in a certificate |
//! | `request` | a domain | what a policy says of a certification request |
#![tactic(auto)]

mod inventory;
mod linter;
mod request;
mod revocation;
mod texts;
mod timestamps;

use crate::inventory::take_inventory;
use crate::linter::lint;
use crate::request::check_request;
use crate::revocation::look_up;
use crate::timestamps::list_timestamps;
use std::alloc::Global;
use std::{env, fs, io};
use x509_parser::prelude::*;

/// The time so many seconds behind the start of 1970.
fn time_of(seconds: &str) -> Result<ASN1Time, X509Error> {
    match seconds.parse::<i64>() {
        Ok(seconds) => ASN1Time::from_timestamp(seconds),
        Err(_) => Err(X509Error::InvalidDate),
    }
}

/// Adds the lines of a command over the bytes of its file.
fn run(
    alloc: Global,
    command: &str,
    bytes: &[u8],
    argument: &str,
    lines: &mut String,
) -> Result<(), X509Error> {
    match command {
        "inventory" => take_inventory(alloc, bytes, &time_of(argument)?, lines),
        "revocation" => look_up(alloc, bytes, argument, lines),
        "lint" => lint(alloc, bytes, lines),
        "timestamps" => list_timestamps(alloc, bytes, lines),
        "request" => check_request(alloc, bytes, argument, lines),
        _ => Err(X509Error::Generic),
    }
}

/// Prints the lines of the command that these words are.
fn answer(rt: &HostRuntime, words: &[String]) -> io::Result<()> {
    let (Some(command), Some(file)) = (words.first(), words.get(1)) else {
        return Err(io::ErrorKind::InvalidInput.into());
    };
    let argument = words.get(2).map_or("", |word| word.as_str());
    let bytes = fs::read(rt, file.as_str())?;
    let mut lines = String::new(rt.alloc());
    let outcome = run(rt.alloc(), command.as_str(), &bytes, argument, &mut lines);
    print!(rt; "{lines}")?;
    match outcome {
        Ok(()) => Ok(()),
        Err(why) => Err(io::Error::new(io::ErrorKind::InvalidData, why.word())),
    }
}

fn main(rt: HostRuntime) -> io::Result<()> {
    let words: Vec<String> = env::args(&rt)?.skip(1).collect(rt.alloc())?;
    for command in words.as_slice().split(|word| word.as_str() == "+") {
        answer(&rt, command)?;
    }
    Ok(())
}
