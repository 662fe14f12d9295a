//! Answers rows `WORD HEX` or `WORD HEX HEX`: what the library says of these bytes.
//!
//! With no argument the rows come from standard input, and each line of standard output is an answer; `check FILE..` compares the answers
//! to the rows of files with those that stand behind them, `answer FILE..` writes the files with the program's own answers, and
//! `change FILE..` changes each octet of each row's input and looks at what holds of every answer.
#![tactic(auto)]

mod answers;
mod anything;
mod calls;
mod change;
mod check;
mod elements;
mod lines;
mod promises;
mod rows;
mod work;

use change::{Changes, put_changes};
use check::{Answering, Checking, Filling, Tally};
use std::env::Args;
use std::io::{BufWriter, ErrorKind};
use std::process::ExitCode;
use std::{env, io};
use work::{Work, over_file, over_input};

/// All rows were answered, as expected where that was asked.
const AGREED: u8 = 0;
/// Some answers aren't those that are expected.
const DIFFER: u8 = 1;
/// The command line or a row can't be understood.
const MISUSED: u8 = 2;
/// Reading, writing or memory failed.
const STOPPED: u8 = 3;

/// The exit status behind these rows.
fn status_of(tally: &Tally) -> u8 {
    if tally.refused != 0 {
        STOPPED
    } else if tally.bad != 0 {
        MISUSED
    } else if tally.differ != 0 {
        DIFFER
    } else {
        AGREED
    }
}

/// Says on standard error how the program is called.
fn usage(rt: &HostRuntime) -> u8 {
    let _ = eprintln!(rt; "usage: x509_probe < ROWS, or x509_probe check|answer|change FILE..");
    MISUSED
}

/// Says on standard error what stopped the program, and at what.
fn stopped(rt: &HostRuntime, place: &str, error: &io::Error) -> u8 {
    let _ = eprintln!(rt; "x509_probe: {place}: {error}");
    STOPPED
}

/// Answers the rows of standard input.
fn answer_input(rt: &HostRuntime) -> u8 {
    let mut work = Answering(Tally::new());
    match over_input(rt, &mut work) {
        Ok(()) => status_of(&work.0),
        Err(error) => stopped(rt, "standard input or output", &error),
    }
}

/// Does the work with each of these files, and tells whether there are any; the exit status where it was stopped.
fn over_files<K: Work>(rt: &HostRuntime, paths: Args, work: &mut K) -> Result<bool, u8> {
    let mut any = false;
    for path in paths {
        any = true;
        if let Err(error) = over_file(rt, path.as_str(), work) {
            return Err(stopped(rt, path.as_str(), &error));
        }
    }
    Ok(any)
}

/// The exit status behind the files of the command line.
fn status_behind(rt: &HostRuntime, done: Result<bool, u8>, tally: &Tally) -> u8 {
    match done {
        Ok(true) => status_of(tally),
        Ok(false) => usage(rt),
        Err(status) => status,
    }
}

/// Compares the answers to the rows of these files with those that stand behind them.
fn checked(rt: &HostRuntime, paths: Args) -> u8 {
    let mut work = Checking::new();
    let done = over_files(rt, paths, &mut work);
    status_behind(rt, done, &work.tally)
}

/// Writes these files with the program's own answers.
fn filled(rt: &HostRuntime, paths: Args) -> u8 {
    let mut work = Filling(Tally::new());
    let done = over_files(rt, paths, &mut work);
    status_behind(rt, done, &work.0)
}

/// Writes what was counted at changed inputs.
fn put_counts(rt: &HostRuntime, changes: &Changes) -> io::Result<()> {
    let mut writer = BufWriter::new(rt.alloc(), io::writer(rt))?;
    put_changes(&mut writer, changes)
}

/// Changes the inputs of the rows of these files.
fn changed(rt: &HostRuntime, paths: Args) -> u8 {
    let mut changes = Changes::new();
    if let Err(status) = over_files(rt, paths, &mut changes) {
        return status;
    }
    if let Err(error) = put_counts(rt, &changes) {
        return stopped(rt, "standard output", &error);
    }
    if !changes.is_sound() {
        DIFFER
    } else if changes.bad != 0 || changes.rows == 0 {
        MISUSED
    } else {
        AGREED
    }
}

/// Does what a word of the command line says with the files behind it.
fn command(rt: &HostRuntime, word: &str, paths: Args) -> u8 {
    match word {
        "check" => checked(rt, paths),
        "answer" => filled(rt, paths),
        "change" => changed(rt, paths),
        _ => usage(rt),
    }
}

/// Does what the command line says, and gives the exit status.
fn run(rt: &HostRuntime, mut words: Args) -> u8 {
    let _program = words.next();
    match words.next() {
        Some(word) => command(rt, word.as_str(), words),
        None => answer_input(rt),
    }
}

/// Does what the command line says.
fn main(rt: HostRuntime) -> ExitCode {
    let status = match env::args(&rt) {
        Ok(words) => run(&rt, words),
        Err(error) if error.kind() == ErrorKind::InvalidData => usage(&rt),
        Err(error) => stopped(&rt, "the command line", &error),
    };
    ExitCode::from(status)
}
