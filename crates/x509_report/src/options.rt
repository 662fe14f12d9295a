//! The command line.

use clap::{Arg, ArgAction, ArgMatches, Command, Error};
use std::alloc::{AllocError, Global};
use x509_report_objects::Wishes;

/// How reports are written.
#[derive(Clone, Copy, Debug, PartialEq, Eq)]
pub enum Form {
    /// Lines for people.
    Text,
    /// One line of JSON an object.
    Json,
    /// A page for a browser.
    Html,
}

/// What is asked of every object.
#[derive(Clone, Copy, Debug)]
pub struct Asked {
    /// What is wanted of a report.
    pub wishes: Wishes,
    /// How reports are written.
    pub form: Form,
    /// Whether each entry of a list gets a line of its own.
    pub entries: bool,
    /// Whether the elements of each object are told.
    pub dump: bool,
}

/// What the command line asks for.
#[derive(Drop)]
pub struct Options<'a> {
    /// What is asked of every object.
    pub asked: Asked,
    /// The files in order; `-` is standard input.
    pub files: Vec<&'a str>,
}

/// The words behind `--kind`.
static KINDS: [&str; 4] = ["any", "certificate", "list", "request"];

fn flag<'a>(alloc: Global, name: &'a str, help: &'a str) -> Arg<'a> {
    Arg::new(alloc, name)
        .long(name)
        .action(ArgAction::SetTrue)
        .help(help)
}

fn command<'a>(alloc: Global) -> Result<Command<'a>, AllocError> {
    Command::new(alloc, "x509_report")
        .version("1")
        .about("Everything that certificates, lists of revoked ones and requests say")
        .arg(flag(alloc, "text", "Lines for people, the default"))?
        .arg(flag(alloc, "json", "One line of JSON an object"))?
        .arg(flag(alloc, "strict", "Refuse what a lenient rule was needed for"))?
        .arg(flag(alloc, "entries", "A line for each entry of a list"))?
        .arg(flag(alloc, "dump", "The elements of each object, for people"))?
        .arg(flag(alloc, "html", "A page for a browser, with the elements"))?
        .arg(flag(alloc, "no-digest", "Leave SHA-256 fingerprints out"))?
        .arg(
            Arg::new(alloc, "kind")
                .long("kind")
                .action(ArgAction::Set)
                .value_parser(KINDS.as_slice())
                .default_value("any")
                .help("What the objects are"),
        )?
        .arg(
            Arg::new(alloc, "FILE")
                .action(ArgAction::Append)
                .num_args(0..)
                .help("Files of PEM or DER; none or -: standard input"),
        )
}

fn files_of<'a>(alloc: Global, matches: &ArgMatches<'a>) -> Result<Vec<&'a str>, AllocError> {
    match matches.get_strs("FILE") {
        Some(files) if !files.is_empty() => files.to_vec(alloc),
        _ => {
            let mut files = Vec::new(alloc);
            files.push("-")?;
            Ok(files)
        }
    }
}

fn wishes_of(matches: &ArgMatches<'_>) -> Wishes {
    let kind = matches.get_str("kind").unwrap_or("any");
    let any = kind == "any";
    Wishes {
        certificates: any || kind == "certificate",
        lists: any || kind == "list",
        requests: any || kind == "request",
        strict: matches.get_flag("strict"),
        fingerprints: !matches.get_flag("no-digest"),
    }
}

/// How reports are written. Elements are told to people alone.
fn form_of(matches: &ArgMatches<'_>) -> Form {
    if matches.get_flag("html") {
        Form::Html
    } else if matches.get_flag("json") && !matches.get_flag("dump") {
        Form::Json
    } else {
        Form::Text
    }
}

/// The options of these words, the first of which is the program's name. A page comes before JSON, and JSON before lines for people; a page
/// has the elements.
pub fn parse_options<'a>(alloc: Global, words: &'a [String]) -> Result<Options<'a>, Error> {
    let matches = command(alloc)?.try_get_matches_from(words)?;
    let files = files_of(alloc, &matches)?;
    let form = form_of(&matches);
    Ok(Options {
        asked: Asked {
            wishes: wishes_of(&matches),
            form,
            entries: matches.get_flag("entries"),
            dump: matches.get_flag("dump") || form == Form::Html,
        },
        files,
    })
}
