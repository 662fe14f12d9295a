//! The command line.

use clap::{Arg, ArgAction, Command, Error};
use std::alloc::{AllocError, Global};

/// What the command line asks for.
#[derive(Drop)]
pub struct Options<'a> {
    /// The file of the list, in DER.
    pub list: &'a str,
    /// The serials; `-` stands for those on standard input.
    pub serials: Vec<&'a str>,
    /// The text of the issuer's name.
    pub issuer: Option<&'a str>,
    /// The file of the index.
    pub index: Option<&'a str>,
}

fn command<'a>(alloc: Global) -> Result<Command<'a>, AllocError> {
    Command::new(alloc, "x509_revoked")
        .version("1")
        .about("Whether a list revokes the certificates with these serials")
        .arg(
            Arg::new(alloc, "issuer")
                .long("issuer")
                .value_name("NAME")
                .action(ArgAction::Set)
                .help("Only certificates of this issuer, by the text of its name"),
        )?
        .arg(
            Arg::new(alloc, "index")
                .long("index")
                .value_name("FILE")
                .action(ArgAction::Set)
                .help("The file in which the index is kept; made where it isn't there"),
        )?
        .arg(
            Arg::new(alloc, "LIST")
                .required(true)
                .action(ArgAction::Set)
                .help("The list of revoked certificates, in DER"),
        )?
        .arg(
            Arg::new(alloc, "SERIAL")
                .required(true)
                .action(ArgAction::Append)
                .num_args(1..)
                .help("Serials in hex, with colons or without; -: one a line from standard input"),
        )
}

/// The options of these words, the first of which is the program's name.
pub fn parse_options<'a>(alloc: Global, words: &'a [String]) -> Result<Options<'a>, Error> {
    let matches = command(alloc)?.try_get_matches_from(words)?;
    let serials = match matches.get_strs("SERIAL") {
        Some(serials) => serials.to_vec(alloc)?,
        None => Vec::new(alloc),
    };
    Ok(Options {
        list: matches.get_str("LIST").unwrap_or(""),
        serials,
        issuer: matches.get_str("issuer"),
        index: matches.get_str("index"),
    })
}
