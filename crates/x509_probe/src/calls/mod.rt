//! Answers of x509_probe that calls give on what was read or made: times, identifiers and their names, keys and parameters of algorithms,
//! values that are made of what was read, orders, errors and constants; and what validators and loggers tell of a structure, and the
//! visits of a walk, up to the one that is refused.
//!
//! Each module answers the words of one subject, by a `match` on the word.

mod cert_visitor;
mod cert_walks;
mod constants;
mod errors;
mod keys;
mod list_visitor;
mod list_walks;
mod made;
mod orders;
mod recorder;
mod registries;
mod times;
mod validators;

use x509_probe_answers::Answer;

/// Adds the answer to a word and its bytes; false where it is no word of such a call.
pub fn answer(word: &str, a: &[u8], b: &[u8], out: &mut Answer) -> bool {
    made::answer(word, a, b, out)
        || errors::answer(word, a, out)
        || orders::answer(word, a, b, out)
        || constants::answer(word, a, out)
        || keys::answer(word, a, b, out)
        || registries::answer(word, a, b, out)
        || times::answer(word, a, b, out)
        || validators::answer(word, a, b, out)
        || cert_walks::answer(word, a, b, out)
        || list_walks::answer(word, a, b, out)
}
