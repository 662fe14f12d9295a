//! Answers of x509_probe that readers give: elements, the types that are read from one element, parsers with their settings, whether what
//! was read twice, or copied, is equal, and why the value of an extension is refused.
//!
//! Each module answers the words of one subject, by a `match` on the word.

mod copies;
mod elements;
mod equality;
mod outcome;
mod parsers;
mod types;
mod values;

use crate::show::Answer;

/// Adds the answer to a word and its bytes; false where it is no word of a reader.
pub fn answer(word: &str, a: &[u8], b: &[u8], out: &mut Answer) -> bool {
    elements::answer(word, a, out)
        || types::answer(word, a, out)
        || parsers::answer(word, a, out)
        || equality::answer(word, a, b, out)
        || copies::answer(word, a, out)
        || values::answer(word, a, out)
}
