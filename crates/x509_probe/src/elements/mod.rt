//! Answers of x509_probe about the elements of an object, of whatever reads it: their names, a line each, the lenient rules that are used, and
//! the values of extensions that can't be read.

mod dumps;
mod lenient;
mod paths;
mod refused;

use x509_probe_answers::Answer;

/// Adds the answer to a word and its bytes; false where it is no word about elements.
pub fn answer(word: &str, a: &[u8], b: &[u8], out: &mut Answer) -> bool {
    paths::answer(word, a, b, out)
        || dumps::answer(word, a, out)
        || lenient::answer(word, a, out)
        || refused::answer(word, a, out)
}
