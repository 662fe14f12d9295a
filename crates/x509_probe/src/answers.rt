//! The answer to each word.

use crate::{anything, calls, elements};
use x509_probe_answers::Answer;

/// Adds the answer to a word and its bytes; false where it is no word.
pub fn answer(word: &str, a: &[u8], b: &[u8], out: &mut Answer) -> bool {
    x509_probe_answers::answer(word, a, b, out)
        || calls::answer(word, a, b, out)
        || elements::answer(word, a, b, out)
        || anything::answer(word, a, out)
}
