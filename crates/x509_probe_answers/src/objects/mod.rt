//! Answers of x509_probe that calls on whole objects give, and look-ups in them: what is found by an identifier
//! or a serial, maps, words for keys and columns, and identifiers from text.
//!
//! Each module answers the words of one subject, by a `match` on the word.

mod calls;
mod columns;
mod groups;
mod look_ups;
mod texts;

use crate::show::Answer;
pub use calls::number_in;

/// Adds the answer to a word and its bytes; false where it is no word of such a call.
pub fn answer(word: &str, a: &[u8], b: &[u8], out: &mut Answer) -> bool {
    calls::answer(word, a, b, out)
        || texts::answer(word, a, out)
        || columns::answer(word, a, out)
        || look_ups::answer(word, a, b, out)
        || groups::answer(word, a, out)
}
