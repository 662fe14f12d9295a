//! Answers of x509_probe that readers give, and calls on whole objects; and values in one plain text, as all answers show them. It may use what
//! reads a structure, and knows no visitors, no validators, nothing that is said of elements, and no rows.
#![tactic(auto)]

mod objects;
mod readers;
mod show;

pub use objects::number_in;
pub use show::{
    Answer, Hasher, Octets, Show, Tells, Text, both, look_at, look_in, put_all, put_result,
    read_both,
};

/// Adds the answer to a word and its bytes; false where it is no word of a reader, and none of a call on a whole object.
pub fn answer(word: &str, a: &[u8], b: &[u8], out: &mut Answer) -> bool {
    readers::answer(word, a, b, out) || objects::answer(word, a, b, out)
}
