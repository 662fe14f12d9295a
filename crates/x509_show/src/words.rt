//! The words of a command line.

ghost use Rattle.std.specs.Prelude.{◌≡◌};
ghost use Rattle.std.specs.Vec.Iter.{into_iter_items};
ghost use Rattle.x509_show.specs.Words.{only_word};

use std::env::Args;

/// The word behind the program's name; nothing where there is none, or more than one.
pub fn only_word(mut words: Args) -> Option<String>
    ensures { result ≡ only_word (into_iter_items words) }
{
    let _program = words.next();
    match (words.next(), words.next()) {
        (Some(word), None) => Some(word),
        _ => None,
    }
}
