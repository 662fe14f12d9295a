//! The words of what is set.

ghost use Rattle.std.specs.Prelude.{map};
ghost use Rattle.json.specs.Json as json;
ghost use Rattle.x509_report_lines.specs.Says.{SaysEach, SaysUnder, list_of};
ghost use Rattle.x509_report_lines.specs.Flags.{set_words};

use crate::line::Line;

/// The words of what is set, one after another.
#[tactic(auto, unfolding(crate::specs::Flags::set_words))]
fn say_set_words(out: &mut Line, words: &[(bool, &str)])
    ensures { SaysEach out.old out.new (λ s. json.string s) (set_words (map (λ r. (r.0, r.1.now)) words.now)) }
{
    for (set, word) in words {
        if *set {
            out.string(word);
        }
    }
}

/// The words of what is set, under a key.
#[tactic(auto, using(crate::proofs::Written::list_written))]
pub fn set_words_under(out: &mut Line, key: &str, words: &[(bool, &str)])
    ensures { SaysUnder out.old out.new key.now (list_of (λ s. json.string s) (set_words (map (λ r. (r.0, r.1.now)) words.now))) }
{
    out.key(key);
    out.begin_array();
    say_set_words(out, words);
    out.end_array();
}
