//! What a report says of named bits.

ghost use Rattle.json.specs.Json as json;
ghost use Rattle.x509_fields.specs.BitNames.{names_left};
ghost use Rattle.x509_report_lines.specs.Says.{SaysEach, SaysUnder, list_of};

use x509_fields::BitNames;
use x509_report_lines::Line;

/// The names of the bits that are set, one after another.
fn say_names(out: &mut Line, names: BitNames)
    ensures { SaysEach out.old out.new (λ s. json.string s) (names_left names) }
{
    for name in names {
        out.string(name);
    }
}

/// The names of the bits that are set, under a key.
#[tactic(auto, using(x509_report_lines::proofs::Written::list_written))]
pub fn names_under(out: &mut Line, key: &str, names: BitNames)
    ensures { SaysUnder out.old out.new key.now (list_of (λ s. json.string s) (names_left names)) }
{
    out.key(key);
    out.begin_array();
    say_names(out, names);
    out.end_array();
}
