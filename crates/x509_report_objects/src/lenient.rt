//! What a report says of the lenient rules that an object uses.

ghost use Rattle.std.specs.Prelude.{◌≡◌, option_map, MatchResult, ⊤};
ghost use Rattle.x509_report_lines.specs.Says.{Says, SaysEach, SaysUnder};
ghost use Rattle.x509_report_objects.specs.Leniencies.{first_uses, use_report, use_with_path, uses_unless};

use crate::refused_values::some_text;
use crate::values::{count_under, optional_text_under, text_under};
use std::alloc::{AllocError, Global};
use x509_elements::{LenientUse, Part, first_of, leniencies, path_to};
use x509_report_lines::Line;

/// How many rules are told.
const TOLD: usize = 100;

/// A rule, at which octet it is used, and the path that leads there.
fn say_use(out: &mut Line, path: Option<&str>, used: &LenientUse)
    ensures { Says out.old out.new (use_report (option_map (λ s. s.now) path.entry) used.now) }
{
    out.begin_object();
    text_under(out, "rule", used.rule.word());
    count_under(out, "at", used.at as u64);
    optional_text_under(out, "path", path);
    out.end_object();
}

/// The same with the path of fields in these octets, which are such a part.
fn say_with_path(out: &mut Line, part: Part, octets: &[u8], used: &LenientUse)
    ensures { Says out.old out.new (use_with_path part octets.now used.now) }
{
    match path_to(out.alloc(), part, octets, used.at) {
        Ok(path) => say_use(out, some_text(path.as_str()), used),
        Err(_) => out.stop(),
    }
}

/// Rules with their paths, one after another.
fn say_each_with_path(out: &mut Line, part: Part, octets: &[u8], uses: &[LenientUse])
    ensures { SaysEach out.old out.new (use_with_path part octets.now) uses.now }
{
    for used in uses {
        say_with_path(out, part, octets, used);
    }
}

/// The first of these rules, of the object at the front of the octets, which is such a part, under a key.
#[tactic(auto, using(x509_report_lines::proofs::Written::list_written))]
pub(crate) fn uses_under(out: &mut Line, key: &str, part: Part, octets: &[u8], uses: &[LenientUse])
    ensures { SaysUnder out.old out.new key.now (first_uses part octets.now uses.now) }
{
    out.key(key);
    out.begin_array();
    say_each_with_path(out, part, octets, first_of(uses, TOLD));
    out.end_array();
}

/// The rules that an object uses; of one that stands plainly it isn't asked.
pub(crate) fn uses_unless(
    alloc: Global,
    plain: bool,
    part: Part,
    octets: &[u8],
) -> Result<Vec<LenientUse>, AllocError>
    ensures { MatchResult result (λ uses. uses.items ≡ uses_unless plain part octets.now) (λ _. ⊤) }
{
    if plain {
        return Ok(Vec::new(alloc));
    }
    leniencies(alloc, part, octets)
}

/// The rules that the object at the front of the octets uses, which is such a part, under a key.
pub(crate) fn leniencies_under(out: &mut Line, key: &str, plain: bool, part: Part, octets: &[u8])
    ensures { SaysUnder out.old out.new key.now (first_uses part octets.now (uses_unless plain part octets.now)) }
{
    match uses_unless(out.alloc(), plain, part, octets) {
        Ok(uses) => uses_under(out, key, part, octets, uses.as_slice()),
        Err(_) => out.stop(),
    }
}
