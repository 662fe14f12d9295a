//! The octets of an object in a page.

ghost use Rattle.x509_report_lines.specs.Kept.{Grows};
ghost use Rattle.x509_report_lines.specs.PageOctets.{octets_page};

use crate::text::Text;
use x509_der::HexPairs;

/// Adds the octets in hex, as a part that folds.
#[tactic(auto, unfolding(crate::specs::PageOctets::octets_page))]
pub fn push_octets(out: &mut Text, bytes: &[u8])
    ensures { Grows out.old out.new (octets_page bytes.now) }
{
    let separator = "";
    out.push_str("<details class=\"octets\"><summary>octets</summary><pre>");
    out.display(&HexPairs { bytes, separator });
    out.push_str("</pre></details>");
}
