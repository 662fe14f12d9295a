//! What reports say of identifiers.

ghost use Rattle.std.specs.Prelude.{ℕ, List};
ghost use Rattle.x509_der.specs.Oid.{oid_bytes};
ghost use Rattle.x509_report_lines.specs.Says.{SaysMembers};
ghost use Rattle.x509_report_objects.specs.Identifiers.{oid_members, oid_report};

use crate::values::said::Said;
use crate::values::under::{optional_text_under, shown_under};
use x509_der::Oid;
use x509_names::registered_name;
use x509_report_lines::Line;

/// An identifier and what it is called, as two members.
pub fn oid_members(out: &mut Line, oid: &Oid<'_>)
    ensures { SaysMembers out.old out.new (oid_members (oid_bytes oid.now)) }
{
    shown_under(out, "oid", oid);
    optional_text_under(out, "name", registered_name(oid.as_bytes()));
}

impl Said for Oid<'_> {
    ghost Value = { List ℕ };

    ghost view = { oid_bytes };

    ghost report = { oid_report };

    #[tactic(auto, unfolding(crate::specs::Identifiers::oid_report))]
    fn say(&self, out: &mut Line) {
        out.begin_object();
        oid_members(out, self);
        out.end_object();
    }
}
