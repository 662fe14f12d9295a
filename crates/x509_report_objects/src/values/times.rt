//! What reports say of times.

ghost use Rattle.std.specs.Prelude.{◌≡◌};
ghost use Rattle.x509_fields.specs.Times.{Time, time_of};
ghost use Rattle.x509_report_lines.specs.Says.{SaysMembers, SaysUnder};
ghost use Rattle.x509_report_objects.specs.Times.{form_word, text_members, time_report, whole_seconds};

use crate::values::said::Said;
use crate::values::under::{null_under, text_under};
use x509_fields::{ASN1Time, X509Error};
use x509_report_lines::Line;

/// Its text, where its year has four digits.
fn say_text(out: &mut Line, time: &ASN1Time)
    ensures { SaysMembers out.old out.new (text_members (time_of time.now)) }
{
    match time.to_rfc3339(out.alloc()) {
        Ok(text) => text_under(out, "time", &text),
        Err(X509Error::OutOfMemory) => out.stop(),
        Err(_) => null_under(out, "time"),
    }
}

/// Seconds under a key.
fn seconds_under(out: &mut Line, key: &str, seconds: i64)
    ensures { SaysUnder out.old out.new key.now (whole_seconds seconds) }
{
    out.key(key);
    out.i64(seconds);
}

/// A word for the form.
fn form_word(time: &ASN1Time) -> &'static str
    ensures { result.now ≡ form_word (time_of time.now).generalized }
{
    if time.is_generalizedtime() {
        "generalized_time"
    } else {
        "utc_time"
    }
}

impl Said for ASN1Time {
    ghost Value = { Time };

    ghost view = { time_of };

    ghost report = { time_report };

    #[tactic(auto, unfolding(crate::specs::Times::time_report))]
    fn say(&self, out: &mut Line) {
        out.begin_object();
        say_text(out, self);
        seconds_under(out, "unix", self.timestamp());
        text_under(out, "form", form_word(self));
        out.end_object();
    }
}
