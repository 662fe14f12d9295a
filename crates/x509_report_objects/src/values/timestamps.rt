//! What reports say of a log's promise to publish a certificate.

ghost use Rattle.x509_values.specs.Timestamp.{TimestampValue, signed_of, timestamp_of};
ghost use Rattle.x509_report_lines.specs.Says.{SaysMembers};
ghost use Rattle.x509_report_objects.specs.Timestamps.{promise_members, signed_members, timestamp_report};

use crate::values::said::Said;
use crate::values::under::{count_under, hex_under};
use x509_report_lines::Line;
use x509_values::{DigitallySigned, SignedCertificateTimestamp};

/// What is promised, and by whom.
fn say_promise(out: &mut Line, timestamp: &SignedCertificateTimestamp<'_>)
    ensures { SaysMembers out.old out.new (promise_members (timestamp_of timestamp.now)) }
{
    count_under(out, "version", u64::from(timestamp.version.0));
    let log = timestamp.id.key_id;
    hex_under(out, "log_id", log);
    count_under(out, "timestamp_ms", timestamp.timestamp);
    hex_under(out, "extensions", timestamp.extensions.0);
}

/// How it is signed.
fn say_signed(out: &mut Line, signed: &DigitallySigned<'_>)
    ensures { SaysMembers out.old out.new (signed_members (signed_of signed.now)) }
{
    count_under(out, "hash", u64::from(signed.hash_alg_id));
    count_under(out, "sign", u64::from(signed.sign_alg_id));
    hex_under(out, "signature", signed.bytes);
}

impl Said for SignedCertificateTimestamp<'_> {
    ghost Value = { TimestampValue };

    ghost view = { timestamp_of };

    ghost report = { timestamp_report };

    #[tactic(auto, unfolding(crate::specs::Timestamps::timestamp_report))]
    fn say(&self, out: &mut Line) {
        out.begin_object();
        say_promise(out, self);
        say_signed(out, &self.signature);
        out.end_object();
    }
}
