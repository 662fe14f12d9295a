//! Times as numbers.

ghost use Rattle.std.specs.Prelude.{◌≡◌};
ghost use Rattle.x509_times.specs.Moments.{floor_seconds};
ghost use Rattle.x509_fields.specs.Times.{instant_of};

use x509_fields::ASN1Time;

/// The seconds of a time since 1970, rounded down.
pub(crate) fn seconds(time: &ASN1Time) -> i64
    ensures { result ≡ floor_seconds (instant_of time.now) }
{
    time.timestamp()
}
