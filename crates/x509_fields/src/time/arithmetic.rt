//! Sums and differences of times.

ghost use Rattle.std.specs.Prelude.{◌≡◌, option_map};
ghost use Rattle.jiff_duration.specs.SignedDuration.{signed_nanos};
ghost use Rattle.x509_fields.specs.TimeArithmetic.{IsLater, since};

use super::asn1_time::ASN1Time;
use jiff_duration::SignedDuration;
use std::ops::{Add, Sub};

/// The time that is so much later, or earlier for a duration below zero: with the same offset, and in the form of its year. None
/// where the civil year would leave -9999 to 9999.
impl Add<SignedDuration> for ASN1Time {
    type Output = Option<ASN1Time>;

    ghost add_gives = { λ t duration later. IsLater t (signed_nanos duration) later };

    fn add(self, duration: SignedDuration) -> Option<ASN1Time> {
        let sum = self.to_datetime().checked_add(duration)?;
        Some(ASN1Time::new(sum))
    }
}

/// By how much the left time is later, by instants, whatever the offsets and forms. None unless it is later.
impl Sub for ASN1Time {
    type Output = Option<SignedDuration>;

    ghost sub_gives = { λ later earlier duration. option_map signed_nanos duration ≡ since later earlier };

    fn sub(self, earlier: ASN1Time) -> Option<SignedDuration> {
        if self.instant_nanos() > earlier.instant_nanos() {
            Some(self.to_datetime().duration_since(&earlier.to_datetime()))
        } else {
            None
        }
    }
}
