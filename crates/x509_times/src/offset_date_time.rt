//! Civil date-times with an offset from UTC.

ghost use Rattle.std.specs.Prelude.{◌≡◌, ◌↔◌, pos, neg_ℤ, ◌+ℤ◌, ◌-ℤ◌, IsSome, IfSome};
ghost use Rattle.jiff_core.specs.Calendar.{IsBetween};
ghost use Rattle.jiff_core.specs.DateTime.{civil_nanos};
ghost use Rattle.jiff_duration.specs.SignedDuration.{signed_nanos};
ghost use Rattle.x509_times.specs.Moments.{IsOffset, IsCivil, instant, floor_seconds, unix_seconds};

use jiff_core::civil::DateTime;
use jiff_duration::SignedDuration;

const NANOS_PER_MINUTE: i128 = 60_000_000_000;

/// A date and time of day, and by how many minutes its clock is ahead of UTC.
#[derive(Clone, Copy, Debug, PartialEq, Eq)]
pub struct OffsetDateTime {
    civil: DateTime,
    offset_minutes: i16,
    ghost in_day: { IsOffset offset_minutes },
}

impl OffsetDateTime {
    ghost use Rattle.x509_times.specs.OffsetDateTimes.{civil_of, offset_of, moment_of};

    /// The date-time of a clock that is that many minutes ahead of UTC; None where that is a day or more, either way. `to_plain` of jiff's own
    /// date-time gives the civil one.
    pub fn new(civil: DateTime, offset_minutes: i16) -> Option<OffsetDateTime>
        ensures some { IsSome result ↔ IsOffset offset_minutes }
        ensures value { IfSome result (λ t. (civil_of t ≡ civil) × (offset_of t ≡ offset_minutes)) }
    {
        if offset_minutes < -1439 || offset_minutes > 1439 {
            return None;
        }
        Some(OffsetDateTime::at(civil, offset_minutes))
    }

    /// The same, for an offset that is known to be less than a day.
    pub fn at(civil: DateTime, offset_minutes: i16) -> OffsetDateTime
        requires { IsOffset offset_minutes }
        ensures civil { civil_of result ≡ civil }
        ensures offset { offset_of result ≡ offset_minutes }
    {
        OffsetDateTime {
            civil,
            offset_minutes,
        }
    }

    /// The date and time of day that the clock shows, of which `jiff::civil::DateTime::from_plain` makes jiff's own.
    pub fn civil(&self) -> DateTime
        ensures { result ≡ civil_of self.now }
    {
        self.civil
    }

    /// By how many minutes the clock is ahead of UTC.
    pub fn offset_minutes(&self) -> i16
        ensures value { result ≡ offset_of self.now }
        ensures in_day { IsOffset result }
    {
        self.offset_minutes
    }

    /// The year that the clock shows; the one before 1 is 0, and the one before that -1.
    pub fn year(&self) -> i16
        ensures { result ≡ (moment_of self.now).year }
    {
        self.civil.date.year
    }

    /// The nanoseconds since 1970-01-01T00:00:00Z.
    pub fn instant_nanos(&self) -> i128
        ensures { result ≡ instant (civil_of self.now) (offset_of self.now) }
    {
        self.civil.to_nanosecond() - i128::from(self.offset_minutes) * NANOS_PER_MINUTE
    }

    /// The whole seconds since 1970-01-01T00:00:00Z, rounded down: at least those of -9999-01-01T00:00:00+23:59, and at most those of
    /// 9999-12-31T23:59:59-23:59.
    pub fn timestamp(&self) -> i64
        ensures value { result ≡ floor_seconds (instant (civil_of self.now) (offset_of self.now)) }
        ensures unix { result ≡ unix_seconds (moment_of self.now) }
        ensures range { IsBetween (neg_ℤ (pos 377_705_203_140)) (pos 253_402_387_139) result }
    {
        self.civil.to_second() - i64::from(self.offset_minutes) * 60
    }

    /// The date-time of the same offset that is so much later, or earlier for a duration below zero; None where its civil
    /// year would leave -9999 to 9999.
    pub fn checked_add(&self, duration: SignedDuration) -> Option<OffsetDateTime>
        ensures some { IsSome result ↔ IsCivil (civil_nanos (civil_of self.now) +ℤ signed_nanos duration) }
        ensures instant { IfSome result (λ t. instant (civil_of t) (offset_of t)
            ≡ instant (civil_of self.now) (offset_of self.now) +ℤ signed_nanos duration) }
        ensures offset { IfSome result (λ t. offset_of t ≡ offset_of self.now) }
    {
        match self.civil.checked_add_nanos(duration.as_nanos()) {
            Ok(sum) => Some(OffsetDateTime::at(sum, self.offset_minutes)),
            Err(_) => None,
        }
    }

    /// By how much its instant is later than the other's; below zero where it is earlier.
    pub fn duration_since(&self, other: &OffsetDateTime) -> SignedDuration
        ensures { signed_nanos result ≡ instant (civil_of self.now) (offset_of self.now) -ℤ instant (civil_of other.now) (offset_of other.now) }
    {
        SignedDuration::from_nanos_i128(self.instant_nanos() - other.instant_nanos())
    }
}
