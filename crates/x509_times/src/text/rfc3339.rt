//! A time as internet protocols write it (RFC 3339, section 5.6).

ghost use Rattle.std.specs.Prelude.{◌≡◌, ◌<◌, ◌≤ℤ◌, Some, pos, option_map};
ghost use Rattle.x509_times.specs.Moments.{IsOffset};
ghost use Rattle.x509_times.specs.OffsetDateTimes.{moment_of};
ghost use Rattle.x509_times.specs.TimeText.{three_digits, fraction_text, utc_offset_text};

use super::{Offset, TimeOfDay, TwoDigits, Year};
use crate::offset_date_time::OffsetDateTime;
use std::fmt;

// A number below 1000 in three digits.
#[derive(Clone, Copy)]
struct ThreeDigits {
    number: u16,
    ghost small: { number < 1000 },
}

impl fmt::Display for ThreeDigits {
    ghost output = { λ n. Some (three_digits n.number) };

    fn fmt<W: fmt::Write>(&self, f: &mut fmt::Formatter<W>) -> fmt::Result {
        let high = (self.number / 100) as u8;
        let low = TwoDigits {
            number: (self.number % 100) as u8,
        };
        f.write_char(char::from(b'0' + high))?;
        write!(f, "{low}")
    }
}

// `.` and nine digits, or nothing where the fraction is zero.
#[derive(Clone, Copy)]
struct Fraction {
    nanosecond: u32,
    ghost small: { nanosecond < 1_000_000_000 },
}

impl fmt::Display for Fraction {
    ghost output = { λ x. Some (fraction_text x.nanosecond) };

    #[tactic(auto, unfolding(crate::specs::TimeText::fraction_text))]
    fn fmt<W: fmt::Write>(&self, f: &mut fmt::Formatter<W>) -> fmt::Result {
        if self.nanosecond == 0 {
            Ok(())
        } else {
            let milli = ThreeDigits {
                number: (self.nanosecond / 1_000_000) as u16,
            };
            let micro = ThreeDigits {
                number: (self.nanosecond / 1000 % 1000) as u16,
            };
            let nano = ThreeDigits {
                number: (self.nanosecond % 1000) as u16,
            };
            write!(f, ".{milli}{micro}{nano}")
        }
    }
}

// `Z`, or a sign and `hh:mm` where the clock is not that of UTC.
#[derive(Clone, Copy)]
struct UtcOffset {
    minutes: i16,
    ghost in_day: { IsOffset minutes },
}

impl fmt::Display for UtcOffset {
    ghost output = { λ t. Some (utc_offset_text t.minutes) };

    #[tactic(auto, unfolding(crate::specs::TimeText::utc_offset_text))]
    fn fmt<W: fmt::Write>(&self, f: &mut fmt::Formatter<W>) -> fmt::Result {
        if self.minutes == 0 {
            f.write_str("Z")
        } else {
            let offset = Offset {
                minutes: self.minutes,
            };
            write!(f, "{offset}")
        }
    }
}

/// A date-time that is shown as internet protocols write it (RFC 3339, section 5.6): the civil time and its offset, as
/// `2026-11-22T14:31:06Z` where the offset is zero, and else as `2026-11-22T14:31:06+01:30`. A fraction of a second is shown where it
/// is not zero, as `.` and nine digits, trailing zeros included.
#[derive(Clone, Copy, Debug)]
pub struct Rfc3339 {
    time: OffsetDateTime,
    ghost from_0: { pos 0 ≤ℤ (moment_of time).year },
}

impl Rfc3339 {
    ghost use Rattle.x509_times.specs.Rfc3339.{rfc3339_text, shown_text};

    /// That date-time as internet protocols write it; None where its civil year is outside 0 to 9999, since a year has four digits
    /// there (RFC 3339, section 5.6).
    pub fn new(time: OffsetDateTime) -> Option<Rfc3339>
        ensures { option_map shown_text result ≡ rfc3339_text (moment_of time) }
    {
        let year = time.year();
        if year < 0 || year > 9999 {
            return None;
        }
        Some(Rfc3339 { time })
    }
}

impl fmt::Display for Rfc3339 {
    ghost use Rattle.x509_times.specs.Rfc3339.{shown_text};

    ghost output = { λ t. Some (shown_text t) };

    fn fmt<W: fmt::Write>(&self, f: &mut fmt::Formatter<W>) -> fmt::Result {
        let minutes = self.time.offset_minutes();
        let civil = self.time.civil();
        let year = Year {
            number: civil.date.year.unsigned_abs(),
        };
        let month = TwoDigits {
            number: civil.date.month,
        };
        let day = TwoDigits {
            number: civil.date.day,
        };
        let clock = TimeOfDay {
            hour: civil.time.hour,
            minute: civil.time.minute,
            second: civil.time.second,
        };
        let fraction = Fraction {
            nanosecond: civil.time.subsec_nanosecond,
        };
        let offset = UtcOffset { minutes };
        write!(f, "{year}-{month}-{day}T{clock}{fraction}{offset}")
    }
}
