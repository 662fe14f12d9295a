//! A time as internet messages write it (RFC 2822, section 3.3).

ghost use Rattle.std.specs.Prelude.{◌≡◌, ◌<◌, ◌≤ℤ◌, Some, pos, option_map};
ghost use Rattle.jiff_core.specs.Weekday.{monday_zero};
ghost use Rattle.x509_times.specs.Moments.{IsOffset};
ghost use Rattle.x509_times.specs.OffsetDateTimes.{moment_of};
ghost use Rattle.x509_times.specs.TimeText.{day_name, zone_text};

use super::{TimeOfDay, TwoDigits, Year, name_of_month};
use crate::offset_date_time::OffsetDateTime;
use jiff_core::civil::Weekday;
use std::fmt;

#[tactic(auto, unfolding(crate::specs::TimeText::day_name))]
fn name_of_day(day: Weekday) -> &'static str
    ensures { result.now ≡ day_name (monday_zero day) }
{
    match day {
        Weekday::Monday => "Mon",
        Weekday::Tuesday => "Tue",
        Weekday::Wednesday => "Wed",
        Weekday::Thursday => "Thu",
        Weekday::Friday => "Fri",
        Weekday::Saturday => "Sat",
        Weekday::Sunday => "Sun",
    }
}

// A sign and `hhmm`.
#[derive(Clone, Copy)]
struct Zone {
    minutes: i16,
    ghost in_day: { IsOffset minutes },
}

impl fmt::Display for Zone {
    ghost output = { λ z. Some (zone_text z.minutes) };

    #[tactic(auto, unfolding(crate::specs::TimeText::zone_text))]
    fn fmt<W: fmt::Write>(&self, f: &mut fmt::Formatter<W>) -> fmt::Result {
        let total = self.minutes.unsigned_abs();
        let hours = TwoDigits {
            number: (total / 60) as u8,
        };
        let minutes = TwoDigits {
            number: (total % 60) as u8,
        };
        f.write_str(if self.minutes < 0 { "-" } else { "+" })?;
        write!(f, "{hours}{minutes}")
    }
}

/// A date-time that is shown as internet messages write it (RFC 2822, section 3.3): as `Thu, 1 Jan 1970 00:00:00 +0000`, the
/// day of the month without padding, the civil time and its offset.
#[derive(Clone, Copy, Debug)]
pub struct Rfc2822 {
    time: OffsetDateTime,
    ghost from_1900: { pos 1900 ≤ℤ (moment_of time).year },
}

impl Rfc2822 {
    ghost use Rattle.x509_times.specs.Rfc2822.{rfc2822_text, shown_text};

    /// That date-time as internet messages write it; None where its year is below 1900, which they do not have. A fraction
    /// of a second is left out.
    pub fn new(time: OffsetDateTime) -> Option<Rfc2822>
        ensures { option_map shown_text result ≡ rfc2822_text time }
    {
        if time.year() < 1900 {
            return None;
        }
        Some(Rfc2822 { time })
    }
}

impl fmt::Display for Rfc2822 {
    ghost use Rattle.x509_times.specs.Rfc2822.{shown_text};

    ghost output = { λ t. Some (shown_text t) };

    fn fmt<W: fmt::Write>(&self, f: &mut fmt::Formatter<W>) -> fmt::Result {
        let minutes = self.time.offset_minutes();
        let civil = self.time.civil();
        let weekday = name_of_day(civil.date.weekday());
        let day = civil.date.day;
        let month = name_of_month(civil.date.month);
        let year = Year {
            number: civil.date.year.unsigned_abs(),
        };
        let clock = TimeOfDay {
            hour: civil.time.hour,
            minute: civil.time.minute,
            second: civil.time.second,
        };
        let zone = Zone { minutes };
        write!(f, "{weekday}, {day} {month} {year} {clock} {zone}")
    }
}
